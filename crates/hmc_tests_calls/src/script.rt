//! Lines of scripts: how good ones are printed again, and how many there may be.

use hmc_codes::{MOST_REQUESTS, Memory};
use hmc_script::Script;
use std::alloc::{AllocError, Global};
use std::process::Abort;
use std::test::Fail;

// Lines, and how they are printed.
const GOOD: [(&str, &str); 14] = [
    ("", ""),
    ("\n \t\n# 0 rd17\n  #\n#", ""),
    (
        "0 wr16 0 0x40 000102030405060708090a0b0c0d0e0f\n0 rd16 0 0x40\n",
        "0 wr16 0 0x40 000102030405060708090a0b0c0d0e0f\n0 rd16 0 0x40\n",
    ),
    ("\t0\trd16 \t1  64 ", "0 rd16 1 0x40\n"),
    ("0 rd16 0 00000000000000000064\r\n", "0 rd16 0 0x40\n"),
    (
        "0 rd256 0 0x000000000003FFfFffFf",
        "0 rd256 0 0x3ffffffff\n",
    ),
    (
        "1 poison pwr16 1 0 FFfEFDFCFBFAf9f8F7F6F5F4F3F2F1F0",
        "1 poison pwr16 1 0x0 fffefdfcfbfaf9f8f7f6f5f4f3f2f1f0\n",
    ),
    (
        "0 mdwr 0 0xF 0xffffffff\n0 mdrd 0 15",
        "0 mdwr 0 0xf 4294967295\n0 mdrd 0 0xf\n",
    ),
    ("0 poison mdwr 0 4 007", "0 poison mdwr 0 0x4 7\n"),
    ("0 pinc8 0 8", "0 pinc8 0 0x8\n"),
    // A fence waits for the next request of its host.
    (
        "0 fence\n0 fence\n0 rd16 0 0\n0 rd16 0 0",
        "0 fence\n0 rd16 0 0x0\n0 rd16 0 0x0\n",
    ),
    (
        "0 fence\n1 rd16 0 0\n0 poison rd16 0 0",
        "1 rd16 0 0x0\n0 fence\n0 poison rd16 0 0x0\n",
    ),
    ("0 rd16 0 0\n0 fence\n", "0 rd16 0 0x0\n"),
    ("0 fence\n1 fence\n1 inc8 0 0\n", "1 fence\n1 inc8 0 0x0\n"),
];

// Whether a text is read as a script that is printed as this.
fn is_printed(alloc: Global, text: &str, printed: &str) -> Result<bool, Memory> {
    match Script::parse(alloc, text, 2, 2) {
        Ok(script) => Ok(script.print(alloc)?.as_str() == printed),
        Err(_) => Ok(false),
    }
}

fn assert_printed(rt: &impl Abort, alloc: Global, rows: &[(&str, &str)]) -> Result<(), Memory> {
    for (number, (text, printed)) in rows.iter().enumerate() {
        assert!(rt; is_printed(alloc, text, printed)?, "row {number}");
    }
    Ok(())
}

#[test]
fn good_lines_are_printed_plainly(rt: HostRuntime) -> Result<(), Fail> {
    assert_printed(&rt, rt.alloc(), &GOOD)?;
    Ok(())
}

// A text with as many requests as there may be.
fn full(alloc: Global) -> Result<String, AllocError> {
    let mut full = String::new(alloc);
    for _ in 0..MOST_REQUESTS {
        full.push_str("0 inc8 0 0\n")?;
    }
    Ok(full)
}

fn is_full_read(alloc: Global) -> Result<bool, AllocError> {
    Ok(Script::parse(alloc, full(alloc)?.as_str(), 1, 1).is_ok())
}

#[test]
fn a_script_has_as_many_requests_as_there_may_be(rt: HostRuntime) -> Result<(), Fail> {
    assert!(rt; is_full_read(rt.alloc())?, "a full script");
    Ok(())
}
