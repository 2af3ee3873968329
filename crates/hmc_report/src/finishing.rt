//! The final lines, appended to a text.

ghost use Rattle.std.specs.Prelude.{◌≡◌, ◌++◌, OnOk, OnErr, string_bytes};
ghost use Rattle.hmc_report.specs.Final.{lines_from, final_text, AppendsSome};

use crate::finished::Finished;
use crate::lines::Lines;
use crate::part::Part;
use hmc_codes::{LineText, Memory};
use std::alloc::Global;

// Appends a line, or nothing.
fn append(into: &mut String, line: &LineText) -> Result<(), Memory>
    ensures appended { OnOk result
        (string_bytes into.new ≡ string_bytes into.old ++ line.now.bytes) }
    ensures unchanged { OnErr result (string_bytes into.new ≡ string_bytes into.old) }
{
    into.push_str(line.as_str())?;
    Ok(())
}

/// Appends the final lines of a network from this part on. `Memory` if out of memory: then the
/// first of the lines have been appended, each of them whole.
pub fn finish<N: Finished>(
    alloc: Global,
    net: &N,
    from: Part,
    into: &mut String,
) -> Result<(), Memory>
    ensures text { OnOk result (string_bytes into.new ≡
        string_bytes into.old ++ final_text from (N.final_values net.now)) }
    ensures some { OnErr result (AppendsSome (string_bytes into.old) (string_bytes into.new)
        (lines_from from (N.final_values net.now))) }
{
    let _ = alloc;
    let mut lines = Lines::new(net, from);
    'all: while let Some(line) = lines.next() {
        match append(into, &line) {
            Ok(()) => {}
            Err(memory) => return Err(memory),
        }
    }
    Ok(())
}
