//! A report is compared with a text, line by line.

ghost use Rattle.std.specs.Prelude.{◌≡◌, ◌≤◌, ◌++◌, [], List, ℕ, length, IfOk};
ghost use Rattle.hmc_check.specs.Fronts.{feeds_in};
ghost use Rattle.hmc_check.specs.Differs.{ends_open, differs_line, HaveInCommon, HasCome, FollowsLine, Compares};
ghost use Rattle.hmc_check.specs.Verdict.{capped};

// How many bytes two texts have in common from their fronts on. Mostly they are all of the second
// one: that is asked first, since then many are compared at once.
fn common_len(a: &[u8], b: &[u8]) -> usize
    ensures value { HaveInCommon a.now b.now result }
    ensures few { result ≤ length a.now }
    ensures few_b { result ≤ length b.now }
{
    if a.starts_with(b) {
        return b.len();
    }
    let most = a.len().min(b.len());
    for i in 0..most {
        if a[i] != b[i] {
            return i;
        }
    }
    most
}

// The number of line feeds.
fn feeds_in(bytes: &[u8]) -> usize
    ensures value { result ≡ feeds_in bytes.now }
    ensures few { result ≤ length bytes.now }
{
    let mut n: usize = 0;
    for byte in bytes {
        if *byte == b'\n' {
            n += 1;
        }
    }
    n
}

// Whether a piece is after the last line feed.
fn ends_open(bytes: &[u8]) -> bool
    ensures { result ≡ ends_open bytes.now }
{
    match bytes.last() {
        None => false,
        Some(byte) => *byte != b'\n',
    }
}

// A number of 32 bits: the greatest where it would be more.
fn capped(n: usize) -> u32
    ensures { result ≡ capped n }
{
    match u32::try_from(n) {
        Ok(line) => line,
        Err(_) => u32::MAX,
    }
}

// The line of a report, of which so many bytes are those of a text and no further one is.
fn differs_line(report: &[u8], place: usize) -> u32
    requires { place ≤ length report.now }
    ensures { result ≡ capped (differs_line place report.now) }
{
    let feeds = feeds_in(&report[..place]);
    if place < report.len() {
        return capped(feeds.saturating_add(1));
    }
    if ends_open(report) {
        return capped(feeds.saturating_add(2));
    }
    capped(feeds.saturating_add(1))
}

/// These bytes of a text are due next: what is left of the report after them, or the line of the
/// report in which they differ.
pub fn after_line<'a>(report: &[u8], rest: &'a [u8], due: &[u8]) -> Result<&'a [u8], u32>
    requires { length rest.now ≤ length report.now }
    ensures follows { (text later : List ℕ) →
        HasCome text report.now rest.now (due.now ++ later) →
        FollowsLine text report.now later result }
    ensures fewer { IfOk result (λ more. length more.now ≤ length rest.now) }
{
    let common = common_len(rest, due);
    if common < due.len() {
        return Err(differs_line(report, report.len() - rest.len() + common));
    }
    let (_, more) = rest.split_at(common);
    Ok(more)
}

/// The text has ended: `None` exactly where the report has, too.
pub fn at_end(report: &[u8], rest: &[u8]) -> Option<u32>
    requires { length rest.now ≤ length report.now }
    ensures { (text : List ℕ) → HasCome text report.now rest.now [] →
        Compares text report.now result }
{
    if rest.is_empty() {
        return None;
    }
    Some(differs_line(report, report.len() - rest.len()))
}
