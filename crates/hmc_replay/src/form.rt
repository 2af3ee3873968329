//! The words that are a defined form.

ghost use Rattle.std.specs.Prelude.{◌≡◌, map, string_bytes, is_some};
ghost use Rattle.hmc_replay.specs.Words.{make_form, word_form, pair_form, form_of};

use hmc_make::number_of;

/// What the words ask for.
#[derive(Clone, Copy)]
pub enum Form {
    /// The report of the case that is read.
    Run,
    /// The short report of the case of this number.
    Make(u64),
    /// Whether a report that is read is that of the case before it.
    Check,
    /// What is under way at the end of the case that is read, and its bound.
    Bound,
    /// The script of the trace that is read.
    Trace,
}

// The form `make` with this word.
fn make_form(word: &str) -> Option<Form>
    ensures { result ≡ make_form word.now }
{
    match number_of(word) {
        Some(number) => Some(Form::Make(number)),
        None => None,
    }
}

// The form of a word alone.
fn word_form(word: &str) -> Option<Form>
    ensures { result ≡ word_form word.now }
{
    match word {
        "run" => Some(Form::Run),
        "check" => Some(Form::Check),
        "bound" => Some(Form::Bound),
        "trace" => Some(Form::Trace),
        _ => None,
    }
}

// The form of two words.
fn pair_form(word: &str, other: &str) -> Option<Form>
    ensures { result ≡ pair_form word.now other.now }
{
    if word == "make" {
        make_form(other)
    } else {
        None
    }
}

/// What the words ask for. `None` if they are no defined form. It takes no memory.
pub fn form_of(words: &[String]) -> Option<Form>
    ensures { result ≡ form_of (map string_bytes words.now) }
{
    match words {
        [word] => word_form(word.as_str()),
        [word, other] => pair_form(word.as_str(), other.as_str()),
        _ => None,
    }
}

/// Whether the words are a defined form. It takes no memory.
pub fn is_form(words: &[String]) -> bool
    ensures { result ≡ is_some (form_of (map string_bytes words.now)) }
{
    form_of(words).is_some()
}
