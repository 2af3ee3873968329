//! Text that there is room for.

ghost use Rattle.std.specs.Prelude.{◌≡◌, ◌≤◌, ◌+◌, ◌++◌, length, string_bytes, string_len, string_capacity};

/// Appends a text where there is room for it.
pub fn append(into: &mut String, text: &str)
    requires { string_len into.old + length text.now ≤ string_capacity into.old }
    ensures { string_bytes into.new ≡ string_bytes into.old ++ text.now }
{
    match into.push_str(text) {
        Ok(()) => {}
        Err(_) => {}
    }
}
