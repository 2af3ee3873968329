//! Scripts are printed.

ghost use Rattle.std.specs.Prelude.{◌≡◌, ◌++◌, ◌+◌, ◌≤◌, ◌<◌, ℕ, [], length, Ok, IfOk, OnOk, string_bytes};
ghost use Rattle.std.specs.List.{All};
ghost use Rattle.hmc_script.specs.Items.{IsWithin, asked_item};
ghost use Rattle.hmc_script.specs.Script.{script_of};
ghost use Rattle.hmc_script.specs.Text.{fence_text, request_line, item_text, script_text};

use crate::{Item, Script};
use hmc_codes::{LineText, Memory, Request, append_decimal};
use std::alloc::Global;

// The line of a fence, if there is one.
fn append_fence(into: &mut LineText, host: u8, fenced: bool)
    requires room { length into.old.bytes + 27 ≤ 2048 }
    ensures text { into.new.bytes ≡ into.old.bytes ++ fence_text host fenced }
    ensures few { length into.new.bytes ≤ length into.old.bytes + 27 }
{
    if fenced {
        append_decimal(into, u64::from(host));
        into.push_str(" fence\n");
    }
}

// The line of a request.
fn append_request(into: &mut LineText, host: u8, poisoned: bool, request: &Request)
    requires room { length into.old.bytes + 591 ≤ 2048 }
    ensures text { into.new.bytes ≡ into.old.bytes ++ request_line host poisoned request.now }
    ensures some { length into.old.bytes < length into.new.bytes }
{
    append_decimal(into, u64::from(host));
    if poisoned {
        into.push_str(" poison");
    }
    into.push_str(" ");
    request.print(into);
    into.push_str("\n");
}

/// Writes the lines of an item into an empty text, as a script is printed: that of its fence, if
/// it has one, and that of its request. It takes no memory.
#[tactic(auto, unfolding(crate::specs::Text::item_text))]
pub fn item_lines(into: &mut LineText, host: u8, fenced: bool, poisoned: bool, request: &Request)
    requires empty { into.old.bytes ≡ [] }
    ensures text { into.new.bytes ≡ item_text (asked_item host fenced poisoned request.now) }
    ensures some { 0 < length into.new.bytes }
{
    append_fence(into, host, fenced);
    append_request(into, host, poisoned, request);
}

fn print_item(into: &mut String, item: &Item) -> Result<(), Memory>
    ensures { OnOk result (string_bytes into.new ≡ string_bytes into.old ++ item_text item.now) }
{
    let mut lines = LineText::new();
    item_lines(
        &mut lines,
        item.host,
        item.fenced,
        item.poisoned,
        &item.request,
    );
    into.push_str(lines.as_str())?;
    Ok(())
}

fn print_items(alloc: Global, script: &Script) -> Result<String, Memory>
    ensures { IfOk result (λ text. string_bytes text ≡ script_text script.now) }
{
    let mut text = String::new(alloc);
    'items: for at in 0..script.len() {
        if let Err(memory) = print_item(&mut text, &script.item(at)) {
            return Err(memory);
        }
    }
    Ok(text)
}

impl Script {
    /// The script as a text: one line for each fence and each request, ended by a line feed, its
    /// words separated by one space. A fence is on the line before its request. `Memory` comes only
    /// where memory is exhausted.
    pub fn print(&self, alloc: Global) -> Result<String, Memory>
        ensures text { IfOk result (λ text. string_bytes text ≡ script_text self.now) }

        // It is read again as the same script, for a case with the hosts and cubes that it names.
        ensures again { (hosts cubes : ℕ) → All (IsWithin hosts cubes) self.now
            → IfOk result (λ text. script_of hosts cubes (string_bytes text) ≡ Ok self.now) }
    {
        self.invariant();
        print_items(alloc, self)
    }
}
