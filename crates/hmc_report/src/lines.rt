//! The final lines, one after another.

ghost use Rattle.std.specs.Prelude.{◌≡◌, ◌<◌, ◌≤◌, ◌+◌, ◌*◌, ◌-◌, ◌^◌, List, [], ◌∷◌, length, slice_index, false, IfSome, IfNone};
ghost use Rattle.hmc_report.specs.Lines.{is_zero, memory_line, register_line};
ghost use Rattle.hmc_report.specs.Final.{lines_from};
ghost use Rattle.hmc_report.specs.Left.{blocks_left, values_left, block_bytes, memories_left, registers_left, lines_left, IsCursor, rank, GivesLine, Gives};

use crate::finished::Finished;
use crate::part::Part;
use crate::{
    FIRST_SCRATCH, LINE_BYTES, SCRATCH_REGISTERS, counter_line, cube_line, host_line, is_zero,
    memory_line, register_line, state_line, token_line,
};
use hmc_codes::LineText;
use std::marker::Model;

/// The registers of a cube.
const REGISTERS: u64 = FIRST_SCRATCH + SCRATCH_REGISTERS;

// How far the lines have been made: all lines before those of this are made.
#[derive(Clone, Copy)]
enum Cursor {
    // A block, by its number in its cube.
    Block { cube: u8, block: u64 },
    Register { cube: u8, register: u64 },
    Tokens { direction: u8 },
    Counters { direction: u8 },
    Host { host: u8 },
    // A cube's counts. After the last one comes the state.
    Cube { cube: u8 },
    End,
}

// What going on from a cursor gives, and where it leads.
#[derive(Clone, Copy)]
enum Step {
    Line(Cursor),
    Nothing(Cursor),
    End,
}

// In these functions `into` is where a line is made.

// The first block of a cube, from this one on, that isn't all zero.
fn next_block<N: Finished>(net: &N, cube: u8, from: u64) -> Option<u64>
    requires { cube < (N.final_values net.now).cubes }
    ensures left { IfSome result (λ block.
        blocks_left cube ((N.final_values net.now).memory cube) from ≡
        memory_line cube block (block_bytes ((N.final_values net.now).memory cube) block) ∷
        blocks_left cube ((N.final_values net.now).memory cube) (block + 1)) }
    ensures inside { IfSome result (λ block.
        16 * block < length ((N.final_values net.now).memory cube)) }
    ensures few { IfSome result (λ block. block < 2 ^ 60) }
    ensures none { IfNone result
        (blocks_left cube ((N.final_values net.now).memory cube) from ≡ []) }
{
    let blocks = net.capacity(cube) / LINE_BYTES;
    'scan: for block in from..blocks {
        let bytes = net.get16(cube, LINE_BYTES * block);
        if !is_zero(&bytes) {
            return Some(block);
        }
    }
    None
}

// The value of a register that is there.
fn value_at<N: Finished>(net: &N, cube: u8, register: u64) -> u32
    requires cube { cube < (N.final_values net.now).cubes }
    requires register { register < 16 }
    ensures { result ≡ slice_index ((N.final_values net.now).registers cube) register }
{
    net.register(cube, register).unwrap()
}

// The first register of a cube, from this one on, that isn't zero.
fn next_register<N: Finished>(net: &N, cube: u8, from: u64) -> Option<u64>
    requires { cube < (N.final_values net.now).cubes }
    ensures left { IfSome result (λ register.
        values_left cube ((N.final_values net.now).registers cube) from ≡
        register_line cube register
        (slice_index ((N.final_values net.now).registers cube) register) ∷
        values_left cube ((N.final_values net.now).registers cube) (register + 1)) }
    ensures inside { IfSome result (λ register. register < 16) }
    ensures none { IfNone result
        (values_left cube ((N.final_values net.now).registers cube) from ≡ []) }
{
    'scan: for register in from..REGISTERS {
        let value = value_at(net, cube, register);
        if value != 0 {
            return Some(register);
        }
    }
    None
}

// Where the registers of the cubes from this one on begin.
fn registers_from<N: Finished>(net: &N, cube: u8) -> Cursor
    ensures left { lines_left (N.final_values net.now) result ≡
        registers_left (N.final_values net.now) cube }
    ensures cursor { IsCursor (N.final_values net.now) result }
    ensures rank { rank (N.final_values net.now) result ≤
        (N.final_values net.now).cubes - cube + 4 }
{
    if cube >= net.cubes() {
        return Cursor::Tokens { direction: 0 };
    }
    Cursor::Register {
        cube,
        register: FIRST_SCRATCH,
    }
}

// Where the memories of the cubes from this one on begin.
fn memories_from<N: Finished>(net: &N, cube: u8) -> Cursor
    ensures left { lines_left (N.final_values net.now) result ≡
        memories_left (N.final_values net.now) cube }
    ensures cursor { IsCursor (N.final_values net.now) result }
    ensures rank { rank (N.final_values net.now) result ≤
        (N.final_values net.now).cubes - cube + (N.final_values net.now).cubes + 5 }
{
    if cube >= net.cubes() {
        return registers_from(net, 0);
    }
    Cursor::Block { cube, block: 0 }
}

// Where the lines from this part on begin.
fn first_cursor<N: Finished>(net: &N, from: Part) -> Cursor
    ensures left { lines_left (N.final_values net.now) result ≡
        lines_from from (N.final_values net.now) }
    ensures cursor { IsCursor (N.final_values net.now) result }
{
    match from {
        Part::Memory => memories_from(net, 0),
        Part::Tokens => Cursor::Tokens { direction: 0 },
    }
}

fn block_step<N: Finished>(net: &N, cube: u8, from: u64, into: &mut LineText) -> Step
    requires cube { cube < (N.final_values net.now).cubes }
    requires empty { into.old.bytes ≡ [] }
    ensures { Gives (N.final_values net.now) (Cursor.Block cube from) result into.new.bytes }
{
    let _cubes = net.cubes();
    match next_block(net, cube, from) {
        Some(found) => {
            let bytes = net.get16(cube, LINE_BYTES * found);
            memory_line(into, cube, found, &bytes);
            let block = found + 1;
            Step::Line(Cursor::Block { cube, block })
        }
        None => Step::Nothing(memories_from(net, cube + 1)),
    }
}

fn register_step<N: Finished>(net: &N, cube: u8, from: u64, into: &mut LineText) -> Step
    requires cube { cube < (N.final_values net.now).cubes }
    requires empty { into.old.bytes ≡ [] }
    ensures { Gives (N.final_values net.now) (Cursor.Register cube from) result into.new.bytes }
{
    let _cubes = net.cubes();
    match next_register(net, cube, from) {
        Some(found) => {
            let value = value_at(net, cube, found);
            register_line(into, cube, found, value);
            let register = found + 1;
            Step::Line(Cursor::Register { cube, register })
        }
        None => Step::Nothing(registers_from(net, cube + 1)),
    }
}

fn token_step<N: Finished>(net: &N, direction: u8, into: &mut LineText) -> Step
    requires { into.old.bytes ≡ [] }
    ensures { Gives (N.final_values net.now) (Cursor.Tokens direction) result into.new.bytes }
{
    if direction >= net.directions() {
        return Step::Nothing(Cursor::Counters { direction: 0 });
    }
    token_line(into, direction, &net.tokens(direction));
    Step::Line(Cursor::Tokens {
        direction: direction + 1,
    })
}

fn counter_step<N: Finished>(net: &N, direction: u8, into: &mut LineText) -> Step
    requires { into.old.bytes ≡ [] }
    ensures { Gives (N.final_values net.now) (Cursor.Counters direction) result into.new.bytes }
{
    if direction >= net.directions() {
        return Step::Nothing(Cursor::Host { host: 0 });
    }
    counter_line(into, direction, &net.counters(direction));
    Step::Line(Cursor::Counters {
        direction: direction + 1,
    })
}

fn host_step<N: Finished>(net: &N, host: u8, into: &mut LineText) -> Step
    requires { into.old.bytes ≡ [] }
    ensures { Gives (N.final_values net.now) (Cursor.Host host) result into.new.bytes }
{
    if host >= net.hosts() {
        return Step::Nothing(Cursor::Cube { cube: 0 });
    }
    host_line(into, host, &net.host_counts(host));
    Step::Line(Cursor::Host { host: host + 1 })
}

fn cube_step<N: Finished>(net: &N, cube: u8, into: &mut LineText) -> Step
    requires { into.old.bytes ≡ [] }
    ensures { Gives (N.final_values net.now) (Cursor.Cube cube) result into.new.bytes }
{
    if cube >= net.cubes() {
        state_line(into, net.drained());
        return Step::Line(Cursor::End);
    }
    cube_line(into, cube, &net.cube_counts(cube));
    Step::Line(Cursor::Cube { cube: cube + 1 })
}

// Goes on from a cursor.
fn step_from<N: Finished>(net: &N, cursor: Cursor, into: &mut LineText) -> Step
    requires cursor { IsCursor (N.final_values net.now) cursor }
    requires empty { into.old.bytes ≡ [] }
    ensures { Gives (N.final_values net.now) cursor result into.new.bytes }
{
    match cursor {
        Cursor::Block { cube, block } => block_step(net, cube, block, into),
        Cursor::Register { cube, register } => register_step(net, cube, register, into),
        Cursor::Tokens { direction } => token_step(net, direction, into),
        Cursor::Counters { direction } => counter_step(net, direction, into),
        Cursor::Host { host } => host_step(net, host, into),
        Cursor::Cube { cube } => cube_step(net, cube, into),
        Cursor::End => Step::End,
    }
}

// Makes the next line from a cursor on. `None` where no line is left.
fn next_line<N: Finished>(net: &N, from: Cursor, into: &mut LineText) -> Option<Cursor>
    requires cursor { IsCursor (N.final_values net.now) from }
    requires empty { into.old.bytes ≡ [] }
    ensures line { IfSome result (λ next.
        GivesLine (N.final_values net.now) from next into.new.bytes) }
    ensures none { IfNone result (lines_left (N.final_values net.now) from ≡ []) }
{
    let mut cursor = from;
    'steps: loop {
        match step_from(net, cursor, into) {
            Step::Line(next) => return Some(next),
            Step::Nothing(next) => cursor = next,
            Step::End => return None,
        }
    }
}

/// The final lines of a network that are left to be made. Contracts see them as a list.
#[derive(Drop)]
pub struct Lines<'a, N: Finished> {
    net: &'a N,
    cursor: Cursor,
}

impl<'a, N: Finished> Model for Lines<'a, N> {
    ghost use Rattle.std.specs.Prelude.{List, ℕ};
    ghost use Rattle.hmc_report.specs.Left.{lines_left, IsCursor};

    ghost Value = { List (List ℕ) };

    ghost view = { λ l. lines_left (N.final_values l.net.now) l.cursor };

    ghost invariant = { λ l. IsCursor (N.final_values l.net.now) l.cursor };
}

impl<'a, N: Finished> Lines<'a, N> {
    /// The final lines of a network from this part on. It takes no memory.
    pub fn new(net: &'a N, from: Part) -> Lines<'a, N>
        ensures { result ≡ lines_from from (N.final_values net.now) }
    {
        let cursor = first_cursor(net, from);
        Lines { net, cursor }
    }

    /// Makes the next line, with a line feed at its end. It has 1 to 2,047 bytes. `None` exactly
    /// where no line is left.
    ///
    /// Memories are gone through in blocks of 16 bytes, in address order. It takes no memory.
    pub fn next(&mut self) -> Option<LineText>
        ensures line { IfSome result (λ line. self.old ≡ line.bytes ∷ self.new) }
        ensures some { IfSome result (λ line. 0 < length line.bytes) }
        ensures short { IfSome result (λ line. length line.bytes < 2048) }
        ensures none { IfNone result (self.old ≡ []) }
        ensures over { IfNone result (self.new ≡ []) }
    {
        let mut line = LineText::new();
        let next = next_line(self.net, self.cursor, &mut line)?;
        self.cursor = next;
        Some(line)
    }
}
