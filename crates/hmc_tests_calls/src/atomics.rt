//! Outside values: each operation at its edges.

mod blocks;
mod halves;

use hmc_atomics::{Atomic, act};
use std::process::Abort;

// An operation, whether it acts on the high half, block and operand; then the new block, the answer
// and the flag. Blocks are numbers of 128 bits, lowest byte first. The last three were computed in
// whole numbers of any size, by a script that follows the table of operations.
type Row = (Atomic, bool, u128, u128, u128, u128, bool);

fn is_acted(row: &Row) -> bool {
    let (op, high, block, operand, new, answer, flag) = *row;
    let acted = act(op, high, block.to_le_bytes(), operand.to_le_bytes());
    acted.block == new.to_le_bytes() && acted.answer == answer.to_le_bytes() && acted.flag == flag
}

fn assert_rows(rt: &impl Abort, rows: &[Row]) {
    for (number, row) in rows.iter().enumerate() {
        assert!(rt; is_acted(row), "row {number}");
    }
}

#[test]
fn operations_on_halves_and_blocks(rt: HostRuntime) {
    assert_rows(&rt, &halves::ROWS);
    assert_rows(&rt, &blocks::ROWS);
}
