// The cases of each row of the table.
use crate::axis::{Axis, product};
use crate::case::Case;
use crate::failure::Failure;
use crate::state::Trial;
use crate::tally::Tally;
use instruction::{Family, Memory};
use std::alloc::Global;

// Bytes and addresses, where the stacks are deep enough.
const VALUES: [Axis; 7] = [
    Axis::Operand,
    Axis::Top,
    Axis::Next,
    Axis::Carry,
    Axis::Pointers,
    Axis::Address,
    Axis::Cycles,
];

// Depths and limits.
const DEPTHS: [Axis; 8] = [
    Axis::Operand,
    Axis::Depth,
    Axis::StackLimit,
    Axis::Returns,
    Axis::ReturnLimit,
    Axis::Test,
    Axis::Carry,
    Axis::Pointers,
];

// Boards.
const BOARDS: [Axis; 5] = [
    Axis::Layout,
    Axis::Operand,
    Axis::Top,
    Axis::Next,
    Axis::Pointers,
];

// Compares one opcode at every combination of the axes' values.
fn compare_product(
    heap: Global,
    tally: &mut Tally,
    family: &Family,
    opcode: u8,
    axes: &[Axis],
) -> Result<(), Failure> {
    for case in &product(heap, family, Case::of(family, opcode), axes)? {
        tally.compare(heap, case.trial(&case.code()))?;
    }
    Ok(())
}

// Compares the cases of a row.
pub fn compare_row(heap: Global, family: &Family) -> Result<Tally, Failure> {
    let mut tally = Tally::default();
    for opcode in family.first..=family.last {
        compare_product(heap, &mut tally, family, opcode, &VALUES)?;
        compare_product(heap, &mut tally, family, opcode, &DEPTHS)?;
        if !matches!(family.memory, Memory::Nowhere) {
            compare_product(heap, &mut tally, family, opcode, &BOARDS)?;
        }
    }
    Ok(tally)
}
