// Where no instruction stands, and where the code is longer than a code area.
use crate::axis::{ADDRESSES, Axis, product};
use crate::case::Case;
use crate::failure::Failure;
use crate::state::Trial;
use crate::tally::Tally;
use instruction::FAMILIES;
use machine::Code;
use std::alloc::Global;

const DEPTHS: [u8; 4] = [0, 1, 12, 255];

// Whether a row has the opcode.
fn is_listed(opcode: u8) -> bool {
    FAMILIES
        .iter()
        .any(|family| (family.first..=family.last).contains(&opcode))
}

// An opcode that no row has.
fn compare_unlisted(heap: Global, tally: &mut Tally, opcode: u8) -> Result<(), Failure> {
    for ip in ADDRESSES {
        for depth in DEPTHS {
            let case = Case {
                ip,
                depth,
                returns: depth,
                ..Case::new(opcode)
            };
            tally.compare_refused(heap, case.trial(&case.code()))?;
        }
    }
    Ok(())
}

// Every opcode that no row has.
pub(crate) fn no_instruction(heap: Global) -> Result<Tally, Failure> {
    let mut tally = Tally::default();
    for opcode in (0x00..=0xFF).filter(|opcode| !is_listed(*opcode)) {
        compare_unlisted(heap, &mut tally, opcode)?;
    }
    Ok(tally)
}

// A code of no byte.
pub(crate) fn empty_code(heap: Global) -> Result<Tally, Failure> {
    let mut tally = Tally::default();
    for ip in ADDRESSES {
        for first in ADDRESSES {
            for depth in DEPTHS {
                let case = Case {
                    ip,
                    depth,
                    returns: depth,
                    ..Case::new(0x3D)
                };
                let code = Code { bytes: &[], first };
                tally.compare_refused(heap, Trial { case: &case, code })?;
            }
        }
    }
    Ok(tally)
}

// A code of four bytes, with the instruction address right after it, right before it and farther off.
pub(crate) fn outside_code(heap: Global) -> Result<Tally, Failure> {
    let mut tally = Tally::default();
    // Instructions of one, two and three bytes.
    for opcode in [0x3D, 0x71, 0x77] {
        for first in ADDRESSES {
            for offset in [4, 5, 6, 0x7FFF, 0x8000, 0xFFFD, 0xFFFE, 0xFFFF] {
                let case = Case {
                    ip: first.wrapping_add(offset),
                    ..Case::new(opcode)
                };
                let code = Code {
                    bytes: &[opcode; 4],
                    first,
                };
                tally.compare_refused(heap, Trial { case: &case, code })?;
            }
        }
    }
    Ok(tally)
}

// Instructions of which a byte or two are missing at the end of the code.
pub(crate) fn cut_instructions(heap: Global) -> Result<Tally, Failure> {
    let mut tally = Tally::default();
    let axes = [Axis::Address, Axis::Operand, Axis::Depth, Axis::Returns];
    for family in &FAMILIES {
        for opcode in family.first..=family.last {
            // No instruction has more than three bytes.
            for left in 1..family.size.min(3) {
                for case in &product(heap, family, Case::of(family, opcode), &axes)? {
                    // The byte before the instruction, and what is left of it.
                    let bytes = &case.code()[..=usize::from(left)];
                    tally.compare_refused(heap, case.trial(bytes))?;
                }
            }
        }
    }
    Ok(tally)
}

// A code with the instruction address at every distance from its beginning.
fn compare_long(heap: Global, tally: &mut Tally, bytes: &[u8], first: u16) -> Result<(), Failure> {
    for offset in 0x0000..=0xFFFF {
        let case = Case {
            ip: first.wrapping_add(offset),
            ..Case::new(0x3D)
        };
        let code = Code { bytes, first };
        tally.compare(heap, Trial { case: &case, code })?;
    }
    Ok(())
}

// A code of more bytes than a code area has, and one of more bytes than there are addresses.
pub(crate) fn long_code(heap: Global) -> Result<Tally, Failure> {
    let mut tally = Tally::default();
    for size in [8200u32, 65540] {
        let bytes: Vec<u8> = (0..size)
            .map(|i| i.to_le_bytes()[0].wrapping_mul(37))
            .collect(heap)?;
        for first in [0x4000, 0xF000] {
            compare_long(heap, &mut tally, bytes.as_slice(), first)?;
        }
    }
    Ok(tally)
}
