// The ways in which states differ, and the products of some of them.
use crate::case::Case;
use crate::layout::LAYOUTS;
use instruction::Family;
use std::alloc::{AllocError, Global};

// Bytes around which operations and branches change their ways.
const EDGES: [u8; 5] = [0x00, 0x01, 0x7F, 0x80, 0xFF];

// All four differ. 0080 points into the cells, and 8000 to the ports.
const POINTERS: [[u16; 4]; 6] = [
    [0x0000, 0x00FF, 0xFF00, 0xFFFF],
    [0x00FF, 0xFF00, 0xFFFF, 0x0080],
    [0xFF00, 0xFFFF, 0x0080, 0x8000],
    [0xFFFF, 0x0080, 0x8000, 0x0000],
    [0x0080, 0x8000, 0x0000, 0x00FF],
    [0x8000, 0x0000, 0x00FF, 0xFF00],
];

// With the last addresses, at which what follows an instruction comes around to 0.
pub const ADDRESSES: [u16; 5] = [0x0000, 0x40FF, 0xFFFD, 0xFFFE, 0xFFFF];

// With the last counts before 2^32.
const CYCLES: [u32; 3] = [0, 0xFFFF_FFFA, 0xFFFF_FFFF];

// The depths of a stack that is far from empty, and of a full one.
const DEEP: [u8; 2] = [100, 255];

// What is varied. The plans list it as constant data, which a closure cannot be.
#[derive(Clone, Copy)]
pub enum Axis {
    Operand,
    Top,
    Next,
    // TOS at zero and at another byte.
    Test,
    Carry,
    Pointers,
    Address,
    Cycles,
    Depth,
    StackLimit,
    Returns,
    ReturnLimit,
    Layout,
}

// The depths of a stack that is to hold so many bytes: one too few, just enough, and many more.
fn depths(heap: Global, needs: u8) -> Result<Vec<u8>, AllocError> {
    (needs.saturating_sub(1)..=needs).chain(DEEP).collect(heap)
}

// The limits, from the least one on, of a stack with so many bytes: too small by one for the instruction, just large enough,
// and the largest.
fn limits(
    heap: Global,
    least: u16,
    depth: u8,
    needs: u8,
    leaves: u8,
) -> Result<Vec<u16>, AllocError> {
    let deeper = u16::from(depth.saturating_sub(needs)) + u16::from(leaves);
    (deeper.saturating_sub(1)..=deeper)
        .filter(|limit| (least..255).contains(limit))
        .chain([255])
        .collect(heap)
}

// Adds what is made of each of some values.
fn vary<T: Copy, C: Drop, F: Fn(T) -> C>(
    cases: &mut Vec<C>,
    values: &[T],
    case_at: F,
) -> Result<(), AllocError>
    requires { F.IsAlwaysCallable case_at }
{
    for value in values {
        cases.push(case_at(*value))?;
    }
    Ok(())
}

// Of the two bytes after the opcode, those that belong to the instruction are varied.
fn vary_operand(cases: &mut Vec<Case>, case: &Case, size: u8) -> Result<(), AllocError> {
    let at = *case;
    let [_, last] = case.operand;
    match size {
        3 => {
            for high in EDGES {
                vary(
                    cases,
                    &EDGES,
                    move |low| Case {
                        operand: [high, low],
                        ..at
                    },
                )?;
            }
        }
        2 => vary(
            cases,
            &EDGES,
            move |byte| Case {
                operand: [byte, last],
                ..at
            },
        )?,
        _ => cases.push(at)?,
    }
    Ok(())
}

impl Axis {
    // Adds the case at each value of this axis, for an instruction of the family.
    fn vary(
        self,
        heap: Global,
        family: &Family,
        case: &Case,
        cases: &mut Vec<Case>,
    ) -> Result<(), AllocError> {
        let at = *case;
        match self {
            Axis::Operand => vary_operand(cases, case, family.size),
            Axis::Top => vary(cases, &EDGES, move |top| Case { top, ..at }),
            Axis::Next => vary(cases, &EDGES, move |next| Case { next, ..at }),
            Axis::Test => vary(cases, &[0x00, 0x80], move |top| Case { top, ..at }),
            Axis::Carry => vary(cases, &[false, true], move |carry| Case { carry, ..at }),
            Axis::Pointers => vary(cases, &POINTERS, move |pointers| Case { pointers, ..at }),
            Axis::Address => vary(cases, &ADDRESSES, move |ip| Case { ip, ..at }),
            Axis::Cycles => vary(cases, &CYCLES, move |cycles| Case { cycles, ..at }),
            Axis::Depth => {
                let depths = depths(heap, family.needs)?;
                vary(cases, &depths, move |depth| Case { depth, ..at })
            }
            Axis::StackLimit => {
                let limits = limits(heap, 1, case.depth, family.needs, family.leaves)?;
                vary(
                    cases,
                    &limits,
                    move |stack_limit| Case { stack_limit, ..at },
                )
            }
            Axis::Returns => {
                let depths = depths(heap, family.takes)?;
                vary(cases, &depths, move |returns| Case { returns, ..at })
            }
            Axis::ReturnLimit => {
                let limits = limits(heap, 2, case.returns, family.takes, family.gives)?;
                vary(
                    cases,
                    &limits,
                    move |return_limit| Case { return_limit, ..at },
                )
            }
            Axis::Layout => vary(cases, &LAYOUTS, move |layout| Case { layout, ..at }),
        }
    }
}

// The start at every combination of the axes' values.
pub fn product(
    heap: Global,
    family: &Family,
    start: Case,
    axes: &[Axis],
) -> Result<Vec<Case>, AllocError> {
    let mut cases = Vec::new(heap);
    cases.push(start)?;
    // Carried by hand: a fold would wrap the way out where no memory is left.
    for axis in axes {
        let mut varied = Vec::new(heap);
        for case in &cases {
            axis.vary(heap, family, case, &mut varied)?;
        }
        cases = varied;
    }
    Ok(cases)
}
