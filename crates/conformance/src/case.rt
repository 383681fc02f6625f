// One state to step from, and the instruction that stands there.
ghost use Rattle.std.specs.Prelude.{◌≡◌, [], ◌∷◌, IfOk, vec_len, slice_index};

use crate::layout::{LAYOUTS, Layout};
use crate::state::Trial;
use instruction::Family;
use machine::Code;
use std::alloc::{AllocError, Global};

pub const REGISTERS: [u8; 16] = [
    0xE1, 0xE2, 0xE3, 0xE4, 0xE5, 0xE6, 0xE7, 0xE8, 0xD1, 0xD2, 0xD3, 0xD4, 0xD5, 0xD6, 0xD7, 0xD8,
];

// What ALLOC fills new bytes with.
pub const FILL: u8 = 0xA5;

#[derive(Clone, Copy)]
pub struct Case {
    pub opcode: u8,
    pub operand: [u8; 2],
    // The two top bytes of the data stack. The return stack has the same two, the other way round.
    pub top: u8,
    pub next: u8,
    // How many bytes the stacks hold, and how many they may hold.
    pub depth: u8,
    pub returns: u8,
    pub stack_limit: u16,
    pub return_limit: u16,
    pub pointers: [u16; 4],
    pub carry: bool,
    pub ip: u16,
    pub cycles: u32,
    pub layout: Layout,
}

// So many bytes, the two last of them as given.
fn column(heap: Global, depth: u8, top: u8, next: u8, salt: u8) -> Result<Vec<u8>, AllocError>
    ensures { IfOk result (λ v. vec_len v ≡ depth) }
{
    (0..depth)
        .map(|i| match depth - 1 - i {
            0 => top,
            1 => next,
            _ => i.wrapping_mul(7).wrapping_add(salt),
        })
        .collect(heap)
}

impl Case {
    // An opcode with a few bytes on both stacks.
    pub fn new(opcode: u8) -> Case
        ensures { result.opcode ≡ opcode }
    {
        Case {
            opcode,
            operand: [0x12, 0x34],
            top: 0x01,
            next: 0x80,
            depth: 12,
            returns: 5,
            stack_limit: 255,
            return_limit: 255,
            pointers: [0x0080, 0x8000, 0xFF00, 0x0000],
            carry: false,
            ip: 0x40FF,
            cycles: 0,
            layout: LAYOUTS[0],
        }
    }

    // An opcode of a family, with two bytes more than it needs on both stacks.
    pub fn of(family: &Family, opcode: u8) -> Case
        ensures { result.opcode ≡ opcode }
    {
        Case {
            depth: family.needs.saturating_add(2),
            returns: family.takes.saturating_add(2),
            ..Case::new(opcode)
        }
    }

    // The instruction, after a byte at which none begins.
    pub fn code(&self) -> [u8; 4]
        ensures { result ≡ 0 ∷ self.now.opcode ∷ slice_index self.now.operand 0 ∷ slice_index self.now.operand 1 ∷ [] }
    {
        let [high, low] = self.operand;
        [0x00, self.opcode, high, low]
    }

    // A step from this state, where a code begins a byte before the instruction.
    pub(crate) fn trial<'a>(&'a self, bytes: &'a [u8]) -> Trial<'a> {
        Trial {
            case: self,
            code: Code {
                bytes,
                first: self.ip.wrapping_sub(1),
            },
        }
    }

    // The bytes of the data stack, the top one last.
    pub fn stack(&self, heap: Global) -> Result<Vec<u8>, AllocError>
        ensures { IfOk result (λ v. vec_len v ≡ self.now.depth) }
    {
        column(heap, self.depth, self.top, self.next, 0x13)
    }

    // The bytes of the return stack, the top one last.
    pub fn return_stack(&self, heap: Global) -> Result<Vec<u8>, AllocError>
        ensures { IfOk result (λ v. vec_len v ≡ self.now.returns) }
    {
        column(heap, self.returns, self.next, self.top, 0x62)
    }
}
