// Where control may go on from an instruction, read off its row, its operand and its address.
ghost use Rattle.std.specs.Prelude.{◌≡◌};
ghost use Rattle.instruction.specs.Flow.{ends, jump, flow, own_takes, own_gives};

use crate::decoding::Instruction;
use crate::table::{Distance, Turn};

// To one of two addresses, which may be the same, into a routine, or back to a caller.
#[derive(Clone, Copy)]
pub enum Flow {
    Goes(u16, u16),
    Calls(u16),
    Returns,
}

impl Instruction {
    // Where a jump goes, from the address after the instruction.
    pub fn jump(&self, distance: Distance, end: u16) -> u16
        ensures { result ≡ jump distance self.now.number self.now.operand end }
    {
        match distance {
            Distance::Long => end.wrapping_add_signed(i16::from(self.operand.byte().cast_signed())),
            Distance::Short => end.wrapping_add(u16::from(self.number)),
        }
    }

    // The address after the instruction, which stands at an address.
    pub fn end(&self, at: u16) -> u16
        ensures { result ≡ ends self.now at }
    {
        at.wrapping_add(self.operand.size())
    }

    // Where control may go on, from an instruction that stands at an address.
    pub fn flow(&self, at: u16) -> Flow
        ensures { result ≡ flow self.now at }
    {
        let end = self.end(at);
        match self.family.turn {
            Turn::On => Flow::Goes(end, end),
            Turn::Jump(distance) => {
                let to = self.jump(distance, end);
                Flow::Goes(to, to)
            }
            Turn::IfZero(distance) | Turn::IfNonzero(distance) => {
                Flow::Goes(self.jump(distance, end), end)
            }
            Turn::Call => Flow::Calls(self.operand.word()),
            Turn::Return => Flow::Returns,
        }
    }

    // The bytes that it needs on the return stack, without the address that a return takes. (This and the next differ in the field
    // read and in the turn tested: one function of both would be handed the two, and be longer than either.)
    pub fn own_takes(&self) -> u8
        ensures { result ≡ own_takes self.now }
    {
        match self.family.turn {
            Turn::Return => self.family.takes.saturating_sub(2),
            _ => self.family.takes,
        }
    }

    // The bytes that it leaves there, without the address that a call leaves.
    pub fn own_gives(&self) -> u8
        ensures { result ≡ own_gives self.now }
    {
        match self.family.turn {
            Turn::Call => self.family.gives.saturating_sub(2),
            _ => self.family.gives,
        }
    }
}
