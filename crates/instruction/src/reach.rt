// The memory operand of an instruction, read off its row and its operand.
ghost use Rattle.std.specs.Prelude.{◌≡◌};
ghost use Rattle.instruction.specs.Reach.{target, reach};

use crate::decoding::Instruction;
use crate::table::{Memory, Place};

// The address of a memory operand: as it stands, a byte past a pointer, or TOS past a pointer.
#[derive(Clone, Copy)]
pub enum Target {
    Fixed(u16),
    Offset(u8, u8),
    Indexed(u8),
}

// Nothing, a read or a write: three cases that are taken apart together, where an option would be opened first at each use.
// (`Memory` of the table and `Access` of the machine have the same three.)
#[derive(Clone, Copy)]
pub enum MemoryOperand {
    Nothing,
    Read(Target),
    Write(Target),
}

impl Instruction {
    fn address(&self, place: Place) -> Target
        ensures { result ≡ target place self.now.number self.now.operand }
    {
        match place {
            Place::Absolute => Target::Fixed(self.operand.word()),
            Place::Relative => Target::Offset(self.number, self.operand.byte()),
            Place::Indexed => Target::Indexed(self.number),
        }
    }

    // What it reads or writes.
    pub fn memory(&self) -> MemoryOperand
        ensures { result ≡ reach self.now }
    {
        match self.family.memory {
            Memory::Nowhere => MemoryOperand::Nothing,
            Memory::Read(place) => MemoryOperand::Read(self.address(place)),
            Memory::Write(place) => MemoryOperand::Write(self.address(place)),
        }
    }
}
