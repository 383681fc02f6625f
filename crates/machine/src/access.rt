// The one access to the board that an instruction asks for.
ghost use Rattle.std.specs.Prelude.{◌≡◌, true, false, if◌then◌else◌, Some, None, Ok, Err, MatchOption};
ghost use Rattle.machine.specs.State.{view};
ghost use Rattle.machine.specs.Step.{address, written, asked, accepts, answered, changed};
ghost use Rattle.machine.specs.Suits.{Found, Stored, Reaches};

use crate::state::Machine;
use board::Board;
use instruction::{MemoryOperand, Target};

#[derive(Clone, Copy)]
pub enum Access {
    Nothing,
    Read(u16),
    Write(u16, u8),
}

impl Access {
    // Has the board do it. The byte that was read, or nothing where the board refuses. (Zero where none was read: no instruction
    // without a read looks at it.)
    pub(crate) fn perform<B: Board>(self, board: &mut B) -> Option<u8>
        ensures value { result ≡ (if accepts B.Board.meaning self board.old then Some (answered B.Board.meaning self board.old) else None) }
        ensures after { board.new ≡ (if accepts B.Board.meaning self board.old then changed B.Board.meaning self board.old else board.old) }
    {
        match self {
            Access::Nothing => Some(0),
            Access::Read(at) => board.read(at).ok(),
            Access::Write(at, byte) => board.write(at, byte).map(|_| 0).ok(),
        }
    }
}

impl Machine {
    fn address(&self, target: Target) -> u16
        requires { Found target self.now.stack.depth }
        ensures { result ≡ address target (view self.now) }
    {
        match target {
            Target::Fixed(at) => at,
            Target::Offset(pointer, offset) => {
                self.pointers[usize::from(pointer)].wrapping_add(u16::from(offset))
            }
            Target::Indexed(pointer) => {
                self.pointers[usize::from(pointer)].wrapping_add(u16::from(self.stack.peek(0)))
            }
        }
    }

    // The byte that is written.
    fn written(&self, target: Target) -> u8
        requires { Stored target self.now.stack.depth }
        ensures { result ≡ written target (view self.now) }
    {
        match target {
            Target::Fixed(_) | Target::Offset(_, _) => self.stack.peek(0),
            Target::Indexed(_) => self.stack.peek(1),
        }
    }

    // What a memory operand asks of the board.
    pub(crate) fn access(&self, operand: MemoryOperand) -> Access
        requires { Reaches operand self.now.stack.depth }
        ensures { result ≡ asked operand (view self.now) }
    {
        match operand {
            MemoryOperand::Nothing => Access::Nothing,
            MemoryOperand::Read(target) => Access::Read(self.address(target)),
            MemoryOperand::Write(target) => {
                Access::Write(self.address(target), self.written(target))
            }
        }
    }
}
