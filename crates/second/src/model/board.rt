// Pushes from the board and pops to it.
ghost use Rattle.std.specs.Prelude.{◌≡◌, ◌<◌, OnOk, IfErr, OnErr, IsErrOf};
ghost use Rattle.second.specs.Fault.{IfRefused};
ghost use Rattle.second.specs.Model.{IsWithin, HoldsSame};

use super::{Limits, Model};
use crate::code::Instruction;
use crate::fault::{Fault, Stop};
use crate::memory::Memory;
use crate::usage::Use;

impl Model {
    /// The address that is `offset` past a pointer.
    fn past(&self, pointer: u8, offset: u8) -> u16
        requires { pointer < 4 }
    {
        self.pointers[usize::from(pointer)].wrapping_add(u16::from(offset))
    }

    /// Pushes from the board.
    pub(super) fn load(
        &mut self,
        limits: &Limits,
        instruction: Instruction,
        memory: &mut Memory,
    ) -> Result<(), Stop>
        ensures taken { OnOk result (IsWithin limits.now self.new) }
        ensures refused { IfErr result (λ stop. IfRefused stop (λ _. (self.new ≡ self.old) × (memory.new ≡ memory.old))) }
        ensures no_memory { IsErrOf result Stop.NoMemory → HoldsSame self.old self.new }
    {
        match instruction.op {
            // PUSH [p][n]
            op @ 0x98..=0x9B => {
                self.ask(limits, Use::Adds(0, 1), Use::NONE)?;
                let at = self.past(op - 0x98, instruction.byte());
                let byte = memory.read(at).ok_or(Fault::Denied)?;
                self.push(&[byte], 2, 7)?;
            }
            // PUSH [p][TOS]: the byte comes below TOS, which stays
            op @ 0x9C..=0x9F => {
                self.ask(limits, Use::Adds(1, 1), Use::NONE)?;
                let last = self.stack.len() - 1;
                let at = self.past(op - 0x9C, self.stack[last]);
                let byte = memory.read(at).ok_or(Fault::Denied)?;
                self.stack.insert(last, byte)?;
                self.pass(1, 6);
            }
            // PUSH w
            0xB7 => {
                self.ask(limits, Use::Adds(0, 1), Use::NONE)?;
                let byte = memory.read(instruction.word()).ok_or(Fault::Denied)?;
                self.push(&[byte], 3, 7)?;
            }
            _ => return Err(Stop::Refused(Fault::NoInstruction)),
        }
        Ok(())
    }

    /// Pops to the board.
    pub(super) fn save(
        &mut self,
        limits: &Limits,
        instruction: Instruction,
        memory: &mut Memory,
    ) -> Result<(), Fault>
        ensures taken { OnOk result (IsWithin limits.now self.new) }
        ensures refused { OnErr result ((self.new ≡ self.old) × (memory.new ≡ memory.old)) }
    {
        match instruction.op {
            // POP [p][n]
            op @ 0xD8..=0xDB => {
                self.ask(limits, Use::Drops(1, 1), Use::NONE)?;
                let top = self.stack[self.stack.len() - 1];
                let at = self.past(op - 0xD8, instruction.byte());
                memory.write(at, top).ok_or(Fault::Denied)?;
                self.stack.pop();
                self.pass(2, 7);
            }
            // POP [p][TOS]: NEXT goes, and TOS stays
            op @ 0xDC..=0xDF => {
                self.ask(limits, Use::Drops(2, 1), Use::NONE)?;
                let next = self.stack.len() - 2;
                let at = self.past(op - 0xDC, self.stack[next + 1]);
                memory.write(at, self.stack[next]).ok_or(Fault::Denied)?;
                self.stack.remove(next);
                self.pass(1, 6);
            }
            // POP w: as POP [p][n], written out, since each instruction here is read by itself
            0xF7 => {
                self.ask(limits, Use::Drops(1, 1), Use::NONE)?;
                let top = self.stack[self.stack.len() - 1];
                memory.write(instruction.word(), top).ok_or(Fault::Denied)?;
                self.stack.pop();
                self.pass(3, 7);
            }
            _ => return Err(Fault::NoInstruction),
        }
        Ok(())
    }
}
