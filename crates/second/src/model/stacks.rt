// Bytes that come onto a stack, move between the stacks, and go into registers and pointers.
ghost use Rattle.std.specs.Prelude.{◌≡◌, OnOk, IfErr, IsErrOf};
ghost use Rattle.second.specs.Fault.{IfRefused};
ghost use Rattle.second.specs.Model.{IsWithin, IsUntouched, HoldsSame};

use super::{Limits, Model};
use crate::code::Instruction;
use crate::fault::{Fault, Stop};
use crate::usage::Use;

impl Model {
    /// Pushes of what stands in the instruction or in a register, and ALLOC.
    pub(super) fn bring(&mut self, limits: &Limits, instruction: Instruction) -> Result<(), Stop>
        ensures taken { OnOk result (IsWithin limits.now self.new) }
        ensures refused { IfErr result (λ stop. IfRefused stop (IsUntouched self.old self.new)) }
        ensures no_memory { IsErrOf result Stop.NoMemory → HoldsSame self.old self.new }
    {
        let op = instruction.op;
        let more = match op {
            0xB0..=0xB3 | 0xB5 => 2,
            0xC0..=0xC7 => usize::from(op - 0xBF),
            _ => 1,
        };
        self.ask(limits, Use::Adds(0, more), Use::NONE)?;
        match op {
            // PUSHS
            0x80..=0x87 => self.push(&[op - 0x80], 1, 4)?,
            // PUSH of a register
            0x88..=0x97 => self.push(&[self.registers[usize::from(op - 0x88)]], 1, 4)?,
            // PUSHD [p]
            0xB0..=0xB3 => self.push(&self.pointers[usize::from(op - 0xB0)].to_be_bytes(), 1, 6)?,
            // PUSH #n
            0xB4 => self.push(&[instruction.byte()], 2, 4)?,
            // PUSHD #w
            0xB5 => self.push(&instruction.operand, 3, 6)?,
            // ALLOC
            0xC0..=0xC7 => {
                self.stack.resize(self.stack.len() + more, limits.fill)?;
                self.pass(1, 3);
            }
            _ => return Err(Stop::Refused(Fault::NoInstruction)),
        }
        Ok(())
    }

    /// Pushes of what stands on a stack.
    pub(super) fn copy(&mut self, limits: &Limits, op: u8) -> Result<(), Stop>
        ensures taken { OnOk result (IsWithin limits.now self.new) }
        ensures refused { IfErr result (λ stop. IfRefused stop (IsUntouched self.old self.new)) }
        ensures no_memory { IsErrOf result Stop.NoMemory → HoldsSame self.old self.new }
    {
        let depth = self.stack.len();
        match op {
            // PUSH [RSP]
            0xA1 => {
                self.ask(limits, Use::Adds(0, 1), Use::Keeps(1))?;
                let byte = self.returns[self.returns.len() - 1];
                self.push(&[byte], 1, 4)?;
            }
            // PUSH TOS
            0xA4 => {
                self.ask(limits, Use::Adds(1, 1), Use::NONE)?;
                let byte = self.stack[depth - 1];
                self.push(&[byte], 1, 3)?;
            }
            // PUSH NEXT
            0xA5 => {
                self.ask(limits, Use::Adds(2, 1), Use::NONE)?;
                let byte = self.stack[depth - 2];
                self.push(&[byte], 1, 4)?;
            }
            // PUSHPOP
            0xA7 => {
                self.ask(limits, Use::Adds(0, 1), Use::Drops(1, 1))?;
                let byte = self.returns[self.returns.len() - 1];
                self.push(&[byte], 1, 5)?;
                self.returns.pop();
            }
            // PUSH [DSP][-k]: the byte `k` below NEXT
            0xB8..=0xBF => {
                let below = usize::from(0xC0 - op);
                self.ask(limits, Use::Adds(below + 2, 1), Use::NONE)?;
                let byte = self.stack[depth - 2 - below];
                self.push(&[byte], 1, 5)?;
            }
            _ => return Err(Stop::Refused(Fault::NoInstruction)),
        }
        Ok(())
    }

    /// XCH, DROP TOS, DROP NEXT and POPPUSH.
    pub(super) fn arrange(&mut self, limits: &Limits, op: u8) -> Result<(), Stop>
        ensures taken { OnOk result (IsWithin limits.now self.new) }
        ensures refused { IfErr result (λ stop. IfRefused stop (IsUntouched self.old self.new)) }
        ensures no_memory { IsErrOf result Stop.NoMemory → HoldsSame self.old self.new }
    {
        let depth = self.stack.len();
        match op {
            // XCH
            0xB6 => {
                self.ask(limits, Use::Keeps(2), Use::NONE)?;
                self.stack.swap(depth - 2, depth - 1);
                self.pass(1, 4);
            }
            // DROP TOS
            0xE4 => {
                self.ask(limits, Use::Drops(1, 1), Use::NONE)?;
                self.stack.pop();
                self.pass(1, 3);
            }
            // DROP NEXT
            0xE5 => {
                self.ask(limits, Use::Drops(2, 1), Use::NONE)?;
                self.stack.remove(depth - 2);
                self.pass(1, 2);
            }
            // POPPUSH
            0xE7 => {
                self.ask(limits, Use::Drops(1, 1), Use::Adds(0, 1))?;
                self.returns.push(self.stack[depth - 1])?;
                self.stack.pop();
                self.pass(1, 5);
            }
            _ => return Err(Stop::Refused(Fault::NoInstruction)),
        }
        Ok(())
    }

    /// Pops into a register, a pointer or a byte of the stack.
    pub(super) fn store(&mut self, limits: &Limits, op: u8) -> Result<(), Fault>
        ensures taken { OnOk result (IsWithin limits.now self.new) }
        ensures refused { IfErr result (IsUntouched self.old self.new) }
    {
        match op {
            // POP to a register
            0xC8..=0xD7 => {
                self.ask(limits, Use::Drops(1, 1), Use::NONE)?;
                self.registers[usize::from(op - 0xC8)] = self.stack.pop().unwrap();
                self.pass(1, 4);
            }
            // POPD [p]
            0xF0..=0xF3 => {
                self.ask(limits, Use::Drops(2, 2), Use::NONE)?;
                let low = self.stack.pop().unwrap();
                let high = self.stack.pop().unwrap();
                self.pointers[usize::from(op - 0xF0)] = u16::from_be_bytes([high, low]);
                self.pass(1, 6);
            }
            // POP [DSP][-k]: the byte `k` below NEXT, counted while TOS is still there
            0xF8..=0xFF => {
                let below = 0x100 - usize::from(op);
                self.ask(limits, Use::Drops(below + 2, 1), Use::NONE)?;
                let place = self.stack.len() - 2 - below;
                self.stack[place] = self.stack.pop().unwrap();
                self.pass(1, 5);
            }
            _ => return Err(Fault::NoInstruction),
        }
        Ok(())
    }
}
