// Branches, calls and returns.
ghost use Rattle.std.specs.Prelude.{◌≡◌, OnOk, IfErr, IsErrOf};
ghost use Rattle.second.specs.Fault.{IfRefused};
ghost use Rattle.second.specs.Model.{IsWithin, IsUntouched, HoldsSame};

use super::{Limits, Model};
use crate::code::Instruction;
use crate::fault::{Fault, Stop};
use crate::usage::Use;

/// The address `displacement` away from `from`, forward below 128 and else backward.
fn branched(from: u16, displacement: u8) -> u16 {
    from.wrapping_add_signed(i16::from(displacement.cast_signed()))
}

impl Model {
    /// Branches that look at TOS and drop it.
    pub(super) fn choose(&mut self, limits: &Limits, instruction: Instruction) -> Result<(), Fault>
        ensures taken { OnOk result (IsWithin limits.now self.new) }
        ensures refused { IfErr result (IsUntouched self.old self.new) }
    {
        self.ask(limits, Use::Drops(1, 1), Use::NONE)?;
        let zero = self.stack.pop().unwrap() == 0;
        let next = self.ip.wrapping_add(2);
        let there = branched(next, instruction.byte());
        match instruction.op {
            // SBRZ
            op @ 0x40..=0x4F => self.pass(if zero { u16::from(op - 0x3F) } else { 1 }, 3),
            // SBRNZ
            op @ 0x60..=0x6F => self.pass(if zero { 1 } else { u16::from(op - 0x5F) }, 3),
            // BRNZ
            0x72 => self.go(if zero { next } else { there }, 4),
            // BRZ
            _ => self.go(if zero { there } else { next }, 4),
        }
        Ok(())
    }

    /// Branches, calls and returns that do not look at TOS.
    pub(super) fn travel(&mut self, limits: &Limits, instruction: Instruction) -> Result<(), Stop>
        ensures taken { OnOk result (IsWithin limits.now self.new) }
        ensures refused { IfErr result (λ stop. IfRefused stop (IsUntouched self.old self.new)) }
        ensures no_memory { IsErrOf result Stop.NoMemory → HoldsSame self.old self.new }
    {
        match instruction.op {
            // NOP, SBR
            op @ 0x20..=0x2F => {
                self.ask(limits, Use::NONE, Use::NONE)?;
                self.pass(u16::from(op - 0x1F), 1);
            }
            // RET
            0x31 => {
                self.ask(limits, Use::NONE, Use::RETURN)?;
                self.go_back(4);
            }
            // BR
            0x71 => {
                self.ask(limits, Use::NONE, Use::NONE)?;
                self.go(branched(self.ip.wrapping_add(2), instruction.byte()), 2);
            }
            // CALLF: the high byte of the address behind it goes first onto the return stack
            0x77 => {
                self.ask(limits, Use::NONE, Use::Adds(0, 2))?;
                let back = self.ip.wrapping_add(3).to_be_bytes();
                self.returns.extend_from_slice(&back)?;
                self.go(instruction.word(), 7);
            }
            // DEALLOC, DROP_R TOS
            op @ 0x78..=0x7F => {
                let count = usize::from(0x80 - op);
                self.ask(limits, Use::Drops(count, count), Use::RETURN)?;
                self.stack.truncate(self.stack.len() - count);
                self.go_back(6);
            }
            _ => return Err(Stop::Refused(Fault::NoInstruction)),
        }
        Ok(())
    }
}
