// The processor, its questions about the stacks, and a step.
ghost use Rattle.std.specs.Prelude.{◌≡◌, ◌≢◌, ◌+◌, ◌≤◌, vec_len, length, OnOk, IfErr, OnErr, IsErrOf};
ghost use Rattle.second.specs.declared.fault.Fault.TheVariants.{NoInstruction, Denied};
ghost use Rattle.second.specs.Fault.{IfRefused};
ghost use Rattle.second.specs.Use.{needed, left_of};
ghost use Rattle.second.specs.Model.{IsWithin, HoldsSame};

mod arithmetic;
mod board;
mod flow;
mod stacks;

use crate::code::fetch;
use crate::fault::{Fault, Stop};
use crate::memory::Memory;
use crate::usage::Use;
use std::alloc::AllocError;

/// How deep the stacks may become, and the byte that fresh data bytes hold. They come with each step and are no part of the
/// processor, which may be stepped within other limits each time.
#[derive(Clone, Copy)]
pub struct Limits {
    pub stack: usize,
    pub returns: usize,
    pub fill: u8,
}

/// A processor. The top of each stack is its last byte.
#[derive(Drop)]
pub struct Model {
    pub stack: Vec<u8>,
    pub returns: Vec<u8>,
    pub registers: [u8; 16],
    pub pointers: [u16; 4],
    pub carry: bool,
    pub ip: u16,
    pub cycles: u32,
}

impl Model {
    /// Asks the questions about the stacks, in the order of their numbers.
    fn ask(&self, limits: &Limits, operands: Use, addresses: Use) -> Result<(), Fault>
        ensures held { OnOk result ((needed operands ≤ vec_len self.now.stack) × (needed addresses ≤ vec_len self.now.returns)) }
        ensures fits { OnOk result ((left_of operands (vec_len self.now.stack) ≤ limits.now.stack) × (left_of addresses (vec_len self.now.returns) ≤ limits.now.returns)) }
        ensures refused { IfErr result (λ fault. (fault ≢ NoInstruction) × (fault ≢ Denied)) }
    {
        if self.stack.len() < operands.need() {
            return Err(Fault::DataShort);
        }
        if self.returns.len() < addresses.need() {
            return Err(Fault::ReturnShort);
        }
        if !operands.stays(self.stack.len(), limits.stack) {
            return Err(Fault::DataFull);
        }
        if !addresses.stays(self.returns.len(), limits.returns) {
            return Err(Fault::ReturnFull);
        }
        Ok(())
    }

    /// Goes to `to` after an instruction that took `cycles`. (What stays is said at each of these, as each changes another part.
    /// `taken`, `refused` and `no_memory` stand at each group of instructions, as `step` ends in any of them.)
    fn go(&mut self, to: u16, cycles: u32)
        ensures { (self.new.stack ≡ self.old.stack) × (self.new.returns ≡ self.old.returns) }
    {
        self.ip = to;
        self.cycles = self.cycles.wrapping_add(cycles);
    }

    /// Goes on `far` bytes ahead after an instruction that took `cycles`.
    fn pass(&mut self, far: u16, cycles: u32)
        ensures { (self.new.stack ≡ self.old.stack) × (self.new.returns ≡ self.old.returns) }
    {
        self.go(self.ip.wrapping_add(far), cycles);
    }

    /// Goes to the address on the return stack after an instruction that took `cycles`.
    fn go_back(&mut self, cycles: u32)
        requires { 2 ≤ vec_len self.old.returns }
        ensures { (self.new.stack ≡ self.old.stack) × (vec_len self.new.returns + 2 ≡ vec_len self.old.returns) }
    {
        let low = self.returns.pop().unwrap();
        let high = self.returns.pop().unwrap();
        self.go(u16::from_be_bytes([high, low]), cycles);
    }

    /// Pushes `bytes` in an instruction of `far` bytes that takes `cycles`.
    fn push(&mut self, bytes: &[u8], far: u16, cycles: u32) -> Result<(), AllocError>
        ensures pushed { OnOk result (vec_len self.new.stack ≡ vec_len self.old.stack + length bytes.now) }
        ensures kept { self.new.returns ≡ self.old.returns }
        ensures no_memory { OnErr result (HoldsSame self.old self.new) }
    {
        self.stack.extend_from_slice(bytes)?;
        self.pass(far, cycles);
        Ok(())
    }

    /// Runs the instruction at `ip`, where `code` begins at the address `first`. An `Err` is the first question that is
    /// answered no, and then nothing has changed, or says that a stack found no memory to grow: only a port's sample may
    /// be spent then.
    pub fn step(
        &mut self,
        limits: &Limits,
        code: &[u8],
        first: u16,
        memory: &mut Memory,
    ) -> Result<(), Stop>
        ensures taken { OnOk result (IsWithin limits.now self.new) }
        ensures refused { IfErr result (λ stop. IfRefused stop (λ _. (self.new ≡ self.old) × (memory.new ≡ memory.old))) }
        ensures no_memory { IsErrOf result Stop.NoMemory → HoldsSame self.old self.new }
    {
        let at = usize::from(self.ip.wrapping_sub(first));
        let instruction = fetch(code, at).ok_or(Fault::NoInstruction)?;
        // By the opcode byte itself, so that nothing is shared with an interpreter that a table drives.
        match instruction.op {
            0x3D..=0x3F | 0x50..=0x5F => Ok(self.compute(limits, instruction)?),
            0x40..=0x4F | 0x60..=0x6F | 0x72 | 0x73 => Ok(self.choose(limits, instruction)?),
            0x20..=0x2F | 0x31 | 0x71 | 0x77..=0x7F => self.travel(limits, instruction),
            0x98..=0x9F | 0xB7 => self.load(limits, instruction, memory),
            0xD8..=0xDF | 0xF7 => Ok(self.save(limits, instruction, memory)?),
            0xA1 | 0xA4 | 0xA5 | 0xA7 | 0xB8..=0xBF => self.copy(limits, instruction.op),
            0xB6 | 0xE4 | 0xE5 | 0xE7 => self.arrange(limits, instruction.op),
            0xC8..=0xD7 | 0xF0..=0xF3 | 0xF8..=0xFF => Ok(self.store(limits, instruction.op)?),
            _ => self.bring(limits, instruction),
        }
    }
}
