// Arithmetic and logic.
ghost use Rattle.std.specs.Prelude.{◌≡◌, ◌+◌, ◌≤◌, vec_len, OnOk, IfErr};
ghost use Rattle.second.specs.Model.{IsWithin, IsUntouched};

use super::{Limits, Model};
use crate::code::Instruction;
use crate::fault::Fault;
use crate::usage::Use;

/// What an operation makes of NEXT, or of a number, and TOS; and the carry.
fn combined(op: u8, next: u8, top: u8, carry: bool) -> (u8, bool) {
    match op {
        0x50 | 0x58 | 0x5C => top.overflowing_add(next),
        0x51 | 0x59 | 0x5D => (top & next, false),
        0x52 | 0x5A | 0x5E => (top | next, false),
        0x53 | 0x5B | 0x5F => (top ^ next, false),
        // ADC
        _ => {
            let [high, low] = (u16::from(top) + u16::from(next) + u16::from(carry)).to_be_bytes();
            (low, high != 0)
        }
    }
}

impl Model {
    /// Takes NEXT and TOS, and pushes what the operation makes of them.
    fn join(&mut self, op: u8)
        requires { 2 ≤ vec_len self.old.stack }
        ensures { (self.new.returns ≡ self.old.returns) × (vec_len self.new.stack + 1 ≡ vec_len self.old.stack) }
    {
        let top = self.stack.pop().unwrap();
        let last = self.stack.len() - 1;
        let (byte, carry) = combined(op, self.stack[last], top, self.carry);
        self.stack[last] = byte;
        self.carry = carry;
    }

    /// NOT, INC, DEC, and ADD, AND, OR and XOR with the number `n`: TOS becomes another byte.
    fn change(&mut self, op: u8, n: u8)
        requires { 1 ≤ vec_len self.old.stack }
        ensures { (self.new.returns ≡ self.old.returns) × (vec_len self.new.stack ≡ vec_len self.old.stack) }
    {
        let last = self.stack.len() - 1;
        let top = self.stack[last];
        let (byte, carry) = match op {
            0x3D => (!top, false),
            0x3E => top.overflowing_add(1),
            0x3F => top.overflowing_sub(1),
            _ => combined(op, n, top, self.carry),
        };
        self.stack[last] = byte;
        self.carry = carry;
    }

    /// Arithmetic and logic.
    pub(super) fn compute(&mut self, limits: &Limits, instruction: Instruction) -> Result<(), Fault>
        ensures taken { OnOk result (IsWithin limits.now self.new) }
        ensures refused { IfErr result (IsUntouched self.old self.new) }
    {
        let op = instruction.op;
        match op {
            // NOT, INC, DEC
            0x3D..=0x3F => {
                self.ask(limits, Use::Keeps(1), Use::NONE)?;
                self.change(op, 0);
                self.pass(1, 2);
            }
            // ADD, AND, OR, XOR, ADC
            0x50..=0x54 => {
                self.ask(limits, Use::Drops(2, 1), Use::NONE)?;
                self.join(op);
                self.pass(1, 4);
            }
            // ADD #n, AND #n, OR #n, XOR #n
            0x58..=0x5B => {
                self.ask(limits, Use::Keeps(1), Use::NONE)?;
                self.change(op, instruction.byte());
                self.pass(2, 3);
            }
            // ADD_R, AND_R, OR_R, XOR_R
            0x5C..=0x5F => {
                self.ask(limits, Use::Drops(2, 1), Use::RETURN)?;
                self.join(op);
                self.go_back(7);
            }
            _ => return Err(Fault::NoInstruction),
        }
        Ok(())
    }
}
