// An instruction done: its effect, and where control goes on.
ghost use Rattle.std.specs.Prelude.{◌≡◌, ◌<◌, ◌==◌, if◌then◌else◌, not};
ghost use Rattle.instruction.specs.Table.{row_of};
ghost use Rattle.instruction.specs.Flow.{jump, turned, taken};
ghost use Rattle.machine.specs.State.{view, with_returns, tos, popped};
ghost use Rattle.machine.specs.Effect.{goes_to, returns_after};
ghost use Rattle.machine.specs.Step.{does};
ghost use Rattle.machine.specs.Suits.{Suits};

use crate::state::Machine;
use instruction::{Distance, Instruction, Kind};

impl Machine {
    // Drops TOS, and jumps if whether it was zero is as given, else goes on at the end.
    fn branch(&mut self, zero: bool, instruction: &Instruction, distance: Distance, end: u16) -> u16
        requires { 0 < self.old.stack.depth }
        ensures value { result ≡ (if (if zero then tos (view self.old) == 0 else not (tos (view self.old) == 0)) then jump distance instruction.now.number instruction.now.operand end else end) }
        ensures after { view self.new ≡ popped (view self.old) }
    {
        if (self.stack.pop() == 0) == zero {
            instruction.jump(distance, end)
        } else {
            end
        }
    }

    // Does what the instruction's kind does, with the address after it, the byte that the board answered and the fill byte; the
    // answer is the address that control goes on at. (A match, which is seen to have every kind: a table of functions by the kind
    // would be another list of them, and a call through a pointer for each step.)
    pub(crate) fn apply(&mut self, instruction: &Instruction, end: u16, byte: u8, fill: u8) -> u16
        requires { Suits instruction.now.family.kind instruction.now.number self.old.stack.depth self.old.returns.depth }
        ensures value { let i = instruction.now in let turn = (row_of i.family.kind).turn in result ≡ goes_to (turned turn i.number i.operand end) (taken turn (tos (view self.old))) (does i byte fill (view self.old)).returns }
        ensures after { let i = instruction.now in let e = does i byte fill (view self.old) in view self.new ≡ with_returns (returns_after (turned (row_of i.family.kind).turn i.number i.operand end) end e.returns) e }
    {
        let number = instruction.number;
        let operand = instruction.operand;
        match instruction.family.kind {
            Kind::Not => self.not(),
            Kind::Increment => self.increment(),
            Kind::Decrement => self.decrement(),
            Kind::Binary(op) => self.join(op),
            Kind::AddCarry => self.add_carry(),
            Kind::Immediate(op) => self.join_byte(op, operand.byte()),
            Kind::BinaryReturn(op) => {
                self.join(op);
                return self.returns.pop_word();
            }
            Kind::PushShort => self.push(number),
            Kind::PushByte => self.push(operand.byte()),
            Kind::PushWord => self.push_word(operand.word()),
            Kind::PushTop => self.push_copy(0),
            Kind::PushNext => self.push_copy(1),
            Kind::PushDeep(k) => self.push_copy(usize::from(k) + 1),
            Kind::PopDeep(k) => self.pop_deep(k),
            Kind::PushRegister => self.push_register(number),
            Kind::PopRegister => self.pop_register(number),
            Kind::PushPointer => self.push_pointer(number),
            Kind::PopPointer => self.pop_pointer(number),
            Kind::PushAbsolute | Kind::PushRelative => self.push(byte),
            Kind::PopAbsolute | Kind::PopRelative | Kind::DropTop => self.drop_top(),
            Kind::PushIndexed => self.push_under(byte),
            Kind::PopIndexed | Kind::DropNext => self.drop_next(),
            Kind::PushReturn => self.push_return(),
            Kind::PushPop => self.push_pop(),
            Kind::PopPush => self.pop_push(),
            Kind::Exchange => self.exchange(),
            Kind::Allocate(k) => self.allocate(k, fill),
            Kind::Deallocate(k) => {
                self.deallocate(k);
                return self.returns.pop_word();
            }
            Kind::Branch => return instruction.jump(Distance::Long, end),
            Kind::BranchNonzero => {
                return self.branch(false, instruction, Distance::Long, end);
            }
            Kind::BranchZero => return self.branch(true, instruction, Distance::Long, end),
            Kind::ShortBranch => return instruction.jump(Distance::Short, end),
            Kind::ShortBranchZero => {
                return self.branch(true, instruction, Distance::Short, end);
            }
            Kind::ShortBranchNonzero => {
                return self.branch(false, instruction, Distance::Short, end);
            }
            Kind::CallFar => {
                self.returns.push_word(end);
                return operand.word();
            }
            Kind::Ret => return self.returns.pop_word(),
        }
        end
    }
}
