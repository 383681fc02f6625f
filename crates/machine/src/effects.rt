// What each kind of instruction does to the stacks, the registers, the pointers and the carry.
// How deep the stacks have to be stands at each, as it differs with the kind and holds of no machine at all times.
ghost use Rattle.std.specs.Prelude.{◌≡◌, ◌+◌, ◌<◌, ◌≤◌, slice_index};
ghost use Rattle.instruction.specs.declared.table.Kind.TheVariants.{Not, Increment, Decrement, AddCarry, Immediate, PushByte, PopDeep, PushRegister, PopRegister, PushPointer, PopPointer, PushIndexed, PushReturn, PushPop, PopPush, Exchange, DropTop, DropNext, Allocate, Deallocate};
ghost use Rattle.instruction.specs.declared.decoding.Operand.TheVariants.{Empty, Byte};
ghost use Rattle.machine.specs.State.{view, with_carry, pushed};
ghost use Rattle.machine.specs.Effect.{effect, value, overflow, joined, pushed_word};

use crate::state::Machine;
use instruction::Op;

// The value of an operation, and the carry flag after it.
fn combine(op: Op, a: u8, b: u8) -> (u8, bool)
    ensures value { result.0 ≡ value op a b }
    ensures carry { result.1 ≡ overflow op a b }
{
    match op {
        Op::Add => a.overflowing_add(b),
        Op::And => (a & b, false),
        Op::Or => (a | b, false),
        Op::Xor => (a ^ b, false),
    }
}

impl Machine {
    // Leaves what an operation gives: a byte on the data stack, and the carry flag. (That the return stack stays is said where a
    // return may follow, which pops from it.)
    fn put(&mut self, given: (u8, bool))
        requires { self.old.stack.depth < 255 }
        ensures after { view self.new ≡ with_carry given.1 (pushed given.0 (view self.old)) }
        ensures same { self.new.returns ≡ self.old.returns }
    {
        self.stack.push(given.0);
        self.carry = given.1;
    }

    // This and the next two take TOS and leave a byte each; a function of the three would take a closure, and its contract would
    // have to say what that answers.
    pub(crate) fn not(&mut self)
        requires { 0 < self.old.stack.depth }
        ensures { view self.new ≡ effect Not 0 Empty 0 0 (view self.old) }
    {
        let a = self.stack.pop();
        self.put((!a, false));
    }

    pub(crate) fn increment(&mut self)
        requires { 0 < self.old.stack.depth }
        ensures { view self.new ≡ effect Increment 0 Empty 0 0 (view self.old) }
    {
        let a = self.stack.pop();
        self.put((a.wrapping_add(1), a == 255));
    }

    pub(crate) fn decrement(&mut self)
        requires { 0 < self.old.stack.depth }
        ensures { view self.new ≡ effect Decrement 0 Empty 0 0 (view self.old) }
    {
        let a = self.stack.pop();
        self.put((a.wrapping_sub(1), a == 0));
    }

    // Makes one byte of TOS and NEXT.
    pub(crate) fn join(&mut self, op: Op)
        requires { 1 < self.old.stack.depth }
        ensures after { view self.new ≡ joined op (view self.old) }
        ensures same { self.new.returns ≡ self.old.returns }
    {
        let a = self.stack.pop();
        let b = self.stack.pop();
        self.put(combine(op, a, b));
    }

    pub(crate) fn join_byte(&mut self, op: Op, byte: u8)
        requires { 0 < self.old.stack.depth }
        ensures { view self.new ≡ effect (Immediate op) 0 (Byte byte) 0 0 (view self.old) }
    {
        let a = self.stack.pop();
        self.put(combine(op, a, byte));
    }

    pub(crate) fn add_carry(&mut self)
        requires { 1 < self.old.stack.depth }
        ensures { view self.new ≡ effect AddCarry 0 Empty 0 0 (view self.old) }
    {
        let a = self.stack.pop();
        let b = self.stack.pop();
        let sum = u16::from(a) + u16::from(b) + u16::from(self.carry);
        let [carry, low] = sum.to_be_bytes();
        self.put((low, carry != 0));
    }

    pub(crate) fn push(&mut self, byte: u8)
        requires { self.old.stack.depth < 255 }
        ensures { view self.new ≡ effect PushByte 0 (Byte byte) 0 0 (view self.old) }
    {
        self.stack.push(byte);
    }

    pub(crate) fn push_word(&mut self, word: u16)
        requires { self.old.stack.depth < 254 }
        ensures { view self.new ≡ pushed_word word (view self.old) }
    {
        self.stack.push_word(word);
    }

    // A copy of the byte k under TOS.
    pub(crate) fn push_copy(&mut self, k: usize)
        requires { (k < self.old.stack.depth) × (self.old.stack.depth < 255) }
        ensures { view self.new ≡ pushed (slice_index (view self.old).stack k) (view self.old) }
    {
        let byte = self.stack.peek(k);
        self.stack.push(byte);
    }

    pub(crate) fn pop_deep(&mut self, k: u8)
        requires { k + 1 < self.old.stack.depth }
        ensures { view self.new ≡ effect (PopDeep k) 0 Empty 0 0 (view self.old) }
    {
        let byte = self.stack.pop();
        self.stack.poke(usize::from(k), byte);
    }

    pub(crate) fn push_register(&mut self, register: u8)
        requires { (register < 16) × (self.old.stack.depth < 255) }
        ensures { view self.new ≡ effect PushRegister register Empty 0 0 (view self.old) }
    {
        self.stack.push(self.registers[usize::from(register)]);
    }

    pub(crate) fn pop_register(&mut self, register: u8)
        requires { (register < 16) × (0 < self.old.stack.depth) }
        ensures { view self.new ≡ effect PopRegister register Empty 0 0 (view self.old) }
    {
        self.registers[usize::from(register)] = self.stack.pop();
    }

    pub(crate) fn push_pointer(&mut self, pointer: u8)
        requires { (pointer < 4) × (self.old.stack.depth < 254) }
        ensures { view self.new ≡ effect PushPointer pointer Empty 0 0 (view self.old) }
    {
        self.stack.push_word(self.pointers[usize::from(pointer)]);
    }

    pub(crate) fn pop_pointer(&mut self, pointer: u8)
        requires { (pointer < 4) × (1 < self.old.stack.depth) }
        ensures { view self.new ≡ effect PopPointer pointer Empty 0 0 (view self.old) }
    {
        self.pointers[usize::from(pointer)] = self.stack.pop_word();
    }

    // A byte under TOS.
    pub(crate) fn push_under(&mut self, byte: u8)
        requires { (0 < self.old.stack.depth) × (self.old.stack.depth < 255) }
        ensures { view self.new ≡ effect PushIndexed 0 Empty byte 0 (view self.old) }
    {
        let top = self.stack.pop();
        self.stack.push(byte);
        self.stack.push(top);
    }

    pub(crate) fn push_return(&mut self)
        requires { (0 < self.old.returns.depth) × (self.old.stack.depth < 255) }
        ensures { view self.new ≡ effect PushReturn 0 Empty 0 0 (view self.old) }
    {
        self.stack.push(self.returns.peek(0));
    }

    // This and the next are one line each: one function of both, over two stacks, would have to say of each what the other loses.
    pub(crate) fn push_pop(&mut self)
        requires { (0 < self.old.returns.depth) × (self.old.stack.depth < 255) }
        ensures { view self.new ≡ effect PushPop 0 Empty 0 0 (view self.old) }
    {
        self.stack.push(self.returns.pop());
    }

    pub(crate) fn pop_push(&mut self)
        requires { (0 < self.old.stack.depth) × (self.old.returns.depth < 255) }
        ensures { view self.new ≡ effect PopPush 0 Empty 0 0 (view self.old) }
    {
        self.returns.push(self.stack.pop());
    }

    pub(crate) fn exchange(&mut self)
        requires { 1 < self.old.stack.depth }
        ensures { view self.new ≡ effect Exchange 0 Empty 0 0 (view self.old) }
    {
        let a = self.stack.pop();
        let b = self.stack.pop();
        self.stack.push(a);
        self.stack.push(b);
    }

    pub(crate) fn drop_top(&mut self)
        requires { 0 < self.old.stack.depth }
        ensures { view self.new ≡ effect DropTop 0 Empty 0 0 (view self.old) }
    {
        let _ = self.stack.pop();
    }

    pub(crate) fn drop_next(&mut self)
        requires { 1 < self.old.stack.depth }
        ensures { view self.new ≡ effect DropNext 0 Empty 0 0 (view self.old) }
    {
        let a = self.stack.pop();
        let _ = self.stack.pop();
        self.stack.push(a);
    }

    pub(crate) fn allocate(&mut self, k: u8, fill: u8)
        requires { self.old.stack.depth + k ≤ 255 }
        ensures { view self.new ≡ effect (Allocate k) 0 Empty 0 fill (view self.old) }
    {
        self.stack.grow(usize::from(k), fill);
    }

    pub(crate) fn deallocate(&mut self, k: u8)
        requires { k ≤ self.old.stack.depth }
        ensures after { view self.new ≡ effect (Deallocate k) 0 Empty 0 0 (view self.old) }
        ensures same { self.new.returns ≡ self.old.returns }
    {
        self.stack.cut(usize::from(k));
    }
}
