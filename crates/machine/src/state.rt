// The machine's state.
ghost use Rattle.std.specs.Prelude.{◌≡◌};
ghost use Rattle.machine.specs.State.{view, fresh};

use crate::stack::Stack;

#[derive(Clone, Copy)]
pub struct Machine {
    // The data stack and the return stack.
    pub stack: Stack,
    pub returns: Stack,
    pub registers: [u8; 16],
    pub pointers: [u16; 4],
    pub carry: bool,
    // The address of the next instruction.
    pub ip: u16,
    // Modulo 2^32.
    pub cycles: u32,
}

impl Machine {
    // A machine at an instruction address, all else empty or zero.
    pub fn new(ip: u16) -> Machine
        ensures { view result ≡ fresh ip }
    {
        Machine {
            stack: Stack::new(),
            returns: Stack::new(),
            registers: [0; 16],
            pointers: [0; 4],
            carry: false,
            ip,
            cycles: 0,
        }
    }
}
