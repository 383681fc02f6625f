// The code that a machine runs.
ghost use Rattle.std.specs.Prelude.{◌≡◌};
ghost use Rattle.machine.specs.Step.{fetched};

use instruction::{Instruction, decode};

// Its bytes, and the address of the first of them.
#[derive(Clone, Copy)]
pub struct Code<'a> {
    pub bytes: &'a [u8],
    pub first: u16,
}

impl Code<'_> {
    // The instruction at an address.
    pub fn fetch(&self, ip: u16) -> Option<Instruction>
        ensures { result ≡ fetched self.now.bytes.now self.now.first ip }
    {
        let offset = usize::from(ip.wrapping_sub(self.first));
        decode(self.bytes.get(offset..)?)
    }
}
