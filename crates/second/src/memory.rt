// The memory cells and the ports that the instructions reach.
ghost use Rattle.std.specs.Prelude.{◌≡◌, IfNone};

/// An address that can be written at the ports, and the byte that was last written to it.
#[derive(Clone, Copy)]
pub struct Output {
    pub at: u16,
    pub latest: u8,
}

/// The memory cells and the ports.
#[derive(Drop)]
pub struct Memory {
    /// Addresses below this belong to the cells, the others to the ports; at 65536 there are no ports.
    pub boundary: u32,
    /// The address of the first cell; the others follow it, modulo 65536.
    pub first: u16,
    pub cells: Vec<u8>,
    /// The addresses that can be read at the ports.
    pub inputs: Vec<u16>,
    /// What reads at the ports get, one byte for each, and zeros after the last.
    pub samples: Vec<u8>,
    /// How many of the samples have been handed out. (Of a queue that is emptied it could not be told.)
    pub taken: usize,
    pub outputs: Vec<Output>,
}

impl Memory {
    /// The place of `at` among the cells, or nothing where it belongs to the ports.
    fn place(&self, at: u16) -> Option<usize> {
        (u32::from(at) < self.boundary).then_some(usize::from(at.wrapping_sub(self.first)))
    }

    /// The byte at `at`, or nothing, and no change, where it cannot be read.
    pub fn read(&mut self, at: u16) -> Option<u8>
        ensures { IfNone result (self.new ≡ self.old) }
    {
        if let Some(place) = self.place(at) {
            self.cells.get(place).copied()
        } else if self.inputs.contains(&at) {
            let Some(sample) = self.samples.get(self.taken).copied() else {
                return Some(0);
            };
            self.taken += 1;
            Some(sample)
        } else {
            None
        }
    }

    /// Puts `byte` at `at`, or gives nothing, and changes nothing, where that cannot be written. (An option, as in `read`: the one
    /// reason has its name at the caller.)
    pub fn write(&mut self, at: u16, byte: u8) -> Option<()>
        ensures { IfNone result (self.new ≡ self.old) }
    {
        match self.place(at) {
            Some(place) => *self.cells.get_mut(place)? = byte,
            None => {
                let place = self.outputs.iter().position(|output| output.at == at)?;
                self.outputs[place].latest = byte;
            }
        }
        Some(())
    }
}
