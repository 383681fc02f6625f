// The boards that a step may find. The ports stand at the same addresses on each of them.
ghost use Rattle.std.specs.Prelude.{◌≡◌, ◌+◌, ◌*◌, ◌%◌, IfOk, vec_len};

use std::alloc::{AllocError, Global};

// 8080 and FFFF are inputs and outputs.
pub const INPUTS: [u16; 4] = [0x8000, 0x8080, 0xFF01, 0xFFFF];

pub const OUTPUTS: [u16; 4] = [0x8001, 0x8080, 0xFF00, 0xFFFF];

#[derive(Clone, Copy)]
pub struct Layout {
    // Addresses below it belong to the cells, the others to the ports.
    pub boundary: u32,
    // The first cell's address, and how many cells there are.
    pub first: u16,
    pub count: u16,
    pub samples: &'static [u8],
}

pub const LAYOUTS: [Layout; 5] = [
    Layout {
        boundary: 0x8000,
        first: 0x007F,
        count: 130,
        samples: &[0x5A, 0xA6, 0x33],
    },
    // No sample is left.
    Layout {
        boundary: 0x8000,
        first: 0x007F,
        count: 130,
        samples: &[],
    },
    // Every address belongs to the cells, the last of which is the last address.
    Layout {
        boundary: 0x1_0000,
        first: 0xFF01,
        count: 255,
        samples: &[0x5A, 0xA6, 0x33],
    },
    // Every address belongs to the ports.
    Layout {
        boundary: 0,
        first: 0x007F,
        count: 130,
        samples: &[0x5A],
    },
    // All but one of the cells are past the boundary.
    Layout {
        boundary: 0x0080,
        first: 0x007F,
        count: 130,
        samples: &[0x5A, 0xA6],
    },
];

// The byte of a cell or an output before the step, by its place among them.
pub fn initial(place: u16) -> u8
    ensures { result ≡ (place * 5 + 28) % 256 }
{
    (u32::from(place) * 5 + 28).to_le_bytes()[0]
}

pub fn initial_bytes(heap: Global, count: u16) -> Result<Vec<u8>, AllocError>
    ensures { IfOk result (λ v. vec_len v ≡ count) }
{
    (0..count).map(initial).collect(heap)
}
