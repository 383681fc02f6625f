// Ports: up to 16 input and 16 output addresses, all live. Reads hand out the samples one after another and then zeros, and
// each output keeps its latest byte.
use arrayvec::ArrayVec;
use std::collections::VecDeque;
use std::marker::Model;

mod access;

#[derive(Drop)]
pub struct Ports {
    // Fixed memory for the most addresses that the rules allow: they need no heap.
    inputs: ArrayVec<u16, 16>,
    outputs: ArrayVec<Output, 16>,
    samples: VecDeque<u8>,
}

// An output address, and the byte that was written to it last.
#[derive(Clone, Copy, Default)]
struct Output {
    at: u16,
    latest: u8,
}

impl Model for Ports {
    ghost use Rattle.std.specs.Prelude.{◌≤◌};
    ghost use Rattle.arrayvec.specs.ArrayVec.{array_vec_len};
    ghost use Rattle.board.specs.Ports.{Ports as Shown};

    ghost Value = { Shown };

    ghost view = { λ p. record { inputs = p.inputs.items; outputs = p.outputs.items; samples = p.samples.items } };

    ghost invariant = { λ p. (array_vec_len p.inputs ≤ 16) × (array_vec_len p.outputs ≤ 16) };
}
