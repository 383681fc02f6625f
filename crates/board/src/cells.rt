// Memory cells: up to 512 addresses from a first one, all readable, writable and held.
use std::marker::Model;

mod access;

#[derive(Drop)]
pub struct Cells {
    first: u16,
    // Fixed memory for the most that the rules allow, of which so many are cells: no heap is needed. (No `ArrayVec`: one of this size
    // is filled and copied several times as it is made, which takes twice as long.)
    count: u16,
    bytes: [u8; 512],
}

impl Model for Cells {
    ghost use Rattle.std.specs.Prelude.{◌≡◌, ◌+◌, ◌≤◌, length, take};
    ghost use Rattle.board.specs.Cells.{Cells as Shown};

    ghost Value = { Shown };

    ghost view = { λ c. record { first = c.first; bytes = take c.count c.bytes } };

    ghost invariant = { λ c. (c.count ≤ 512) × (c.first + c.count ≤ 65536) × (length c.bytes ≡ 512) };
}
