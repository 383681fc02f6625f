// Two boards and a boundary: addresses below it belong to the first, the others to the second. The boundary may be 65,536,
// which leaves every address to the first.
ghost use Rattle.std.specs.Prelude.{◌≡◌};
ghost use Rattle.board.specs.Split.{below, split_meaning};
ghost use Rattle.std.proofs.Common.{rules};

use crate::{Board, Right};
use refusal::Refusal;

#[derive(Drop)]
pub struct Split<L, U> {
    pub lower: L,
    pub upper: U,
    pub boundary: u32,
}

impl<L, U> Split<L, U> {
    // Whether an address belongs to the first board.
    fn is_below(&self, at: u16) -> bool
        ensures { result ≡ below self.now at }
    {
        u32::from(at) < self.boundary
    }
}

impl<L: Board, U: Board> Board for Split<L, U> {
    ghost meaning = { split_meaning L.Board.meaning U.Board.meaning };

    ghost lawful = { Prim.search rules };

    #[tactic(auto, using(crate::proofs::Parted::lower_spans, crate::proofs::Parted::upper_spans))]
    fn may(&self, right: Right, first: u16, last: u16) -> bool {
        if self.is_below(last) {
            self.lower.may(right, first, last)
        } else if !self.is_below(first) {
            self.upper.may(right, first, last)
        } else {
            // The boundary is an address here. A cast that lost a bit would be refused, so this says what `try_from` and `unwrap` would.
            self.lower.may(right, first, (self.boundary - 1) as u16)
                && self.upper.may(right, self.boundary as u16, last)
        }
    }

    fn read(&mut self, at: u16) -> Result<u8, Refusal> {
        if self.is_below(at) {
            self.lower.read(at)
        } else {
            self.upper.read(at)
        }
    }

    fn write(&mut self, at: u16, byte: u8) -> Result<(), Refusal> {
        if self.is_below(at) {
            self.lower.write(at, byte)
        } else {
            self.upper.write(at, byte)
        }
    }
}
