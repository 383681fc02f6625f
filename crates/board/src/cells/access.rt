ghost use Rattle.std.specs.Prelude.{◌≡◌, ◌+◌, ◌-◌, ◌<◌, ◌≤◌, [], ◌∷◌, length, replicate, IfOk, if◌then◌else◌, Some, None, is_some};
ghost use Rattle.refusal.specs.Questions.{verdict_of, first_no, ask as asked};
ghost use Rattle.board.specs.Cells.{owns, owns_ends, with_byte, cells_meaning, cells_fit, NewCells};
ghost use Rattle.std.proofs.Common.{rules};

use super::Cells;
use crate::{Board, Right, denied};
use refusal::{Question, Refusal, ask};

impl Cells {
    // Cells that are known to fit.
    fn blank(first: u16, count: u16) -> Cells
        requires few { count ≤ 512 }
        requires inside { first + count ≤ 65536 }
        ensures { NewCells first count result }
    {
        Cells {
            first,
            count,
            bytes: [0; 512],
        }
    }

    // So many cells from a first address, all zero.
    pub fn new(first: u16, count: u16) -> Result<Cells, Refusal>
        ensures verdict { verdict_of result ≡ first_no (asked 4 0 (cells_fit first count) ∷ []) }
        ensures made { IfOk result (λ c. NewCells first count c) }
    {
        let inside = u32::from(first) + u32::from(count) <= 65536;
        ask(Question::BoardShape, 0, count <= 512 && inside)?;
        Ok(Cells::blank(first, count))
    }

    // The first address, and the bytes from there on.
    pub fn contents(&self) -> (u16, &[u8])
        ensures first { result.0 ≡ self.now.first }
        ensures bytes { result.1.now ≡ self.now.bytes }
        ensures few { length result.1.now ≤ 512 }
        ensures inside { result.0 + length result.1.now ≤ 65536 }
    {
        (self.first, &self.bytes[..usize::from(self.count)])
    }

    // The place of an address among the bytes.
    fn place(&self, at: u16) -> Option<usize>
        ensures { result ≡ (if owns self.now at then Some (at - self.now.first) else None) }
    {
        let place = usize::from(at.checked_sub(self.first)?);
        (place < usize::from(self.count)).then_some(place)
    }

    fn owns(&self, at: u16) -> bool
        ensures { result ≡ owns self.now at }
    {
        self.place(at).is_some()
    }

    fn set(&mut self, place: usize, byte: u8)
        requires { place < length self.old.bytes }
        ensures { self.new ≡ with_byte self.old place byte }
    {
        self.bytes[place] = byte;
    }

    // Whether both ends are cells, where there is an address between them.
    fn owns_ends(&self, first: u16, last: u16) -> bool
        ensures { result ≡ owns_ends self.now first last }
    {
        first > last || (self.owns(first) && self.owns(last))
    }
}

impl Board for Cells {
    ghost meaning = { cells_meaning };

    ghost lawful = { Prim.search rules };

    #[tactic(auto, using(crate::proofs::Owned::ends_span))]
    fn may(&self, _right: Right, first: u16, last: u16) -> bool {
        self.owns_ends(first, last)
    }

    fn read(&mut self, at: u16) -> Result<u8, Refusal> {
        let place = self.place(at).ok_or(denied(at))?;
        Ok(self.bytes[place])
    }

    fn write(&mut self, at: u16, byte: u8) -> Result<(), Refusal> {
        let place = self.place(at).ok_or(denied(at))?;
        self.set(place, byte);
        Ok(())
    }
}
