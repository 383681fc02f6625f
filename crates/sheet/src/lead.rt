// Which rows lead to which, and what is known because of it.
ghost use Rattle.std.specs.Prelude.{◌≡◌, ◌+◌};
ghost use Rattle.std.specs.List.{list_all};
ghost use Rattle.instruction.specs.Flow.{flow, ends};
ghost use Rattle.instruction.specs.Claim.{learns};
ghost use Rattle.records.specs.Routine.{routine, instruction_at};
ghost use Rattle.sheet.specs.Known.{seen};
ghost use Rattle.sheet.specs.Leads.{goes_on_to, leads, spares, only_from, word_of, primed, knows};

use crate::layout::Layout;
use crate::pointers::learn;
use crate::visit::Visit;
use instruction::{Flow, Instruction, Transfer};
use records::{Candidate, Pointers, Row};

// Where an instruction at an offset from an origin may go on. (This and the next are one line each, as who asks where control goes
// does not always ask where it comes back.)
#[tactic(auto, using(crate::proofs::Wraps::flow_wraps))]
pub fn flow_at(instruction: &Instruction, origin: u16, offset: u16) -> Flow
    ensures { result ≡ flow instruction.now (origin + offset) }
{
    instruction.flow(origin.wrapping_add(offset))
}

// The address after it.
#[tactic(auto, using(crate::proofs::Wraps::ends_wraps))]
pub fn end_at(instruction: &Instruction, origin: u16, offset: u16) -> u16
    ensures { result ≡ ends instruction.now (origin + offset) }
{
    instruction.end(origin.wrapping_add(offset))
}

// Does control go on to an address, from an instruction that ends at `back`?
fn goes_on_to(flow: Flow, back: u16, address: u32) -> bool
    ensures { result ≡ goes_on_to flow back address }
{
    match flow {
        Flow::Goes(one, other) => u32::from(one) == address || u32::from(other) == address,
        Flow::Calls(_) => u32::from(back) == address,
        Flow::Returns => false,
    }
}

// Does a row lead to another?
fn does_lead(candidate: &Candidate<'_>, to: Row, row: Row) -> bool
    ensures { result ≡ leads (routine candidate.now) to row }
{
    let origin = candidate.head.origin;
    candidate.instruction(row).is_some_and(|instruction| {
        goes_on_to(
            flow_at(&instruction, origin, row.offset),
            end_at(&instruction, origin, row.offset),
            u32::from(origin) + u32::from(to.offset),
        )
    })
}

// If a row leads to another, is it this one?
fn does_spare(candidate: &Candidate<'_>, to: Row, from: Row, row: Row) -> bool
    ensures { result ≡ spares (routine candidate.now) to from row }
{
    !does_lead(candidate, to, row) || row.offset == from.offset
}

// The word that the instruction of a row puts on top.
fn word_put(candidate: &Candidate<'_>, row: Row) -> Option<u16>
    ensures { result ≡ word_of (instruction_at (routine candidate.now) row) }
{
    let instruction = candidate.instruction(row)?;
    match instruction.family.transfer {
        Transfer::PutsWord => Some(instruction.operand.word()),
        Transfer::LoadsPointer | Transfer::Other => None,
    }
}

impl Layout<'_> {
    // Is a row the only one that leads to another? (Two rows, as the definitions name them: nothing else is made of the pair.)
    fn is_only_way(&self, to: Row, from: Row) -> bool
        ensures { result ≡ list_all (spares (routine self.now.candidate) to from) (routine self.now.candidate).rows }
    {
        self.candidate
            .rows()
            .all(|row| does_spare(&self.candidate, to, from, row))
    }

    // Does a row end where another starts, and no other row lead there?
    fn is_only_from(&self, to: Row, from: Row) -> bool
        ensures { result ≡ only_from (routine self.now.candidate) to from }
    {
        self.candidate.end(from) == u32::from(to.offset) && self.is_only_way(to, from)
    }
}

impl Visit<'_, '_> {
    // The word known on top of the data stack, from the row before.
    fn word(&self) -> Option<u16>
        ensures { result ≡ primed (routine self.now.layout.now.candidate) self.now.row }
    {
        let from = self.before?;
        // No `filter`: of its closure the check infers no answer.
        if self.layout.is_only_from(self.row, from) {
            word_put(&self.layout.candidate, from)
        } else {
            None
        }
    }

    // The pointers known after the instruction of the row, which is taken by value, so that it is known to have four.
    pub(crate) fn known_after(self, instruction: &Instruction) -> Pointers
        ensures { result ≡ seen (learns instruction.now (knows (routine self.entry.layout.now.candidate) self.entry.row)) }
    {
        let pointers = self.row.pointers;
        match instruction.family.transfer {
            Transfer::LoadsPointer => learn(pointers, instruction.number, self.word()),
            Transfer::Other | Transfer::PutsWord => pointers,
        }
    }
}
