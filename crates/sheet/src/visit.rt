// A row that is judged.
ghost use Rattle.std.specs.Prelude.{◌≡◌};
ghost use Rattle.std.proofs.Props.{props};
ghost use Rattle.records.specs.Routine.{routine};
ghost use Rattle.sheet.specs.Leads.{word_from, primed};

use crate::layout::Layout;
use records::{Entry, Row};
use refusal::{Question, Refusal};

// A row of a layout, at the index of its record, with the row before it in the chain and what is fitted already.
#[derive(Clone, Copy)]
pub struct Visit<'v, 'a> {
    pub layout: &'v Layout<'a>,
    pub fitted: &'v [Entry],
    pub place: u8,
    pub before: Option<Row>,
    pub row: Row,
    // The word that is known on top here is what the row before may put there.
    ghost primed: { primed (routine layout.now.candidate) row ≡ word_from (routine layout.now.candidate) row before } by { Prim.hlevel props },
}

impl Visit<'_, '_> {
    // A refusal at the row.
    pub(crate) fn refusal(&self, question: Question) -> Refusal
        ensures { result ≡ record { question = question; place = self.now.place } }
    {
        Refusal {
            question,
            place: usize::from(self.place),
        }
    }
}
