// The entry that a node keeps of an accepted sheet.
ghost use Rattle.std.specs.Prelude.{◌≡◌, replicate, None};
ghost use Rattle.std.specs.List.{slice_get};
ghost use Rattle.records.specs.Routine.{routine};
ghost use Rattle.sheet.specs.Kept.{call_of, noted, calls_of, entry_of};

use crate::layout::Layout;
use crate::lead::flow_at;
use instruction::Flow;
use records::{Candidate, Entry, Row, Window};
use std::array;

// The origin that a row calls.
fn call_of(candidate: &Candidate<'_>, row: Row) -> Option<u16>
    ensures { result ≡ call_of (routine candidate.now) row }
{
    let instruction = candidate.instruction(row)?;
    match flow_at(&instruction, candidate.head.origin, row.offset) {
        Flow::Calls(target) => Some(target),
        Flow::Goes(_, _) | Flow::Returns => None,
    }
}

// Puts an origin at the first empty place, unless it stands there already.
fn note(places: &mut [Option<u16>], origin: u16)
    ensures { places.new ≡ noted places.old origin }
{
    let at = places
        .iter()
        .position(|place| place.is_none_or(|other| other == origin));
    if let Some(at) = at {
        places[at] = Some(origin);
    }
}

impl Layout<'_> {
    // The window with a number.
    fn window(&self, number: usize) -> Option<Window>
        ensures { result ≡ slice_get (routine self.now.candidate).windows number }
    {
        self.candidate.windows().nth(number)
    }

    // The origins that rows call, in the order of the first call.
    fn called(&self) -> [Option<u16>; 32]
        ensures { result ≡ calls_of (routine self.now.candidate) (replicate 32 None) (routine self.now.candidate).rows }
    {
        // In fixed memory, as the entry keeps them.
        let mut called = [None; 32];
        for row in self.candidate.rows() {
            if let Some(origin) = call_of(&self.candidate, row) {
                note(&mut called, origin);
            }
        }
        called
    }

    #[tactic(auto, unfolding(crate::specs::Kept::entry_of))]
    pub fn entry(&self) -> Entry
        ensures { result ≡ entry_of (routine self.now.candidate) }
    {
        let head = self.candidate.head;
        Entry {
            origin: head.origin,
            length: head.length,
            arguments: head.arguments,
            results: head.results,
            peak: head.peak,
            returns: head.returns,
            worst: head.worst,
            windows: array::from_fn(|number| self.window(number)),
            called: self.called(),
        }
    }
}
