// The table of rows by their offsets.
ghost use Rattle.std.specs.Prelude.{◌≡◌, ◌<◌, length, slice_index};
ghost use Rattle.records.specs.Records.{record_count, record_at, chain};
ghost use Rattle.records.specs.Routine.{routine};
ghost use Rattle.sheet.specs.Steps.{follower};
ghost use Rattle.sheet.specs.Layouts.{Locates, Read};

use super::Layout;
use records::{Candidate, Chain, Row, read_record};

// At each offset the index of the row that stands there, or zero.
fn locate(candidate: &Candidate<'_>) -> [u8; 1024]
    requires { Read candidate.now }
    ensures sized { length result ≡ 1024 }
    ensures located { Locates result candidate.now.sheet.now (chain candidate.now.sheet.now candidate.now.head.rows) }
{
    let links = Chain::new(candidate.sheet, candidate.head.rows);
    let mut table = [0; 1024];
    for (link, row) in links.zip(candidate.rows()) {
        table[usize::from(row.offset)] = link.index;
    }
    table
}

impl<'a> Layout<'a> {
    pub(crate) fn new(candidate: Candidate<'a>) -> Layout<'a>
        requires { Read candidate }
        ensures { result.candidate ≡ candidate.entry }
    {
        let table = locate(&candidate);
        Layout { candidate, table }
    }
}

impl Layout<'_> {
    // What the table has at an offset; past its end, zero.
    fn index_at(&self, offset: u16) -> u8
        ensures { result ≡ slice_index self.now.table offset }
    {
        self.table.get(usize::from(offset)).copied().unwrap_or(0)
    }

    // The row that stands at an address.
    pub(crate) fn row_at(&self, address: u16) -> Option<Row>
        ensures { result ≡ follower (routine self.now.candidate) address }
    {
        let offset = address.checked_sub(self.candidate.head.origin)?;
        let index = self.index_at(offset);
        // Zero: no row stands there.
        if index == 0 {
            return None;
        }
        Some(read_record::<Row>(self.candidate.sheet, index))
    }
}
