// A candidate with a table of its rows.
ghost use Rattle.std.specs.Prelude.{◌≡◌, length};
ghost use Rattle.std.proofs.Props.{props};
ghost use Rattle.sheet.specs.Layouts.{Laid, rising-prop, low-prop};

use records::Candidate;

mod table;

#[derive(Clone, Copy)]
pub struct Layout<'a> {
    pub candidate: Candidate<'a>,
    // At each offset the index of the row that stands there, or zero, which ends a chain: a byte for each, in fixed memory.
    table: [u8; 1024],
    ghost sized: { length table ≡ 1024 },
    ghost laid: { Laid candidate table } by { Prim.hlevel (rising-prop, low-prop, props) },
}
