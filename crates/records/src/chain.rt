// Chains of records.
ghost use Rattle.std.specs.Prelude.{◌≡◌, ◌<◌, ◌≤◌, length, IfSome, ⊤};
ghost use Rattle.std.specs.List.{AllByRecursion};
ghost use Rattle.std.specs.Iterator.{YieldsFirst, item_count, MakesProgress};
ghost use Rattle.records.specs.Records.{chain};
ghost use Rattle.records.specs.Reader.{ahead};

use crate::bytes::{byte_at, record_at};

// A record in a chain: its index, and the index of the record that holds this index.
#[derive(Clone, Copy)]
pub struct Link {
    pub holder: u8,
    pub index: u8,
}

// The links of a chain, one after another.
#[derive(Clone, Copy)]
pub struct Chain<'a> {
    sheet: &'a [u8],
    // Where its index is zero, the chain has ended: so the format of sheets has it.
    next: Link,
    left: u32,
}

// The most links that rising keys of 16 bits allow, and one more: a chain that has not been judged may go in a circle.
const LONGEST: u32 = 65537;

// Where the next index stands in a record.
const NEXT: usize = 9;

impl<'a> Chain<'a> {
    #[tactic(auto, using(crate::proofs::Along::length_links, crate::proofs::Along::links_past_head))]
    pub fn new(sheet: &'a [u8], first: u8) -> Chain<'a>
        ensures whole { ahead result ≡ chain sheet.now first }
        ensures sheet { result.sheet.now ≡ sheet.now }
        ensures left { result.left ≤ 65537 }
        ensures few { length (ahead result) ≤ 65537 }
        ensures indices { AllByRecursion (λ l. 0 < l.index) (ahead result) }
    {
        Chain {
            sheet,
            next: Link {
                holder: 0,
                index: first,
            },
            left: LONGEST,
        }
    }
}

impl Iterator for Chain<'_> {
    ghost use Rattle.std.specs.Iterator.{YieldsFirst, item_count};
    ghost use Rattle.records.specs.Reader.{ahead};

    type Item = Link;

    ghost next_gives = { YieldsFirst ahead };

    ghost remaining = { item_count ahead };

    #[tactic(auto, using(crate::proofs::Along::links_stop, crate::proofs::Along::links_none, crate::proofs::Along::links_turn))]
    fn next(&mut self) -> Option<Link>
        ensures steps { YieldsFirst ahead self.old result self.new }
        ensures goes { MakesProgress (λ _. ⊤) (item_count ahead) self.old result self.new }
        ensures sheet { self.new.sheet.now ≡ self.old.sheet.now }
        ensures left { IfSome result (λ _. self.new.left < self.old.left) }
        ensures indices { IfSome result (λ l. 0 < l.index) }
    {
        let link = self.next;
        if link.index == 0 || self.left == 0 {
            return None;
        }
        self.next = Link {
            holder: link.index,
            index: byte_at(record_at(self.sheet, link.index), NEXT),
        };
        self.left -= 1;
        Some(link)
    }
}
