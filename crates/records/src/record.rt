// The one reader of chains, for every kind of record.
ghost use Rattle.std.specs.Prelude.{[], ◌∷◌, nat_lt, ◌≡◌, ℕ, suc, ◌<◌, ◌≤◌, List, length, None, Option, OnOk};
ghost use Rattle.refusal.specs.declared.Question.{Question};
ghost use Rattle.refusal.specs.Questions.{Asked, number, verdict_of, first_no, ask as asked};
ghost use Rattle.records.specs.Records.{record_count, record_at, chain, records, along};
ghost use Rattle.records.specs.Reader.{low, Rising};
ghost use Rattle.records.specs.Ground.{Ground, ground};

use crate::bytes::{record_at, record_count};
use crate::chain::{Chain, Link};
use crate::scene::Scene;
use board::Board;
use refusal::{Question, Refusal, ask};
use std::marker::{Model, PhantomData};

// A kind of record that forms chains. Its key rises along a chain, so every chain ends.
pub trait Record: Copy {
    // The question whether the index is below the number of records.
    const INDEX_QUESTION: Question;

    ghost INDEX_QUESTION: { Question };

    ghost reads: { List ℕ → Self };

    ghost key: { Self → ℕ };

    // What is asked of a record: of its number in the chain, its index, the record before and itself.
    ghost asks: { Ground → ℕ → ℕ → Option Self → Self → List Asked };

    fn read(bytes: &[u8]) -> Self
        ensures value { result ≡ reads bytes.now }
        ensures small { key result < 65536 };
}

// A kind of record that is judged against a scene.
pub trait Judged<B: Board>: Record {
    fn judge(
        self,
        scene: &Scene<'_, B>,
        nth: usize,
        place: u8,
        before: Option<Self>,
    ) -> Result<(), Refusal>
        ensures first { verdict_of result ≡ first_no (Self.Record.asks (ground B.Board.meaning scene.now) nth place before self) }
        ensures rises { OnOk result (low Self.Record.key before ≤ Self.Record.key self) };
}

// The record with an index.
pub fn read_record<K: Record>(sheet: &[u8], index: u8) -> K
    ensures value { result ≡ K.Record.reads (record_at sheet.now index) }
    ensures small { K.Record.key result < 65536 }
{
    K::read(record_at(sheet, index))
}

// The records along a chain, one after another: seen as the list of those to come.
#[derive(Drop)]
pub struct Records<'a, K: Record> {
    sheet: &'a [u8],
    links: Chain<'a>,
    kind: PhantomData<K>,
}

impl<'a, K: Record> Model for Records<'a, K> {
    ghost use Rattle.std.specs.Prelude.{List};
    ghost use Rattle.records.specs.Records.{records};
    ghost use Rattle.records.specs.Reader.{ahead};

    ghost Value = { List K };

    ghost view = { λ r. records K.Record.reads r.sheet.now (ahead r.links) };
}

impl<'a, K: Record> Records<'a, K> {
    pub(crate) fn new(sheet: &'a [u8], first: u8) -> Records<'a, K>
        ensures { result ≡ records K.Record.reads sheet.now (chain sheet.now first) }
    {
        Records {
            sheet,
            links: Chain::new(sheet, first),
            kind: PhantomData,
        }
    }
}

impl<'a, K: Record> Iterator for Records<'a, K> {
    ghost use Rattle.std.specs.Iterator.{YieldsFirst, item_count};

    type Item = K;

    ghost next_gives = { YieldsFirst (λ left. left) };

    ghost remaining = { item_count (λ left. left) };

    fn next(&mut self) -> Option<K> {
        let link = self.links.next()?;
        Some(read_record(self.sheet, link.index))
    }
}

// Asks whether the index of a link is below the number of records. A no names the record that holds the index.
fn ask_index<K: Record>(sheet: &[u8], link: Link) -> Result<(), Refusal>
    ensures { verdict_of result ≡ first_no (asked (number K.Record.INDEX_QUESTION) link.holder (nat_lt link.index (record_count sheet.now)) ∷ []) }
{
    let known = usize::from(link.index) < record_count(sheet);
    ask(K::INDEX_QUESTION, usize::from(link.holder), known)
}

// Walks a chain, and judges each record before the next.
#[tactic(auto, using(crate::proofs::Along::along_none, crate::proofs::Along::along_yes))]
pub fn walk<B: Board, K: Judged<B>>(scene: &Scene<'_, B>, first: u8) -> Result<(), Refusal>
    ensures first { verdict_of result ≡ first_no (along (number K.Record.INDEX_QUESTION) K.Record.reads (K.Record.asks (ground B.Board.meaning scene.now)) scene.now.candidate.sheet.now 0 None (chain scene.now.candidate.sheet.now first)) }
    ensures whole { OnOk result (length (chain scene.now.candidate.sheet.now first) < 65537) }
    ensures rising { OnOk result (Rising K.Record.key None (records K.Record.reads scene.now.candidate.sheet.now (chain scene.now.candidate.sheet.now first))) }
{
    let sheet = scene.candidate.sheet;
    // A fold would carry the same record, with a closure around each `?`.
    let mut before = None;
    for (nth, link) in Chain::new(sheet, first).enumerate() {
        ask_index::<K>(sheet, link)?;
        let this: K = read_record(sheet, link.index);
        this.judge(scene, nth, link.index, before)?;
        before = Some(this);
    }
    Ok(())
}
