// The head, and what is asked of it.
ghost use Rattle.std.specs.Prelude.{◌≡◌, ◌+◌, ◌≤◌, length};
ghost use Rattle.std.specs.List.{list_all};
ghost use Rattle.refusal.specs.Questions.{verdict_of, first_no};
ghost use Rattle.records.specs.Read.{read_head};
ghost use Rattle.records.specs.Routine.{routine, digest_of, digests_of};
ghost use Rattle.records.specs.Ground.{ground};
ghost use Rattle.records.specs.Heads.{whole_records, sized_as, few_parameters, in_area, apart, head_asks};

use crate::bytes::{byte_at, long_at, word_at};
use crate::entry::Entry;
use crate::scene::{Candidate, Scene};
use board::Board;
use machine::Settings;
use refusal::{Question, Refusal, ask};

// Record 0: the slot that the routine is to have, what it takes and leaves, its peaks, its worst cycles, and the indices of
// its first row and its first window.
#[derive(Clone, Copy)]
pub struct Head {
    pub origin: u16,
    pub length: u16,
    pub arguments: u8,
    pub results: u8,
    pub peak: u8,
    pub returns: u8,
    pub worst: u32,
    // Zero where there is none, as the format of sheets has it.
    pub rows: u8,
    pub windows: u8,
}

// Is the sheet 2 to 256 whole records?
pub fn is_whole(sheet: &[u8]) -> bool
    ensures { result ≡ whole_records sheet.now }
{
    sheet.len() % 18 == 0 && (36..=4608).contains(&sheet.len())
}

impl Head {
    pub fn read(bytes: &[u8]) -> Head
        ensures { result ≡ read_head bytes.now }
    {
        Head {
            origin: word_at(bytes, 0),
            length: word_at(bytes, 2),
            arguments: byte_at(bytes, 4),
            results: byte_at(bytes, 5),
            peak: byte_at(bytes, 6),
            returns: byte_at(bytes, 7),
            worst: long_at(bytes, 8),
            rows: byte_at(bytes, 12),
            windows: byte_at(bytes, 13),
        }
    }
}

// The address past a slot.
fn past(origin: u16, length: u16) -> u32
    ensures { result ≡ origin + length }
{
    u32::from(origin) + u32::from(length)
}

impl Candidate<'_> {
    // Is the code 1 to 1,024 bytes, as the head says?
    #[tactic(auto, unfolding(crate::specs::Heads::sized_as))]
    fn is_sized(&self) -> bool
        ensures { result ≡ sized_as (routine self.now) }
    {
        usize::from(self.head.length) == self.code.len() && (1..=1024).contains(&self.head.length)
    }

    // Are arguments and results at most 64, and at most the data peak?
    #[tactic(auto, unfolding(crate::specs::Heads::few_parameters))]
    fn has_few_parameters(&self) -> bool
        ensures { result ≡ few_parameters (routine self.now) }
    {
        let head = self.head;
        head.arguments <= 64
            && head.results <= 64
            && head.arguments <= head.peak
            && head.results <= head.peak
    }

    #[tactic(auto, unfolding(crate::specs::Heads::in_area))]
    fn is_in_area(&self, settings: &Settings) -> bool
        ensures { result ≡ in_area settings.now (routine self.now) }
    {
        let end = past(self.head.origin, self.head.length);
        settings.first <= self.head.origin && end <= u32::from(settings.last) + 1
    }

    fn is_apart(&self, entry: &Entry) -> bool
        ensures { result ≡ apart (routine self.now) (digest_of entry.now) }
    {
        let end = past(self.head.origin, self.head.length);
        end <= u32::from(entry.origin)
            || past(entry.origin, entry.length) <= u32::from(self.head.origin)
    }

    // Is it clear of every fitted routine?
    fn is_clear(&self, fitted: &[Entry]) -> bool
        ensures { result ≡ list_all (apart (routine self.now)) (digests_of fitted.now) }
    {
        fitted.iter().all(|entry| self.is_apart(entry))
    }
}

impl<B: Board> Scene<'_, B> {
    // Asks of the head.
    #[tactic(auto, unfolding(crate::specs::Heads::head_asks))]
    pub fn judge_head(&self) -> Result<(), Refusal>
        ensures { verdict_of result ≡ first_no (head_asks (ground B.Board.meaning self.now)) }
    {
        let candidate = self.candidate;
        ask(Question::CodeSize, 0, candidate.is_sized())?;
        let few = candidate.has_few_parameters();
        ask(Question::ParameterBytes, 0, few)?;
        let inside = candidate.is_in_area(self.settings);
        ask(Question::OutsideArea, 0, inside)?;
        ask(Question::Overlap, 0, candidate.is_clear(self.fitted))?;
        ask(Question::TooMany, 0, self.fitted.len() < 32)
    }
}
