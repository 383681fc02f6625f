// Windows: addresses that a routine may read or write.
ghost use Rattle.std.specs.Prelude.{◌≡◌, suc, ◌≤◌, T, OnOk};
ghost use Rattle.refusal.specs.declared.Question.TheVariants.{WindowIndex};
ghost use Rattle.refusal.specs.Questions.{verdict_of, first_no};
ghost use Rattle.records.specs.Read.{right_of, read_window};
ghost use Rattle.records.specs.Reader.{low};
ghost use Rattle.records.specs.Routine.{routine};
ghost use Rattle.records.specs.Ground.{ground};
ghost use Rattle.records.specs.Windows.{above, shaped, clear_of, unreserved, window_asks};

use crate::bytes::{byte_at, word_at};
use crate::record::{Judged, Record, Records};
use crate::scene::{Candidate, Scene};
use board::{Board, Right};
use machine::Settings;
use refusal::{Question, Refusal, ask};

#[derive(Clone, Copy)]
pub struct Window {
    pub first: u16,
    pub last: u16,
    // The byte of the record: 1 to read, 2 to write, 3 both. Any other names no right, and such a window is refused.
    pub right: u8,
}

impl Window {
    // The right that its byte names. (No `TryFrom`: the numbers are those of a record, and not the board's.)
    pub fn named_right(&self) -> Option<Right>
        ensures { result ≡ right_of self.now.right }
    {
        match self.right {
            1 => Some(Right::Read),
            2 => Some(Right::Write),
            3 => Some(Right::Both),
            _ => None,
        }
    }

    fn is_above(&self, before: Option<Window>) -> bool
        ensures { result ≡ above before self.now }
    {
        before.is_none_or(|b| b.last < self.first)
    }

    #[tactic(auto, unfolding(crate::specs::Windows::shaped))]
    fn is_shaped(&self, before: Option<Window>) -> bool
        ensures value { result ≡ shaped before self.now }
        ensures rises { T result → low (λ (w : Window). w.last) before ≤ self.now.last }
    {
        self.first <= self.last && self.named_right().is_some() && self.is_above(before)
    }

    // The two ends come from settings, which keep them apart.
    fn is_clear_of(&self, first: u16, last: u16) -> bool
        ensures { result ≡ clear_of first last self.now }
    {
        self.last < first || last < self.first
    }

    // Is it clear of the base page and the code area?
    #[tactic(auto, unfolding(crate::specs::Windows::unreserved))]
    fn is_unreserved(&self, settings: &Settings) -> bool
        ensures { result ≡ unreserved settings.now self.now }
    {
        self.is_clear_of(settings.page, settings.page + 255)
            && self.is_clear_of(settings.first, settings.last)
    }
}

impl<'a> Candidate<'a> {
    // The windows, in the order of their chain.
    pub fn windows(&self) -> Records<'a, Window>
        ensures { result ≡ (routine self.now).windows }
    {
        Records::new(self.sheet, self.head.windows)
    }
}

impl Record for Window {
    const INDEX_QUESTION: Question = Question::WindowIndex;

    ghost INDEX_QUESTION = { WindowIndex };

    ghost reads = { read_window };

    ghost key = { λ w. w.last };

    ghost asks = { window_asks };

    fn read(bytes: &[u8]) -> Window {
        Window {
            first: word_at(bytes, 0),
            last: word_at(bytes, 2),
            right: byte_at(bytes, 4),
        }
    }
}

impl<B: Board> Judged<B> for Window {
    fn judge(
        self,
        scene: &Scene<'_, B>,
        nth: usize,
        place: u8,
        before: Option<Window>,
    ) -> Result<(), Refusal>
        ensures first { verdict_of result ≡ first_no (window_asks (ground B.Board.meaning scene.now) nth place before self) }
        ensures rises { OnOk result (low (λ (w : Window). w.last) before ≤ self.last) }
    {
        let place = usize::from(place);
        ask(Question::WindowShape, place, self.is_shaped(before))?;
        ask(Question::WindowCount, place, nth < 8)?;
        let unreserved = self.is_unreserved(scene.settings);
        ask(Question::WindowReserved, place, unreserved)?;
        // A window that gets here names a right; of any other both would be asked.
        let right = self.named_right().unwrap_or(Right::Both);
        let may = scene.board.may(right, self.first, self.last);
        ask(Question::WindowDenied, place, may)
    }
}
