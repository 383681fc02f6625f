// What a call asks, and what it answers where it refuses: the question that was answered no, and its place.
#![tactic(auto)]

ghost use Rattle.std.specs.Prelude.{◌≡◌, [], ◌∷◌, Some};
ghost use Rattle.refusal.specs.Questions.{number, verdict_of, first_no, ask as asked, spelt};

use std::fmt;

// The questions of all calls, by what is wrong where the answer is no. Each has its fixed number.
#[derive(Clone, Copy, PartialEq, Eq, Debug)]
pub enum Question {
    // Settings.
    BasePage = 1,
    CodeArea = 2,
    StackLimits = 3,
    // Making a board.
    BoardShape = 4,
    // A claim sheet: its size and its head.
    SheetSize = 10,
    CodeSize = 11,
    ParameterBytes = 12,
    OutsideArea = 13,
    Overlap = 14,
    TooMany = 15,
    // Each of its windows.
    WindowIndex = 20,
    WindowShape = 21,
    WindowCount = 22,
    WindowReserved = 23,
    WindowDenied = 24,
    // Each of its rows, and the first.
    RowIndex = 30,
    RowOffset = 31,
    RowInstruction = 32,
    RowBounds = 33,
    FirstRow = 34,
    // Each row with what it needs and reaches, and with the rows that follow it.
    RowShort = 40,
    OutsideWindows = 41,
    CalleeMissing = 42,
    CalleeMisfit = 43,
    ReturnMisfit = 44,
    FollowerMissing = 45,
    FollowerDepths = 46,
    FollowerCycles = 47,
    FollowerPointers = 48,
    // One step of the machine, and an access to a board.
    NoInstruction = 70,
    DataShort = 71,
    ReturnShort = 72,
    DataFull = 73,
    ReturnFull = 74,
    AccessDenied = 75,
}

impl Question {
    pub fn number(self) -> u8
        ensures { result ≡ number self }
    {
        // The discriminant itself: `From<Question>` for `u8` would say the same twice.
        self as u8
    }
}

// The first question that was answered no, and the place that it was asked of.
#[derive(Clone, Copy, PartialEq, Eq, Debug)]
pub struct Refusal {
    pub question: Question,
    pub place: usize,
}

impl fmt::Display for Refusal {
    ghost output = { λ x. Some (spelt x) };

    fn fmt<W: fmt::Write>(&self, f: &mut fmt::Formatter<W>) -> fmt::Result {
        write!(f, "NO {} AT {}", self.question.number(), self.place)
    }
}

// Goes on where the answer is yes, and refuses otherwise.
pub fn ask(question: Question, place: usize, answer: bool) -> Result<(), Refusal>
    ensures { verdict_of result ≡ first_no (asked (number question) place answer ∷ []) }
{
    // Plainer than `then_some` and `ok_or`.
    if answer {
        Ok(())
    } else {
        Err(Refusal { question, place })
    }
}
