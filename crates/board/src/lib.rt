// A board: the memory and the ports that a machine's memory operands go to. Its `meaning` says what an access answers and
// changes, its law is what every board keeps, and code over a board is proved against the two.
#![tactic(auto)]

ghost use Rattle.std.specs.Prelude.{◌≡◌, if◌then◌else◌, Ok, Err};
ghost use Rattle.board.specs.Meaning.{Meaning, Lawful, answer, spans, denied};

use refusal::{Question, Refusal};

mod cells;
mod ports;
mod split;

pub use cells::Cells;
pub use ports::Ports;
pub use split::Split;

// What may be done at an address.
#[derive(Clone, Copy, PartialEq, Eq, Debug)]
pub enum Right {
    Read,
    Write,
    Both,
}

pub trait Board {
    ghost meaning: { Meaning Self };

    // Whether every address from the first to the last has the right. Where the first is past the last there is none, and
    // the answer is yes. (Two addresses, as records and settings have them: a range would be taken apart at each use.)
    fn may(&self, right: Right, first: u16, last: u16) -> bool
        ensures { result ≡ spans meaning self.now right first last };

    // Reads a byte. A refused read changes nothing.
    fn read(&mut self, at: u16) -> Result<u8, Refusal>
        ensures value { result ≡ (if meaning.readable self.old at then Ok (answer meaning self.old at) else Err (denied at)) }
        ensures after { self.new ≡ (if meaning.readable self.old at then meaning.after_read self.old at else self.old) };

    // Writes a byte. A refused write changes nothing.
    fn write(&mut self, at: u16, byte: u8) -> Result<(), Refusal>
        ensures value { result ≡ (if meaning.writable self.old at then Ok tt else Err (denied at)) }
        ensures after { self.new ≡ (if meaning.writable self.old at then meaning.after_write self.old at byte else self.old) };

    ghost lawful: { Lawful meaning };
}

// The refusal of an access to an address.
pub fn denied(at: u16) -> Refusal
    ensures { result ≡ denied at }
{
    Refusal {
        question: Question::AccessDenied,
        place: usize::from(at),
    }
}
