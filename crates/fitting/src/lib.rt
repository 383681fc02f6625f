// A code and its sheet as one input, fitted to the planner's node.
#![tactic(auto)]

ghost use Rattle.std.specs.Prelude.{◌≡◌};
ghost use Rattle.board.specs.Cells.{NewCells};
ghost use Rattle.machine.specs.Settings.{SetTo};
ghost use Rattle.fitting.specs.Input.{looked_at, code_of, sheet_of, code_in, sheet_in};
ghost use Rattle.fitting.specs.Planner.{Planned};

use board::Cells;
use machine::Settings;
use records::Entry;
use refusal::Refusal;
use sheet::examine;

mod verdict;

pub use verdict::Verdict;

// The base page at h'E000, the code area from h'4000 to h'4FFF, limits 64 and 32, and the fill byte 0.
pub fn settings() -> Settings
    ensures { SetTo 0xE000 0x4000 0x4FFF 64 32 0 result }
{
    Settings::new(0xE000, 0x4000, 0x4FFF, 64, 32, 0).unwrap()
}

// Cells from h'5000 to h'51FF.
pub fn cells() -> Cells
    ensures { NewCells 0x5000 512 result }
{
    Cells::new(0x5000, 512).unwrap()
}

// No more bytes of an input are looked at.
pub const LONGEST: usize = 5634;

#[tactic(auto, using(std::proofs::lemmas::List::take_min))]
fn looked_at(input: &[u8]) -> &[u8]
    ensures { result.now ≡ looked_at input.now }
{
    &input[..LONGEST.min(input.len())]
}

// The code and the sheet. Two bytes say how long the code is; where they are missing, or less code stands there than they
// say, the sheet is empty.
fn parts(input: &[u8]) -> (&[u8], &[u8])
    ensures code { result.0.now ≡ code_of input.now }
    ensures sheet { result.1.now ≡ sheet_of input.now }
{
    let [high, low, rest @ ..] = input else {
        return (&[], &[]);
    };
    let length = usize::from(u16::from_be_bytes([*high, *low]));
    rest.split_at(length.min(rest.len()))
}

// The code and the sheet of an input.
pub fn split(input: &[u8]) -> (&[u8], &[u8])
    ensures code { result.0.now ≡ code_in input.now }
    ensures sheet { result.1.now ≡ sheet_in input.now }
{
    parts(looked_at(input))
}

// Whether the sheet of an input is fitted, where nothing else is: the entry, or the first question that is answered no.
pub fn fit(input: &[u8]) -> Result<Entry, Refusal>
    ensures { Planned input.now result }
{
    let (code, sheet) = split(input);
    examine(&settings(), &[], &cells(), code, sheet)
}
