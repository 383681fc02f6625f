// What the programs read and print: numbers, instructions, and a machine and its board as text.
#![tactic(auto)]

mod argument;
mod disassembly;
mod numbers;
mod show;

pub use argument::{NoCount, count_argument};
pub use disassembly::{Disassembly, Encoding, Pattern};
pub use numbers::{bytes, decimal, word};
pub use show::{Cell, NonzeroCells, Numbers, Progress, TopFirst};
