// The instructions: one table of families, and what is read off it before anything runs. The machine and the check of claim
// sheets both read this table.
#![tactic(auto)]

mod control;
mod decoding;
mod reach;
mod table;

pub use control::Flow;
pub use decoding::{Instruction, Operand, decode, find};
pub use reach::{MemoryOperand, Target};
pub use table::{Distance, FAMILIES, Family, Kind, Memory, Op, Place, Transfer, Turn};
