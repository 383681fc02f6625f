// One processor, its memory and ports, and a step of it, instruction by instruction.
#![tactic(auto)]

mod code;
mod fault;
mod memory;
mod model;
mod usage;

pub use fault::{Fault, Stop};
pub use memory::{Memory, Output};
pub use model::{Limits, Model};
