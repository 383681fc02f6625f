// Claim sheets: whether a sheet is fitted, and what a node keeps of it.
#![tactic(auto)]

mod call;
mod follow;
mod keep;
mod layout;
mod lead;
mod memory;
mod pointers;
mod step;
mod verdict;
mod visit;

pub use verdict::examine;
