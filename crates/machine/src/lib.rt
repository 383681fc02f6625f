// The machine: two stacks, registers, pointers, and one step of an instruction.
#![tactic(auto)]

mod access;
mod apply;
mod code;
mod effects;
mod laws;
mod settings;
mod stack;
mod state;
mod step;

pub use access::Access;
pub use code::Code;
pub use laws::{depth_law, frame_law};
pub use settings::Settings;
pub use stack::Stack;
pub use state::Machine;
