// Steps two interpreters that were written independently of each other from equal states, and says whether they leave equal
// states.
#![tactic(auto)]

mod axis;
mod case;
mod extras;
mod failure;
mod layout;
mod machine_side;
mod model_side;
mod report;
mod rows;
mod show;
mod state;
mod tally;

use failure::Failure;

fn main(rt: HostRuntime) -> Result<(), Failure> {
    report::run(&rt)
}
