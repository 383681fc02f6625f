// Whether a sheet is fitted: one line, `FIT` and the worst cycles, or the refusal.
#![tactic(auto)]

use fitting::{LONGEST, Verdict, fit};
use std::io;
use std::io::Read;

fn main(rt: HostRuntime) -> io::Result<()> {
    let mut input = Vec::new(rt.alloc());
    rt.stdin().take(LONGEST as u64).read_to_end(&mut input)?;
    let verdict = Verdict(fit(input.as_slice()));
    println!(rt; "{verdict}")
}
