// Prints a code and its sheet for a person: the head, the windows, the rows with their instructions, and the verdict. Where the
// sheet is refused, the record at which the first no was said is marked.
#![tactic(auto)]

mod listing;
mod question;

use fitting::LONGEST;
use listing::Listing;
use std::io;
use std::io::Read;

fn main(rt: HostRuntime) -> io::Result<()> {
    let mut input = Vec::new(rt.alloc());
    rt.stdin().take(LONGEST as u64).read_to_end(&mut input)?;
    let listing = Listing::new(input.as_slice());
    println!(rt; "{listing}")
}
