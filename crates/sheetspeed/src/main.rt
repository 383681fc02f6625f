// Times the examination of the sheet on standard input. The argument is the number of examinations, and the time of one is
// printed too; without it a few are done, and what is printed is the same on every machine.
#![tactic(auto)]

use board::Cells;
use fitting::{cells, settings, split};
use machine::Settings;
use sheet::examine;
use std::env;
use std::io::Read;
use std::time::Instant;
use text::count_argument;

// So many examinations: how many of them accept, and the worst cycles of those together, modulo 2^32.
// (It takes what `examine` takes.)
fn spin(settings: &Settings, board: &Cells, code: &[u8], sheet: &[u8], times: u32) -> (u32, u32) {
    (0..times)
        .filter_map(|_| examine(settings, &[], board, code, sheet).ok())
        .fold((0u32, 0u32), |(fitted, worst), entry| {
            (fitted.wrapping_add(1), worst.wrapping_add(entry.worst))
        })
}

fn main(rt: HostRuntime) -> anyhow::Result<()> {
    let mut input = Vec::new(rt.alloc());
    rt.stdin().read_to_end(&mut input)?;
    let (code, sheet) = split(input.as_slice());
    let settings = settings();
    let board = cells();
    let asked = count_argument(env::args(&rt)?.nth(1), "examinations")?;
    let times = asked.unwrap_or(100);
    let start = Instant::now(&rt)?;
    let (fitted, worst) = spin(&settings, &board, code, sheet, times);
    let nanoseconds = start.elapsed(&rt)?.as_nanos();
    print!(rt; "{times} examinations, {fitted} fitted, worst {worst}")?;
    // In two pieces, as the time is no part of what is compared. (Program `speed` ends so too: a function of both would be handed
    // all that is printed.)
    if asked.is_some() {
        print!(rt; ", {nanoseconds} ns")?;
    }
    println!(rt; "")?;
    Ok(())
}
