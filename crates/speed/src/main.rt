// Times the machine on two routines. The argument is the number of steps of each, and the time is printed too; without it a few
// thousand steps are done, and what is printed is the same on every machine.
#![tactic(auto)]

use board::{Board, Cells, Ports, Split};
use machine::{Code, Machine, Settings};
use std::alloc::Global;
use std::env;
use std::time::Instant;
use text::count_argument;

const FIRST: u16 = 0x4000;

// Fifteen instructions without memory or branches; the straight routine has them sixty-four times.
const BLOCK: &[u8; 18] =
    b"\xb4\x05\xb4\x07\x50\x3d\xa4\xb6\x53\x3e\xc8\x88\xa4\x58\x11\x52\xe4\x20";

// A loop of three rounds, each of which reads a port, adds a byte from memory, keeps the sum in memory and writes it to an output;
// then a table look-up, two short branches, and back to the start.
const LOOP: &[u8; 36] = b"\
    \xb5\x50\x00\xf0\x83\xc8\
    \xb7\xc0\x00\x98\x00\x50\xa4\xd8\x01\xf7\xc0\x04\x88\x3f\xa4\xc8\x72\xee\
    \x81\x40\x82\x9c\xe4\xe4\x80\x41\x3d\x20\x71\xdc";

// Cells below h'8000, and a port of each kind above: the benchmark's own, as its settings are.
fn board(heap: Global) -> Split<Cells, Ports> {
    Split {
        lower: Cells::new(0x5000, 512).unwrap(),
        upper: Ports::new(&[0xC000], &[0xC004], Vec::new(heap)).unwrap(),
        boundary: 0x8000,
    }
}

// So many steps; where no instruction is left, it begins again. It is not inlined, so that no change around it changes the loop.
#[inline(never)]
fn spin<B: Board>(settings: &Settings, bytes: &[u8], steps: u32, board: &mut B) -> Machine {
    let code = Code {
        bytes,
        first: FIRST,
    };
    let mut machine = Machine::new(FIRST);
    for _ in 0..steps {
        if machine.step(settings, code, board).is_err() {
            machine.ip = FIRST;
        }
    }
    machine
}

// The settings of each run, and the number of its steps where one was asked for.
#[derive(Clone, Copy)]
struct Benchmark {
    settings: Settings,
    asked: Option<u32>,
}

impl Benchmark {
    // Steps the code, and prints what it came to and, if a number of steps was asked for, how long it took.
    fn measure(&self, rt: &HostRuntime, name: &str, code: &[u8]) -> anyhow::Result<()> {
        let mut board = board(rt.alloc());
        let steps = self.asked.unwrap_or(4000);
        let start = Instant::now(rt)?;
        let machine = spin(&self.settings, code, steps, &mut board);
        let nanoseconds = start.elapsed(rt)?.as_nanos();
        let cycles = machine.cycles;
        let ip = machine.ip;
        print!(rt; "{name}: {steps} steps, {cycles} cycles, at {ip:04X}")?;
        // In two pieces, as the time is no part of what is compared. (Program `sheetspeed` ends so too: a function of both would be
        // handed all that is printed.)
        if self.asked.is_some() {
            print!(rt; ", {nanoseconds} ns")?;
        }
        println!(rt; "")?;
        Ok(())
    }
}

fn main(rt: HostRuntime) -> anyhow::Result<()> {
    // The benchmark's own settings, written here so that it needs none of the crates of claim sheets.
    let benchmark = Benchmark {
        settings: Settings::new(0xE000, 0x4000, 0x4FFF, 64, 32, 0).unwrap(),
        asked: count_argument(env::args(&rt)?.nth(1), "steps")?,
    };
    let straight = BLOCK.as_slice().repeat(rt.alloc(), 64)?;
    benchmark.measure(&rt, "straight", straight.as_slice())?;
    benchmark.measure(&rt, "branches", LOOP)
}
