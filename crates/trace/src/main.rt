// Steps a routine and prints what each step did, and at the end the machine and its board.
#![tactic(auto)]

mod job;
mod run;

use job::{Job, NoJob};
use run::Run;
use std::io;
use std::io::Read;

fn trace(rt: &impl Print, job: Job) -> io::Result<()> {
    let mut run = Run::new(job.first, job.code, job.samples);
    run.steps(rt, job.steps)?;
    println!(rt; "{run}")
}

fn main(rt: HostRuntime) -> io::Result<()> {
    let heap = rt.alloc();
    let mut input = Vec::new(heap);
    rt.stdin().read_to_end(&mut input)?;
    match job::read(heap, input.as_slice()) {
        Ok(job) => trace(&rt, job),
        Err(NoJob::Bad(line)) => println!(rt; "{line}"),
        Err(NoJob::OutOfMemory(error)) => Err(error.into()),
    }
}
