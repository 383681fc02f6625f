// What is to be traced: the first address, the code, the samples that the ports hand out, and the greatest number of steps.
use std::alloc::{AllocError, Global};
use std::fmt;
use text::{bytes, decimal, word};
use thiserror::Error;

#[derive(Drop)]
pub struct Job {
    pub first: u16,
    pub code: Vec<u8>,
    pub samples: Vec<u8>,
    pub steps: u32,
}

// The lines of a job, and what stands after them.
#[derive(Clone, Copy, Debug)]
pub enum Line {
    First,
    Code,
    Samples,
    Steps,
    Rest,
}

// A line that cannot be read, with its number and what it should have been. (By hand, so that the words that all begin with stand
// once.)
impl fmt::Display for Line {
    fn fmt<W: fmt::Write>(&self, f: &mut fmt::Formatter<W>) -> fmt::Result {
        let (number, wanted) = match self {
            Line::First => (1, "a first address of one to four hexadecimal digits"),
            Line::Code => (2, "a code of bytes with two hexadecimal digits each"),
            Line::Samples => (3, "samples of bytes with two hexadecimal digits each"),
            Line::Steps => (4, "a greatest number of steps, in decimal, below 2^32"),
            Line::Rest => (5, "nothing more"),
        };
        write!(f, "bad input: line {number}: {wanted}")
    }
}

// Why there is no job.
#[derive(Clone, Copy, Debug, Error)]
pub enum NoJob {
    #[error("{0}")]
    Bad(#[from] Line),
    #[error("no memory is left")]
    OutOfMemory(#[from] AllocError),
}

// Reads the four lines, without the blanks around each. A missing line is an empty one.
pub fn read(heap: Global, text: &[u8]) -> Result<Job, NoJob> {
    let mut lines = text
        .splitn(5, |byte| *byte == b'\n')
        .map(|line| line.trim_ascii());
    let mut line = || lines.next().unwrap_or_default();
    let first = word(line()).ok_or(Line::First)?;
    let code = bytes(heap, line())?.ok_or(Line::Code)?;
    let samples = bytes(heap, line())?.ok_or(Line::Samples)?;
    let steps = decimal(line()).ok_or(Line::Steps)?;
    if !line().is_empty() {
        return Err(NoJob::Bad(Line::Rest));
    }
    Ok(Job {
        first,
        code,
        samples,
        steps,
    })
}
