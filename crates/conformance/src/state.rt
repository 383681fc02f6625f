// What a step leaves, in one form for both interpreters.
use crate::case::Case;
use crate::failure::Failure;
use machine::Code;
use std::alloc::Global;

// What is stepped: the state that a case describes, where a code stands.
#[derive(Clone, Copy)]
pub struct Trial<'a> {
    pub case: &'a Case,
    pub code: Code<'a>,
}

// The number of the question that was answered no, and the place that it was asked of. (A number, as each interpreter has a list of
// questions of its own.)
#[derive(Clone, Copy, PartialEq)]
pub struct Refused {
    pub number: u8,
    pub place: usize,
}

pub type Verdict = Result<(), Refused>;

#[derive(PartialEq, Drop)]
pub struct State {
    // Both stacks, the top byte last.
    pub stack: Vec<u8>,
    pub returns: Vec<u8>,
    pub registers: [u8; 16],
    pub pointers: [u16; 4],
    pub carry: bool,
    pub ip: u16,
    pub cycles: u32,
    pub cells: Vec<u8>,
    // The byte that each output keeps, in the order of `OUTPUTS`: both interpreters name the same, so the addresses are left out.
    pub outputs: Vec<Option<u8>>,
    // What the first input hands out next, if it can be read.
    pub sample: Option<u8>,
}

#[derive(PartialEq, Drop)]
pub struct Outcome {
    pub verdict: Verdict,
    pub state: State,
}

// An interpreter with its settings and its board.
pub(crate) trait Side: Drop + Sized {
    // In the state that a case describes.
    fn new(heap: Global, case: &Case) -> Result<Self, Failure>;

    fn step(&mut self, code: Code) -> Result<Verdict, Failure>;

    fn state(self, heap: Global) -> Result<State, Failure>;
}

// What one step from the trial's state leaves.
pub(crate) fn one_step<S: Side>(heap: Global, trial: Trial) -> Result<Outcome, Failure> {
    let mut side = S::new(heap, trial.case)?;
    let verdict = side.step(trial.code)?;
    Ok(Outcome {
        verdict,
        state: side.state(heap)?,
    })
}
