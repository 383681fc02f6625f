// Cases that were compared, and the first of them at which the interpreters differ.
use crate::case::Case;
use crate::failure::Failure;
use crate::machine_side::MachineSide;
use crate::model_side::ModelSide;
use crate::state::{Outcome, Refused, Side, State, Trial, one_step};
use refusal::Question;
use std::alloc::Global;

// What both interpreters leave.
#[derive(Drop)]
pub struct Pair {
    pub machine: Outcome,
    pub model: Outcome,
}

impl Pair {
    // One step of each, from the trial's state.
    fn step(heap: Global, trial: Trial) -> Result<Pair, Failure> {
        Ok(Pair {
            machine: one_step::<MachineSide>(heap, trial)?,
            model: one_step::<ModelSide>(heap, trial)?,
        })
    }
}

// A case at which the two differ, or do not refuse as expected.
#[derive(Drop)]
pub struct Difference {
    pub case: Case,
    // The code's first address and size, and its bytes at the instruction address.
    pub first: u16,
    pub size: usize,
    pub bytes: Vec<u8>,
    pub before: State,
    pub after: Pair,
}

// How many cases were compared, and at how many of them the two differ.
#[derive(Clone, Copy, Default)]
pub struct Counts {
    pub cases: u64,
    pub different: u64,
}

impl Counts {
    pub(crate) fn add(&mut self, others: Counts) {
        self.cases = self.cases.saturating_add(others.cases);
        self.different = self.different.saturating_add(others.different);
    }
}

#[derive(Default, Drop)]
pub struct Tally {
    pub counts: Counts,
    pub example: Option<Difference>,
}

impl Tally {
    // Counts a trial, and keeps the first at which the two are not as they should be. (The allocator is passed along, as the library
    // does, and kept nowhere.)
    fn count(
        &mut self,
        heap: Global,
        trial: Trial,
        after: Pair,
        right: bool,
    ) -> Result<(), Failure> {
        self.counts.add(Counts {
            cases: 1,
            different: u64::from(!right),
        });
        if right || self.example.is_some() {
            return Ok(());
        }
        let Trial { case, code } = trial;
        let offset = usize::from(case.ip.wrapping_sub(code.first));
        let here = code.bytes.iter().skip(offset).take(3);
        self.example = Some(Difference {
            case: *case,
            first: code.first,
            size: code.bytes.len(),
            bytes: here.copied().collect(heap)?,
            before: MachineSide::new(heap, case)?.state(heap)?,
            after,
        });
        Ok(())
    }

    // Steps both, and compares all that they leave.
    pub fn compare(&mut self, heap: Global, trial: Trial) -> Result<(), Failure> {
        let after = Pair::step(heap, trial)?;
        let right = after.machine == after.model;
        self.count(heap, trial, after, right)
    }

    // The same where no instruction stands: both are to say so, and to leave all as it was.
    pub fn compare_refused(&mut self, heap: Global, trial: Trial) -> Result<(), Failure> {
        let expected = Outcome {
            verdict: Err(Refused {
                number: Question::NoInstruction.number(),
                place: usize::from(trial.case.ip),
            }),
            state: MachineSide::new(heap, trial.case)?.state(heap)?,
        };
        let after = Pair::step(heap, trial)?;
        let right = after.machine == expected && after.model == expected;
        self.count(heap, trial, after, right)
    }
}
