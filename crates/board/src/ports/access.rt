ghost use Rattle.std.specs.Prelude.{◌≡◌, ℕ, [], ◌∷◌, IfOk, if◌then◌else◌, Some, Ok, Err, OnOk, nat_eq, ◌<◌, ◌≤◌, true, false, length, MatchOption};
ghost use Rattle.std.specs.List.{position_or_len, list_any};
ghost use Rattle.refusal.specs.Questions.{verdict_of, first_no, ask as asked};
ghost use Rattle.board.specs.Meaning.{allowed, denied};
ghost use Rattle.board.specs.Addresses.{contains, distinct};
ghost use Rattle.board.specs.Ports.{is_at, ports_meaning, ports_fit, NewPorts, latest_of};
ghost use Rattle.board.specs.Outputs.{same_addresses};
ghost use Rattle.std.proofs.Common.{rules};

use super::{Output, Ports};
use crate::{Board, Right, denied};
use arrayvec::ArrayVec;
use refusal::{Question, Refusal};
use std::collections::VecDeque;

// Whether no address stands twice.
fn is_distinct(list: &[u16]) -> bool
    ensures { result ≡ distinct list.now }
{
    list.iter()
        .enumerate()
        .all(|(i, at)| !list[..i].contains(at))
}

impl Ports {
    // Ports at the given addresses, all outputs zero, that hand out the samples.
    pub fn new(inputs: &[u16], outputs: &[u16], samples: Vec<u8>) -> Result<Ports, Refusal>
        ensures verdict { verdict_of result ≡ first_no (asked 4 0 (ports_fit inputs.now outputs.now) ∷ []) }
        ensures made { IfOk result (λ p. NewPorts inputs.now outputs.now samples p) }
    {
        // One refusal for the three questions: `ask` would make it anew for the first.
        let refusal = Refusal {
            question: Question::BoardShape,
            place: 0,
        };
        if !is_distinct(outputs) {
            return Err(refusal);
        }
        let inputs = ArrayVec::try_from(inputs).map_err(|_| refusal)?;
        // A loop: `collect` wants an allocator that it leaves unused, and says nothing of a list that is too long.
        let mut silent = ArrayVec::new();
        for &at in outputs {
            silent
                .try_push(Output { at, latest: 0 })
                .map_err(|_| refusal)?;
        }
        Ok(Ports {
            inputs,
            outputs: silent,
            samples: VecDeque::from_vec(samples),
        })
    }

    // The byte that an output keeps.
    pub fn latest(&self, at: u16) -> Option<u8>
        ensures value { result ≡ latest_of self.now at }
        ensures few_inputs { length self.now.inputs ≤ 16 }
        ensures few_outputs { length self.now.outputs ≤ 16 }
    {
        self.outputs
            .iter()
            .find(|output| output.at == at)
            .map(|output| output.latest)
    }

    fn has_input(&self, at: u16) -> bool
        ensures { result ≡ contains self.now.inputs at }
    {
        // Not `contains`, which reads several at a time and is slower at one or two: 0.4 of a step's 8 ns.
        self.inputs.iter().any(|input| *input == at)
    }

    fn has_output(&self, at: u16) -> bool
        ensures { result ≡ list_any (is_at at) self.now.outputs }
    {
        self.outputs.iter().any(|output| output.at == at)
    }

    // The place of an output.
    fn place(&self, at: u16) -> Option<usize>
        ensures { MatchOption result (list_any (is_at at) self.now.outputs ≡ false) (λ i. (list_any (is_at at) self.now.outputs ≡ true) × (i ≡ position_or_len (is_at at) self.now.outputs) × (i < length self.now.outputs)) }
    {
        self.outputs.iter().position(|output| output.at == at)
    }

    fn allows(&self, right: Right, at: u16) -> bool
        ensures { result ≡ allowed ports_meaning self.now right at }
    {
        match right {
            Right::Read => self.has_input(at),
            Right::Write => self.has_output(at),
            Right::Both => self.has_input(at) && self.has_output(at),
        }
    }
}

impl Board for Ports {
    ghost meaning = { ports_meaning };

    ghost lawful = { Prim.search (rules, same_addresses) };

    // The first address without the right ends the search, so that at most 17 are looked at.
    fn may(&self, right: Right, first: u16, last: u16) -> bool {
        (first..=last).all(|at| self.allows(right, at))
    }

    fn read(&mut self, at: u16) -> Result<u8, Refusal> {
        if !self.has_input(at) {
            return Err(denied(at));
        }
        Ok(self.samples.pop_front().unwrap_or(0))
    }

    // The output keeps this byte, and every other keeps its own.
    #[tactic(auto, using(crate::proofs::Outputs::kept_written))]
    fn write(&mut self, at: u16, byte: u8) -> Result<(), Refusal>
        ensures value { result ≡ (if ports_meaning.writable self.old at then Ok tt else Err (denied at)) }
        ensures after { self.new ≡ (if ports_meaning.writable self.old at then ports_meaning.after_write self.old at byte else self.old) }
        ensures kept { OnOk result ((a : ℕ) → latest_of self.new a ≡ (if nat_eq a at then Some byte else latest_of self.old a)) }
    {
        let place = self.place(at).ok_or(denied(at))?;
        self.outputs[place] = Output { at, latest: byte };
        Ok(())
    }
}
