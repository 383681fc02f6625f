// Calls of fitted routines.
ghost use Rattle.std.specs.Prelude.{◌≡◌, ◌-◌, ◌≤◌, IsTrue};
ghost use Rattle.refusal.specs.Questions.{verdict_of, first_no};
ghost use Rattle.records.specs.Routine.{routine, digest_of, digests_of, present};
ghost use Rattle.records.specs.Lists.{any_pass};
ghost use Rattle.sheet.specs.Known.{within, narrower};
ghost use Rattle.sheet.specs.Calls.{told};
ghost use Rattle.sheet.specs.Steps.{finds, fits, after_call, call_asks};

use crate::follow::After;
use crate::layout::Layout;
use crate::memory::Addresses;
use crate::pointers::UNKNOWN;
use crate::visit::Visit;
use records::{Entry, Window};
use refusal::{Question, Refusal, ask};

// The fitted routine with an origin.
fn find(fitted: &[Entry], origin: u16) -> Option<Entry>
    ensures { told result ≡ finds (digests_of fitted.now) origin }
{
    fitted.iter().find(|entry| entry.origin == origin).copied()
}

impl Layout<'_> {
    // Does a called routine's window lie in one of ours, with at least its right?
    fn covers(&self, w: Window) -> bool
        ensures { result ≡ any_pass (within w) (routine self.now.candidate).windows }
    {
        let addresses = Addresses {
            first: w.first,
            last: w.last,
        };
        self.has_window(addresses, w.named_right())
    }

    // Does each of a called routine's windows lie in one of ours?
    fn is_wider(&self, callee: Entry) -> bool
        ensures { result ≡ narrower (present callee.windows) (routine self.now.candidate).windows }
    {
        callee
            .windows
            .iter()
            .filter_map(|place| *place)
            .all(|w| self.covers(w))
    }

    // Does a called routine fit here?
    #[tactic(auto, unfolding(crate::specs::Steps::fits))]
    fn does_fit(&self, after: After, callee: Entry) -> bool
        ensures value { result ≡ fits (routine self.now.candidate) after (digest_of callee) }
        ensures rest { IsTrue result → after.depth - callee.arguments ≤ 255 }
    {
        // No `is_some_and`: the second clause speaks of what its closure would hold.
        let Some(rest) = after.depth.checked_sub(u16::from(callee.arguments)) else {
            return false;
        };
        let most = self.candidate.head.peak;
        let peak = u32::from(rest) + u32::from(callee.peak);
        let returns = u32::from(after.returns) + 2 + u32::from(callee.returns);
        peak <= u32::from(most)
            && returns <= u32::from(self.candidate.head.returns)
            && self.is_wider(callee)
    }
}

impl Visit<'_, '_> {
    // Asks of a call, and of the row that it comes back to.
    #[tactic(auto, unfolding(crate::specs::Steps::call_asks))]
    pub(crate) fn judge_call(&self, after: After, target: u16, back: u16) -> Result<(), Refusal>
        ensures { verdict_of result ≡ first_no (call_asks (routine self.now.layout.now.candidate) self.now.place self.now.row after back (finds (digests_of self.now.fitted.now) target)) }
    {
        let missing = self.refusal(Question::CalleeMissing);
        let callee = find(self.fitted, target).ok_or(missing)?;
        let fit = self.layout.does_fit(after, callee);
        ask(Question::CalleeMisfit, usize::from(self.place), fit)?;
        let followers = [self.layout.row_at(back)];
        self.judge_ways(after_call(after, callee), &followers)
    }
}

// What a called routine leaves.
fn after_call(after: After, callee: Entry) -> After
    requires { after.depth - callee.arguments ≤ 255 }
    ensures { result ≡ after_call after (digest_of callee) }
{
    let rest = after.depth.saturating_sub(u16::from(callee.arguments));
    After {
        depth: rest + u16::from(callee.results),
        worst: callee.worst,
        known: UNKNOWN,
        ..after
    }
}
