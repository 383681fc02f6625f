// The rows that follow a row.
ghost use Rattle.std.specs.Prelude.{◌≡◌, ◌+◌, is_some, nat_le};
ghost use Rattle.std.specs.List.{list_all};
ghost use Rattle.refusal.specs.Questions.{verdict_of, first_no};
ghost use Rattle.records.specs.Routine.{routine};
ghost use Rattle.sheet.specs.Steps.{same_depths, covers, known_there, ways, leaves_results, return_asks};

use crate::pointers::are_borne_out;
use crate::visit::Visit;
use records::{Pointers, Row};
use refusal::{Question, Refusal, ask};

// What an instruction leaves: the depths, the cycles that it takes, with a called routine's worst, and the known pointers.
#[derive(Clone, Copy)]
pub struct After {
    pub depth: u16,
    pub returns: u16,
    pub count: u8,
    pub worst: u32,
    pub known: Pointers,
}

// Are there rows on all ways?
fn are_there(rows: &[Option<Row>]) -> bool
    ensures { result ≡ list_all (λ f. is_some f) rows.now }
{
    rows.iter().all(Option::is_some)
}

impl After {
    // Do the rows claim the depths that are left?
    fn has_depths(&self, rows: &[Option<Row>]) -> bool
        ensures { result ≡ list_all (same_depths self.now) rows.now }
    {
        rows.iter().all(|row| {
            row.is_none_or(|f| {
                u16::from(f.depth) == self.depth && u16::from(f.returns) == self.returns
            })
        })
    }

    // Do the cycles cover what the instruction takes, with the cycles of each row?
    fn is_covered(&self, cycles: u32, rows: &[Option<Row>]) -> bool
        ensures { result ≡ list_all (covers cycles self.now) rows.now }
    {
        rows.iter().all(|row| {
            row.is_none_or(|f| {
                u64::from(self.count) + u64::from(self.worst) + u64::from(f.cycles)
                    <= u64::from(cycles)
            })
        })
    }

    // Is each pointer known that the rows claim?
    fn bears_out(&self, rows: &[Option<Row>]) -> bool
        ensures { result ≡ list_all (known_there self.now) rows.now }
    {
        rows.iter().all(|row| row.is_none_or(|f| are_borne_out(f.pointers, self.known)))
    }

    // Are just the results left, and no return byte?
    #[tactic(auto, unfolding(crate::specs::Steps::leaves_results))]
    fn leaves_results(&self, results: u8) -> bool
        ensures { result ≡ leaves_results self.now results }
    {
        self.depth == u16::from(results) && self.returns == 0
    }

    // Do the cycles cover what the instruction takes?
    fn is_within(&self, cycles: u32) -> bool
        ensures { result ≡ nat_le (self.now.count + self.now.worst) cycles }
    {
        u64::from(self.count) + u64::from(self.worst) <= u64::from(cycles)
    }
}

impl Visit<'_, '_> {
    // Asks of all ways on from the row, each question of all before the next.
    #[tactic(auto, unfolding(crate::specs::Steps::ways))]
    pub(crate) fn judge_ways(&self, after: After, followers: &[Option<Row>]) -> Result<(), Refusal>
        ensures { verdict_of result ≡ first_no (ways self.now.place self.now.row.cycles after followers.now) }
    {
        let place = usize::from(self.place);
        ask(Question::FollowerMissing, place, are_there(followers))?;
        let depths = after.has_depths(followers);
        ask(Question::FollowerDepths, place, depths)?;
        let covered = after.is_covered(self.row.cycles, followers);
        ask(Question::FollowerCycles, place, covered)?;
        let known = after.bears_out(followers);
        ask(Question::FollowerPointers, place, known)
    }

    // Asks of a return.
    #[tactic(auto, unfolding(crate::specs::Steps::return_asks))]
    pub(crate) fn judge_return(&self, after: After) -> Result<(), Refusal>
        ensures { verdict_of result ≡ first_no (return_asks (routine self.now.layout.now.candidate) self.now.place self.now.row after) }
    {
        let place = usize::from(self.place);
        let results = after.leaves_results(self.layout.candidate.head.results);
        ask(Question::ReturnMisfit, place, results)?;
        let covered = after.is_within(self.row.cycles);
        ask(Question::FollowerCycles, place, covered)
    }
}
