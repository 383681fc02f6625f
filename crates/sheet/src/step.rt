// Each row with what it needs and reaches, and with the rows that follow it.
ghost use Rattle.std.specs.Prelude.{◌≡◌, ◌+◌, Some};
ghost use Rattle.refusal.specs.Questions.{verdict_of, first_no};
ghost use Rattle.instruction.specs.Flow.{flow, ends};
ghost use Rattle.records.specs.Lists.{each};
ghost use Rattle.records.specs.Records.{chain};
ghost use Rattle.records.specs.Routine.{routine, digests_of};
ghost use Rattle.sheet.specs.Steps.{enough, afterwards, flow_asks, instruction_asks, step_asks};
ghost use Rattle.sheet.specs.Questions.{step_at};

use crate::follow::After;
use crate::layout::Layout;
use crate::lead::{end_at, flow_at};
use crate::visit::Visit;
use instruction::{Flow, Instruction};
use records::{Chain, Entry, Row};
use refusal::{Question, Refusal, ask};

// Do the depths cover what the instruction needs?
#[tactic(auto, unfolding(crate::specs::Steps::enough))]
fn has_enough(row: Row, instruction: &Instruction) -> bool
    ensures { result ≡ enough row instruction.now }
{
    instruction.family.needs <= row.depth && instruction.own_takes() <= row.returns
}

impl Visit<'_, '_> {
    // What the instruction of the row leaves.
    fn left_after(&self, instruction: &Instruction) -> After
        ensures { result ≡ afterwards (routine self.now.layout.now.candidate) self.now.row instruction.now }
    {
        let family = &instruction.family;
        let depth = self.row.depth.saturating_sub(family.needs);
        let returns = self.row.returns.saturating_sub(instruction.own_takes());
        After {
            depth: u16::from(depth) + u16::from(family.leaves),
            returns: u16::from(returns) + u16::from(instruction.own_gives()),
            count: family.cycles,
            worst: 0,
            known: self.known_after(instruction),
        }
    }

    // Asks of the rows where control goes on.
    #[tactic(auto, unfolding(crate::specs::Steps::flow_asks))]
    fn judge_flow(&self, after: After, back: u16, flow: Flow) -> Result<(), Refusal>
        ensures { verdict_of result ≡ first_no (flow_asks (routine self.now.layout.now.candidate) (digests_of self.now.fitted.now) self.now.place self.now.row after back flow) }
    {
        match flow {
            Flow::Goes(one, other) => {
                let followers = [self.layout.row_at(one), self.layout.row_at(other)];
                self.judge_ways(after, &followers)
            }
            Flow::Calls(target) => self.judge_call(after, target, back),
            Flow::Returns => self.judge_return(after),
        }
    }

    // Asks of the instruction: what it needs, what it reads or writes, and where control goes on.
    fn judge_instruction(&self, instruction: &Instruction) -> Result<(), Refusal>
        ensures { verdict_of result ≡ first_no (instruction_asks (routine self.now.layout.now.candidate) (digests_of self.now.fitted.now) self.now.place self.now.row (Some instruction.now)) }
    {
        let place = usize::from(self.place);
        let enough = has_enough(self.row, instruction);
        ask(Question::RowShort, place, enough)?;
        let allowed = self.layout.is_allowed(self.row, instruction);
        ask(Question::OutsideWindows, place, allowed)?;
        let origin = self.layout.candidate.head.origin;
        let after = self.left_after(instruction);
        let back = end_at(instruction, origin, self.row.offset);
        let flow = flow_at(instruction, origin, self.row.offset);
        self.judge_flow(after, back, flow)
    }

    // Asks of the row.
    #[tactic(auto, unfolding(crate::specs::Steps::step_asks))]
    fn judge(&self) -> Result<(), Refusal>
        ensures { verdict_of result ≡ first_no (step_asks (routine self.now.layout.now.candidate) (digests_of self.now.fitted.now) self.now.place self.now.row) }
    {
        let missing = self.refusal(Question::RowInstruction);
        let instruction = self.layout.candidate.instruction(self.row).ok_or(missing)?;
        self.judge_instruction(&instruction)
    }
}

impl Layout<'_> {
    // Asks of each row in the order of the chain.
    pub(crate) fn judge_rows<'v>(&'v self, fitted: &'v [Entry]) -> Result<(), Refusal>
        ensures { verdict_of result ≡ first_no (each (step_at (routine self.now.candidate) (digests_of fitted.now) self.now.candidate.sheet.now) (chain self.now.candidate.sheet.now self.now.candidate.head.rows)) }
    {
        let links = Chain::new(self.candidate.sheet, self.candidate.head.rows);
        // Carried by hand: a fold would wrap the way out at a refusal.
        let mut before = None;
        for (link, row) in links.zip(self.candidate.rows()) {
            let visit = Visit {
                layout: self,
                fitted,
                place: link.index,
                before,
                row,
            };
            visit.judge()?;
            before = Some(row);
        }
        Ok(())
    }
}
