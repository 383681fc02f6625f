// One step: the questions in their order, the access, and the instruction.
ghost use Rattle.std.specs.Prelude.{◌≡◌, Some};
ghost use Rattle.refusal.specs.Questions.{verdict_of, first_no};
ghost use Rattle.instruction.specs.Table.{row_of};
ghost use Rattle.instruction.specs.Decode.{Listed};
ghost use Rattle.machine.specs.State.{view};
ghost use Rattle.machine.specs.Suits.{Suits};
ghost use Rattle.machine.specs.Step.{stack_asks, done, after, stepped};

use crate::code::Code;
use crate::settings::Settings;
use crate::state::Machine;
use board::Board;
use instruction::{Family, Instruction};
use refusal::{Question, Refusal, ask};

impl Machine {
    // A refusal at the instruction's address. (The check of sheets has one of its own, at a row: the two
    // differ in where the place stands.)
    fn refusal(&self, question: Question) -> Refusal
        ensures { result ≡ record { question = question; place = self.now.ip } }
    {
        Refusal {
            question,
            place: usize::from(self.ip),
        }
    }

    // Asks of the stacks what the instruction needs and leaves. (The order of the questions goes from one stack to the other, so no
    // function of one stack could ask its two.)
    fn ready(&self, settings: &Settings, instruction: &Instruction) -> Result<(), Refusal>
        ensures { verdict_of result ≡ first_no (stack_asks settings.now instruction.now (view self.now)) }
    {
        let Family {
            needs,
            leaves,
            takes,
            gives,
            ..
        } = instruction.family;
        let place = usize::from(self.ip);
        let depth = self.stack.depth();
        ask(Question::DataShort, place, usize::from(needs) <= depth)?;
        let returns = self.returns.depth();
        ask(Question::ReturnShort, place, usize::from(takes) <= returns)?;
        let depth = depth - usize::from(needs) + usize::from(leaves);
        ask(
            Question::DataFull,
            place,
            depth <= usize::from(settings.stack),
        )?;
        let returns = returns - usize::from(takes) + usize::from(gives);
        ask(
            Question::ReturnFull,
            place,
            returns <= usize::from(settings.returns),
        )
    }

    // Does the instruction.
    fn execute(&mut self, instruction: &Instruction, byte: u8, fill: u8)
        requires { (instruction.now.family ≡ row_of instruction.now.family.kind) × (Suits instruction.now.family.kind instruction.now.number self.old.stack.depth self.old.returns.depth) }
        ensures { view self.new ≡ done instruction.now byte fill (view self.old) }
    {
        let end = instruction.end(self.ip);
        let cycles = u32::from(instruction.family.cycles);
        self.ip = self.apply(instruction, end, byte, fill);
        self.cycles = self.cycles.wrapping_add(cycles);
    }

    // Asks the questions of an instruction that stands there, and does it.
    #[tactic(auto, using(crate::proofs::Agree::reaches_passed, crate::proofs::Agree::suits_passed, crate::proofs::Agree::listed_row, crate::proofs::Steps::blocked, crate::proofs::Steps::denied, crate::proofs::Steps::performed))]
    fn attempt<B: Board>(
        &mut self,
        settings: &Settings,
        instruction: &Instruction,
        board: &mut B,
    ) -> Result<(), Refusal>
        requires { Listed instruction.now }
        ensures verdict { verdict_of result ≡ (after B.Board.meaning settings.now (Some instruction.now) (view self.old) board.old).verdict }
        ensures machine { view self.new ≡ (after B.Board.meaning settings.now (Some instruction.now) (view self.old) board.old).machine }
        ensures board { board.new ≡ (after B.Board.meaning settings.now (Some instruction.now) (view self.old) board.old).board }
    {
        self.ready(settings, instruction)?;
        let access = self.access(instruction.memory());
        let byte = access
            .perform(board)
            .ok_or(self.refusal(Question::AccessDenied))?;
        self.execute(instruction, byte, settings.fill);
        Ok(())
    }

    // One instruction of a code. A refusal leaves the machine and the board as they were.
    #[tactic(auto, using(instruction::proofs::Rows::listed_decoded), unfolding(crate::specs::Step::stepped, crate::specs::Step::after))]
    pub fn step<B: Board>(
        &mut self,
        settings: &Settings,
        code: Code<'_>,
        board: &mut B,
    ) -> Result<(), Refusal>
        ensures verdict { verdict_of result ≡ (stepped B.Board.meaning settings.now code.entry.bytes.now code.entry.first (view self.old) board.old).verdict }
        ensures machine { view self.new ≡ (stepped B.Board.meaning settings.now code.entry.bytes.now code.entry.first (view self.old) board.old).machine }
        ensures board { board.new ≡ (stepped B.Board.meaning settings.now code.entry.bytes.now code.entry.first (view self.old) board.old).board }
    {
        let instruction = code
            .fetch(self.ip)
            .ok_or(self.refusal(Question::NoInstruction))?;
        self.attempt(settings, &instruction, board)
    }
}
