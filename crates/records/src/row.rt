// Rows: what is claimed where an instruction stands.
ghost use Rattle.std.specs.Prelude.{◌≡◌, ℕ, suc, ◌+◌, ◌*◌, ◌<◌, ◌≤◌, T, length, drop, OnOk};
ghost use Rattle.refusal.specs.declared.Question.TheVariants.{RowIndex};
ghost use Rattle.refusal.specs.Questions.{verdict_of, first_no};
ghost use Rattle.instruction.specs.Decode.{decoded};
ghost use Rattle.records.specs.Read.{claim_at, read_row};
ghost use Rattle.records.specs.Reader.{low};
ghost use Rattle.records.specs.Routine.{routine, instruction_at, end_of};
ghost use Rattle.records.specs.Ground.{ground};
ghost use Rattle.records.specs.Rows.{placed, bounded, row_asks, starts_well};

use crate::bytes::{byte_at, long_at, word_at};
use crate::record::{Judged, Record, Records};
use crate::scene::{Candidate, Scene};
use board::Board;
use instruction::{Instruction, decode};
use refusal::{Question, Refusal, ask};

// What is claimed of each of the four pointers: that it is known with a value, or that it is unknown.
pub type Pointers = [Option<u16>; 4];

#[derive(Clone, Copy)]
pub struct Row {
    pub offset: u16,
    pub depth: u8,
    pub returns: u8,
    pub cycles: u32,
    // The byte of the record, which the format lets have marks of no pointer; a row with such marks is refused.
    pub marks: u8,
    pub pointers: Pointers,
}

// What a record claims of a pointer.
fn claim_at(bytes: &[u8], pointer: usize) -> Option<u16>
    requires { pointer < 4 }
    ensures { result ≡ claim_at bytes.now pointer }
{
    // The pointer is below four, so the cast keeps it. No `then`: its closure would have to know that too.
    if (byte_at(bytes, 8) >> pointer) % 2 == 1 {
        Some(word_at(bytes, 10 + 2 * pointer as u8))
    } else {
        None
    }
}

// The instruction at an offset of a code.
fn decode_at(code: &[u8], offset: u16) -> Option<Instruction>
    ensures { result ≡ decoded (drop offset code.now) }
{
    decode(code.get(usize::from(offset)..)?)
}

impl<'a> Candidate<'a> {
    // The rows, in the order of their chain.
    pub fn rows(&self) -> Records<'a, Row>
        ensures { result ≡ (routine self.now).rows }
    {
        Records::new(self.sheet, self.head.rows)
    }

    // The instruction at a row.
    pub fn instruction(&self, row: Row) -> Option<Instruction>
        ensures { result ≡ instruction_at (routine self.now) row }
    {
        decode_at(self.code, row.offset)
    }

    // Where the instruction of a row ends in the code; a byte on where none stands, as the definition has it: such a row is
    // refused.
    pub fn end(&self, row: Row) -> u32
        ensures value { result ≡ end_of (routine self.now) row }
        ensures past { row.offset < result }
    {
        let size = self
            .instruction(row)
            .map_or(1, |instruction| instruction.operand.size());
        u32::from(row.offset) + u32::from(size)
    }

    // Does a row stand at or past the end of the one before, or at 0?
    fn is_placed(&self, before: Option<Row>, row: Row) -> bool
        ensures value { result ≡ placed (routine self.now) before row }
        ensures rises { T result → low (λ (w : Row). w.offset) before ≤ row.offset }
    {
        // A closure that calls `end` gets no proof here, so this is no `map_or`.
        match before {
            None => row.offset == 0,
            Some(b) => self.end(b) <= u32::from(row.offset),
        }
    }

    // Are a row's depths within the peaks, and its marks those of four pointers?
    #[tactic(auto, unfolding(crate::specs::Rows::bounded))]
    fn is_bounded(&self, row: Row) -> bool
        ensures { result ≡ bounded (routine self.now) row }
    {
        row.depth <= self.head.peak && row.returns <= self.head.returns && row.marks <= 15
    }

    // Does the first row claim what holds when the routine is called?
    #[tactic(auto, unfolding(crate::specs::Rows::starts_well))]
    pub fn starts_well(&self, first: Row) -> bool
        ensures { result ≡ starts_well (routine self.now) first }
    {
        first.depth == self.head.arguments
            && first.returns == 0
            && first.marks == 0
            && first.cycles <= self.head.worst
    }
}

impl Record for Row {
    const INDEX_QUESTION: Question = Question::RowIndex;

    ghost INDEX_QUESTION = { RowIndex };

    ghost reads = { read_row };

    ghost key = { λ r. r.offset };

    ghost asks = { row_asks };

    fn read(bytes: &[u8]) -> Row {
        Row {
            offset: word_at(bytes, 0),
            depth: byte_at(bytes, 2),
            returns: byte_at(bytes, 3),
            cycles: long_at(bytes, 4),
            marks: byte_at(bytes, 8),
            pointers: std::array::from_fn(|pointer| claim_at(bytes, pointer)),
        }
    }
}

impl<B: Board> Judged<B> for Row {
    fn judge(
        self,
        scene: &Scene<'_, B>,
        nth: usize,
        place: u8,
        before: Option<Row>,
    ) -> Result<(), Refusal>
        ensures first { verdict_of result ≡ first_no (row_asks (ground B.Board.meaning scene.now) nth place before self) }
        ensures rises { OnOk result (low (λ (w : Row). w.offset) before ≤ self.offset) }
    {
        let place = usize::from(place);
        let candidate = scene.candidate;
        ask(
            Question::RowOffset,
            place,
            candidate.is_placed(before, self),
        )?;
        let stands = candidate.instruction(self).is_some();
        ask(Question::RowInstruction, place, stands)?;
        ask(Question::RowBounds, place, candidate.is_bounded(self))
    }
}
