// States and differences as text.
use crate::case::FILL;
use crate::state::{Outcome, Refused, State};
use crate::tally::{Counts, Difference, Tally};
use instruction::Family;
use std::fmt;
use text::{Numbers, Pattern};

// Bytes in hexadecimal, each after a space. (Not the numbers of crate text, which write a dash where there is none.)
#[derive(Clone, Copy)]
struct Hex<'a>(&'a [u8]);

impl fmt::Display for Hex<'_> {
    fn fmt<W: fmt::Write>(&self, f: &mut fmt::Formatter<W>) -> fmt::Result {
        for byte in self.0 {
            write!(f, " {byte:02X}")?;
        }
        Ok(())
    }
}

// A row of the table: its opcodes and its pattern.
#[derive(Clone, Copy)]
pub struct Row<'a>(pub &'a Family);

impl fmt::Display for Row<'_> {
    fn fmt<W: fmt::Write>(&self, f: &mut fmt::Formatter<W>) -> fmt::Result {
        let first = self.0.first;
        let last = self.0.last;
        let pattern = Pattern(self.0);
        write!(f, "{first:02X}")?;
        if first != last {
            write!(f, "-{last:02X}")?;
        }
        write!(f, " {pattern}")
    }
}

impl fmt::Display for State {
    fn fmt<W: fmt::Write>(&self, f: &mut fmt::Formatter<W>) -> fmt::Result {
        let stack = Hex(self.stack.as_slice());
        let returns = Hex(self.returns.as_slice());
        let registers = Hex(&self.registers);
        let pointers = Numbers::<u16, 4>(&self.pointers);
        let carry = self.carry;
        let ip = self.ip;
        let cycles = self.cycles;
        let cells = Hex(self.cells.as_slice());
        let outputs = &self.outputs;
        let sample = self.sample;
        writeln!(f, "    data stack, the top last:{stack}")?;
        writeln!(f, "    return stack, the top last:{returns}")?;
        writeln!(f, "    registers:{registers}")?;
        writeln!(f, "    pointers: {pointers}")?;
        writeln!(f, "    carry: {carry}, ip: {ip:04X}, cycles: {cycles}")?;
        writeln!(f, "    cells:{cells}")?;
        write!(f, "    outputs: {outputs:?}, next sample: {sample:?}")
    }
}

impl fmt::Display for Outcome {
    fn fmt<W: fmt::Write>(&self, f: &mut fmt::Formatter<W>) -> fmt::Result {
        match self.verdict {
            Ok(()) => writeln!(f, "done")?,
            Err(Refused { number, place }) => writeln!(f, "NO {number} AT {place}")?,
        }
        let state = &self.state;
        write!(f, "{state}")
    }
}

impl fmt::Display for Difference {
    fn fmt<W: fmt::Write>(&self, f: &mut fmt::Formatter<W>) -> fmt::Result {
        let size = self.size;
        let first = self.first;
        let bytes = Hex(self.bytes.as_slice());
        let stack_limit = self.case.stack_limit;
        let return_limit = self.case.return_limit;
        let layout = &self.case.layout;
        let boundary = layout.boundary;
        let count = layout.count;
        let first_cell = layout.first;
        let samples = Hex(layout.samples);
        let before = &self.before;
        let machine = &self.after.machine;
        let model = &self.after.model;
        writeln!(f, "  code: {size} bytes from {first:04X}, at the ip{bytes}")?;
        writeln!(
            f,
            "  limits: data {stack_limit}, return {return_limit}, fill {FILL:02X}"
        )?;
        writeln!(
            f,
            "  board: boundary {boundary:04X}, {count} cells from {first_cell:04X}, samples{samples}"
        )?;
        writeln!(f, "  before:")?;
        writeln!(f, "{before}")?;
        writeln!(f, "  after the machine's step: {machine}")?;
        write!(f, "  after the model's step: {model}")
    }
}

impl fmt::Display for Tally {
    fn fmt<W: fmt::Write>(&self, f: &mut fmt::Formatter<W>) -> fmt::Result {
        let Counts { cases, different } = self.counts;
        match &self.example {
            None => write!(f, "{cases} cases, same"),
            Some(example) => write!(
                f,
                "{cases} cases, {different} DIFFERENT; the first:\n{example}"
            ),
        }
    }
}
