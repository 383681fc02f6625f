// A code and its sheet as text.
use crate::question::Words;
use board::Right;
use fitting::{Verdict, fit, split};
use records::{
    Candidate, Chain, Entry, Head, Link, Pointers, Row, Window, read_record, record_count,
};
use refusal::Refusal;
use std::fmt;
use text::{Disassembly, Encoding};

// The most records that are printed of a chain. A longer chain goes in a circle, as an index is one byte.
const MOST: usize = 256;

// The code and the sheet of an input, and what is said of them.
#[derive(Clone, Copy)]
pub struct Listing<'a> {
    candidate: Candidate<'a>,
    examined: Result<Entry, Refusal>,
}

// What is printed of a record: the head, or a window or a row, with its index. (A record may stand on both chains.)
#[derive(Clone, Copy, PartialEq, Eq)]
enum Part {
    Head,
    Window(usize),
    Row(usize),
}

// Where the first no was said. The first index of a chain stands in the head, record 0.
fn refused(refusal: Refusal) -> Part {
    match (refusal.question.number(), refusal.place) {
        (_, 0) => Part::Head,
        (20..=24, index) => Part::Window(index),
        (30..=48, index) => Part::Row(index),
        _ => Part::Head,
    }
}

// The first column.
#[derive(Clone, Copy)]
enum Mark {
    Refused,
    Unmarked,
}

impl fmt::Display for Mark {
    fn fmt<W: fmt::Write>(&self, f: &mut fmt::Formatter<W>) -> fmt::Result {
        let column = match self {
            Mark::Refused => ">",
            Mark::Unmarked => " ",
        };
        write!(f, "{column}")
    }
}

// The pointers that are known at a row, each after a blank and with its value; `-` where none is.
#[derive(Clone, Copy)]
struct Known(Pointers);

impl fmt::Display for Known {
    fn fmt<W: fmt::Write>(&self, f: &mut fmt::Formatter<W>) -> fmt::Result {
        if self.0.iter().all(Option::is_none) {
            return write!(f, " -");
        }
        for (pointer, value) in self.0.iter().enumerate() {
            if let Some(value) = value {
                write!(f, " P{pointer}={value:04X}")?;
            }
        }
        Ok(())
    }
}

// A right in words.
fn right_of(window: Window) -> &'static str {
    match window.named_right() {
        Some(Right::Read) => "read",
        Some(Right::Write) => "write",
        Some(Right::Both) => "read and write",
        None => "no right",
    }
}

impl<'a> Listing<'a> {
    pub fn new(input: &'a [u8]) -> Listing<'a> {
        let (code, sheet) = split(input);
        let head = Head::read(sheet);
        Listing {
            candidate: Candidate { code, sheet, head },
            examined: fit(input),
        }
    }

    fn mark(&self, part: Part) -> Mark {
        match self.examined {
            Err(refusal) if refused(refusal) == part => Mark::Refused,
            _ => Mark::Unmarked,
        }
    }

    // Whether a link leads to a record of the sheet.
    fn is_inside(&self, link: Link) -> bool {
        usize::from(link.index) < record_count(self.candidate.sheet)
    }

    // What was given, and what the head claims.
    fn write_head<W: fmt::Write>(&self, f: &mut fmt::Formatter<W>) -> fmt::Result {
        let Candidate { code, sheet, head } = self.candidate;
        let Head {
            origin,
            length,
            arguments,
            results,
            peak,
            returns,
            worst,
            ..
        } = head;
        let mark = self.mark(Part::Head);
        let given = code.len();
        let bytes = sheet.len();
        let records = record_count(sheet);
        writeln!(
            f,
            "{mark} code bytes {given} ; sheet bytes {bytes} ; records {records}"
        )?;
        write!(
            f,
            "{mark} slot {origin:04X} ; length {length} ; arguments {arguments} ; results {results}"
        )?;
        writeln!(
            f,
            " ; data peak {peak} ; return peak {returns} ; worst {worst}"
        )
    }

    fn write_window<W: fmt::Write>(&self, index: u8, f: &mut fmt::Formatter<W>) -> fmt::Result {
        let window = read_record::<Window>(self.candidate.sheet, index);
        let mark = self.mark(Part::Window(usize::from(index)));
        let Window { first, last, .. } = window;
        let right = right_of(window);
        writeln!(
            f,
            "{mark} window {index}: {first:04X} to {last:04X}, {right}"
        )
    }

    // The instruction at a row.
    fn write_instruction<W: fmt::Write>(&self, row: Row, f: &mut fmt::Formatter<W>) -> fmt::Result {
        match self.candidate.instruction(row) {
            Some(instruction) => {
                let encoding = Encoding(&instruction);
                let disassembly = Disassembly(&instruction);
                write!(f, "{encoding} {disassembly}")
            }
            None => write!(f, "no instruction"),
        }
    }

    fn write_row<W: fmt::Write>(&self, index: u8, f: &mut fmt::Formatter<W>) -> fmt::Result {
        let row = read_record::<Row>(self.candidate.sheet, index);
        let mark = self.mark(Part::Row(usize::from(index)));
        let at = self.candidate.head.origin.wrapping_add(row.offset);
        write!(f, "{mark} row {index}: {at:04X} ")?;
        self.write_instruction(row, f)?;
        let Row {
            depth,
            returns,
            cycles,
            pointers,
            ..
        } = row;
        let known = Known(pointers);
        writeln!(
            f,
            " ; data {depth} ; return {returns} ; cycles {cycles} ; pointers{known}"
        )
    }

    // The verdict, and where the sheet is refused, the question.
    fn write_verdict<W: fmt::Write>(&self, f: &mut fmt::Formatter<W>) -> fmt::Result {
        let verdict = Verdict(self.examined);
        match self.examined {
            Ok(_) => write!(f, "{verdict}"),
            Err(refusal) => {
                let words = Words(refusal.question);
                write!(f, "{verdict}: {words}")
            }
        }
    }
}

impl fmt::Display for Listing<'_> {
    fn fmt<W: fmt::Write>(&self, f: &mut fmt::Formatter<W>) -> fmt::Result {
        let Candidate { sheet, head, .. } = self.candidate;
        self.write_head(f)?;
        let windows = Chain::new(sheet, head.windows).take(MOST);
        for link in windows.take_while(|link| self.is_inside(*link)) {
            self.write_window(link.index, f)?;
        }
        let rows = Chain::new(sheet, head.rows).take(MOST);
        for link in rows.take_while(|link| self.is_inside(*link)) {
            self.write_row(link.index, f)?;
        }
        self.write_verdict(f)
    }
}
