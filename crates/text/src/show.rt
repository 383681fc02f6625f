// A machine and its board as text.
ghost use Rattle.std.specs.Iterator.{IsFinite};

use machine::{Machine, Stack};
use std::fmt;
use std::iter::successors;

// The items, joined by blanks; a dash stands for none.
fn joined<W: fmt::Write, I: Iterator>(mut items: I, f: &mut fmt::Formatter<W>) -> fmt::Result
where
    I::Item: fmt::Display + Drop,
    requires can { I.can_next items }
    requires ends { IsFinite (I.remaining items) }
{
    // The first by itself, as no blank stands before it, and a dash where there is none.
    let Some(first) = items.next() else {
        return write!(f, "-");
    };
    write!(f, "{first}")?;
    for item in items {
        write!(f, " {item}")?;
    }
    Ok(())
}

// A number in hexadecimal, of at least so many digits.
#[derive(Clone, Copy)]
struct Hex {
    number: u16,
    digits: usize,
}

impl fmt::Display for Hex {
    fn fmt<W: fmt::Write>(&self, f: &mut fmt::Formatter<W>) -> fmt::Result {
        let Hex { number, digits } = *self;
        write!(f, "{number:0digits$X}")
    }
}

// Numbers in hexadecimal, of at least so many digits each, joined by blanks; `-` where there is none.
#[derive(Clone, Copy)]
pub struct Numbers<'a, N, const DIGITS: usize>(pub &'a [N]);

impl<N: Copy + Into<u16>, const DIGITS: usize> fmt::Display for Numbers<'_, N, DIGITS> {
    fn fmt<W: fmt::Write>(&self, f: &mut fmt::Formatter<W>) -> fmt::Result {
        let numbers = self.0.iter().map(|number| Hex {
            number: (*number).into(),
            digits: DIGITS,
        });
        joined(numbers, f)
    }
}

// A stack's bytes in the same form, of two digits each, the top one first.
#[derive(Clone, Copy)]
pub struct TopFirst<'a>(pub &'a Stack);

impl fmt::Display for TopFirst<'_> {
    fn fmt<W: fmt::Write>(&self, f: &mut fmt::Formatter<W>) -> fmt::Result {
        let bytes = self.0.as_slice().iter().rev().map(|byte| Hex {
            number: u16::from(*byte),
            digits: 2,
        });
        joined(bytes, f)
    }
}

// What a step left on the stacks, and the carry and the cycles so far.
#[derive(Clone, Copy)]
pub struct Progress<'a>(pub &'a Machine);

impl fmt::Display for Progress<'_> {
    fn fmt<W: fmt::Write>(&self, f: &mut fmt::Formatter<W>) -> fmt::Result {
        let stack = TopFirst(&self.0.stack);
        let returns = TopFirst(&self.0.returns);
        let carry = u8::from(self.0.carry);
        let cycles = self.0.cycles;
        write!(
            f,
            "data {stack} ; return {returns} ; carry {carry} ; cycles {cycles}"
        )
    }
}

// The byte that an address holds.
#[derive(Clone, Copy)]
pub struct Cell {
    pub at: u16,
    pub byte: u8,
}

impl fmt::Display for Cell {
    fn fmt<W: fmt::Write>(&self, f: &mut fmt::Formatter<W>) -> fmt::Result {
        let Cell { at, byte } = self;
        write!(f, "{at:04X}={byte:02X}")
    }
}

// The cells from a first address on that are not zero; `-` where there is none.
#[derive(Clone, Copy)]
pub struct NonzeroCells<'a> {
    pub first: u16,
    pub bytes: &'a [u8],
}

impl fmt::Display for NonzeroCells<'_> {
    fn fmt<W: fmt::Write>(&self, f: &mut fmt::Formatter<W>) -> fmt::Result {
        let cells = self
            .bytes
            .iter()
            .zip(successors(Some(self.first), |at| Some(at.wrapping_add(1))))
            .map(|(byte, at)| Cell { at, byte: *byte })
            .filter(|cell| cell.byte != 0);
        joined(cells, f)
    }
}
