// Decoding: the opcode, the operand bytes after it, and the rest of the code.
ghost use Rattle.std.specs.Prelude.{◌≡◌};
ghost use Rattle.instruction.specs.Table.{families, found, placed};
ghost use Rattle.instruction.specs.Decode.{operand_size, operand_byte, operand_word, with_family, decoded};

use crate::table::{FAMILIES, Family, PLACES};

// The bytes after an opcode: none, one, or two with the high byte first.
#[derive(Clone, Copy)]
pub enum Operand {
    Empty,
    Byte(u8),
    Word(u16),
}

// An instruction: its family, the number in its opcode, and its operand.
#[derive(Clone, Copy)]
pub struct Instruction {
    pub family: Family,
    pub number: u8,
    pub operand: Operand,
}

// The family at an opcode's place.
#[tactic(auto, using(crate::proofs::Lookup::item_nth), unfolding(crate::specs::Table::placed))]
fn at_place(families: &[Family], places: &[u8], opcode: u8) -> Option<Family>
    ensures { result ≡ placed families.now places.now opcode }
{
    let place = *places.get(usize::from(opcode))?;
    families.get(usize::from(place)).copied()
}

// The family of an opcode.
pub fn find(opcode: u8) -> Option<Family>
    ensures { result ≡ found families opcode }
{
    at_place(&FAMILIES, PLACES, opcode)
}

// The instruction with this opcode and these bytes after it.
#[tactic(auto, using(crate::proofs::Rows::found_from))]
fn assemble(opcode: u8, after: &[u8]) -> Option<Instruction>
    ensures { result ≡ with_family (found families opcode) opcode after.now }
{
    let family = find(opcode)?;
    let number = opcode - family.first;
    let operand = match (family.size, after) {
        (1, _) => Operand::Empty,
        (2, [n, ..]) => Operand::Byte(*n),
        (3, [high, low, ..]) => Operand::Word(u16::from_be_bytes([*high, *low])),
        _ => return None,
    };
    Some(Instruction {
        family,
        number,
        operand,
    })
}

// The instruction at the start of the code, if all its bytes are there. The code is taken apart by patterns, as its parts stand:
// the opcode, the operand, the rest.
pub fn decode(code: &[u8]) -> Option<Instruction>
    ensures { result ≡ decoded code.now }
{
    match code {
        [] => None,
        [opcode, after @ ..] => assemble(*opcode, after),
    }
}

impl Operand {
    // The bytes of an instruction with this operand.
    pub fn size(self) -> u16
        ensures { result ≡ operand_size self }
    {
        match self {
            Operand::Empty => 1,
            Operand::Byte(_) => 2,
            Operand::Word(_) => 3,
        }
    }

    // Zero where there is none, here and in the next: a kind that asks has one, and an option would have to be opened at each.
    pub fn byte(self) -> u8
        ensures { result ≡ operand_byte self }
    {
        match self {
            Operand::Empty => 0,
            Operand::Byte(n) => n,
            Operand::Word(w) => w.to_be_bytes()[1],
        }
    }

    pub fn word(self) -> u16
        ensures { result ≡ operand_word self }
    {
        match self {
            Operand::Empty => 0,
            Operand::Byte(n) => u16::from(n),
            Operand::Word(w) => w,
        }
    }
}
