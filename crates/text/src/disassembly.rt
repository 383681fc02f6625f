// Instructions as text: the mnemonic, and the operand as an assembler writes it.
use instruction::{Family, Instruction, Kind, Op, Operand};
use std::fmt;

// What follows the mnemonic of a family.
#[derive(Clone, Copy)]
enum Syntax {
    Bare,
    Return,
    Top,
    Next,
    ReturnTop,
    Byte,
    Word,
    Number(u8),
    Short,
    Register,
    Pointer,
    Absolute,
    Relative,
    Indexed,
    Deep(u8),
    LongJump,
    ShortJump,
}

fn operation(op: Op) -> &'static str {
    match op {
        Op::Add => "ADD",
        Op::And => "AND",
        Op::Or => "OR",
        Op::Xor => "XOR",
    }
}

fn written(kind: Kind) -> (&'static str, Syntax) {
    match kind {
        Kind::Not => ("NOT", Syntax::Bare),
        Kind::Increment => ("INC", Syntax::Bare),
        Kind::Decrement => ("DEC", Syntax::Bare),
        Kind::Binary(op) => (operation(op), Syntax::Bare),
        Kind::AddCarry => ("ADC", Syntax::Bare),
        Kind::Immediate(op) => (operation(op), Syntax::Byte),
        Kind::BinaryReturn(op) => (operation(op), Syntax::Return),
        Kind::PushShort => ("PUSHS", Syntax::Short),
        Kind::PushByte => ("PUSH", Syntax::Byte),
        Kind::PushWord => ("PUSHD", Syntax::Word),
        Kind::PushTop => ("PUSH", Syntax::Top),
        Kind::PushNext => ("PUSH", Syntax::Next),
        Kind::PushDeep(k) => ("PUSH", Syntax::Deep(k)),
        Kind::PopDeep(k) => ("POP", Syntax::Deep(k)),
        Kind::PushRegister => ("PUSH", Syntax::Register),
        Kind::PopRegister => ("POP", Syntax::Register),
        Kind::PushPointer => ("PUSHD", Syntax::Pointer),
        Kind::PopPointer => ("POPD", Syntax::Pointer),
        Kind::PushAbsolute => ("PUSH", Syntax::Absolute),
        Kind::PopAbsolute => ("POP", Syntax::Absolute),
        Kind::PushRelative => ("PUSH", Syntax::Relative),
        Kind::PopRelative => ("POP", Syntax::Relative),
        Kind::PushIndexed => ("PUSH", Syntax::Indexed),
        Kind::PopIndexed => ("POP", Syntax::Indexed),
        Kind::PushReturn => ("PUSH", Syntax::ReturnTop),
        Kind::PushPop => ("PUSHPOP", Syntax::Bare),
        Kind::PopPush => ("POPPUSH", Syntax::Bare),
        Kind::Exchange => ("XCH", Syntax::Bare),
        Kind::DropTop => ("DROP", Syntax::Top),
        Kind::DropNext => ("DROP", Syntax::Next),
        Kind::Allocate(k) => ("ALLOC", Syntax::Number(k)),
        Kind::Deallocate(k) => ("DEALLOC", Syntax::Number(k)),
        Kind::Branch => ("BR", Syntax::LongJump),
        Kind::BranchNonzero => ("BRNZ", Syntax::LongJump),
        Kind::BranchZero => ("BRZ", Syntax::LongJump),
        Kind::ShortBranch => ("SBR", Syntax::ShortJump),
        Kind::ShortBranchZero => ("SBRZ", Syntax::ShortJump),
        Kind::ShortBranchNonzero => ("SBRNZ", Syntax::ShortJump),
        Kind::CallFar => ("CALLF", Syntax::Absolute),
        Kind::Ret => ("RET", Syntax::Bare),
    }
}

// The bytes of an instruction.
#[derive(Clone, Copy)]
pub struct Encoding<'a>(pub &'a Instruction);

impl fmt::Display for Encoding<'_> {
    fn fmt<W: fmt::Write>(&self, f: &mut fmt::Formatter<W>) -> fmt::Result {
        let opcode = self.0.family.first.wrapping_add(self.0.number);
        match self.0.operand {
            Operand::Empty => write!(f, "{opcode:02X}"),
            Operand::Byte(n) => write!(f, "{opcode:02X}{n:02X}"),
            Operand::Word(w) => write!(f, "{opcode:02X}{w:04X}"),
        }
    }
}

// What stands at a place of an operand: a letter in a pattern, a value in an instruction.
#[derive(Clone, Copy)]
enum Place {
    Letter(&'static str),
    Byte(u8),
    Word(u16),
    Number(u16),
    Pointer(u8),
    Distance(i16),
}

impl fmt::Display for Place {
    fn fmt<W: fmt::Write>(&self, f: &mut fmt::Formatter<W>) -> fmt::Result {
        match *self {
            Place::Letter(letter) => write!(f, "{letter}"),
            Place::Byte(byte) => write!(f, "{byte:02X}"),
            Place::Word(word) => write!(f, "{word:04X}"),
            Place::Number(number) => write!(f, "{number}"),
            Place::Pointer(number) => write!(f, "P{number}"),
            Place::Distance(distance) => write!(f, "{distance:+}"),
        }
    }
}

// A mnemonic and what follows it.
#[derive(Clone, Copy)]
struct Line {
    mnemonic: &'static str,
    syntax: Syntax,
    byte: Place,
    word: Place,
    number: Place,
    register: Place,
    pointer: Place,
    distance: Place,
}

impl fmt::Display for Line {
    fn fmt<W: fmt::Write>(&self, f: &mut fmt::Formatter<W>) -> fmt::Result {
        let Line {
            mnemonic,
            syntax,
            byte,
            word,
            number,
            register,
            pointer,
            distance,
        } = self;
        match syntax {
            Syntax::Bare => write!(f, "{mnemonic}"),
            Syntax::Return => write!(f, "{mnemonic}_R"),
            Syntax::Top => write!(f, "{mnemonic} TOS"),
            Syntax::Next => write!(f, "{mnemonic} NEXT"),
            Syntax::ReturnTop => write!(f, "{mnemonic} [RSP]"),
            Syntax::Byte => write!(f, "{mnemonic} #{byte}"),
            Syntax::Word => write!(f, "{mnemonic} #{word}"),
            Syntax::Number(_) | Syntax::Short => write!(f, "{mnemonic} #{number}"),
            Syntax::Register => write!(f, "{mnemonic} !{register}"),
            Syntax::Pointer => write!(f, "{mnemonic} [{pointer}]"),
            Syntax::Absolute => write!(f, "{mnemonic} {word}"),
            Syntax::Relative => write!(f, "{mnemonic} [{pointer}][{byte}]"),
            Syntax::Indexed => write!(f, "{mnemonic} [{pointer}][TOS]"),
            Syntax::Deep(_) => write!(f, "{mnemonic} [DSP][-{number}]"),
            Syntax::LongJump | Syntax::ShortJump => write!(f, "{mnemonic} *{distance}"),
        }
    }
}

// A family, with its operand by letters: n a byte, w two, k a number, r a register, p a pointer, m a distance.
#[derive(Clone, Copy)]
pub struct Pattern<'a>(pub &'a Family);

impl fmt::Display for Pattern<'_> {
    fn fmt<W: fmt::Write>(&self, f: &mut fmt::Formatter<W>) -> fmt::Result {
        let (mnemonic, syntax) = written(self.0.kind);
        let line = Line {
            mnemonic,
            syntax,
            byte: Place::Letter("n"),
            word: Place::Letter("w"),
            number: Place::Letter("k"),
            register: Place::Letter("r"),
            pointer: Place::Letter("p"),
            distance: Place::Letter("+m"),
        };
        write!(f, "{line}")
    }
}

// An instruction: bytes and addresses in hexadecimal; registers 8 to 23 and jumps, counted from the instruction itself, in decimal.
#[derive(Clone, Copy)]
pub struct Disassembly<'a>(pub &'a Instruction);

impl fmt::Display for Disassembly<'_> {
    fn fmt<W: fmt::Write>(&self, f: &mut fmt::Formatter<W>) -> fmt::Result {
        let (mnemonic, syntax) = written(self.0.family.kind);
        let number = self.0.number;
        let byte = self.0.operand.byte();
        let line = Line {
            mnemonic,
            syntax,
            byte: Place::Byte(byte),
            word: Place::Word(self.0.operand.word()),
            number: match syntax {
                Syntax::Number(k) | Syntax::Deep(k) => Place::Number(u16::from(k)),
                _ => Place::Number(u16::from(number)),
            },
            register: Place::Number(u16::from(number) + 8),
            pointer: Place::Pointer(number),
            distance: match syntax {
                Syntax::LongJump => Place::Distance(i16::from(byte.cast_signed()) + 2),
                _ => Place::Distance(i16::from(number) + 1),
            },
        };
        write!(f, "{line}")
    }
}
