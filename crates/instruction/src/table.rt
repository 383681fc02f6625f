// The table of instruction families: for each its opcodes, size, cycles, and the bytes that it needs and leaves on both stacks.

// The operations that take two bytes and leave one.
#[derive(Clone, Copy)]
pub enum Op {
    Add,
    And,
    Or,
    Xor,
}

// What an instruction does. Every family of the table has a kind of its own.
#[derive(Clone, Copy)]
pub enum Kind {
    Not,
    Increment,
    Decrement,
    // An operation on TOS and NEXT, on TOS and the operand byte, and on TOS and NEXT before a return.
    Binary(Op),
    AddCarry,
    Immediate(Op),
    BinaryReturn(Op),
    PushShort,
    PushByte,
    PushWord,
    PushTop,
    PushNext,
    // The byte so many under NEXT.
    PushDeep(u8),
    PopDeep(u8),
    PushRegister,
    PopRegister,
    PushPointer,
    PopPointer,
    PushAbsolute,
    PopAbsolute,
    PushRelative,
    PopRelative,
    PushIndexed,
    PopIndexed,
    // The top of the return stack: copied, moved to the data stack, and moved there from the data stack.
    PushReturn,
    PushPop,
    PopPush,
    Exchange,
    DropTop,
    DropNext,
    // So many bytes.
    Allocate(u8),
    Deallocate(u8),
    Branch,
    BranchNonzero,
    BranchZero,
    ShortBranch,
    ShortBranchZero,
    ShortBranchNonzero,
    CallFar,
    Ret,
}

// Where a memory operand lies: at the operand, at the operand past a pointer, or at TOS past a pointer.
#[derive(Clone, Copy)]
pub enum Place {
    Absolute,
    Relative,
    Indexed,
}

#[derive(Clone, Copy)]
pub enum Memory {
    Nowhere,
    Read(Place),
    Write(Place),
}

// How far a jump goes past the instruction's end: the operand, as a signed byte, or the number in the opcode.
#[derive(Clone, Copy)]
pub enum Distance {
    Long,
    Short,
}

// How control goes on.
#[derive(Clone, Copy)]
pub enum Turn {
    On,
    Jump(Distance),
    IfZero(Distance),
    IfNonzero(Distance),
    Call,
    Return,
}

// What becomes of a word that is known before anything runs: it is put on the data stack, or a pointer is loaded with what
// stands there.
#[derive(Clone, Copy)]
pub enum Transfer {
    Other,
    PutsWord,
    LoadsPointer,
}

#[derive(Clone, Copy)]
pub struct Family {
    pub kind: Kind,
    // The first and the last opcode. How far an opcode stands from the first is its number: of a register or a pointer, a value
    // or a distance.
    pub first: u8,
    pub last: u8,
    // In bytes, with the opcode.
    pub size: u8,
    pub cycles: u8,
    // Bytes of the data stack: those down to the deepest that it reads, changes, drops or moves, and those in their place after it.
    pub needs: u8,
    pub leaves: u8,
    // The same of the return stack, with the return address that a return takes and a call leaves.
    pub takes: u8,
    pub gives: u8,
    pub memory: Memory,
    pub turn: Turn,
    pub transfer: Transfer,
}

// What most rows have in common.
const PLAIN: Family = Family {
    kind: Kind::Not,
    first: 0,
    last: 0,
    size: 1,
    cycles: 1,
    needs: 0,
    leaves: 0,
    takes: 0,
    gives: 0,
    memory: Memory::Nowhere,
    turn: Turn::On,
    transfer: Transfer::Other,
};

pub const FAMILIES: [Family; 77] = [
    Family {
        kind: Kind::Not,
        first: 0x3D,
        last: 0x3D,
        cycles: 2,
        needs: 1,
        leaves: 1,
        ..PLAIN
    },
    Family {
        kind: Kind::Increment,
        first: 0x3E,
        last: 0x3E,
        cycles: 2,
        needs: 1,
        leaves: 1,
        ..PLAIN
    },
    Family {
        kind: Kind::Decrement,
        first: 0x3F,
        last: 0x3F,
        cycles: 2,
        needs: 1,
        leaves: 1,
        ..PLAIN
    },
    Family {
        kind: Kind::Binary(Op::Add),
        first: 0x50,
        last: 0x50,
        cycles: 4,
        needs: 2,
        leaves: 1,
        ..PLAIN
    },
    Family {
        kind: Kind::Binary(Op::And),
        first: 0x51,
        last: 0x51,
        cycles: 4,
        needs: 2,
        leaves: 1,
        ..PLAIN
    },
    Family {
        kind: Kind::Binary(Op::Or),
        first: 0x52,
        last: 0x52,
        cycles: 4,
        needs: 2,
        leaves: 1,
        ..PLAIN
    },
    Family {
        kind: Kind::Binary(Op::Xor),
        first: 0x53,
        last: 0x53,
        cycles: 4,
        needs: 2,
        leaves: 1,
        ..PLAIN
    },
    Family {
        kind: Kind::AddCarry,
        first: 0x54,
        last: 0x54,
        cycles: 4,
        needs: 2,
        leaves: 1,
        ..PLAIN
    },
    Family {
        kind: Kind::Immediate(Op::Add),
        first: 0x58,
        last: 0x58,
        size: 2,
        cycles: 3,
        needs: 1,
        leaves: 1,
        ..PLAIN
    },
    Family {
        kind: Kind::Immediate(Op::And),
        first: 0x59,
        last: 0x59,
        size: 2,
        cycles: 3,
        needs: 1,
        leaves: 1,
        ..PLAIN
    },
    Family {
        kind: Kind::Immediate(Op::Or),
        first: 0x5A,
        last: 0x5A,
        size: 2,
        cycles: 3,
        needs: 1,
        leaves: 1,
        ..PLAIN
    },
    Family {
        kind: Kind::Immediate(Op::Xor),
        first: 0x5B,
        last: 0x5B,
        size: 2,
        cycles: 3,
        needs: 1,
        leaves: 1,
        ..PLAIN
    },
    Family {
        kind: Kind::BinaryReturn(Op::Add),
        first: 0x5C,
        last: 0x5C,
        cycles: 7,
        needs: 2,
        leaves: 1,
        takes: 2,
        gives: 0,
        turn: Turn::Return,
        ..PLAIN
    },
    Family {
        kind: Kind::BinaryReturn(Op::And),
        first: 0x5D,
        last: 0x5D,
        cycles: 7,
        needs: 2,
        leaves: 1,
        takes: 2,
        gives: 0,
        turn: Turn::Return,
        ..PLAIN
    },
    Family {
        kind: Kind::BinaryReturn(Op::Or),
        first: 0x5E,
        last: 0x5E,
        cycles: 7,
        needs: 2,
        leaves: 1,
        takes: 2,
        gives: 0,
        turn: Turn::Return,
        ..PLAIN
    },
    Family {
        kind: Kind::BinaryReturn(Op::Xor),
        first: 0x5F,
        last: 0x5F,
        cycles: 7,
        needs: 2,
        leaves: 1,
        takes: 2,
        gives: 0,
        turn: Turn::Return,
        ..PLAIN
    },
    Family {
        kind: Kind::PushShort,
        first: 0x80,
        last: 0x87,
        cycles: 4,
        needs: 0,
        leaves: 1,
        ..PLAIN
    },
    Family {
        kind: Kind::PushByte,
        first: 0xB4,
        last: 0xB4,
        size: 2,
        cycles: 4,
        needs: 0,
        leaves: 1,
        ..PLAIN
    },
    Family {
        kind: Kind::PushWord,
        first: 0xB5,
        last: 0xB5,
        size: 3,
        cycles: 6,
        needs: 0,
        leaves: 2,
        transfer: Transfer::PutsWord,
        ..PLAIN
    },
    Family {
        kind: Kind::PushTop,
        first: 0xA4,
        last: 0xA4,
        cycles: 3,
        needs: 1,
        leaves: 2,
        ..PLAIN
    },
    Family {
        kind: Kind::PushNext,
        first: 0xA5,
        last: 0xA5,
        cycles: 4,
        needs: 2,
        leaves: 3,
        ..PLAIN
    },
    Family {
        kind: Kind::PushDeep(8),
        first: 0xB8,
        last: 0xB8,
        cycles: 5,
        needs: 10,
        leaves: 11,
        ..PLAIN
    },
    Family {
        kind: Kind::PushDeep(7),
        first: 0xB9,
        last: 0xB9,
        cycles: 5,
        needs: 9,
        leaves: 10,
        ..PLAIN
    },
    Family {
        kind: Kind::PushDeep(6),
        first: 0xBA,
        last: 0xBA,
        cycles: 5,
        needs: 8,
        leaves: 9,
        ..PLAIN
    },
    Family {
        kind: Kind::PushDeep(5),
        first: 0xBB,
        last: 0xBB,
        cycles: 5,
        needs: 7,
        leaves: 8,
        ..PLAIN
    },
    Family {
        kind: Kind::PushDeep(4),
        first: 0xBC,
        last: 0xBC,
        cycles: 5,
        needs: 6,
        leaves: 7,
        ..PLAIN
    },
    Family {
        kind: Kind::PushDeep(3),
        first: 0xBD,
        last: 0xBD,
        cycles: 5,
        needs: 5,
        leaves: 6,
        ..PLAIN
    },
    Family {
        kind: Kind::PushDeep(2),
        first: 0xBE,
        last: 0xBE,
        cycles: 5,
        needs: 4,
        leaves: 5,
        ..PLAIN
    },
    Family {
        kind: Kind::PushDeep(1),
        first: 0xBF,
        last: 0xBF,
        cycles: 5,
        needs: 3,
        leaves: 4,
        ..PLAIN
    },
    Family {
        kind: Kind::PopDeep(8),
        first: 0xF8,
        last: 0xF8,
        cycles: 5,
        needs: 10,
        leaves: 9,
        ..PLAIN
    },
    Family {
        kind: Kind::PopDeep(7),
        first: 0xF9,
        last: 0xF9,
        cycles: 5,
        needs: 9,
        leaves: 8,
        ..PLAIN
    },
    Family {
        kind: Kind::PopDeep(6),
        first: 0xFA,
        last: 0xFA,
        cycles: 5,
        needs: 8,
        leaves: 7,
        ..PLAIN
    },
    Family {
        kind: Kind::PopDeep(5),
        first: 0xFB,
        last: 0xFB,
        cycles: 5,
        needs: 7,
        leaves: 6,
        ..PLAIN
    },
    Family {
        kind: Kind::PopDeep(4),
        first: 0xFC,
        last: 0xFC,
        cycles: 5,
        needs: 6,
        leaves: 5,
        ..PLAIN
    },
    Family {
        kind: Kind::PopDeep(3),
        first: 0xFD,
        last: 0xFD,
        cycles: 5,
        needs: 5,
        leaves: 4,
        ..PLAIN
    },
    Family {
        kind: Kind::PopDeep(2),
        first: 0xFE,
        last: 0xFE,
        cycles: 5,
        needs: 4,
        leaves: 3,
        ..PLAIN
    },
    Family {
        kind: Kind::PopDeep(1),
        first: 0xFF,
        last: 0xFF,
        cycles: 5,
        needs: 3,
        leaves: 2,
        ..PLAIN
    },
    Family {
        kind: Kind::PushRegister,
        first: 0x88,
        last: 0x97,
        cycles: 4,
        needs: 0,
        leaves: 1,
        ..PLAIN
    },
    Family {
        kind: Kind::PopRegister,
        first: 0xC8,
        last: 0xD7,
        cycles: 4,
        needs: 1,
        leaves: 0,
        ..PLAIN
    },
    Family {
        kind: Kind::PushPointer,
        first: 0xB0,
        last: 0xB3,
        cycles: 6,
        needs: 0,
        leaves: 2,
        ..PLAIN
    },
    Family {
        kind: Kind::PopPointer,
        first: 0xF0,
        last: 0xF3,
        cycles: 6,
        needs: 2,
        leaves: 0,
        transfer: Transfer::LoadsPointer,
        ..PLAIN
    },
    Family {
        kind: Kind::PushAbsolute,
        first: 0xB7,
        last: 0xB7,
        size: 3,
        cycles: 7,
        needs: 0,
        leaves: 1,
        memory: Memory::Read(Place::Absolute),
        ..PLAIN
    },
    Family {
        kind: Kind::PopAbsolute,
        first: 0xF7,
        last: 0xF7,
        size: 3,
        cycles: 7,
        needs: 1,
        leaves: 0,
        memory: Memory::Write(Place::Absolute),
        ..PLAIN
    },
    Family {
        kind: Kind::PushRelative,
        first: 0x98,
        last: 0x9B,
        size: 2,
        cycles: 7,
        needs: 0,
        leaves: 1,
        memory: Memory::Read(Place::Relative),
        ..PLAIN
    },
    Family {
        kind: Kind::PopRelative,
        first: 0xD8,
        last: 0xDB,
        size: 2,
        cycles: 7,
        needs: 1,
        leaves: 0,
        memory: Memory::Write(Place::Relative),
        ..PLAIN
    },
    Family {
        kind: Kind::PushIndexed,
        first: 0x9C,
        last: 0x9F,
        cycles: 6,
        needs: 1,
        leaves: 2,
        memory: Memory::Read(Place::Indexed),
        ..PLAIN
    },
    Family {
        kind: Kind::PopIndexed,
        first: 0xDC,
        last: 0xDF,
        cycles: 6,
        needs: 2,
        leaves: 1,
        memory: Memory::Write(Place::Indexed),
        ..PLAIN
    },
    Family {
        kind: Kind::PushReturn,
        first: 0xA1,
        last: 0xA1,
        cycles: 4,
        needs: 0,
        leaves: 1,
        takes: 1,
        gives: 1,
        ..PLAIN
    },
    Family {
        kind: Kind::PushPop,
        first: 0xA7,
        last: 0xA7,
        cycles: 5,
        needs: 0,
        leaves: 1,
        takes: 1,
        gives: 0,
        ..PLAIN
    },
    Family {
        kind: Kind::PopPush,
        first: 0xE7,
        last: 0xE7,
        cycles: 5,
        needs: 1,
        leaves: 0,
        takes: 0,
        gives: 1,
        ..PLAIN
    },
    Family {
        kind: Kind::Exchange,
        first: 0xB6,
        last: 0xB6,
        cycles: 4,
        needs: 2,
        leaves: 2,
        ..PLAIN
    },
    Family {
        kind: Kind::DropTop,
        first: 0xE4,
        last: 0xE4,
        cycles: 3,
        needs: 1,
        leaves: 0,
        ..PLAIN
    },
    Family {
        kind: Kind::DropNext,
        first: 0xE5,
        last: 0xE5,
        cycles: 2,
        needs: 2,
        leaves: 1,
        ..PLAIN
    },
    Family {
        kind: Kind::Allocate(1),
        first: 0xC0,
        last: 0xC0,
        cycles: 3,
        needs: 0,
        leaves: 1,
        ..PLAIN
    },
    Family {
        kind: Kind::Allocate(2),
        first: 0xC1,
        last: 0xC1,
        cycles: 3,
        needs: 0,
        leaves: 2,
        ..PLAIN
    },
    Family {
        kind: Kind::Allocate(3),
        first: 0xC2,
        last: 0xC2,
        cycles: 3,
        needs: 0,
        leaves: 3,
        ..PLAIN
    },
    Family {
        kind: Kind::Allocate(4),
        first: 0xC3,
        last: 0xC3,
        cycles: 3,
        needs: 0,
        leaves: 4,
        ..PLAIN
    },
    Family {
        kind: Kind::Allocate(5),
        first: 0xC4,
        last: 0xC4,
        cycles: 3,
        needs: 0,
        leaves: 5,
        ..PLAIN
    },
    Family {
        kind: Kind::Allocate(6),
        first: 0xC5,
        last: 0xC5,
        cycles: 3,
        needs: 0,
        leaves: 6,
        ..PLAIN
    },
    Family {
        kind: Kind::Allocate(7),
        first: 0xC6,
        last: 0xC6,
        cycles: 3,
        needs: 0,
        leaves: 7,
        ..PLAIN
    },
    Family {
        kind: Kind::Allocate(8),
        first: 0xC7,
        last: 0xC7,
        cycles: 3,
        needs: 0,
        leaves: 8,
        ..PLAIN
    },
    Family {
        kind: Kind::Deallocate(8),
        first: 0x78,
        last: 0x78,
        cycles: 6,
        needs: 8,
        leaves: 0,
        takes: 2,
        gives: 0,
        turn: Turn::Return,
        ..PLAIN
    },
    Family {
        kind: Kind::Deallocate(7),
        first: 0x79,
        last: 0x79,
        cycles: 6,
        needs: 7,
        leaves: 0,
        takes: 2,
        gives: 0,
        turn: Turn::Return,
        ..PLAIN
    },
    Family {
        kind: Kind::Deallocate(6),
        first: 0x7A,
        last: 0x7A,
        cycles: 6,
        needs: 6,
        leaves: 0,
        takes: 2,
        gives: 0,
        turn: Turn::Return,
        ..PLAIN
    },
    Family {
        kind: Kind::Deallocate(5),
        first: 0x7B,
        last: 0x7B,
        cycles: 6,
        needs: 5,
        leaves: 0,
        takes: 2,
        gives: 0,
        turn: Turn::Return,
        ..PLAIN
    },
    Family {
        kind: Kind::Deallocate(4),
        first: 0x7C,
        last: 0x7C,
        cycles: 6,
        needs: 4,
        leaves: 0,
        takes: 2,
        gives: 0,
        turn: Turn::Return,
        ..PLAIN
    },
    Family {
        kind: Kind::Deallocate(3),
        first: 0x7D,
        last: 0x7D,
        cycles: 6,
        needs: 3,
        leaves: 0,
        takes: 2,
        gives: 0,
        turn: Turn::Return,
        ..PLAIN
    },
    Family {
        kind: Kind::Deallocate(2),
        first: 0x7E,
        last: 0x7E,
        cycles: 6,
        needs: 2,
        leaves: 0,
        takes: 2,
        gives: 0,
        turn: Turn::Return,
        ..PLAIN
    },
    Family {
        kind: Kind::Deallocate(1),
        first: 0x7F,
        last: 0x7F,
        cycles: 6,
        needs: 1,
        leaves: 0,
        takes: 2,
        gives: 0,
        turn: Turn::Return,
        ..PLAIN
    },
    Family {
        kind: Kind::Branch,
        first: 0x71,
        last: 0x71,
        size: 2,
        cycles: 2,
        needs: 0,
        leaves: 0,
        turn: Turn::Jump(Distance::Long),
        ..PLAIN
    },
    Family {
        kind: Kind::BranchNonzero,
        first: 0x72,
        last: 0x72,
        size: 2,
        cycles: 4,
        needs: 1,
        leaves: 0,
        turn: Turn::IfNonzero(Distance::Long),
        ..PLAIN
    },
    Family {
        kind: Kind::BranchZero,
        first: 0x73,
        last: 0x73,
        size: 2,
        cycles: 4,
        needs: 1,
        leaves: 0,
        turn: Turn::IfZero(Distance::Long),
        ..PLAIN
    },
    Family {
        kind: Kind::ShortBranch,
        first: 0x20,
        last: 0x2F,
        cycles: 1,
        needs: 0,
        leaves: 0,
        turn: Turn::Jump(Distance::Short),
        ..PLAIN
    },
    Family {
        kind: Kind::ShortBranchZero,
        first: 0x40,
        last: 0x4F,
        cycles: 3,
        needs: 1,
        leaves: 0,
        turn: Turn::IfZero(Distance::Short),
        ..PLAIN
    },
    Family {
        kind: Kind::ShortBranchNonzero,
        first: 0x60,
        last: 0x6F,
        cycles: 3,
        needs: 1,
        leaves: 0,
        turn: Turn::IfNonzero(Distance::Short),
        ..PLAIN
    },
    Family {
        kind: Kind::CallFar,
        first: 0x77,
        last: 0x77,
        size: 3,
        cycles: 7,
        needs: 0,
        leaves: 0,
        takes: 0,
        gives: 2,
        turn: Turn::Call,
        ..PLAIN
    },
    Family {
        kind: Kind::Ret,
        first: 0x31,
        last: 0x31,
        cycles: 4,
        needs: 0,
        leaves: 0,
        takes: 2,
        gives: 0,
        turn: Turn::Return,
        ..PLAIN
    },
];

// The place of each opcode's family in the table, by the opcode; FF, which is no place, where there is none: a byte for each and no
// option, so that a string shows them, sixteen opcodes to a line.
// A search through the table took 40 ns for each opcode, where this takes 5 and a whole step of the machine 8.
pub(crate) const PLACES: &[u8; 256] = b"\
    \xff\xff\xff\xff\xff\xff\xff\xff\xff\xff\xff\xff\xff\xff\xff\xff\
    \xff\xff\xff\xff\xff\xff\xff\xff\xff\xff\xff\xff\xff\xff\xff\xff\
    \x48\x48\x48\x48\x48\x48\x48\x48\x48\x48\x48\x48\x48\x48\x48\x48\
    \xff\x4c\xff\xff\xff\xff\xff\xff\xff\xff\xff\xff\xff\x00\x01\x02\
    \x49\x49\x49\x49\x49\x49\x49\x49\x49\x49\x49\x49\x49\x49\x49\x49\
    \x03\x04\x05\x06\x07\xff\xff\xff\x08\x09\x0a\x0b\x0c\x0d\x0e\x0f\
    \x4a\x4a\x4a\x4a\x4a\x4a\x4a\x4a\x4a\x4a\x4a\x4a\x4a\x4a\x4a\x4a\
    \xff\x45\x46\x47\xff\xff\xff\x4b\x3d\x3e\x3f\x40\x41\x42\x43\x44\
    \x10\x10\x10\x10\x10\x10\x10\x10\x25\x25\x25\x25\x25\x25\x25\x25\
    \x25\x25\x25\x25\x25\x25\x25\x25\x2b\x2b\x2b\x2b\x2d\x2d\x2d\x2d\
    \xff\x2f\xff\xff\x13\x14\xff\x30\xff\xff\xff\xff\xff\xff\xff\xff\
    \x27\x27\x27\x27\x11\x12\x32\x29\x15\x16\x17\x18\x19\x1a\x1b\x1c\
    \x35\x36\x37\x38\x39\x3a\x3b\x3c\x26\x26\x26\x26\x26\x26\x26\x26\
    \x26\x26\x26\x26\x26\x26\x26\x26\x2c\x2c\x2c\x2c\x2e\x2e\x2e\x2e\
    \xff\xff\xff\xff\x33\x34\xff\x31\xff\xff\xff\xff\xff\xff\xff\xff\
    \x28\x28\x28\x28\xff\xff\xff\x2a\x1d\x1e\x1f\x20\x21\x22\x23\x24";
