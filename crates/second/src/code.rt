// An instruction and its bytes.

/// An opcode with the two bytes after it, 0 where the instruction has none: what is done at each opcode knows how many it has.
#[derive(Clone, Copy)]
pub(crate) struct Instruction {
    pub(crate) op: u8,
    pub(crate) operand: [u8; 2],
}

impl Instruction {
    /// The byte after the opcode.
    pub(crate) fn byte(self) -> u8 {
        self.operand[0]
    }

    /// The word after the opcode, the high byte first.
    pub(crate) fn word(self) -> u16 {
        u16::from_be_bytes(self.operand)
    }
}

/// How many bytes the instruction has that begins with `op`, if one does.
fn size(op: u8) -> Option<usize> {
    let size = match op {
        // NOP, SBR; RET; NOT, INC, DEC, SBRZ, ADD, AND, OR, XOR, ADC
        0x20..=0x2F | 0x31 | 0x3D..=0x54 => 1,
        // ADD, AND, OR and XOR of a number
        0x58..=0x5B => 2,
        // ADD_R, AND_R, OR_R, XOR_R, SBRNZ
        0x5C..=0x6F => 1,
        // BR, BRNZ, BRZ
        0x71..=0x73 => 2,
        // CALLF
        0x77 => 3,
        // DEALLOC and DROP_R TOS, PUSHS, PUSH of a register
        0x78..=0x97 => 1,
        // PUSH [p][n]
        0x98..=0x9B => 2,
        // PUSH [p][TOS], PUSH [RSP], PUSH TOS, PUSH NEXT, PUSHPOP, PUSHD [p]
        0x9C..=0x9F | 0xA1 | 0xA4 | 0xA5 | 0xA7 | 0xB0..=0xB3 => 1,
        // PUSH #n
        0xB4 => 2,
        // PUSHD #w, PUSH w
        0xB5 | 0xB7 => 3,
        // XCH, PUSH [DSP][-k], ALLOC, POP to a register
        0xB6 | 0xB8..=0xD7 => 1,
        // POP [p][n]
        0xD8..=0xDB => 2,
        // POP [p][TOS], DROP TOS, DROP NEXT, POPPUSH, POPD [p]
        0xDC..=0xDF | 0xE4 | 0xE5 | 0xE7 | 0xF0..=0xF3 => 1,
        // POP w
        0xF7 => 3,
        // POP [DSP][-k]
        0xF8..=0xFF => 1,
        _ => return None,
    };
    Some(size)
}

/// The instruction at `at`, if one stands there with all its bytes.
pub(crate) fn fetch(code: &[u8], at: usize) -> Option<Instruction> {
    let here = code.get(at..)?;
    let op = *here.first()?;
    let operand = match (size(op)?, here) {
        (1, _) => [0, 0],
        (2, [_, byte, ..]) => [*byte, 0],
        (3, [_, high, low, ..]) => [*high, *low],
        _ => return None,
    };
    Some(Instruction { op, operand })
}
