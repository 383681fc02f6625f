// The run of a job: a machine on its board, with the code from its first address on.
use board::{Board, Cells, Ports, Split};
use machine::{Code, Machine, Settings};
use std::{fmt, io};
use text::{Cell, Disassembly, Encoding, NonzeroCells, Numbers, Progress};

const INPUTS: [u16; 4] = [0xC000, 0xC001, 0xC002, 0xC003];

const OUTPUTS: [u16; 4] = [0xC004, 0xC005, 0xC006, 0xC007];

#[derive(Drop)]
pub struct Run {
    settings: Settings,
    // No `Code`, which borrows its bytes.
    code: Vec<u8>,
    first: u16,
    machine: Machine,
    // Cells below h'8000, ports above.
    board: Split<Cells, Ports>,
}

impl Run {
    pub fn new(first: u16, code: Vec<u8>, samples: Vec<u8>) -> Run {
        // The program's own addresses, written here so that it needs none of the crates of claim sheets.
        Run {
            settings: Settings::new(0xE000, 0x4000, 0x4FFF, 64, 32, 0).unwrap(),
            code,
            first,
            machine: Machine::new(first),
            board: Split {
                lower: Cells::new(0x5000, 512).unwrap(),
                upper: Ports::new(&INPUTS, &OUTPUTS, samples).unwrap(),
                boundary: 0x8000,
            },
        }
    }

    // Steps up to so many times, and prints a line for each step and why it stopped.
    pub fn steps(&mut self, rt: &impl Print, most: u32) -> io::Result<()> {
        for _ in 0..most {
            let at = self.machine.ip;
            let code = Code {
                bytes: self.code.as_slice(),
                first: self.first,
            };
            let found = code.fetch(at);
            if let Err(refusal) = self.machine.step(&self.settings, code, &mut self.board) {
                return println!(rt; "STOPPED {refusal}");
            }
            // After a step that was done there is one.
            if let Some(instruction) = found {
                let encoding = Encoding(&instruction);
                let disassembly = Disassembly(&instruction);
                let progress = Progress(&self.machine);
                println!(rt; "{at:04X} {encoding} {disassembly} ; {progress}")?;
            }
        }
        println!(rt; "STOPPED after {most} steps")
    }
}

// The machine and its board as the run left them.
impl fmt::Display for Run {
    fn fmt<W: fmt::Write>(&self, f: &mut fmt::Formatter<W>) -> fmt::Result {
        let registers = Numbers::<u8, 2>(&self.machine.registers);
        let pointers = Numbers::<u16, 4>(&self.machine.pointers);
        write!(f, "registers {registers}\npointers {pointers}\noutputs")?;
        for at in OUTPUTS {
            // Each of these is an output, so there is a byte; no contract of this type says so, so this is no `unwrap`.
            let byte = self.board.upper.latest(at).unwrap_or(0);
            let cell = Cell { at, byte };
            write!(f, " {cell}")?;
        }
        let (first, bytes) = self.board.lower.contents();
        let cells = NonzeroCells { first, bytes };
        write!(f, "\ncells {cells}")
    }
}
