// The interpreter that the table drives, set up by a case.
use crate::case::{Case, FILL, REGISTERS};
use crate::failure::Failure;
use crate::layout::{INPUTS, Layout, OUTPUTS, initial};
use crate::state::{Refused, Side, State, Verdict};
use board::{Board, Cells, Ports, Split};
use machine::{Code, Machine, Settings, Stack};
use std::alloc::Global;

#[derive(Drop)]
pub struct MachineSide {
    settings: Settings,
    machine: Machine,
    board: Split<Cells, Ports>,
}

fn filled(bytes: &[u8]) -> Result<Stack, Failure> {
    Stack::from_slice(bytes).ok_or(Failure::TooDeep)
}

fn machine_of(heap: Global, case: &Case) -> Result<Machine, Failure> {
    Ok(Machine {
        stack: filled(case.stack(heap)?.as_slice())?,
        returns: filled(case.return_stack(heap)?.as_slice())?,
        registers: REGISTERS,
        pointers: case.pointers,
        carry: case.carry,
        ip: case.ip,
        cycles: case.cycles,
    })
}

// A board that refuses to be filled shows as a difference in what it holds.
fn board_of(heap: Global, layout: &Layout) -> Result<Split<Cells, Ports>, Failure> {
    let mut lower = Cells::new(layout.first, layout.count)?;
    // Counted in u16, as `initial` takes a place: an index of `enumerate` would have to be cast.
    for place in 0..layout.count {
        let _ = lower.write(layout.first.wrapping_add(place), initial(place));
    }
    let samples = Vec::from_slice(heap, layout.samples)?;
    let mut upper = Ports::new(&INPUTS, &OUTPUTS, samples)?;
    for (place, at) in (0..4).zip(OUTPUTS) {
        let _ = upper.write(at, initial(place));
    }
    Ok(Split {
        lower,
        upper,
        boundary: layout.boundary,
    })
}

impl Side for MachineSide {
    // A step looks at the limits and the fill byte of the settings alone, so the other numbers may be any that settings allow.
    fn new(heap: Global, case: &Case) -> Result<MachineSide, Failure> {
        let (page, first, last) = (0xE000, 0x4000, 0x4FFF);
        Ok(MachineSide {
            settings: Settings::new(page, first, last, case.stack_limit, case.return_limit, FILL)?,
            machine: machine_of(heap, case)?,
            board: board_of(heap, &case.layout)?,
        })
    }

    fn step(&mut self, code: Code) -> Result<Verdict, Failure> {
        let step = self.machine.step(&self.settings, code, &mut self.board);
        Ok(step.map_err(|refusal| Refused {
            number: refusal.question.number(),
            place: refusal.place,
        }))
    }

    fn state(mut self, heap: Global) -> Result<State, Failure> {
        let ports = &self.board.upper;
        let outputs = OUTPUTS.iter().map(|at| ports.latest(*at)).collect(heap)?;
        Ok(State {
            stack: Vec::from_slice(heap, self.machine.stack.as_slice())?,
            returns: Vec::from_slice(heap, self.machine.returns.as_slice())?,
            registers: self.machine.registers,
            pointers: self.machine.pointers,
            carry: self.machine.carry,
            ip: self.machine.ip,
            cycles: self.machine.cycles,
            cells: Vec::from_slice(heap, self.board.lower.contents().1)?,
            outputs,
            sample: self.board.read(INPUTS[0]).ok(),
        })
    }
}
