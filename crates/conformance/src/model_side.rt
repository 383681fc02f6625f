// The interpreter that goes by the opcode byte, set up by a case.
use crate::case::{Case, FILL, REGISTERS};
use crate::failure::Failure;
use crate::layout::{INPUTS, Layout, OUTPUTS, initial, initial_bytes};
use crate::state::{Refused, Side, State, Verdict};
use machine::Code;
use second::{Limits, Memory, Model, Output, Stop};
use std::alloc::{AllocError, Global};

#[derive(Drop)]
pub struct ModelSide {
    limits: Limits,
    model: Model,
    memory: Memory,
}

fn model_of(heap: Global, case: &Case) -> Result<Model, AllocError> {
    Ok(Model {
        stack: case.stack(heap)?,
        returns: case.return_stack(heap)?,
        registers: REGISTERS,
        pointers: case.pointers,
        carry: case.carry,
        ip: case.ip,
        cycles: case.cycles,
    })
}

fn outputs(heap: Global) -> Result<Vec<Output>, AllocError> {
    (0..4)
        .zip(OUTPUTS)
        .map(|(place, at)| Output {
            at,
            latest: initial(place),
        })
        .collect(heap)
}

fn memory_of(heap: Global, layout: &Layout) -> Result<Memory, AllocError> {
    Ok(Memory {
        boundary: layout.boundary,
        first: layout.first,
        cells: initial_bytes(heap, layout.count)?,
        inputs: Vec::from_slice(heap, &INPUTS)?,
        samples: Vec::from_slice(heap, layout.samples)?,
        taken: 0,
        outputs: outputs(heap)?,
    })
}

impl Side for ModelSide {
    fn new(heap: Global, case: &Case) -> Result<ModelSide, Failure> {
        Ok(ModelSide {
            limits: Limits {
                stack: usize::from(case.stack_limit),
                returns: usize::from(case.return_limit),
                fill: FILL,
            },
            model: model_of(heap, case)?,
            memory: memory_of(heap, &case.layout)?,
        })
    }

    fn step(&mut self, code: Code) -> Result<Verdict, Failure> {
        let place = usize::from(self.model.ip);
        match self
            .model
            .step(&self.limits, code.bytes, code.first, &mut self.memory)
        {
            Ok(()) => Ok(Ok(())),
            Err(Stop::Refused(fault)) => Ok(Err(Refused {
                number: fault.number(),
                place,
            })),
            Err(Stop::NoMemory) => Err(Failure::NoMemory),
        }
    }

    fn state(mut self, heap: Global) -> Result<State, Failure> {
        let sample = self.memory.read(INPUTS[0]);
        let outputs = &self.memory.outputs;
        let outputs = outputs
            .iter()
            .map(|output| Some(output.latest))
            .collect(heap)?;
        let ModelSide {
            limits: _,
            model,
            memory,
        } = self;
        let registers = model.registers;
        let pointers = model.pointers;
        Ok(State {
            stack: model.stack,
            returns: model.returns,
            registers,
            pointers,
            carry: model.carry,
            ip: model.ip,
            cycles: model.cycles,
            cells: memory.cells,
            outputs,
            sample,
        })
    }
}
