// Why a step is not taken.
ghost use Rattle.std.specs.Prelude.{◌≡◌};
ghost use Rattle.second.specs.Fault.{number_of};
ghost use Rattle.second.specs.declared.fault.Stop.TheVariants.{NoMemory, Refused};

use std::alloc::{AllocError, AllocFailed};

/// The questions of a step in their order, each by what is wrong where the answer is no, and with its number: a list of its own, so
/// that nothing is shared with another interpreter.
#[derive(Clone, Copy, PartialEq, Eq, Debug)]
pub enum Fault {
    /// Does an instruction stand there with all its bytes?
    NoInstruction = 70,
    /// Does the data stack hold the bytes that it needs?
    DataShort = 71,
    /// Does the return stack?
    ReturnShort = 72,
    /// Does the data stack stay within its limit?
    DataFull = 73,
    /// Does the return stack?
    ReturnFull = 74,
    /// Does the board accept the access?
    Denied = 75,
}

impl Fault {
    pub fn number(self) -> u8
        ensures { result ≡ number_of self }
    {
        // The variant's own number: a conversion by cases would list the numbers twice.
        self as u8
    }
}

/// What ends a step of an instruction that may let a stack grow.
#[derive(Clone, Copy, PartialEq, Eq, Debug)]
pub enum Stop {
    /// A question was answered no.
    Refused(Fault),
    /// A stack found no memory to grow.
    NoMemory,
}

// By hand, this and the next two, as the contracts name the stop that each `?` makes, which a derive would leave unsaid.
impl From<Fault> for Stop {
    ghost from_gives = { λ fault stop. stop ≡ Refused fault };

    fn from(fault: Fault) -> Stop {
        Stop::Refused(fault)
    }
}

impl From<AllocError> for Stop {
    ghost from_gives = { λ _ stop. stop ≡ NoMemory };

    fn from(_error: AllocError) -> Stop {
        Stop::NoMemory
    }
}

impl<T: Drop> From<AllocFailed<T>> for Stop {
    ghost from_gives = { λ _ stop. stop ≡ NoMemory };

    fn from(_failed: AllocFailed<T>) -> Stop {
        Stop::NoMemory
    }
}
