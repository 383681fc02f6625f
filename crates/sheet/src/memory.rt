// Windows, and the addresses that an instruction may read or write.
ghost use Rattle.std.specs.Prelude.{◌≡◌, ◌≤◌, None};
ghost use Rattle.instruction.specs.Claim.{claim, span, past};
ghost use Rattle.records.specs.Lists.{any_pass};
ghost use Rattle.records.specs.Routine.{routine};
ghost use Rattle.sheet.specs.Known.{grants, holds, held_by, allowed, claimed};
ghost use Rattle.sheet.specs.Addresses.{spanned};
ghost use Rattle.sheet.specs.Leads.{knows};

use crate::layout::Layout;
use crate::pointers::claimed;
use board::Right;
use instruction::{Instruction, MemoryOperand, Target};
use records::{Pointers, Row, Window};

// Addresses from a first to a last. (No window: what an instruction reaches is no record.)
#[derive(Clone, Copy)]
pub struct Addresses {
    pub first: u16,
    pub last: u16,
}

// Does a window's right grant what is wanted? By cases, as the definition has it.
fn grants(own: Option<Right>, wanted: Option<Right>) -> bool
    ensures { result ≡ grants own wanted }
{
    match (own, wanted) {
        (Some(Right::Both), _) => true,
        (Some(Right::Read), Some(Right::Read)) => true,
        (Some(Right::Write), Some(Right::Write)) => true,
        _ => false,
    }
}

// Does a window hold all these addresses, with at least this right?
fn is_in(addresses: Addresses, right: Option<Right>, window: Window) -> bool
    ensures { result ≡ holds addresses.first addresses.last right window }
{
    window.first <= addresses.first
        && addresses.last <= window.last
        && grants(window.named_right(), right)
}

// From a pointer on, if it is known and none of the addresses is past the end.
fn past(pointer: Option<u16>, first: u8, last: u8) -> Option<Addresses>
    requires { first ≤ last }
    ensures { spanned result ≡ past pointer first last }
{
    let at = pointer?;
    let last = at.checked_add(u16::from(last))?;
    Some(Addresses {
        first: at + u16::from(first),
        last,
    })
}

impl Layout<'_> {
    // Does one window hold all these addresses, with at least this right? (The right stands beside the addresses, as in the
    // definition: what is reached is found from the target alone.)
    pub fn has_window(&self, addresses: Addresses, right: Option<Right>) -> bool
        ensures { result ≡ any_pass (holds addresses.first addresses.last right) (routine self.now.candidate).windows }
    {
        self.candidate
            .windows()
            .any(|window| is_in(addresses, right, window))
    }

    #[tactic(auto, using(crate::proofs::Entries::any_unsure))]
    fn is_held(&self, addresses: Option<Addresses>, right: Right) -> bool
        ensures { result ≡ any_pass (held_by (spanned addresses) right) (routine self.now.candidate).windows }
    {
        // No `is_some_and`: of its closure the check infers no answer.
        let Some(addresses) = addresses else {
            return false;
        };
        self.has_window(addresses, Some(right))
    }

    // Do the addresses that the instruction of a row reads or writes lie in a window with that right?
    pub fn is_allowed(&self, row: Row, instruction: &Instruction) -> bool
        ensures { result ≡ allowed (routine self.now.candidate).windows (claim instruction.now (knows (routine self.now.candidate) row)) }
    {
        let (target, right) = match instruction.memory() {
            MemoryOperand::Nothing => return true,
            MemoryOperand::Read(target) => (target, Right::Read),
            MemoryOperand::Write(target) => (target, Right::Write),
        };
        self.is_held(reached(target, row.pointers), right)
    }
}

// The addresses that a memory operand may have, if they are known.
fn reached(target: Target, pointers: Pointers) -> Option<Addresses>
    ensures { spanned result ≡ span target (record { pointer = claimed pointers; top = None }) }
{
    match target {
        Target::Fixed(at) => Some(Addresses {
            first: at,
            last: at,
        }),
        Target::Offset(pointer, n) => past(claimed(pointers, pointer), n, n),
        Target::Indexed(pointer) => past(claimed(pointers, pointer), 0, 255),
    }
}
