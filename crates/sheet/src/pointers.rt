// What is known of pointers.
ghost use Rattle.std.specs.Prelude.{◌≡◌, ◌==◌, if◌then◌else◌};
ghost use Rattle.sheet.specs.Known.{claimed, four, borne_out, all_borne_out};

use records::Pointers;
use std::array;

// Nothing is known.
pub const UNKNOWN: Pointers = [None; 4];

// What is claimed of a pointer.
pub fn claimed(pointers: Pointers, pointer: u8) -> Option<u16>
    ensures { result ≡ claimed pointers pointer }
{
    pointers.get(usize::from(pointer)).copied().flatten()
}

// The same with one pointer known anew, or unknown.
pub fn learn(pointers: Pointers, pointer: u8, value: Option<u16>) -> Pointers
    ensures { result ≡ four (λ q. if q == pointer then value else claimed pointers q) }
{
    array::from_fn(|q| {
        if q == usize::from(pointer) {
            value
        } else {
            pointers[q]
        }
    })
}

// Is what is claimed known, with that value?
fn is_borne_out(claim: Option<u16>, fact: Option<u16>) -> bool
    ensures { result ≡ borne_out claim fact }
{
    claim.is_none() || claim == fact
}

// Is each pointer that is claimed known, with that value?
pub fn are_borne_out(claims: Pointers, facts: Pointers) -> bool
    ensures { result ≡ all_borne_out claims facts }
{
    claims
        .iter()
        .zip(facts.iter())
        .all(|(claim, fact)| is_borne_out(*claim, *fact))
}
