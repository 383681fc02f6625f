// Numbers in text. Hexadecimal digits may be of either case, and no sign is read.
ghost use Rattle.std.specs.Prelude.{◌≡◌, ◌<◌, ◌≤◌, ◌^◌, length, SomeIff};
ghost use Rattle.std.specs.Str.Parse.{IsNumeral, digits_value};

use std::alloc::{AllocError, Global};

// Digits in a radix, of a number below 2^32. The first that is none, or that makes the number too large, ends the reading.
fn number(text: &[u8], radix: u32) -> Option<u32>
    requires lower_bound { 2 ≤ radix }
    requires upper_bound { radix ≤ 36 }
    ensures { SomeIff result (IsNumeral radix text.now × (digits_value radix text.now < 2 ^ 32)) (digits_value radix text.now) }
{
    if text.is_empty() {
        return None;
    }
    let mut value = 0u32;
    let mut digits = text;
    while let [first, rest @ ..] = digits {
        let digit = char::from(*first).to_digit(radix)?;
        let more = u64::from(value) * u64::from(radix) + u64::from(digit);
        value = u32::try_from(more).ok()?;
        digits = rest;
    }
    Some(value)
}

// One to four hexadecimal digits.
#[tactic(auto, using(crate::proofs::Digits::value_of_four))]
pub fn word(text: &[u8]) -> Option<u16>
    ensures { SomeIff result (IsNumeral 16 text.now × (length text.now ≤ 4)) (digits_value 16 text.now) }
{
    if text.len() > 4 {
        return None;
    }
    u16::try_from(number(text, 16)?).ok()
}

// Decimal digits, of a number below 2^32.
pub fn decimal(text: &[u8]) -> Option<u32>
    ensures { SomeIff result (IsNumeral 10 text.now × (digits_value 10 text.now < 2 ^ 32)) (digits_value 10 text.now) }
{
    number(text, 10)
}

// A byte of two hexadecimal digits.
#[tactic(auto, using(crate::proofs::Digits::value_of_two))]
fn byte(pair: &[u8; 2]) -> Option<u8>
    ensures { SomeIff result (IsNumeral 16 pair.now) (digits_value 16 pair.now) }
{
    u8::try_from(number(pair, 16)?).ok()
}

// Bytes of two hexadecimal digits each, with or without blanks between them.
pub fn bytes(heap: Global, text: &[u8]) -> Result<Option<Vec<u8>>, AllocError> {
    let mut found = Vec::new(heap);
    let mut left = text;
    // A loop, since a wrong digit and memory that runs out are two answers, and a chain that collects carries one.
    while let [first, after @ ..] = left {
        left = match (first, after) {
            (b' ', _) => after,
            (high, [low, rest @ ..]) => {
                let Some(byte) = byte(&[*high, *low]) else {
                    return Ok(None);
                };
                found.push(byte)?;
                rest
            }
            _ => return Ok(None),
        };
    }
    Ok(Some(found))
}
