// The first argument of a program, where it is a number of what the program counts.
ghost use Rattle.std.specs.Prelude.{◌≡◌, ◌<◌, ◌^◌, Ok, Some, None, IfSome, IfErr};
ghost use Rattle.std.specs.Option.{IfNone};
ghost use Rattle.std.specs.Result.{OkIff};
ghost use Rattle.std.specs.String.{string_bytes};
ghost use Rattle.std.specs.Str.Parse.{IsNumeral, digits_value};

use crate::numbers::decimal;
use std::error::Error;
use std::fmt;

// A first argument that is no number of what was to be counted.
#[derive(Clone, Copy, Debug)]
pub struct NoCount {
    counted: &'static str,
}

// By hand, so that this crate needs no other for one line of text.
impl fmt::Display for NoCount {
    fn fmt<W: fmt::Write>(&self, f: &mut fmt::Formatter<W>) -> fmt::Result {
        let counted = self.counted;
        write!(f, "the argument is a number of {counted}")
    }
}

impl Error for NoCount {}

// A number in decimal and below 2^32, where there is an argument.
pub fn count_argument(
    argument: Option<String>,
    counted: &'static str,
) -> Result<Option<u32>, NoCount>
    ensures absent { IfNone argument (result ≡ Ok None) }
    ensures present { IfSome argument (λ text. OkIff result (IsNumeral 10 (string_bytes text) × (digits_value 10 (string_bytes text) < 2 ^ 32)) (Some (digits_value 10 (string_bytes text)))) }
    ensures named { IfErr result (λ error. error.counted.now ≡ counted.now) }
{
    argument
        .map(|text| decimal(text.as_bytes()).ok_or(NoCount { counted }))
        .transpose()
}
