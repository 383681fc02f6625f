// A verdict as text.
ghost use Rattle.std.specs.Prelude.{Some};
ghost use Rattle.fitting.specs.Text.{told};

use records::Entry;
use refusal::Refusal;
use std::fmt;

// `FIT` and the worst cycles, or the refusal.
#[derive(Clone, Copy)]
pub struct Verdict(pub Result<Entry, Refusal>);

impl fmt::Display for Verdict {
    ghost output = { λ v. Some (told v.0) };

    fn fmt<W: fmt::Write>(&self, f: &mut fmt::Formatter<W>) -> fmt::Result {
        match &self.0 {
            Ok(entry) => write!(f, "FIT {}", entry.worst),
            Err(refusal) => write!(f, "{refusal}"),
        }
    }
}
