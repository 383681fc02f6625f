ghost use Rattle.std.specs.Prelude.{◌≡◌, IfOk};
ghost use Rattle.refusal.specs.Questions.{verdict_of, first_no};
ghost use Rattle.machine.specs.Limits.{page_fits, area_fits, limits_fit, settings_asks};
ghost use Rattle.machine.specs.Settings.{SetTo};

use super::Settings;
use refusal::{Question, Refusal, ask};

fn page_fits(page: u16) -> bool
    ensures { result ≡ page_fits page }
{
    page <= 65280
}

fn area_fits(page: u16, first: u16, last: u16) -> bool
    ensures { result ≡ area_fits page first last }
{
    first <= last
        && last - first < 8192
        && (last < page || u32::from(page) + 256 <= u32::from(first))
}

fn limits_fit(stack: u16, returns: u16) -> bool
    ensures { result ≡ limits_fit stack returns }
{
    (1..=255).contains(&stack) && (2..=255).contains(&returns)
}

impl Settings {
    // Six numbers and no struct of them, as they come together here alone, and two are wider than the fields they fill.
    // The base page's first address, the code area's first and last, the limits of the data stack and of the return stack,
    // and the fill byte.
    pub fn new(
        page: u16,
        first: u16,
        last: u16,
        stack: u16,
        returns: u16,
        fill: u8,
    ) -> Result<Settings, Refusal>
        ensures verdict { verdict_of result ≡ first_no (settings_asks page first last stack returns) }
        ensures made { IfOk result (λ s. SetTo page first last stack returns fill s) }
    {
        ask(Question::BasePage, 0, page_fits(page))?;
        ask(Question::CodeArea, 0, area_fits(page, first, last))?;
        ask(Question::StackLimits, 0, limits_fit(stack, returns))?;
        // The limits fit a byte, as was just asked. A cast that lost a bit would be refused, so this says what `try_from` and
        // `unwrap` would.
        Ok(Settings {
            page,
            first,
            last,
            stack: stack as u8,
            returns: returns as u8,
            fill,
        })
    }
}
