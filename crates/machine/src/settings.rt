// The settings of a node: its base page, its code area, the limits of both stacks and the fill byte.
ghost use Rattle.std.specs.Prelude.{◌≡◌, true};
ghost use Rattle.machine.specs.Limits.{page_fits, area_fits, limits_fit};

mod make;

// Settings that exist have passed their three questions.
#[derive(Clone, Copy)]
pub struct Settings {
    // The base page's first address.
    pub page: u16,
    // The code area's first and last address.
    pub first: u16,
    pub last: u16,
    // The most bytes that the data stack and the return stack may hold.
    pub stack: u8,
    pub returns: u8,
    // What ALLOC fills new bytes with.
    pub fill: u8,
    ghost pages: { page_fits page ≡ true },
    ghost areas: { area_fits page first last ≡ true },
    ghost limits: { limits_fit stack returns ≡ true },
}
