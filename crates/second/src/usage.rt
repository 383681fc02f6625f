// What an instruction asks of a stack.
ghost use Rattle.std.specs.Prelude.{◌≡◌, ◌↔◌, ◌≤◌, IsTrue};
ghost use Rattle.second.specs.Use.{needed, left_of};

/// What an instruction makes of a stack. The first number says how many bytes it needs there.
#[derive(Clone, Copy)]
pub(crate) enum Use {
    /// It leaves as many bytes as there were.
    Keeps(usize),
    /// It leaves so many fewer.
    Drops(usize, usize),
    /// It leaves so many more.
    Adds(usize, usize),
}

impl Use {
    /// A stack that an instruction does not touch.
    pub(crate) const NONE: Use = Use::Keeps(0);

    /// A return: it takes the two bytes of an address.
    pub(crate) const RETURN: Use = Use::Drops(2, 2);

    /// How many bytes it needs.
    pub(crate) fn need(self) -> usize
        ensures { result ≡ needed self }
    {
        let (Use::Keeps(need) | Use::Drops(need, _) | Use::Adds(need, _)) = self;
        need
    }

    /// Whether a stack of `depth` bytes stays within `limit`.
    pub(crate) fn stays(self, depth: usize, limit: usize) -> bool
        ensures { IsTrue result ↔ (left_of self depth ≤ limit) }
    {
        match self {
            Use::Keeps(_) => depth <= limit,
            Use::Drops(_, less) => depth.saturating_sub(less) <= limit,
            Use::Adds(_, more) => more <= limit && depth <= limit - more,
        }
    }
}
