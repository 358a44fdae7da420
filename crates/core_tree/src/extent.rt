ghost use Rattle.std.specs.Prelude.{◌≡◌, ◌+◌, ◌*◌, ◌||◌};
ghost use Rattle.core_tree.specs.Heights.{capped};
ghost use Rattle.core_tree.specs.Layout.{aligned};

/// How many bytes something has, which stand still at 2^32 - 1, and whether it stands at even addresses.
#[derive(Clone, Copy)]
pub struct Extent {
    pub size: u32,
    pub even: bool,
}

/// That of nothing.
pub const NOTHING: Extent = Extent {
    size: 0,
    even: false,
};

impl Extent {
    /// The bytes before a thing that is put behind these.
    pub fn aligned(self, even: bool) -> u32
        ensures { result ≡ capped (aligned even self.size) }
    {
        if even {
            self.size.saturating_add(self.size % 2)
        } else {
            self.size
        }
    }

    /// These and a thing behind them.
    pub fn with(self, next: Extent) -> Extent
        ensures size { result.size ≡ capped (aligned next.even self.size + next.size) }
        ensures even { result.even ≡ (self.even || next.even) }
    {
        Extent {
            size: self.aligned(next.even).saturating_add(next.size),
            even: self.even || next.even,
        }
    }

    /// So many of these.
    pub fn times(self, count: u32) -> Extent
        ensures size { result.size ≡ capped (count * self.size) }
        ensures even { result.even ≡ self.even }
    {
        Extent {
            size: count.saturating_mul(self.size),
            even: self.even,
        }
    }

    /// These as a whole that can stand side by side.
    pub fn closed(self) -> Extent
        ensures size { result.size ≡ capped (aligned self.even self.size) }
        ensures even { result.even ≡ self.even }
    {
        Extent {
            size: self.aligned(self.even),
            even: self.even,
        }
    }
}
