ghost use Rattle.std.specs.Prelude.{◌≡◌, ℕ, ◌+◌, max};
ghost use Rattle.c_tree.specs.Measure.{Join, all, capped, sum};

/// How many nodes something has and how high it is; each number stands still at 2^32 - 1.
#[derive(Clone, Copy)]
pub struct Extent {
    pub nodes: u32,
    pub height: u32,
}

impl Extent {
    /// That of nothing.
    pub fn none() -> Extent
        ensures nodes { result.nodes ≡ 0 }
        ensures height { result.height ≡ 0 }
    {
        Extent {
            nodes: 0,
            height: 0,
        }
    }

    /// That of two things side by side.
    pub fn beside(self, other: Extent) -> Extent
        ensures nodes { result.nodes ≡ capped (self.nodes + other.nodes) }
        ensures height { result.height ≡ max self.height other.height }
    {
        Extent {
            nodes: self.nodes.saturating_add(other.nodes),
            height: self.height.max(other.height),
        }
    }

    /// That of a node with these things directly in it.
    pub fn above(self) -> Extent
        ensures nodes { result.nodes ≡ capped (self.nodes + 1) }
        ensures height { result.height ≡ capped (self.height + 1) }
    {
        Extent {
            nodes: self.nodes.saturating_add(1),
            height: self.height.saturating_add(1),
        }
    }
}

/// A part of a tree, with its extent.
pub trait Measured {
    /// Its number, for each way to join the numbers of what stands side by side.
    ghost measure: { Join → Self → ℕ };

    fn extent(&self) -> Extent
        ensures nodes { result.nodes ≡ capped (measure sum self.now) }
        ensures height { result.height ≡ capped (measure max self.now) };
}

/// The extent of parts side by side.
pub fn extent_of_all<T: Measured>(parts: &[T]) -> Extent
    ensures nodes { result.nodes ≡ capped (all sum (T.measure sum) parts.now) }
    ensures height { result.height ≡ capped (all max (T.measure max) parts.now) }
{
    let mut together = Extent::none();
    for part in parts {
        together = together.beside(part.extent());
    }
    together
}
