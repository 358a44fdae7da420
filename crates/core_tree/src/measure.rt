ghost use Rattle.std.specs.Prelude.{◌≡◌, ◌+◌, max};
ghost use Rattle.core_tree.specs.Costs.{capped_cost};
ghost use Rattle.core_tree.specs.Heights.{capped};

/// The height of something, which stands still at 2^32 - 1, and its cost in bytes of code and its nodes, which stand
/// still at 2^64 - 1.
#[derive(Clone, Copy)]
pub struct Measure {
    pub height: u32,
    pub cost: u64,
    pub nodes: u64,
}

impl Measure {
    /// That of nothing.
    pub fn none() -> Measure
        ensures height { result.height ≡ 0 }
        ensures cost { result.cost ≡ 0 }
        ensures nodes { result.nodes ≡ 0 }
    {
        Measure {
            height: 0,
            cost: 0,
            nodes: 0,
        }
    }

    /// That of a node without parts, with its row.
    pub fn leaf(row: u64) -> Measure
        ensures height { result.height ≡ 1 }
        ensures cost { result.cost ≡ row }
        ensures nodes { result.nodes ≡ 1 }
    {
        Measure {
            height: 1,
            cost: row,
            nodes: 1,
        }
    }

    /// That of a node with its row and with this in it, as high as this.
    pub fn under(self, row: u64) -> Measure
        ensures height { result.height ≡ self.height }
        ensures cost { result.cost ≡ capped_cost (row + self.cost) }
        ensures nodes { result.nodes ≡ capped_cost (1 + self.nodes) }
    {
        Measure {
            height: self.height,
            cost: self.cost.saturating_add(row),
            nodes: self.nodes.saturating_add(1),
        }
    }

    /// That of two things side by side, as high as the higher one.
    pub fn beside(self, other: Measure) -> Measure
        ensures height { result.height ≡ max self.height other.height }
        ensures cost { result.cost ≡ capped_cost (self.cost + other.cost) }
        ensures nodes { result.nodes ≡ capped_cost (self.nodes + other.nodes) }
    {
        Measure {
            height: self.height.max(other.height),
            cost: self.cost.saturating_add(other.cost),
            nodes: self.nodes.saturating_add(other.nodes),
        }
    }

    /// The same where so many values are held meanwhile.
    pub fn above(self, held: u32) -> Measure
        ensures height { result.height ≡ capped (held + self.height) }
        ensures cost { result.cost ≡ self.cost }
        ensures nodes { result.nodes ≡ self.nodes }
    {
        Measure {
            height: self.height.saturating_add(held),
            cost: self.cost,
            nodes: self.nodes,
        }
    }

    /// The same with so many more nodes.
    pub fn with_nodes(self, count: usize) -> Measure
        ensures height { result.height ≡ self.height }
        ensures cost { result.cost ≡ self.cost }
        ensures nodes { result.nodes ≡ capped_cost (count + self.nodes) }
    {
        Measure {
            height: self.height,
            cost: self.cost,
            nodes: self.nodes.saturating_add(count as u64),
        }
    }
}
