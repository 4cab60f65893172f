//! Weights and depths, kept no greater than just above the limits, so that no sum overflows.
ghost use Rattle.std.specs.Prelude.{◌≡◌};
ghost use Rattle.tree_weight.specs.Capped.{capped as capped_of, no_size, capped_sizes};
ghost use Rattle.tree_weight.specs.Heavy.{is_over as is_over_of};

/// The greatest weight of a query.
const MOST_WEIGHT: u32 = 262_144;

/// The greatest depth of a query.
const MOST_DEPTH: u32 = 64;

/// What a tree comes to: the number of its nodes, and how many stand one below the other.
#[derive(Clone, Copy, Debug, PartialEq, Eq)]
pub struct Size {
    weight: u32,
    depth: u32,
}

fn capped(number: u64) -> u32
    ensures { result ≡ capped_of number }
{
    if number <= MOST_WEIGHT as u64 {
        number as u32
    } else {
        MOST_WEIGHT + 1
    }
}

impl Size {
    /// What nothing comes to.
    pub const NONE: Size = Size {
        weight: 0,
        depth: 0,
    };

    /// What two trees come to that stand beside each other.
    pub fn beside(self, other: Size) -> Size
        ensures { result ≡ capped_sizes.beside self other }
    {
        Size {
            weight: capped(self.weight as u64 + other.weight as u64),
            depth: self.depth.max(other.depth),
        }
    }

    /// What a node comes to that stands above a tree.
    pub fn above(self) -> Size
        ensures { result ≡ capped_sizes.above self }
    {
        Size {
            weight: capped(self.weight as u64 + 1),
            depth: capped(self.depth as u64 + 1),
        }
    }

    /// Whether the weight or the depth is over its limit.
    pub fn is_over(self) -> bool
        ensures { result ≡ is_over_of self.weight self.depth }
    {
        self.weight > MOST_WEIGHT || self.depth > MOST_DEPTH
    }
}
