//! Sizes, and what becomes of them where parts are put together.

ghost use Rattle.std.specs.Prelude.{◌≡◌};
ghost use Rattle.program_sizes.specs.Sizes as sizes;

/// How many places of includes were replaced in statements, how many nodes they have, and how high
/// they are; where a number would be larger than the largest 64-bit number, it is that.
#[derive(Clone, Copy, Debug)]
pub(crate) struct Size {
    pub(crate) places: u64,
    pub(crate) nodes: u64,
    pub(crate) height: u64,
}

impl Size {
    /// Nothing.
    pub(crate) fn none() -> Size
        ensures { result ≡ sizes.capped sizes.none }
    {
        Size {
            places: 0,
            nodes: 0,
            height: 0,
        }
    }

    /// Both, side by side.
    pub(crate) fn beside(self, other: Size) -> Size
        ensures { (a b : Size) → self ≡ sizes.capped a → other ≡ sizes.capped b → result
            ≡ sizes.capped (sizes.beside a b) }
    {
        Size {
            places: self.places.saturating_add(other.places),
            nodes: self.nodes.saturating_add(other.nodes),
            height: self.height.max(other.height),
        }
    }

    /// A node over this.
    pub(crate) fn above(self) -> Size
        ensures { (a : Size) → self ≡ sizes.capped a → result ≡ sizes.capped (sizes.above a) }
    {
        Size {
            places: self.places,
            nodes: self.nodes.saturating_add(1),
            height: self.height.saturating_add(1),
        }
    }

    /// An include that this stands for.
    pub(crate) fn included(self) -> Size
        ensures { result ≡ sizes.capped (sizes.included self) }
    {
        Size {
            places: self.places.saturating_add(1),
            nodes: self.nodes,
            height: self.height,
        }
    }
}
