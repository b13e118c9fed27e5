//! The law of versions.

ghost use Rattle.std.specs.Prelude.{ℕ, List, ◌↔◌};
ghost use Rattle.flow_code.specs.Points.{PlainFlow};
ghost use Rattle.loose_sets.specs.Reaching.{Definition, Reaches};
ghost use Rattle.loose_sets.specs.Versions.{PlainVersion, PlainJoin, asked_in, linked_in, IsKept, AreLinks, Stands, Behind};

/// Whatever joins are kept, those that are asked for, each with a link for each edge and for the
/// entry: the definitions behind a kept version that stands for a slot at a point are exactly those
/// that reach it.
pub fn versions_are_exact()
    ensures { (flow : PlainFlow) (joins : List PlainJoin)
        → AreLinks flow (asked_in joins) (linked_in joins)
        → (p x : ℕ) (v : PlainVersion) → Stands flow p x v → IsKept (asked_in joins) v
        → (d : Definition) → Behind (linked_in joins) v d ↔ Reaches flow d x p }
{}
