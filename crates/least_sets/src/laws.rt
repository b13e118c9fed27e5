//! The law of the bytes of outputs.

ghost use Rattle.std.specs.Prelude.{◌⊎◌, ℕ, List, Contains};
ghost use Rattle.op_system.specs.declared.op.Op.{Op};
ghost use Rattle.op_system.specs.Rel.{Rel};
ghost use Rattle.least_sets.specs.Bytes.{Adds, Turns};

/// A byte of an output is one that the operation adds, or comes of a byte of the input.
pub fn bytes_of_outputs()
    ensures { (op : Op) (input output : List ℕ) → Rel op input output → (c : ℕ) → Contains output c
        → Adds op c ⊎ ((b : ℕ) × Contains input b × Turns op b c) }
{}
