//! How the analysis reads operations, the request and circular operations.

ghost use Rattle.std.specs.Prelude.{ℕ, List, All};
ghost use Rattle.xml_text.specs.Texts.{IsText};
ghost use Rattle.op_system.specs.declared.op.Op.{Op};
ghost use Rattle.op_system.specs.Rel.{Rel};
ghost use Rattle.least_sets.specs.Simulations.{IsMonotone};

/// What the sets of an analysis speak of. It has meanings alone.
pub trait Reading {
    /// An operation may have this output on this input.
    ghost outputs: { Self → Op → List ℕ → List ℕ → Type 0 };

    /// The text may come from the request.
    ghost request: { Self → List ℕ → Type 0 };

    /// The text may be an output of an operation in a cycle, whose outputs are over these bytes.
    ghost circular: { Self → (ℕ → Type 0) → List ℕ → Type 0 };

    /// More bytes give no fewer texts.
    ghost monotone: { (reading : Self) → IsMonotone (circular reading) };
}

/// Texts as they are: operations as PHP has them, any text of XML's characters from the request,
/// and any text over its bytes for an operation in a cycle.
#[derive(Clone, Copy, Debug)]
pub struct Plain;

impl Reading for Plain {
    ghost outputs = { λ plain op input output. Rel op input output };

    ghost request = { λ plain text. IsText text };

    ghost circular = { λ plain bytes text. All bytes text };

    ghost monotone = { λ plain bytes more text wider all k other below. wider _ (all k other below) };
}
