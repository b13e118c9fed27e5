//! That bytes are below 256, as contracts see them.

ghost use Rattle.std.specs.Prelude.{◌<◌, ℕ, Contains, length};
ghost use Rattle.least_sets.specs.Bytes.{Adds};
ghost use Rattle.op_bytes.specs.SystemBytes.{HasBytes};
ghost use Rattle.op_bytes.specs.Fitting.{AreFittingRules};

use crate::literals::literal_of;
use cfg_grammar::productions_fit;
use op_system::{Op, OpRule, OpSystem};

/// The bytes of a text.
fn text_fits(text: &[u8])
    ensures { (byte : ℕ) → Contains text.now byte → byte < 256 }
{
    let _ = text;
}

/// The bytes that an operation adds.
fn op_fits(op: &Op)
    ensures { (byte : ℕ) → Adds op.now byte → byte < 256 }
{
    text_fits(literal_of(op));
}

/// The bytes that rules add.
fn rules_fit(rules: &[OpRule])
    ensures { AreFittingRules rules.now (length rules.now) }
{
    for rule in rules {
        op_fits(&rule.op);
    }
}

/// What stands in a system as bytes is below 256, as contracts see numbers. It goes over the system
/// and does nothing.
pub fn fits(s: &OpSystem)
    ensures { HasBytes s.now }
{
    productions_fit(s.grammar.productions.as_slice());
    rules_fit(s.ops.as_slice());
}
