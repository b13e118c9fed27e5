//! The law of the bytes of outputs, as the contract of a function that does nothing.

ghost use Rattle.std.specs.Prelude.{ℕ, Contains};
ghost use Rattle.op_system.specs.Rel.{Rel};
ghost use Rattle.op_system.specs.OpBytes.{OutputByte};

use crate::op::Op;

/// Each byte of an output is one that the bytes of the input allow.
pub fn bytes_of_outputs(op: &Op, input: &[u8], output: &[u8])
    requires { Rel op.now input.now output.now }
    ensures { (byte : ℕ) → Contains output.now byte → OutputByte op.now (Contains input.now) byte }
{}
