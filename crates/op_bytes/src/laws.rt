//! Laws of byte sets. The functions do nothing, and stand for the laws that their contracts state.

ghost use Rattle.std.specs.Prelude.{◌<◌, ℕ, List, Contains};
ghost use Rattle.text_base.specs.declared.numbers.Nt as nt;
ghost use Rattle.cfg_grammar.specs.declared.symbol.Symbol as symbols;
ghost use Rattle.op_bytes.specs.Texts.{TextOf, ByteOf};
ghost use Rattle.op_bytes.specs.SystemBytes.{HasBytes};

use op_system::OpSystem;

/// The bytes of a text of a set are bytes of that set.
pub fn bytes_of_texts(s: &OpSystem)
    ensures { (symbol : symbols.Symbol) (text : List ℕ) → TextOf s.now symbol text → (byte : ℕ)
        → Contains text byte → ByteOf s.now symbol byte }
{}

/// They are below 256.
pub fn bytes_are_bytes(s: &OpSystem)
    requires { HasBytes s.now }
    ensures { (a : nt.Nt) (byte : ℕ) → ByteOf s.now (symbols.Symbol.Nt a) byte → byte < 256 }
{}
