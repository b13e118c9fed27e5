//! The maker.

ghost use Rattle.std.specs.Prelude.{◌≡◌, true};
ghost use Rattle.form_maker.specs.Numbers.{are_exprs};

use derivatives::Arena;
use std::alloc::Global;
use text_base::Stack;

/// Makes expressions in an arena: those that are still to be joined lie on a stack, and others are
/// kept by their place. Contracts see the expressions (`making_of`).
#[derive(Drop)]
pub struct Maker {
    pub(crate) alloc: Global,
    pub(crate) arena: Arena,
    pub(crate) stack: Stack<usize>,
    pub(crate) kept: Vec<usize>,
    ghost on_stack: { are_exprs arena stack ≡ true },
    ghost in_kept: { are_exprs arena kept.items ≡ true },
}
