//! Laws of the trees, each the contract of a function with an empty body.

ghost use Rattle.php_trees.specs.Reads.{HaveOneTree};

/// Tokens are read as one tree at most.
pub fn tokens_have_one_tree()
    ensures { HaveOneTree }
{}
