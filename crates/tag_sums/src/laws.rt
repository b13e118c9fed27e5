//! Laws of the definitions, as functions that do nothing.

ghost use Rattle.tag_sums.specs.Laws.{SumsCompose, IsAssociative, OneToken, WholeIsPage, NestsCompose, BalancedIsNested};

/// The sum of a concatenation is the composition of the sums.
pub fn sums_compose()
    ensures { SumsCompose }
{}

/// Composition is associative.
pub fn associative()
    ensures { IsAssociative }
{}

/// The sum of one token.
pub fn one_token()
    ensures { OneToken }
{}

/// A sum is whole exactly where the tokens are those of a page.
pub fn whole_is_page()
    ensures { WholeIsPage }
{}

/// The same two laws of nesting.
pub fn nesting()
    ensures composes { NestsCompose }
    ensures balanced { BalancedIsNested }
{}
