//! The laws. Each function does nothing, and stands for the law that its contract states.

ghost use Rattle.page_decision.specs.Telling.{NestsTellNested, SumsTellValid};

/// By each table of states that decides what elements may hold, the sum of a page's tokens is whole
/// exactly where the page is valid.
pub fn sums_tell_valid()
    ensures { SumsTellValid }
{
    page_model::valid_by_tokens();
    page_automata::whole_is_tree();
}

/// The sum by nesting of a page's tokens is whole exactly where the page is nested.
pub fn nests_tell_nested()
    ensures { NestsTellNested }
{
    page_model::one_token_list();
    dyck_balance::whole_is_nested();
}
