//! The laws. Each function does nothing, and stands for the law that its contract states.

ghost use Rattle.exact_fronts.specs.Laws.{EqualFronts, FrontsAreStates};

/// The front of a page is the state of the narrowed reader behind it; a bad one is none.
pub fn fronts_are_states()
    ensures { FrontsAreStates }
{
    front_laws::laws::fronts_lead();
}

/// So two pages with equal fronts lead to equal states, bad fronts too.
pub fn equal_fronts()
    ensures { EqualFronts }
{
    front_laws::laws::fronts_lead();
}
