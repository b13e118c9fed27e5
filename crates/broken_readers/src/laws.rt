//! The laws. Each function does nothing, and stands for the law that its contract states.

ghost use Rattle.broken_readers.specs.Laws.{BrokenIsNotGood, CoarseFindsBroken, CoarseMissesNone, CoarseTellsBroken, LooseFindsBroken, LooseMissesNone, LooseTellsBroken};

/// Over a page the reader by the loose forms puts out nothing, or one bad token, the latter exactly
/// where the page is broken.
pub fn loose_tells_broken()
    ensures { LooseTellsBroken }
{}

/// The same by the coarse form, of pages that are coarsely broken.
pub fn coarse_tells_broken()
    ensures { CoarseTellsBroken }
{}

/// The tokens that the machine of the loose forms puts out over a page are not nested exactly where
/// the page is broken.
pub fn loose_misses_none()
    ensures { LooseMissesNone }
{
    loose_tells_broken();
}

/// Those of the machine of the coarse form exactly where it is coarsely broken.
pub fn coarse_misses_none()
    ensures { CoarseMissesNone }
{
    coarse_tells_broken();
}

/// The machine of the loose forms finds only pages that are good by no goal.
pub fn loose_finds_broken()
    ensures { LooseFindsBroken }
{
    loose_tells_broken();
    broken_is_not_good();
}

/// The machine of the coarse form finds only pages that are good by no goal and no definition.
pub fn coarse_finds_broken()
    ensures { CoarseFindsBroken }
{
    coarse_tells_broken();
    broken_is_not_good();
    broken_forms::coarse_pages_are_broken();
}

/// A page that is broken by a lawful definition is good by no goal.
pub fn broken_is_not_good()
    ensures { BrokenIsNotGood }
{
    broken_forms::broken_have_bad();
    page_model::valid_by_tokens();
    form_reader::page_tokens_are_read();
    dyck_balance::whole_is_nested();
}
