//! Laws of what is left out, each the contract of a function with an empty body.

ghost use Rattle.script_rules.specs.Refused.{IsEither, IsReadWhole, IsReadAsNone, IsOneForm};

/// Each script of PHP stands for something as a whole, or a form is left out of it.
pub fn each_is_judged()
    ensures { IsEither }
{}

/// A script of PHP that stands for a tree as a whole is read as it.
pub fn what_is_whole_is_read()
    ensures { IsReadWhole }
{}

/// A script of PHP of which a form is left out is read as no tree.
pub fn what_is_left_out_is_not_read()
    ensures { IsReadAsNone }
{}

/// One form is the first that is left out.
pub fn first_form_is_one()
    ensures { IsOneForm }
{}
