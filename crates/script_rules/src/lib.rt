//! What the language leaves out of PHP, by the derivations of PHP's grammar: each form with its name and place.
//! Promise: the contracts of laws. A script of PHP is read as the tree that it stands for, or a form is left out of
//! it, and then it is read as none (`IsEither`, `IsReadWhole`, `IsReadAsNone` of specs/Refused).
//! Used by: none yet.
#![tactic(auto)]

pub mod laws;
