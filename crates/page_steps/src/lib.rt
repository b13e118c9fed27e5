//! Reading a page from character to character, as a pure function: what one character does in each
//! kind of open piece of page_model (`page_step` of specs/PageSteps). No code and no promise stand
//! here: nobody has to believe it, since laws above say of each form of piece that these steps read
//! exactly the lawful ones.
//! Used by reference_steps, attribute_steps, doctype_steps, page_step_laws and others.
#![tactic(auto)]
