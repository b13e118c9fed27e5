//! Tests of text_base, derivatives, page_policy, cfg_grammar, op_system, fst_core and script_maker, with ample
//! memory and with values written down by hand.
//! And of command_words: a table of words and what they ask for.
//! Used by: none; it stands at the top.
#![tactic(auto)]

#[cfg(test)]
mod asked;
#[cfg(test)]
mod bytes;
#[cfg(test)]
mod expressions;
#[cfg(test)]
mod grammars;
#[cfg(test)]
mod policies;
#[cfg(test)]
mod scripts;
#[cfg(test)]
mod systems;
#[cfg(test)]
mod tables;
