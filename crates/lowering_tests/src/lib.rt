//! Tests of program_lowering and of ssa_form, through lexer, parser and loader.
//! Small scripts with the kinds of their points, written by hand, and with the definitions and
//! joins that each point reads.
//! Used by: none; it stands at the top.
#![tactic(auto)]

#[cfg(test)]
mod kinds;
#[cfg(test)]
mod points;
#[cfg(test)]
mod stubs;
#[cfg(test)]
mod versions;
