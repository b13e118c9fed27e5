//! Tests of extraction, from the text of a script to the texts of its grammar.
//! Small scripts with texts that are among their loose pages and texts that are not, worked out by
//! hand; the same by a reading whose request brings `a` alone; scripts whose systems stay small; and
//! short words that the grammar of given texts derives, with near misses.
//! Used by: none; it stands at the top.
#![tactic(auto)]

#[cfg(test)]
mod given;
#[cfg(test)]
mod pages;
#[cfg(test)]
mod readings;
#[cfg(test)]
mod scripts;
#[cfg(test)]
mod sizes;
#[cfg(test)]
mod words;
