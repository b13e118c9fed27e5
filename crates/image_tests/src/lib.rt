//! Tests of string_ops, grammar_image and resolving.
//! What the machine of each operation relates, by what PHP prints; which words images and resolved
//! grammars derive, with near misses; and where an image or a system is refused.
//! Used by: extraction_tests.
#![tactic(auto)]

#[cfg(test)]
mod all_cuts;
#[cfg(test)]
mod image_words;
#[cfg(test)]
mod images;
#[cfg(test)]
mod resolved;
#[cfg(test)]
mod string_operations;
mod words;

pub use words::derives;
