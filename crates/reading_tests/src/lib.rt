//! Tests of reading and writing scripts, over php_lexer, php_parser and php_writer, by the PHP manual
//! and the table of docs/language.md; of the data of php_grammar against its text; and a small
//! language of statements as an instance of lr_machine. Promise: `read_small` answers what is told
//! of the only derivation of the tokens, or the place of the first one that no sentence goes on with
//! (`IsOnly`, `IsFirstWrong` of lr_tables).
//! Used by: none; it stands at the top.
#![tactic(auto)]

#[cfg(test)]
mod forms;
#[cfg(test)]
mod grammar_forms;
#[cfg(test)]
mod grammar_text;
mod reading;
mod rows;
mod rules;
#[cfg(test)]
mod statements;
#[cfg(test)]
mod tokens;
#[cfg(test)]
mod trees;
#[cfg(test)]
mod written;
