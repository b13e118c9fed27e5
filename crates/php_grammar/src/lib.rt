//! PHP's grammar as data, and its tables.
//! Promise: `read_file` answers what is told of the only derivation of a file's terminals (`IsOnly`
//! of lr_tables, specs/Grammars), or the place of the first one that no file of PHP goes on with
//! (`IsFirstWrong` there), by the grammar `php` of specs/Php, which src/text.rt shows.
//! Used by: php_trees, script_rules, reading_tests.
#![tactic(auto)]

pub mod actions;
pub mod form;
pub mod forms;
mod reading;
mod rows;
pub mod rules;
pub mod text;

pub use reading::read_file;
