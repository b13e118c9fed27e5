//! A system that is being written.

ghost use Rattle.std.specs.Prelude.{◌≡◌, IfOk, OnOk};
ghost use Rattle.given_texts.specs.Given.{closed_of};
ghost use Rattle.system_writing.specs.Forms.{form_of};
ghost use Rattle.system_writing.specs.Steps.{IsBegun, AddsSet, AddsStart, Writes, Says};

use crate::lines::{Lines, add_before, add_production, add_rule, add_same, add_text};
use crate::rows::RowForm;
use crate::waiting::Waiting;
use cfg_grammar::{Production, Right, Symbol};
use given_texts::{GivenTexts, sum};
use std::alloc::Global;
use text_base::{NoMemory, Nt};

/// A system that is being written: the nonterminals of given texts come first, then the start, and
/// then those of sets and of ends of texts as they are asked for.
#[derive(Debug, Drop)]
pub struct Draft {
    pub lines: Lines,
    /// The rows by which sets say yes, as productions without bytes.
    pub said: Vec<Production>,
    /// The texts that are there only where a set says yes.
    pub waiting: Vec<Waiting>,
    /// The nonterminal of the texts of the request.
    pub request: u64,
    /// The nonterminal of integers.
    pub integer: u64,
    /// The nonterminal of the start.
    pub start: u64,
}

impl Draft {
    /// The system of no sets over these given texts. In constant time.
    pub fn new(alloc: Global, given: GivenTexts) -> Result<Draft, NoMemory>
        ensures { IfOk result (IsBegun (closed_of given) given.grammar.count) }
    {
        let GivenTexts { grammar, integer } = given;
        let start = grammar.count;
        let count = sum(start, 1)?;
        let request = grammar.start.0;
        Ok(Draft {
            lines: Lines {
                count,
                productions: grammar.productions,
                rules: Vec::new(alloc),
            },
            said: Vec::new(alloc),
            waiting: Vec::new(alloc),
            request,
            integer: integer.0,
            start,
        })
    }

    /// The nonterminal of one set more. In constant time.
    pub fn add_set(&mut self) -> Result<u64, NoMemory>
        ensures { IfOk result (AddsSet self.old self.new) }
    {
        let number = self.lines.count;
        self.lines.count = sum(number, 1)?;
        Ok(number)
    }

    /// Has the system begin with a set too. In constant time.
    pub fn add_start(&mut self, set: u64) -> Result<(), NoMemory>
        ensures { OnOk result (AddsStart self.old self.new set) }
    {
        let start = self.start;
        add_same(&mut self.lines, start, set)
    }

    // A row by which a set says yes.
    fn say(&mut self, set: u64, right: Right) -> Result<(), NoMemory>
        ensures { OnOk result (Says self.old self.new set right) }
    {
        self.said.push(Production {
            left: Nt(set),
            right,
        })?;
        Ok(())
    }

    /// Writes a row of a set. Linear in its text.
    pub fn write(&mut self, set: u64, form: RowForm) -> Result<(), NoMemory>
        ensures { OnOk result (Writes self.old self.new set (form_of form)) }
    {
        let lines = &mut self.lines;
        match form {
            RowForm::Text(text) => add_text(lines, set, text.as_slice()),
            RowForm::Same(other) => {
                add_same(lines, set, other)?;
                self.say(set, Right::One(Symbol::Nt(Nt(other))))
            }
            RowForm::Join(a, b) => {
                let right = Right::Two(Symbol::Nt(Nt(a)), Symbol::Nt(Nt(b)));
                add_production(lines, set, right)
            }
            RowForm::Before(text, other) => add_before(lines, set, text.as_slice(), other),
            RowForm::Request => add_same(lines, set, self.request),
            RowForm::Integer => add_same(lines, set, self.integer),
            RowForm::Apply(op, other) => add_rule(lines, set, op, other),
            RowForm::Yes => self.say(set, Right::Empty),
            RowForm::Where(text, other) => {
                self.waiting.push(Waiting { set, text, other })?;
                Ok(())
            }
        }
    }
}
