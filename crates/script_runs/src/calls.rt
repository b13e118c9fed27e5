//! The calls that are open.

ghost use Rattle.std.specs.Prelude.{◌≡◌, []};

use crate::{Task, Wait};
use expr_evaluator::{Evaluator, Variables};
use std::alloc::Global;
use text_base::{Bytes, Stack};

/// A call, or the script outside functions.
#[derive(Drop)]
pub struct Call<'a> {
    /// How many more calls it may open, one in the other.
    pub room: u16,
    /// The evaluation of its expression, and its variables.
    pub evaluator: Evaluator<'a>,
    /// What waits for the end of its statement, the innermost first.
    pub tasks: Stack<Task<'a>>,
}

/// A call that waits for the value of another.
#[derive(Drop)]
pub struct Caller<'a> {
    /// The call.
    pub call: Call<'a>,
    /// What waits for the value of its expression.
    pub wait: Wait<'a>,
}

/// A run, between two of its moves.
#[derive(Drop)]
pub struct Pending<'a> {
    /// The call that goes on.
    pub current: Call<'a>,
    /// The calls that wait for its value, the innermost first.
    pub callers: Stack<Caller<'a>>,
    /// What was printed.
    pub printed: Bytes,
}

impl<'a> Call<'a> {
    /// A call that begins with these variables. Takes no memory.
    pub fn new(alloc: Global, room: u16, variables: Variables<'a>) -> Call<'a>
        ensures { result ≡ record {
          room = room;
          evaluator = record {
            frames = [];
            variables = variables.entry;
          };
          tasks = [];
        } }
    {
        Call {
            room,
            evaluator: Evaluator::new(alloc, variables),
            tasks: Stack::new(alloc),
        }
    }
}

impl<'a> Pending<'a> {
    /// A run that has not begun. Takes no memory.
    pub fn new(alloc: Global, room: u16) -> Pending<'a>
        ensures { result ≡ record {
          current = record {
            room = room;
            evaluator = record {
              frames = [];
              variables = [];
            };
            tasks = [];
          };
          callers = [];
          printed = [];
        } }
    {
        Pending {
            current: Call::new(alloc, room, Variables::new(alloc)),
            callers: Stack::new(alloc),
            printed: Bytes::new(alloc),
        }
    }
}
