// A row: what a call finds, and what is wished of its ending.
use crate::calls::{Held, Outside, QUIET};
use crate::wishes::Wish;
use std::alloc::Global;

/// Which outputs are to be tried with each room.
#[derive(Clone, Copy)]
pub struct Rooms {
    pub out: bool,
    pub err: bool,
}

/// Behind how many bytes the first file is to be cut: from none on, a step apart, before an end.
#[derive(Clone, Copy)]
pub struct Cuts {
    pub step: usize,
    pub end: usize,
}

/// A row: its files, what stands outside, what is wished of the output and of the error stream, and
/// what else is to be tried.
pub struct Row {
    pub files: Held,
    pub outside: Outside,
    pub wishes: Vec<Wish>,
    pub tellings: Vec<Wish>,
    pub rooms: Rooms,
    pub reads: Vec<String>,
    pub cuts: Option<Cuts>,
}

impl Drop for Row {
    fn drop(self) {
        let Row {
            files: _,
            outside: _,
            wishes: _,
            tellings: _,
            rooms: _,
            reads: _,
            cuts: _,
        } = self;
    }
}

impl Row {
    /// A row that finds no files.
    pub fn new(alloc: Global) -> Row {
        Row {
            files: Vec::new(alloc),
            outside: QUIET,
            wishes: Vec::new(alloc),
            tellings: Vec::new(alloc),
            rooms: Rooms {
                out: false,
                err: false,
            },
            reads: Vec::new(alloc),
            cuts: None,
        }
    }
}
