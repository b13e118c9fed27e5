//! The words of the command line, as the system gives them.

use std::env::FillError;
use std::io::ErrorKind;
use std::rt::Env;
use std::{env, io};

/// Why the system gives no words.
#[derive(Clone, Copy)]
pub(crate) enum NoWords {
    /// The word of this place behind the program's name, from 1, is no UTF-8.
    NotUtf8 { place: u64 },
    /// No memory was left.
    Memory,
}

/// One word of another environment, as the only one.
#[derive(Drop)]
struct OneWord<'a, R> {
    rt: &'a R,
    place: usize,
}

impl<'a, R: Env> Env for OneWord<'a, R> {
    fn arg(&self, i: usize, buf: &mut [u8]) -> Result<usize, FillError> {
        if i > 0 {
            return Err(FillError::NotPresent);
        }
        self.rt.arg(self.place, buf)
    }

    fn var(&self, _name: &str, _buf: &mut [u8]) -> Result<usize, FillError> {
        Err(FillError::NotPresent)
    }

    fn var_at(&self, _i: usize, _buf: &mut [u8]) -> Result<usize, FillError> {
        Err(FillError::NotPresent)
    }
}

/// The word of this place; none behind the last.
fn word_at(rt: &(impl Env + AllocGlobal), place: usize) -> io::Result<Option<String>> {
    let one = (OneWord { rt, place }, rt.alloc());
    Ok(env::args(&one)?.next())
}

/// The words after the program's name.
pub(crate) fn words_of(rt: &(impl Env + AllocGlobal)) -> Result<Vec<String>, NoWords> {
    let mut words = Vec::new(rt.alloc());
    for place in 1..usize::MAX {
        match word_at(rt, place) {
            Ok(None) => break,
            Ok(Some(word)) => {
                if words.push(word).is_err() {
                    return Err(NoWords::Memory);
                }
            }
            Err(error) => {
                return Err(match error.kind() {
                    ErrorKind::InvalidData => NoWords::NotUtf8 {
                        place: place as u64,
                    },
                    _ => NoWords::Memory,
                });
            }
        }
    }
    Ok(words)
}
