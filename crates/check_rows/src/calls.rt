// A call of the program on files and outputs in memory.
use anyhow::Result;
use call_options::{OPTIONS_FILE, options_for};
use io_edge::{MemFiles, MemSink};
use phpsa_main::refuse;
use phpsa_texts::{Exit, options_refusal};
use several_files::{CallFiles, answer};
use site_check::ReadOnce;
use std::alloc::Global;
use text_base::Bytes;

/// The room of the two outputs, which call of the files fails, and how much of the first file there
/// is.
#[derive(Clone, Copy)]
pub struct Outside {
    pub out: Option<u64>,
    pub err: Option<u64>,
    pub fails: Option<u64>,
    pub front: Option<usize>,
}

/// All room, no failure, and whole files.
pub const QUIET: Outside = Outside {
    out: None,
    err: None,
    fails: None,
    front: None,
};

/// How a call ended, and what it wrote.
pub struct Ending {
    pub exit: Exit,
    pub out: MemSink,
    pub err: MemSink,
}

impl Drop for Ending {
    fn drop(self) {
        let Ending {
            exit: _,
            out: _,
            err: _,
        } = self;
    }
}

/// Files, each a name and its bytes.
pub type Held = Vec<(Bytes, Bytes)>;

// A copy of the files, of the first one so much.
fn copied(alloc: Global, files: &[(Bytes, Bytes)], front: Option<usize>) -> Result<Held> {
    let mut held = Vec::new(alloc);
    let mut front = front;
    for (name, bytes) in files {
        let whole = bytes.as_slice();
        let kept = match front.take() {
            None => whole,
            Some(length) => whole.get(..length).unwrap_or(whole),
        };
        held.push((
            Bytes::from_slice(alloc, name.as_slice())?,
            Bytes::from_slice(alloc, kept)?,
        ))?;
    }
    Ok(held)
}

// A copy of the words.
fn words_again(alloc: Global, words: &Vec<String>) -> Result<Vec<String>> {
    let mut again = Vec::new(alloc);
    for word in words {
        again.push(String::from_str(alloc, word.as_str())?)?;
    }
    Ok(again)
}

// Whether the file of options is among the files.
fn has_options(files: &[(Bytes, Bytes)]) -> bool {
    for (name, _) in files {
        if name.as_slice() == OPTIONS_FILE.as_bytes() {
            return true;
        }
    }
    false
}

/// Calls the program with these words over these files, each of which is asked for once. Where the
/// file of options is among them, its options are put into the words first.
pub fn call(
    alloc: Global,
    words: &Vec<String>,
    files: &[(Bytes, Bytes)],
    outside: Outside,
) -> Result<Ending> {
    let mut fail = Vec::new(alloc);
    if let Some(call) = outside.fails {
        fail.push(call)?;
    }
    let held = MemFiles::new(copied(alloc, files, outside.front)?, fail);
    let mut source = CallFiles::new(alloc, ReadOnce::new(alloc, held));
    let mut out = MemSink::new(alloc, outside.out);
    let mut err = MemSink::new(alloc, outside.err);
    let mut words = words_again(alloc, words)?;
    let options = if has_options(files) {
        options_for(alloc, &mut words, &mut source)
    } else {
        Ok(())
    };
    let exit = match options {
        Ok(()) => answer(alloc, &words, &mut source, &mut out, &mut err),
        Err(fault) => refuse(&options_refusal(alloc, &fault), &mut err),
    };
    Ok(Ending { exit, out, err })
}
