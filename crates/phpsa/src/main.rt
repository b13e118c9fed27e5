//! The program `phpsa`: it puts the options of the file `phpsa.toml` into the words of the call, and hands these, the files and the two
//! outputs of the system to `several_files::answer`, and ends with the status that comes back; where a folder is among the names of `check`,
//! the names of its scripts to `several_files::check_each`.
//! Promise: which words these are is the contract of `call_options::options_for`, and what it answers that of these two; what real files,
//! folders and streams hold no clause says, which is tested.
//! Used by: the command line.
#![tactic(auto)]

mod folders;
mod progress;
mod words;

use crate::folders::with_folders;
use crate::progress::{ClearSink, Progress, ToldFiles};
use crate::words::{NoWords, words_of};
use call_options::options_for;
use io_edge::{DiskFiles, Sink, StdSink};
use phpsa_main::refuse;
use phpsa_texts::{Exit, Refusal, options_refusal, words_refusal};
use several_files::{CallFiles, answer, check_each};
use site_check::ReadOnce;
use std::process::ExitCode;

/// Says which word is no UTF-8; nothing, where no memory is left for that.
fn refuse_words(rt: &HostRuntime, no_words: NoWords) -> Exit {
    if let NoWords::NotUtf8 { place } = no_words {
        if let Refusal::Told(message) = words_refusal(rt.alloc(), place) {
            let mut err = StdSink::new(rt, rt.stderr());
            let _ = err.put(message.text.as_slice());
        }
    }
    Exit::Words
}

fn status_of(rt: &HostRuntime) -> Exit {
    let mut words = match words_of(rt) {
        Ok(words) => words,
        Err(no_words) => return refuse_words(rt, no_words),
    };
    let alloc = rt.alloc();
    let progress = Progress::new(rt);
    let told = ToldFiles {
        inner: ReadOnce::new(alloc, DiskFiles::new(rt, rt.stdin())),
        progress: &progress,
    };
    let mut files = CallFiles::new(alloc, told);
    let mut out = ClearSink {
        inner: StdSink::new(rt, rt.stdout()),
        progress: &progress,
    };
    let mut err = ClearSink {
        inner: StdSink::new(rt, rt.stderr()),
        progress: &progress,
    };
    if let Err(fault) = options_for(alloc, &mut words, &mut files) {
        return refuse(&options_refusal(alloc, &fault), &mut err);
    }
    match with_folders(rt, words.as_slice()) {
        Ok(None) => answer(alloc, &words, &mut files, &mut out, &mut err),
        Ok(Some(checks)) => check_each(alloc, &checks, &mut files, &mut out, &mut err),
        Err(refusal) => refuse(&refusal, &mut err),
    }
}

fn main(rt: HostRuntime) -> ExitCode {
    ExitCode::from(status_of(&rt).code())
}
