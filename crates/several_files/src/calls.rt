//! Calls of the program, each on one of several files alone.

ghost use Rattle.std.specs.Prelude.{◌≡◌, ◌⊎◌, ◌++◌, ◌∷◌, [], Err, IfErr, IfOk, OnOk, map, string_bytes};
ghost use Rattle.several_files.specs.Calls as spec;
ghost use Rattle.several_files.specs.Calls.{AreAnswers};
ghost use Rattle.several_files.specs.Telling.{refused_by};
ghost use Rattle.several_files.specs.Endings.{moment_of, AreRefused, IsAnswerOr};
ghost use Rattle.several_files.specs.Views.{answer_as, file_as};

use crate::answers::FileAnswer;
use crate::call_files::CallFiles;
use crate::checks::AskedFile;
use crate::lines::text_of;
use crate::words::{add_word, add_words};
use io_edge::{Files, MemSink};
use phpsa_main::phpsa;
use phpsa_texts::{Exit, Message, Refusal};
use std::alloc::Global;
use text_base::{Bytes, NoMemory};

/// The words of the call on a file.
fn call_words(alloc: Global, options: &[String], name: &str) -> Result<Vec<String>, NoMemory>
    ensures { IfOk result (λ words. map string_bytes words.items
        ≡ spec.call_words (map string_bytes options.now) name.now) }
{
    let mut words = Vec::new(alloc);
    add_word(alloc, &mut words, "check")?;
    add_words(alloc, &mut words, options)?;
    add_word(alloc, &mut words, "--")?;
    add_word(alloc, &mut words, name)?;
    Ok(words)
}

/// Whether a status ends the whole call by itself.
fn ends_all(status: Exit) -> bool
    ensures { result ≡ spec.ends_all status }
{
    match status {
        Exit::Usage | Exit::WriteFault | Exit::Memory => true,
        Exit::Done | Exit::No | Exit::Undecided | Exit::Script | Exit::Fault => false,
        Exit::Spent | Exit::Missing | Exit::ReadFault | Exit::Dtd | Exit::Input => false,
        Exit::Deep | Exit::Policy | Exit::Site | Exit::Words => false,
    }
}

/// What a call says that ends the whole one.
fn ended(alloc: Global, status: Exit, err: &[u8]) -> Refusal
    ensures { refused_by (Err result) status err.now ⊎ (result ≡ Refusal.Memory) }
{
    match Bytes::from_slice(alloc, err) {
        Ok(text) => Refusal::Told(Message { status, text }),
        Err(NoMemory) => Refusal::Memory,
    }
}

/// A copy of a name.
fn copy_of(alloc: Global, file: &AskedFile) -> Result<AskedFile, NoMemory>
    ensures { IfOk result (λ copy. file_as copy ≡ file_as file.now) }
{
    let name = String::from_str(alloc, file.name.as_str())?;
    Ok(AskedFile {
        name,
        is_found: file.is_found,
    })
}

/// The answer for a file.
///
/// # Errors
///
/// What the call says where that ends the whole one; and `Memory`.
fn answer_for<F: Files>(
    alloc: Global,
    options: &[String],
    file: &AskedFile,
    files: &mut CallFiles<F>,
) -> Result<FileAnswer, Refusal>
    ensures { IsAnswerOr (map string_bytes options.now)
        (moment_of F.content F.faults F.misses files.old)
        (moment_of F.content F.faults F.misses files.new) (file_as file.now) result }
{
    let words = call_words(alloc, options, file.name.as_str())?;
    let copy = copy_of(alloc, file)?;
    let _ = files.take_included(alloc);
    let mut out = MemSink::new(alloc, None);
    let mut err = MemSink::new(alloc, None);
    let status = phpsa(alloc, &words, files, &mut out, &mut err);
    if ends_all(status) {
        return Err(ended(alloc, status, err.written()));
    }
    let text = text_of(alloc, status, out.written(), err.written())?;
    Ok(FileAnswer {
        file: copy,
        status,
        text,
        included: files.take_included(alloc),
    })
}

/// Puts an answer behind others.
fn add_answer(answers: &mut Vec<FileAnswer>, answer: FileAnswer) -> Result<(), NoMemory>
    ensures { OnOk result (answers.new.items ≡ answers.old.items ++ answer ∷ []) }
{
    answers.push(answer)?;
    Ok(())
}

/// The answers for the files, one for each, in their order.
///
/// # Errors
///
/// As `answer_for`, of the first file for which it is so.
pub(crate) fn answers_for<F: Files>(
    alloc: Global,
    options: &[String],
    asked: &[AskedFile],
    files: &mut CallFiles<F>,
) -> Result<Vec<FileAnswer>, Refusal>
    ensures ok { IfOk result (λ answers. AreAnswers (map string_bytes options.now)
        (moment_of F.content F.faults F.misses files.old)
        (moment_of F.content F.faults F.misses files.new) (map file_as asked.now)
        (map answer_as answers.items)) }
    ensures err { IfErr result (AreRefused (map string_bytes options.now)
        (moment_of F.content F.faults F.misses files.old)
        (moment_of F.content F.faults F.misses files.new) (map file_as asked.now)) }
{
    let mut answers = Vec::new(alloc);
    let mut rest = asked;
    while let Some((file, others)) = rest.split_first() {
        let answer = answer_for(alloc, options, file, files)?;
        add_answer(&mut answers, answer)?;
        rest = others;
    }
    Ok(answers)
}
