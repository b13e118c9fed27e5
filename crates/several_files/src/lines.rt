//! The report on several files.

ghost use Rattle.std.specs.Prelude.{◌≡◌, ◌++◌, ◌≤◌, ◌∷◌, [], IfOk, OnOk, length, map};
ghost use Rattle.several_files.specs.Lines as spec;
ghost use Rattle.several_files.specs.Views.{answer_as};

use crate::answers::FileAnswer;
use crate::outcome::{Outcome, is_decided, outcome_of, same_outcome, word_of};
use phpsa_texts::{Exit, shown_name};
use std::alloc::Global;
use text_base::{Bytes, NoMemory, behind, front};

/// The bytes before the first line feed, or all.
fn first_line(alloc: Global, text: &[u8]) -> Result<Bytes, NoMemory>
    ensures { IfOk result (λ line. line ≡ spec.first_line text.now) }
{
    let mut line = Bytes::new(alloc);
    let mut rest = text;
    while let Some((first, others)) = rest.split_first() {
        if *first == b'\n' {
            return Ok(line);
        }
        line.push(*first)?;
        rest = others;
    }
    Ok(line)
}

/// The text of a line, by the status of its call and what stands on its two outputs.
pub(crate) fn text_of(
    alloc: Global,
    status: Exit,
    out: &[u8],
    err: &[u8],
) -> Result<Bytes, NoMemory>
    ensures { IfOk result (λ text. text ≡ spec.text_of status out.now err.now) }
{
    if is_decided(outcome_of(status)) {
        first_line(alloc, out)
    } else {
        Bytes::from_slice(alloc, front(behind(err, 7), err.len().saturating_sub(8)))
    }
}

/// Puts a line behind others.
fn add_line(alloc: Global, text: &mut Bytes, answer: &FileAnswer) -> Result<(), NoMemory>
    ensures { OnOk result (text.new ≡ text.old ++ spec.line_of (answer_as answer.now)) }
{
    let name = shown_name(alloc, answer.file.name.as_bytes())?;
    text.append(name.as_slice())?;
    text.append(b": ")?;
    text.append(answer.text.as_slice())?;
    text.push(b'\n')?;
    Ok(())
}

/// How many answers have the outcome.
fn count_of(outcome: Outcome, answers: &[&FileAnswer]) -> usize
    ensures count { result ≡ spec.count_of outcome (map (λ answer. answer_as answer.now) answers.now) }
    ensures bound { result ≤ length answers.now }
{
    let mut count = 0;
    let mut rest = answers;
    while let [answer, others @ ..] = rest {
        if same_outcome(outcome, outcome_of(answer.status)) {
            count += 1;
        }
        rest = others;
    }
    count
}

/// Puts a sum behind others; none of nothing.
fn add_sum(
    alloc: Global,
    text: &mut Bytes,
    answers: &[&FileAnswer],
    outcome: Outcome,
) -> Result<(), NoMemory>
    ensures { OnOk result (text.new ≡ spec.with_sum
        (map (λ answer. answer_as answer.now) answers.now) text.old outcome) }
{
    let count = count_of(outcome, answers);
    if count == 0 {
        return Ok(());
    }
    let digits = (count as u64).to_string(alloc)?;
    if !text.is_empty() {
        text.append(b", ")?;
    }
    text.append(digits.as_bytes())?;
    text.append(word_of(outcome).as_bytes())?;
    Ok(())
}

/// The sums.
fn sums_of(alloc: Global, answers: &[&FileAnswer]) -> Result<Bytes, NoMemory>
    ensures { IfOk result
        (λ text. text ≡ spec.sums_of (map (λ answer. answer_as answer.now) answers.now)) }
{
    let mut text = Bytes::new(alloc);
    add_sum(alloc, &mut text, answers, Outcome::Yes)?;
    add_sum(alloc, &mut text, answers, Outcome::No)?;
    add_sum(alloc, &mut text, answers, Outcome::Undecided)?;
    add_sum(alloc, &mut text, answers, Outcome::Unread)?;
    Ok(text)
}

/// A line for each answer.
fn lines_of(alloc: Global, answers: &[&FileAnswer]) -> Result<Bytes, NoMemory>
    ensures { IfOk result
        (λ text. text ≡ spec.lines_of (map (λ answer. answer_as answer.now) answers.now)) }
{
    let mut text = Bytes::new(alloc);
    let mut rest = answers;
    while let [answer, others @ ..] = rest {
        add_line(alloc, &mut text, answer)?;
        rest = others;
    }
    Ok(text)
}

/// The report: a line for each answer, and one with the sums.
pub(crate) fn report(alloc: Global, answers: &[&FileAnswer]) -> Result<Bytes, NoMemory>
    ensures { IfOk result
        (λ text. text ≡ spec.report (map (λ answer. answer_as answer.now) answers.now)) }
{
    let mut text = lines_of(alloc, answers)?;
    let sums = sums_of(alloc, answers)?;
    text.append(sums.as_slice())?;
    text.push(b'\n')?;
    Ok(text)
}

/// The status of a report.
pub(crate) fn report_status(answers: &[&FileAnswer]) -> Exit
    ensures { result ≡ spec.report_status (map (λ answer. answer_as answer.now) answers.now) }
{
    if count_of(Outcome::No, answers) != 0 {
        return Exit::No;
    }
    if count_of(Outcome::Undecided, answers) != 0 {
        return Exit::Undecided;
    }
    if count_of(Outcome::Unread, answers) != 0 {
        return Exit::Site;
    }
    Exit::Done
}
