//! Of what is answered: for a script, for the scripts of a list, for a page.

ghost use Rattle.std.specs.Prelude.{◌≡◌, ◌++◌, IfOk, map, string_bytes};
ghost use Rattle.std.specs.List.{list_any};
ghost use Rattle.site_check.specs.Report.{is_no, is_refused, is_undecided, report};
ghost use Rattle.phpsa_texts.specs.Statuses.{conclusion_status, judgment_status, site_status};
ghost use Rattle.phpsa_texts.specs.Texts.{Says, conclusion_word, judgment_text, many_states_text, no_answer, no_text, passed_answer, passed_json, passed_text, sums_text, summary_text, yes_answer};
ghost use Rattle.phpsa_texts.specs.declared.exit.Exit.TheVariants.{Done, No, Undecided};

use crate::exit::Exit;
use crate::lines::append_number;
use crate::message::Message;
use crate::{items_json, no_json, short_sums_json, sums_json, yes_json};
use site_check::{Line, report};
use std::alloc::Global;
use text_base::{Bytes, NoMemory};

/// How the answer for a script is written.
#[derive(Clone, Copy, Debug, PartialEq, Eq)]
pub enum AnswerForm {
    /// As lines.
    Plain,
    /// As one object of JSON (RFC 8259) and a line feed.
    Json,
}

/// The ways in which a script is decided.
#[derive(Clone, Copy, Debug, PartialEq, Eq)]
pub enum Conclusion {
    /// Each page that it may print is good.
    Yes,
    /// It may print a page that is not.
    No,
    /// A stated count was passed.
    Undecided,
}

impl Conclusion {
    fn word(self) -> &'static [u8]
        ensures { result.now ≡ conclusion_word self }
    {
        match self {
            Conclusion::Yes => b"yes",
            Conclusion::No => b"no",
            Conclusion::Undecided => b"undecided",
        }
    }

    fn status(self) -> Exit
        ensures { result ≡ conclusion_status self }
    {
        match self {
            Conclusion::Yes => Exit::Done,
            Conclusion::No => Exit::No,
            Conclusion::Undecided => Exit::Undecided,
        }
    }
}

/// A stated count that was passed.
#[derive(Clone, Copy, Debug, PartialEq, Eq)]
pub enum PassedCount {
    /// Of the different sums of the sentences of one nonterminal, by derivations of at most this
    /// height.
    Pairs { count: u64, height: u64 },
    /// Of the unmatched tags of a sentence, by a derivation of at most this height.
    Tags { count: u64, height: u64 },
    /// Of the different sums of the sentences of one nonterminal of at most this length in bytes.
    ShortPairs { count: u64, length: u64 },
    /// Of the unmatched tags of a sentence of at most this length in bytes.
    ShortTags { count: u64, length: u64 },
    /// Of the items of an image.
    Items { count: u64 },
}

/// That each page that a script may print is good.
pub fn yes_message(alloc: Global, form: AnswerForm) -> Result<Message, NoMemory>
    ensures { IfOk result (λ message. Says message Done (yes_answer form)) }
{
    let text = match form {
        AnswerForm::Plain => Bytes::from_slice(alloc, b"yes\n")?,
        AnswerForm::Json => yes_json(alloc)?,
    };
    Ok(Message {
        status: Exit::Done,
        text,
    })
}

/// That a script may print a page that is not good: the length that is shown of it, and its first
/// bytes.
pub fn no_message(
    alloc: Global,
    form: AnswerForm,
    length: u64,
    front: &[u8],
) -> Result<Message, NoMemory>
    ensures { IfOk result (λ message. Says message No (no_answer form length front.now)) }
{
    let text = match form {
        AnswerForm::Plain => no_text(alloc, length, front)?,
        AnswerForm::Json => no_json(alloc, length, front)?,
    };
    Ok(Message {
        status: Exit::No,
        text,
    })
}

fn no_text(alloc: Global, length: u64, front: &[u8]) -> Result<Bytes, NoMemory>
    ensures { IfOk result (λ text. text ≡ no_text length front.now) }
{
    let mut text = Bytes::from_slice(alloc, b"no\npage ")?;
    append_number(alloc, &mut text, length)?;
    text.append(b"\n")?;
    text.append(front)?;
    text.append(b"\n")?;
    Ok(text)
}

/// That a stated count was passed, so that a script is not decided.
pub fn passed_message(
    alloc: Global,
    form: AnswerForm,
    passed: PassedCount,
) -> Result<Message, NoMemory>
    ensures { IfOk result (λ message. Says message Undecided (passed_answer form passed)) }
{
    let text = match form {
        AnswerForm::Plain => passed_text(alloc, passed)?,
        AnswerForm::Json => passed_json(alloc, passed)?,
    };
    Ok(Message {
        status: Exit::Undecided,
        text,
    })
}

fn passed_text(alloc: Global, passed: PassedCount) -> Result<Bytes, NoMemory>
    ensures { IfOk result (λ text. text ≡ passed_text passed) }
{
    match passed {
        PassedCount::Pairs { count, height } => {
            sums_text(alloc, b"pairs", count, b" height ", height)
        }
        PassedCount::Tags { count, height } => {
            sums_text(alloc, b"tags", count, b" height ", height)
        }
        PassedCount::ShortPairs { count, length } => {
            sums_text(alloc, b"pairs", count, b" length ", length)
        }
        PassedCount::ShortTags { count, length } => {
            sums_text(alloc, b"tags", count, b" length ", length)
        }
        PassedCount::Items { count } => {
            let mut text = Bytes::from_slice(alloc, b"undecided items ")?;
            append_number(alloc, &mut text, count)?;
            text.append(b"\n")?;
            Ok(text)
        }
    }
}

/// That a pattern has so many derivatives, so that a script is not decided.
pub fn many_states_message(alloc: Global, count: u64) -> Result<Message, NoMemory>
    ensures { IfOk result (λ message. Says message Undecided (many_states_text count)) }
{
    let mut text = Bytes::from_slice(alloc, b"undecided states ")?;
    append_number(alloc, &mut text, count)?;
    text.append(b"\n")?;
    Ok(Message {
        status: Exit::Undecided,
        text,
    })
}

fn sums_text(
    alloc: Global,
    kind: &[u8],
    count: u64,
    within: &[u8],
    bound: u64,
) -> Result<Bytes, NoMemory>
    ensures { IfOk result (λ text. text ≡ sums_text kind.now count within.now bound) }
{
    let mut text = Bytes::from_slice(alloc, b"undecided ")?;
    text.append(kind)?;
    text.append(b" ")?;
    append_number(alloc, &mut text, count)?;
    text.append(within)?;
    append_number(alloc, &mut text, bound)?;
    text.append(b"\n")?;
    Ok(text)
}

fn passed_json(alloc: Global, passed: PassedCount) -> Result<Bytes, NoMemory>
    ensures { IfOk result (λ text. text ≡ passed_json passed) }
{
    match passed {
        PassedCount::Pairs { count, height } => sums_json(alloc, "pairs", count, height),
        PassedCount::Tags { count, height } => sums_json(alloc, "tags", count, height),
        PassedCount::ShortPairs { count, length } => short_sums_json(alloc, "pairs", count, length),
        PassedCount::ShortTags { count, length } => short_sums_json(alloc, "tags", count, length),
        PassedCount::Items { count } => items_json(alloc, count),
    }
}

fn summary_text(
    alloc: Global,
    functions: u64,
    bytes: u64,
    answer: Conclusion,
) -> Result<Bytes, NoMemory>
    ensures { IfOk result (λ text. text ≡ summary_text functions bytes answer) }
{
    let mut text = Bytes::from_slice(alloc, b"functions ")?;
    append_number(alloc, &mut text, functions)?;
    text.append(b"\nbytes ")?;
    append_number(alloc, &mut text, bytes)?;
    text.append(b"\nanswer ")?;
    text.append(answer.word())?;
    text.append(b"\n")?;
    Ok(text)
}

/// How a generated script with so many functions and bytes was decided.
pub fn summary_message(
    alloc: Global,
    functions: u64,
    bytes: u64,
    answer: Conclusion,
) -> Result<Message, NoMemory>
    ensures { IfOk result
        (λ message. Says message (conclusion_status answer) (summary_text functions bytes answer)) }
{
    let text = summary_text(alloc, functions, bytes, answer)?;
    Ok(Message {
        status: answer.status(),
        text,
    })
}

/// Whether a page is valid.
pub fn judgment_message(alloc: Global, is_valid: bool) -> Result<Message, NoMemory>
    ensures { IfOk result
        (λ message. Says message (judgment_status is_valid) (judgment_text is_valid)) }
{
    let (status, text) = if is_valid {
        (Exit::Done, b"valid\n".as_slice())
    } else {
        (Exit::No, b"invalid\n".as_slice())
    };
    let text = Bytes::from_slice(alloc, text)?;
    Ok(Message { status, text })
}

/// Whether one of the lines tells of a page that is not good.
fn has_no(lines: &[Line]) -> bool
    ensures { result ≡ list_any is_no lines.now }
{
    lines.iter().any(|line| line.is_no())
}

/// Whether one of the lines tells of a script that is not decided.
fn has_undecided(lines: &[Line]) -> bool
    ensures { result ≡ list_any is_undecided lines.now }
{
    lines.iter().any(|line| line.is_undecided())
}

/// Whether one of the lines tells of a script that is refused.
fn has_refused(lines: &[Line]) -> bool
    ensures { result ≡ list_any is_refused lines.now }
{
    lines.iter().any(|line| line.is_refused())
}

/// The status of a report with these lines.
fn site_status(lines: &[Line]) -> Exit
    ensures { result ≡ site_status lines.now }
{
    if has_no(lines) {
        Exit::No
    } else if has_undecided(lines) {
        Exit::Undecided
    } else if has_refused(lines) {
        Exit::Site
    } else {
        Exit::Done
    }
}

/// How the scripts of these names were decided, each by its line.
pub fn site_message(alloc: Global, names: &[String], lines: &[Line]) -> Result<Message, NoMemory>
    ensures { IfOk result (λ message. Says message (site_status lines.now)
        (report (map string_bytes names.now) lines.now)) }
{
    let text = report(alloc, names, lines)?;
    Ok(Message {
        status: site_status(lines),
        text,
    })
}
