//! From the answer for a program to what is written: the one table of them.

ghost use Rattle.std.specs.Prelude.{◌≡◌, IfOk};
ghost use Rattle.phpsa_texts.specs.Texts.{Says};
ghost use Rattle.phpsa_tasks.specs.ScriptAnswers.{answer_status, answer_text, conclusion_of};
ghost use Rattle.phpsa_tasks.specs.Sites.{line_of};

use phpsa_texts::{
    AnswerForm, Conclusion, Message, PassedCount, no_message, passed_message, yes_message,
};
use script_decision::ShownAnswer;
use site_check::Line;
use std::alloc::Global;
use text_base::NoMemory;

/// How a script is decided by an answer.
pub(crate) fn conclusion_of(answer: &ShownAnswer) -> Conclusion
    ensures { result ≡ conclusion_of answer.now }
{
    match answer {
        ShownAnswer::Yes => Conclusion::Yes,
        ShownAnswer::No(_) => Conclusion::No,
        ShownAnswer::Pairs { .. } => Conclusion::Undecided,
        ShownAnswer::Tags { .. } => Conclusion::Undecided,
        ShownAnswer::Items { .. } => Conclusion::Undecided,
    }
}

/// The line that tells an answer in a report: of a page that is not good its length alone.
pub(crate) fn line_of(answer: &ShownAnswer) -> Line
    ensures { result ≡ line_of answer.now }
{
    match answer {
        ShownAnswer::Yes => Line::Yes,
        ShownAnswer::No(page) => Line::No {
            length: page.length,
        },
        ShownAnswer::Pairs { count, height } => Line::Pairs {
            count: *count,
            height: *height,
        },
        ShownAnswer::Tags { count, height } => Line::Tags {
            count: *count,
            height: *height,
        },
        ShownAnswer::Items { count } => Line::Items { count: *count },
    }
}

/// The text and the status of an answer.
pub(crate) fn answer_message(
    alloc: Global,
    form: AnswerForm,
    answer: &ShownAnswer,
) -> Result<Message, NoMemory>
    ensures { IfOk result
        (λ message. Says message (answer_status answer.now) (answer_text form answer.now)) }
{
    match answer {
        ShownAnswer::Yes => yes_message(alloc, form),
        ShownAnswer::No(page) => no_message(alloc, form, page.length, page.front.as_slice()),
        ShownAnswer::Pairs { count, height } => {
            let passed = PassedCount::Pairs {
                count: *count,
                height: *height,
            };
            passed_message(alloc, form, passed)
        }
        ShownAnswer::Tags { count, height } => {
            let passed = PassedCount::Tags {
                count: *count,
                height: *height,
            };
            passed_message(alloc, form, passed)
        }
        ShownAnswer::Items { count } => {
            passed_message(alloc, form, PassedCount::Items { count: *count })
        }
    }
}
