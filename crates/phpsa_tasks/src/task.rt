//! What is to be done for what words ask for.

ghost use Rattle.std.specs.Prelude.{◌≡◌};
ghost use Rattle.command_words.specs.Views.{asked_as};
ghost use Rattle.phpsa_tasks.specs.Tasks as spec;
ghost use Rattle.phpsa_tasks.specs.Views.{task_as};

use crate::choice::PageChoice;
use command_words::CommandLine;
use document_types::DocumentType;
use page_decision::Goal;
use phpsa_texts::AnswerForm;

/// A script, or a list of scripts, by the name of its file, and what is given for it: the folder
/// that is its root, and the file whose functions stand for functions of the host's PHP that the
/// language has not.
#[derive(Clone, Copy, Debug, PartialEq, Eq)]
pub struct ScriptFile<'a> {
    pub name: &'a str,
    pub root: Option<&'a str>,
    pub stubs: Option<&'a str>,
}

/// What is to be done.
#[derive(Debug, Drop)]
pub enum Task<'a> {
    /// The script of a file is decided, with all that it includes: by this goal, with at most so
    /// many different sums of the sentences of one nonterminal, and with this page where one is not
    /// good.
    ScriptCheck {
        file: ScriptFile<'a>,
        document_type: DocumentType<'a>,
        goal: Goal,
        limit: u64,
        form: AnswerForm,
        choice: PageChoice,
    },
    /// The page of a file is judged.
    PageCheck {
        file: &'a str,
        document_type: DocumentType<'a>,
    },
    /// A script with so many functions is made.
    ScriptMaking {
        functions: u32,
    },
    /// A script with so many functions is made and decided.
    MadeCheck {
        functions: u32,
    },
    /// The script of a file is run, with all that it includes: for the request of a file, or for
    /// one of five empty arrays, within so many units.
    ScriptRun {
        file: ScriptFile<'a>,
        request: Option<&'a str>,
        steps: u64,
    },
    /// The grammar of the pages of the script of a file is written.
    GrammarMaking {
        file: ScriptFile<'a>,
    },
    /// The scripts of a list in a file are decided, each as `ScriptCheck` does, with the root and the
    /// stubs that the list has here.
    ListCheck {
        file: ScriptFile<'a>,
        document_type: DocumentType<'a>,
        goal: Goal,
        limit: u64,
    },
    /// The pages of the script of a file are held against the pattern of another.
    ScriptMatch {
        file: ScriptFile<'a>,
        policy: &'a str,
    },
    /// The commands and their options are told.
    Help,
    /// The version of the program is told.
    Version,
    /// The words ask for nothing: the usage is told, and a line that says what is wrong with them,
    /// or none where a number in them is none.
    Usage {
        reason: Option<String>,
    },
}

/// The form of an answer, by whether JSON is asked for.
fn form_of(as_json: bool) -> AnswerForm
    ensures { result ≡ spec.form_of as_json }
{
    if as_json {
        AnswerForm::Json
    } else {
        AnswerForm::Plain
    }
}

/// The goal, by whether nesting alone is asked for.
fn goal_of(by_nesting: bool) -> Goal
    ensures { result ≡ spec.goal_of by_nesting }
{
    if by_nesting {
        Goal::Nested
    } else {
        Goal::Valid
    }
}

/// Which page is shown, by whether a shortest one is asked for.
fn choice_of(is_shortest: bool) -> PageChoice
    ensures { result ≡ spec.choice_of is_shortest }
{
    if is_shortest {
        PageChoice::Shortest
    } else {
        PageChoice::First
    }
}

/// What is done for words that ask for this.
pub(crate) fn task_of<'a>(line: CommandLine<'a>) -> Task<'a>
    ensures { task_as result ≡ spec.task_of (asked_as line.entry) }
{
    match line {
        CommandLine::Check {
            file,
            definition,
            root,
            stubs,
            limit,
            by_nesting,
            as_json,
            is_shortest,
        } => Task::ScriptCheck {
            file: ScriptFile {
                name: file,
                root,
                stubs,
            },
            document_type: DocumentType::named(root, definition),
            goal: goal_of(by_nesting),
            limit: u64::from(limit),
            form: form_of(as_json),
            choice: choice_of(is_shortest),
        },
        CommandLine::Run {
            file,
            root,
            stubs,
            request,
            steps,
        } => Task::ScriptRun {
            file: ScriptFile {
                name: file,
                root,
                stubs,
            },
            request,
            steps: u64::from(steps),
        },
        CommandLine::Page {
            file,
            definition,
            root,
        } => Task::PageCheck {
            file,
            document_type: DocumentType::named(root, definition),
        },
        CommandLine::Grammar { file, root, stubs } => Task::GrammarMaking {
            file: ScriptFile {
                name: file,
                root,
                stubs,
            },
        },
        CommandLine::Make {
            functions,
            is_checked: true,
        } => Task::MadeCheck { functions },
        CommandLine::Make { functions, .. } => Task::ScriptMaking { functions },
        CommandLine::Site {
            file,
            definition,
            root,
            stubs,
            limit,
            by_nesting,
        } => Task::ListCheck {
            file: ScriptFile {
                name: file,
                root,
                stubs,
            },
            document_type: DocumentType::named(root, definition),
            goal: goal_of(by_nesting),
            limit: u64::from(limit),
        },
        CommandLine::Match {
            file,
            policy,
            root,
            stubs,
        } => Task::ScriptMatch {
            file: ScriptFile {
                name: file,
                root,
                stubs,
            },
            policy,
        },
        CommandLine::Help => Task::Help,
        CommandLine::Version => Task::Version,
    }
}
