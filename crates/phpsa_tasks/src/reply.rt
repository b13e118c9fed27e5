//! What comes of a task that is not refused.

use cfg_grammar::Grammar;
use phpsa_texts::Message;
use text_base::Bytes;

/// What is written of a task that is not refused.
#[derive(Debug, Drop)]
pub enum Reply {
    /// A text, on the output.
    Text(Message),
    /// The text of a grammar, on the output, which is written line by line.
    Grammar(Grammar),
    /// What a run printed that did not come to its end, on the output, and why it did not, on the
    /// error stream.
    Halted { printed: Bytes, message: Message },
}
