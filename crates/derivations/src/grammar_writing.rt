//! Writing all lines.

ghost use Rattle.std.specs.Prelude.{◌≡◌, ◌≢◌, ◌≤◌, Err, OnOk, OnErr, IsErrOf};
ghost use Rattle.std.specs.Io.KnownBytes.{Appends};
ghost use Rattle.io_edge.specs.Counts.{Rises};
ghost use Rattle.io_edge.specs.Taken.{AppendsPrefix};
ghost use Rattle.derivations.specs.Text.{grammar_text};

use crate::grammar_lines::line_of;
use cfg_grammar::{Grammar, Production};
use io_edge::{Sink, SinkFault};

fn put_lines<S: Sink>(start: u64, productions: &[Production], sink: &mut S) -> Result<(), SinkFault>
    ensures ok { OnOk result
        (Appends (S.written sink.old) (S.written sink.new) (grammar_text start productions.now)) }
    ensures err { OnErr result
        (AppendsPrefix (S.written sink.old) (S.written sink.new)
        (grammar_text start productions.now)) }
    ensures failed { IsErrOf result SinkFault.Failed
        → Rises (S.faults sink.old) (S.faults sink.new) }
    ensures faults { S.faults sink.old ≤ S.faults sink.new }
    ensures unfailed { result ≢ Err SinkFault.Failed → S.faults sink.new ≡ S.faults sink.old }
{
    for production in productions {
        let line = line_of(start, *production);
        sink.put(line.as_slice())?;
    }
    Ok(())
}

/// Puts the text of a grammar into the sink, a line for each production. The start is written as
/// `n0`, a range of bytes as `61-7a`; a page token is left out. No memory is taken but what the
/// sink takes.
///
/// # Errors
///
/// Those of the sink: `Failed` where it failed, and `Memory`. A prefix of the text may then be
/// written.
pub fn write_grammar<S: Sink>(grammar: &Grammar, sink: &mut S) -> Result<(), SinkFault>
    ensures ok { OnOk result
        (Appends (S.written sink.old) (S.written sink.new)
        (grammar_text grammar.now.start.0 grammar.now.productions.items)) }
    ensures err { OnErr result
        (AppendsPrefix (S.written sink.old) (S.written sink.new)
        (grammar_text grammar.now.start.0 grammar.now.productions.items)) }
    ensures failed { IsErrOf result SinkFault.Failed
        → Rises (S.faults sink.old) (S.faults sink.new) }
    ensures faults { S.faults sink.old ≤ S.faults sink.new }
    ensures unfailed { result ≢ Err SinkFault.Failed → S.faults sink.new ≡ S.faults sink.old }
{
    put_lines(grammar.start.0, grammar.productions.as_slice(), sink)
}
