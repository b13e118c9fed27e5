//! What is written of a reply or a refusal, and the status that the call ends with.

ghost use Rattle.std.specs.Prelude.{◌≡◌, ◌≢◌, Err, OnOk, OnErr, IsErrOf};
ghost use Rattle.std.specs.Io.KnownBytes.{Appends};
ghost use Rattle.io_edge.specs.Counts.{Rises};
ghost use Rattle.io_edge.specs.Taken.{AppendsPrefix};
ghost use Rattle.phpsa_tasks.specs.Call.{output_of};
ghost use Rattle.phpsa_tasks.specs.Counted.{TellsFault};
ghost use Rattle.phpsa_tasks.specs.Results.{reply_text};
ghost use Rattle.phpsa_main.specs.Steps.{EndsOnErr, Puts, Reports, ReportsRefusal};

use derivations::write_grammar;
use io_edge::{Sink, SinkFault};
use phpsa_tasks::Reply;
use phpsa_texts::{Exit, NO_MEMORY, Refusal, WRITE_FAULT};

/// Puts a text, after which the call ends with this status; or with that of the fault.
fn put<S: Sink>(sink: &mut S, text: &[u8], status: Exit) -> Exit
    ensures puts { Puts (output_of (S.written sink.old) (S.written sink.new) (S.faults sink.old)
        (S.faults sink.new))
        text.now status result }
    ensures told { TellsFault
        (output_of (S.written sink.old) (S.written sink.new) (S.faults sink.old)
        (S.faults sink.new))
        result }
{
    match sink.put(text) {
        Ok(()) => status,
        Err(SinkFault::Failed) => Exit::WriteFault,
        Err(SinkFault::Memory) => Exit::Memory,
    }
}

/// Puts as much of a text as the sink takes. It is not told if that is not all.
fn try_put<S: Sink>(sink: &mut S, text: &[u8])
    ensures { AppendsPrefix (S.written sink.old) (S.written sink.new) text.now }
{
    match sink.put(text) {
        Ok(()) => (),
        Err(_) => (),
    }
}

/// Writes a refusal on the error stream, and gives the status that the call ends with.
pub fn refuse<E: Sink>(refusal: &Refusal, err: &mut E) -> Exit
    ensures reports { ReportsRefusal refusal.now
        (output_of (E.written err.old) (E.written err.new) (E.faults err.old) (E.faults err.new))
        result }
    ensures told { TellsFault
        (output_of (E.written err.old) (E.written err.new) (E.faults err.old) (E.faults err.new))
        result }
{
    match refusal {
        Refusal::Told(message) => put(err, message.text.as_slice(), message.status),
        Refusal::Memory => put(err, NO_MEMORY, Exit::Memory),
    }
}

/// Puts the text of a reply on the output.
fn put_reply<O: Sink>(reply: &Reply, out: &mut O) -> Result<(), SinkFault>
    ensures ok { OnOk result
        (Appends (O.written out.old) (O.written out.new) (reply_text reply.now)) }
    ensures err { OnErr result
        (AppendsPrefix (O.written out.old) (O.written out.new) (reply_text reply.now)) }
    ensures failed { IsErrOf result SinkFault.Failed → Rises (O.faults out.old) (O.faults out.new) }
    ensures unfailed { result ≢ Err SinkFault.Failed → O.faults out.new ≡ O.faults out.old }
{
    match reply {
        Reply::Text(message) => out.put(message.text.as_slice()),
        Reply::Grammar(grammar) => write_grammar(grammar, out),
        Reply::Halted { printed, .. } => out.put(printed.as_slice()),
    }
}

/// Puts why a run did not come to its end on the error stream, where it did not, and gives the
/// status.
fn end_on_err<E: Sink>(reply: &Reply, err: &mut E) -> Exit
    ensures ends { EndsOnErr reply.now
        (output_of (E.written err.old) (E.written err.new) (E.faults err.old) (E.faults err.new))
        result }
    ensures told { TellsFault
        (output_of (E.written err.old) (E.written err.new) (E.faults err.old) (E.faults err.new))
        result }
{
    match reply {
        Reply::Text(message) => message.status,
        Reply::Grammar(_) => Exit::Done,
        Reply::Halted { message, .. } => put(err, message.text.as_slice(), message.status),
    }
}

/// Writes a reply.
pub(crate) fn report<O: Sink, E: Sink>(reply: &Reply, out: &mut O, err: &mut E) -> Exit
    ensures reports { Reports reply.now
        (output_of (O.written out.old) (O.written out.new) (O.faults out.old) (O.faults out.new))
        (output_of (E.written err.old) (E.written err.new) (E.faults err.old) (E.faults err.new))
        result }
    ensures told_out { TellsFault
        (output_of (O.written out.old) (O.written out.new) (O.faults out.old) (O.faults out.new))
        result }
    ensures told_err { TellsFault
        (output_of (E.written err.old) (E.written err.new) (E.faults err.old) (E.faults err.new))
        result }
{
    match put_reply(reply, out) {
        Ok(()) => end_on_err(reply, err),
        Err(SinkFault::Failed) => {
            try_put(err, WRITE_FAULT);
            Exit::WriteFault
        }
        Err(SinkFault::Memory) => put(err, NO_MEMORY, Exit::Memory),
    }
}
