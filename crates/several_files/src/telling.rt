//! Replies and refusals are told.

ghost use Rattle.std.specs.Prelude.{Err, Ok};
ghost use Rattle.io_edge.specs.Taken.{AppendsPrefix};
ghost use Rattle.phpsa_tasks.specs.Call.{GainsNothing, Output, output_of};
ghost use Rattle.several_files.specs.Telling.{IsPut, refused_by, replied_by, Tells};

use io_edge::{Sink, SinkFault};
use phpsa_texts::{Exit, Message, NO_MEMORY, Refusal, WRITE_FAULT};

/// Puts as much of a text as the sink takes. It is not told if that is not all.
fn try_put<S: Sink>(sink: &mut S, text: &[u8])
    ensures { AppendsPrefix (S.written sink.old) (S.written sink.new) text.now }
{
    match sink.put(text) {
        Ok(()) => (),
        Err(_) => (),
    }
}

/// Puts a text on the error stream, after which the call ends with this status; or with that of the
/// fault.
fn put<E: Sink>(err: &mut E, text: &[u8], status: Exit) -> Exit
    ensures { IsPut status text.now
        (output_of (E.written err.old) (E.written err.new) (E.faults err.old) (E.faults err.new))
        result }
{
    match err.put(text) {
        Ok(()) => status,
        Err(SinkFault::Failed) => Exit::WriteFault,
        Err(SinkFault::Memory) => Exit::Memory,
    }
}

/// Tells a refusal on the error stream, and gives the status that the call ends with.
pub(crate) fn refuse<E: Sink>(refusal: &Refusal, err: &mut E) -> Exit
    ensures { (out : Output) → GainsNothing out
        → Tells (replied_by (Err refusal.now)) (refused_by (Err refusal.now)) out
        (output_of (E.written err.old) (E.written err.new) (E.faults err.old) (E.faults err.new))
        result }
{
    match refusal {
        Refusal::Told(message) => put(err, message.text.as_slice(), message.status),
        Refusal::Memory => put(err, NO_MEMORY, Exit::Memory),
    }
}

/// Tells a reply.
fn reply<O: Sink, E: Sink>(message: &Message, out: &mut O, err: &mut E) -> Exit
    ensures { Tells (replied_by (Ok message.now)) (refused_by (Ok message.now))
        (output_of (O.written out.old) (O.written out.new) (O.faults out.old) (O.faults out.new))
        (output_of (E.written err.old) (E.written err.new) (E.faults err.old) (E.faults err.new))
        result }
{
    match out.put(message.text.as_slice()) {
        Ok(()) => message.status,
        Err(SinkFault::Failed) => {
            try_put(err, WRITE_FAULT);
            Exit::WriteFault
        }
        Err(SinkFault::Memory) => {
            try_put(err, NO_MEMORY);
            Exit::Memory
        }
    }
}

/// Tells what a call came to.
pub(crate) fn tell<O: Sink, E: Sink>(
    outcome: &Result<Message, Refusal>,
    out: &mut O,
    err: &mut E,
) -> Exit
    ensures { Tells (replied_by outcome.now) (refused_by outcome.now)
        (output_of (O.written out.old) (O.written out.new) (O.faults out.old) (O.faults out.new))
        (output_of (E.written err.old) (E.written err.new) (E.faults err.old) (E.faults err.new))
        result }
{
    match outcome {
        Ok(message) => reply(message, out, err),
        Err(refusal) => refuse(refusal, err),
    }
}
