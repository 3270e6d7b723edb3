//! A run over an input: from the source, piece by piece, to the sink, reply by reply.

ghost use Rattle.std.specs.Prelude.{◌≡◌, ◌<◌, ◌≤◌, ◌+◌, ◌^◌, List, [], ℕ, length, take, OnOk, IfOk, false};
ghost use Rattle.network_replies.specs.Streams.{Streams, source_seen, sink_seen, streams};
ghost use Rattle.apsp_service.specs.Session.{State, first_state};
ghost use Rattle.apsp_service.specs.Standing.{HasStateAndContent, HasSomeStateAndContent, TakesPiece};
ghost use Rattle.apsp_service.specs.Lawful.{IsLawfulState};
ghost use Rattle.apsp_service.specs.Running.{SoFar, PieceEnds, with_faults_of, AllEnds, RunEnds, TakeEnds};

use crate::session::Session;
use crate::terms::Terms;
use apsp_io::{Failed, Gate, Sink, Source};
use network_replies::{Blocks, Executor, Stop};
use std::alloc::Global;
use std::marker::Sync;
use std::thread::Threads;

/// The most bytes of an input.
pub const MOST_INPUT: usize = 16_777_216;

/// How many bytes a source is asked for at a time.
pub const PIECE: usize = 4096;

/// Answers the lines of the source, each as it becomes whole, and says whether one was refused.
pub fn run<S: Source, K: Sink, R: Threads + Sync, G: Gate, B: Blocks>(
    alloc: Global,
    executor: &Executor<'_, R, G, B>,
    terms: Terms,
    source: &mut S,
    sink: &mut K,
) -> Result<bool, Stop>
    requires blocks { terms.readers ≡ B.readers executor.now.blocks.now }
    requires runs { B.ready executor.now.blocks.now }
    ensures ends { RunEnds (first_state terms) result
        (streams S.Source K.Sink source.old sink.old) (streams S.Source K.Sink source.new sink.new) }
    ensures source_later { S.faults source.old ≤ S.faults source.new }
    ensures sink_later { K.faults sink.old ≤ K.faults sink.new }
{
    let mut session = Session::new(alloc, terms)?;
    answer_all(&mut session, executor, source, sink)?;
    session.answer_last(executor, sink)?;
    session.finish(sink)?;
    Ok(session.has_refused())
}

/// Answers the lines that a newline ends.
fn answer_all<S: Source, K: Sink, R: Threads + Sync, G: Gate, B: Blocks>(
    session: &mut Session,
    executor: &Executor<'_, R, G, B>,
    source: &mut S,
    sink: &mut K,
) -> Result<(), Stop>
    requires blocks { session.old.terms.readers ≡ B.readers executor.now.blocks.now }
    requires runs { B.ready executor.now.blocks.now }
    requires stands { HasStateAndContent session.old (first_state session.old.terms) [] }
    ensures ends { AllEnds (first_state session.old.terms) result session.new
        (streams S.Source K.Sink source.old sink.old) (streams S.Source K.Sink source.new sink.new) }
    ensures terms { session.new.terms ≡ session.old.terms }
    ensures lines { OnOk result (session.new.lines ≤ MOST_INPUT) }
    ensures source_later { S.faults source.old ≤ S.faults source.new }
    ensures sink_later { K.faults sink.old ≤ K.faults sink.new }
{
    let mut buffer = [0; PIECE];
    let mut taken = 0;
    loop {
        let count = answer_piece(session, executor, taken, &mut buffer, source, sink)?;
        if count == 0 {
            return Ok(());
        }
        taken += count;
    }
}

/// Answers the lines that the next piece of the input makes whole, where so many bytes were taken
/// before. Says how many bytes it has, 0 at the end of the input.
fn answer_piece<S: Source, K: Sink, R: Threads + Sync, G: Gate, B: Blocks>(
    session: &mut Session,
    executor: &Executor<'_, R, G, B>,
    taken: usize,
    buffer: &mut [u8],
    source: &mut S,
    sink: &mut K,
) -> Result<usize, Stop>
    requires few { taken ≤ MOST_INPUT }
    requires lines { session.old.lines ≤ taken }
    requires blocks { session.old.terms.readers ≡ B.readers executor.now.blocks.now }
    requires runs { B.ready executor.now.blocks.now }
    requires stands { HasSomeStateAndContent session.old }
    requires opened { session.old.cutter.whole ≡ false }
    requires room { length buffer.old ≡ PIECE }
    // The bytes and the replies are those from the first moment on, the faults those of this call.
    ensures ends { (start : State) (first : Streams) (bytes : List ℕ) → IsLawfulState start
        → SoFar start session.old first (streams S.Source K.Sink source.old sink.old) bytes → length bytes ≡ taken
        → PieceEnds start result session.new (with_faults_of (streams S.Source K.Sink source.old sink.old) first)
        (streams S.Source K.Sink source.new sink.new) bytes }
    ensures few { IfOk result (λ count. taken + count ≤ MOST_INPUT) }
    ensures terms { session.new.terms ≡ session.old.terms }
    ensures lines { IfOk result (λ count. session.new.lines ≤ taken + count) }
    ensures opened { OnOk result (session.new.cutter.whole ≡ false) }
    ensures source_later { S.faults source.old ≤ S.faults source.new }
    ensures sink_later { K.faults sink.old ≤ K.faults sink.new }
{
    let room = PIECE.min(MOST_INPUT + 1 - taken);
    let count = take(source, buffer, room)?;
    if taken + count > MOST_INPUT {
        // The last byte is one too many, and is not looked at.
        answer_front(session, executor, buffer, count - 1, sink)?;
        return Err(Stop::Limit);
    }
    answer_front(session, executor, buffer, count, sink)?;
    Ok(count)
}

/// Answers the lines that the front of the buffer makes whole.
fn answer_front<K: Sink, R: Threads + Sync, G: Gate, B: Blocks>(
    session: &mut Session,
    executor: &Executor<'_, R, G, B>,
    buffer: &[u8],
    count: usize,
    sink: &mut K,
) -> Result<(), Stop>
    requires inside { count ≤ length buffer.now }
    requires blocks { session.old.terms.readers ≡ B.readers executor.now.blocks.now }
    requires runs { B.ready executor.now.blocks.now }
    requires stands { HasSomeStateAndContent session.old }
    requires opened { session.old.cutter.whole ≡ false }
    requires few { session.old.lines + count < 2 ^ 32 }
    ensures takes { (s : State) (content : List ℕ) → HasStateAndContent session.old s content
        → TakesPiece result session.new (sink_seen K.Sink sink.old) (sink_seen K.Sink sink.new) s content
        (take count buffer.now) }
    ensures terms { session.new.terms ≡ session.old.terms }
    ensures lines { OnOk result (session.new.lines ≤ session.old.lines + count) }
    ensures opened { OnOk result (session.new.cutter.whole ≡ false) }
    ensures later { K.faults sink.old ≤ K.faults sink.new }
{
    session.answer_piece(executor, &buffer[..count], sink)
}

/// Fills the front of the buffer, with as many bytes as there is room for or fewer.
pub fn take<S: Source>(source: &mut S, buffer: &mut [u8], room: usize) -> Result<usize, Stop>
    requires some { 0 < room }
    requires inside { room ≤ length buffer.old }
    ensures ends { TakeEnds result (source_seen S.Source source.old) (source_seen S.Source source.new) room buffer.new }
    ensures later { S.faults source.old ≤ S.faults source.new }
{
    match source.take(&mut buffer[..room]) {
        Ok(count) => Ok(count),
        Err(Failed) => Err(Stop::Source),
    }
}
