//! The readers of a block.

ghost use Rattle.std.specs.Prelude.{◌≡◌, ◌≤◌, ◌<◌, IfOk, IfSome, vec_len, map};
ghost use Rattle.apsp_model.specs.declared.TheConstants.{MOST_READERS};
ghost use Rattle.version_face.specs.Entries.{WalkIs};
ghost use Rattle.version_pool.specs.Pooled.{IsReaderOf};
ghost use Rattle.block_run.specs.Answers.{IsAskOf};
ghost use Rattle.block_run.specs.Reading.{IsAnswerFrom, IsAnswerSeen, ReadsOn, AnswersAll, AreAsksOf, AreNumbered};

use crate::{Answer, Ask, VertexList};
use apsp_io::{Gate, HELD};
use apsp_model::Memory;
use pin_cells::Tally;
use std::alloc::Global;
use std::sync::Wait;
use std::sync::atomic::AtomicBool;
use std::sync::atomic::Ordering::SeqCst;
use std::thread;
use version_face::Version;
use version_pool::{Pool, Reader};

/// A reader with its number, and with what its tries got.
#[derive(Drop)]
pub(crate) struct BlockReader {
    pub who: u32,
    pub reader: Reader,
    pub tally: Tally,
}

/// The readers with their numbers, from 0 on.
pub(crate) fn numbered(alloc: Global, readers: Vec<Reader>) -> Result<Vec<BlockReader>, Memory>
    requires { vec_len readers ≤ MOST_READERS }
    ensures numbered { IfOk result (λ all. AreNumbered all.items) }
    ensures same { IfOk result (λ all. map (λ r. r.reader) all.items ≡ readers.items) }
{
    let mut all = Vec::with_capacity(alloc, readers.len()).map_err(|_| Memory)?;
    for reader in readers {
        let reader = BlockReader {
            who: all.len() as u32,
            reader,
            tally: Tally::new(),
        };
        all.push(reader).map_err(|_| Memory)?;
    }
    Ok(all)
}

/// The least walk that was asked for.
fn walk_of(alloc: Global, version: &Version, ask: &Ask) -> Result<VertexList, Memory>
    requires from { ask.now.x < version.now.graph.vertices }
    requires to { ask.now.y < version.now.graph.vertices }
    ensures { IfOk result (WalkIs version.now.graph ask.now.x ask.now.y) }
{
    let Ok(items) = version.walk(ask.x, ask.y).collect(alloc) else {
        return Err(Memory);
    };
    Ok(VertexList { items })
}

/// What the version answers, where it is not older than the least number.
fn answer_from(
    alloc: Global,
    version: &Version,
    ask: &Ask,
    least: u64,
) -> Result<Option<Answer>, Memory>
    requires from { ask.now.x < version.now.graph.vertices }
    requires to { ask.now.y < version.now.graph.vertices }
    ensures { IfOk result (λ found. IfSome found (IsAnswerFrom version.now ask.now least)) }
{
    let number = version.number();
    if number < least {
        return Ok(None);
    }
    let dist = version.dist_row(ask.x)[ask.y as usize];
    let walk = walk_of(alloc, version, ask)?;
    Ok(Some(Answer {
        number,
        x: ask.x,
        y: ask.y,
        dist,
        walk,
    }))
}

/// Tries once to hold the version that is announced, and to answer from it.
fn try_answer<G: Gate>(
    alloc: Global,
    pool: &Pool<'_>,
    reader: &mut BlockReader,
    ask: &Ask,
    least: u64,
    gate: &G,
) -> Result<Option<Answer>, Memory>
    requires reader { IsReaderOf pool.now reader.old.reader }
    requires ask { IsAskOf pool.now.plan ask.now }
    ensures reader { ReadsOn pool.now reader.old reader.new }
    ensures answer { IfOk result (λ found. IfSome found (IsAnswerSeen pool.now.plan ask.now least reader.new)) }
{
    let Ok(held) = reader.reader.try_hold(pool, &mut reader.tally) else {
        return Ok(None);
    };
    gate.pass(reader.who, HELD);
    let answer = answer_from(alloc, held.version(), ask, least);
    held.release();
    answer
}

/// One answer, from a version whose number is at least `least`, or want of memory where the
/// publisher tells of it.
fn answer<R: Wait, G: Gate>(
    rt: &R,
    alloc: Global,
    pool: &Pool<'_>,
    reader: &mut BlockReader,
    ask: &Ask,
    least: u64,
    stop: &AtomicBool,
    gate: &G,
) -> Result<Answer, Memory>
    requires reader { IsReaderOf pool.now reader.old.reader }
    requires ask { IsAskOf pool.now.plan ask.now }
    ensures reader { ReadsOn pool.now reader.old reader.new }
    ensures answer { IfOk result (IsAnswerSeen pool.now.plan ask.now least reader.new) }
{
    for _ in rt.forever() {
        if stop.load(SeqCst) {
            return Err(Memory);
        }
        if let Some(answer) = try_answer(alloc, pool, reader, ask, least, gate)? {
            return Ok(answer);
        }
        thread::yield_now();
    }
    unreachable!()
}

/// The reader's answers: to the questions with its number, with this number and `step`, and so on.
pub(crate) fn answer_all<R: Wait, G: Gate>(
    rt: &R,
    alloc: Global,
    pool: &Pool<'_>,
    mut reader: BlockReader,
    step: u32,
    lo: u64,
    asks: &[Ask],
    stop: &AtomicBool,
    gate: &G,
) -> Result<Vec<Answer>, Memory>
    requires reader { IsReaderOf pool.now reader.reader }
    requires asks { AreAsksOf pool.now.plan lo asks.now }
    requires step { (1 ≤ step) × (step ≤ MOST_READERS) }
    ensures { IfOk result (λ all. AnswersAll pool.now.plan asks.now reader.who step all.items) }
{
    let mut answers = Vec::new(alloc);
    let mut at = reader.who as usize;
    while at < asks.len() {
        let ask = &asks[at];
        let least = lo + ask.since as u64;
        let found = answer(rt, alloc, pool, &mut reader, ask, least, stop, gate)?;
        let Ok(()) = answers.push(found) else {
            return Err(Memory);
        };
        at += step as usize;
    }
    Ok(answers)
}
