//! The block as a whole: the readers beside the publisher.

ghost use Rattle.std.specs.Prelude.{◌≡◌, ℕ, ◌<◌, ◌≤◌, All, IfOk, IfSome, IsSomeAnd, OnOk, OnErr, vec_len, slice_index_or};
ghost use Rattle.apsp_model.specs.declared.TheConstants.{MOST_READERS};
ghost use Rattle.apsp_model.specs.Limits.{IsWorkerCount, IsReaderCount, IsSlotCount};
ghost use Rattle.version_pool.specs.Pooled.{IsReaderOf};
ghost use Rattle.block_run.specs.Answers.{BlockReply, IsAskOf};
ghost use Rattle.block_run.specs.Run.{AdvancesBy, CanRun, IsCutOff};
ghost use Rattle.block_run.specs.Publishing.{CanPublish};
ghost use Rattle.block_run.specs.Reading.{AnswersAll, AreAsksOf, AreLists, AreNumbered};

use crate::order::{in_order, unwrapped};
use crate::publish::publish_or_stop;
use crate::read::{BlockReader, answer_all, numbered};
use crate::{Answer, Ask, Asks, BlockAnswers};
use apsp_io::Gate;
use apsp_model::Memory;
use graph_store::Plan;
use history_engine::Engine;
use std::alloc::Global;
use std::marker::Sync;
use std::sync::Wait;
use std::sync::atomic::AtomicBool;
use std::thread;
use std::thread::{Threads, join_mut};
use version_face::Version;
use version_pool::{Pool, PoolParts, Publisher};

/// Takes the updates of the plan one after another, and publishes a version after each, while so
/// many readers answer the questions. The question with number i is answered by the reader i modulo
/// `readers`, from the version of some number that is at least `lo` plus its `since`; over the
/// questions of one reader these numbers do not fall.
///
/// After `Memory` the engine has taken a front of the updates, and it is spent where memory ran out
/// in an update.
///
/// It waits for a reader only where all slots but the announced one are held. It takes one engine
/// update and O(n²) for each star, and for each question as long as its walk has vertices, beside
/// the waiting.
pub fn live_block<R: Threads + Wait + Sync, G: Gate>(
    rt: &R,
    alloc: Global,
    engine: &mut Engine,
    plan: &Plan,
    asks: &Asks,
    readers: u32,
    slots: u32,
    workers: u32,
    gate: &G,
) -> Result<BlockAnswers, Memory>
    requires can { CanRun engine.old plan.now asks.now }
    requires readers { IsReaderCount readers }
    requires slots { IsSlotCount slots }
    requires workers { IsWorkerCount workers }
    ensures answers { IfOk result (BlockReply plan.now asks.now readers) }
    ensures taken { OnOk result (AdvancesBy engine.old plan.now.stars engine.new) }
    ensures memory { OnErr result (IsCutOff engine.old plan.now.stars engine.new) }
    ensures opening { engine.new.opening ≡ engine.old.opening }
    ensures vertices { engine.new.graph.vertices ≡ engine.old.graph.vertices }
{
    let mut first = Version::new(alloc, engine.graph().vertices()).map_err(|_| Memory)?;
    engine.fill(&mut first);
    let PoolParts {
        pool,
        mut publisher,
        readers,
    } = Pool::new(alloc, slots, readers, plan, &first)?;
    let readers = numbered(alloc, readers)?;
    let asks = asks.items();
    let lists = run(
        rt,
        alloc,
        &pool,
        &mut publisher,
        readers,
        engine,
        plan,
        asks,
        workers,
        gate,
    )?;
    let items = in_order(alloc, lists, asks.len())?;
    Ok(BlockAnswers { items })
}

/// The lists of the readers' answers, once all updates are taken.
fn run<R: Threads + Wait + Sync, G: Gate>(
    rt: &R,
    alloc: Global,
    pool: &Pool<'_>,
    publisher: &mut Publisher,
    readers: Vec<BlockReader>,
    engine: &mut Engine,
    plan: &Plan,
    asks: &[Ask],
    workers: u32,
    gate: &G,
) -> Result<Vec<Vec<Answer>>, Memory>
    requires can { CanPublish pool.now publisher.old engine.old plan.now }
    requires readers { All (λ r. IsReaderOf pool.now r.reader) readers.items }
    requires numbered { AreNumbered readers.items }
    requires count { IsReaderCount (vec_len readers) }
    requires asks { All (IsAskOf plan.now) asks.now }
    requires workers { IsWorkerCount workers }
    ensures len { IfOk result (λ v. vec_len v ≡ vec_len readers) }
    ensures each { IfOk result (λ v. (k : ℕ) (d : _) → k < vec_len readers
        → AnswersAll plan.now asks.now k (vec_len readers) (slice_index_or v.items k d).items) }
    ensures taken { OnOk result (AdvancesBy engine.old plan.now.stars engine.new) }
    ensures cut_off { IsCutOff engine.old plan.now.stars engine.new }
{
    let lo = plan.lo();
    let lists = run_beside(
        rt, alloc, pool, publisher, readers, engine, plan, lo, asks, workers, gate,
    )?;
    unwrapped(alloc, lists)
}

/// The readers in threads of their own beside the publisher, which runs in this one.
fn run_beside<R: Threads + Wait + Sync, G: Gate>(
    rt: &R,
    alloc: Global,
    pool: &Pool<'_>,
    publisher: &mut Publisher,
    readers: Vec<BlockReader>,
    engine: &mut Engine,
    plan: &Plan,
    lo: u64,
    asks: &[Ask],
    workers: u32,
    gate: &G,
) -> Result<Vec<Result<Vec<Answer>, Memory>>, Memory>
    requires can { CanPublish pool.now publisher.old engine.old plan.now }
    requires readers { All (λ r. IsReaderOf pool.now r.reader) readers.items }
    requires count { IsReaderCount (vec_len readers) }
    requires asks { AreAsksOf pool.now.plan lo asks.now }
    requires workers { IsWorkerCount workers }
    ensures lists { IfOk result (λ v. AreLists pool.now.plan asks.now readers.items v.items) }
    ensures taken { OnOk result (AdvancesBy engine.old plan.now.stars engine.new) }
    ensures cut_off { IsCutOff engine.old plan.now.stars engine.new }
{
    let told = AtomicBool::new(false);
    let stop = &told;
    let mut waiting = Some(readers);
    let (lists, published) = join_mut(
        rt,
        &mut || -> Result<Vec<Result<Vec<Answer>, Memory>>, Memory>
            requires readers { IsSomeAnd waiting (λ r. All (λ r. IsReaderOf pool.now r.reader) r.items × (1 ≤ vec_len r)
                × (vec_len r ≤ MOST_READERS)) }
            requires asks { AreAsksOf pool.now.plan lo asks.now }
            ensures { IfSome waiting.entry
                (λ r. IfOk result (λ v. AreLists pool.entry.now.plan asks.entry.now r.items v.items)) }
        {
            match waiting.take() {
                Some(readers) => read(rt, alloc, pool, readers, lo, asks, stop, gate),
                None => unreachable!(),
            }
        },
        &mut || -> Result<(), Memory>
            requires can { CanPublish pool.now publisher.now engine.now plan.now }
            requires workers { IsWorkerCount workers }
            ensures taken { OnOk result (AdvancesBy engine.entry.now plan.entry.now.stars engine.exit.now) }
            ensures cut_off { IsCutOff engine.entry.now plan.entry.now.stars engine.exit.now }
        { publish_or_stop(rt, pool, publisher, engine, plan, workers, stop, gate) },
    );
    published?;
    lists
}

/// All readers, with a list of answers for each.
fn read<R: Threads + Wait + Sync, G: Gate>(
    rt: &R,
    alloc: Global,
    pool: &Pool<'_>,
    readers: Vec<BlockReader>,
    lo: u64,
    asks: &[Ask],
    stop: &AtomicBool,
    gate: &G,
) -> Result<Vec<Result<Vec<Answer>, Memory>>, Memory>
    requires readers { All (λ r. IsReaderOf pool.now r.reader) readers.items }
    requires count { IsReaderCount (vec_len readers) }
    requires asks { AreAsksOf pool.now.plan lo asks.now }
    ensures { IfOk result (λ v. AreLists pool.now.plan asks.now readers.items v.items) }
{
    let step = readers.len() as u32;
    read_each(rt, alloc, pool, readers, step, lo, asks, stop, gate)
}

/// All readers, each in a thread of its own where one can be made, and otherwise behind another.
fn read_each<R: Threads + Wait + Sync, G: Gate>(
    rt: &R,
    alloc: Global,
    pool: &Pool<'_>,
    readers: Vec<BlockReader>,
    step: u32,
    lo: u64,
    asks: &[Ask],
    stop: &AtomicBool,
    gate: &G,
) -> Result<Vec<Result<Vec<Answer>, Memory>>, Memory>
    requires readers { All (λ r. IsReaderOf pool.now r.reader) readers.items }
    requires step { (1 ≤ step) × (step ≤ MOST_READERS) }
    requires asks { AreAsksOf pool.now.plan lo asks.now }
    ensures len { IfOk result (λ v. vec_len v ≡ vec_len readers) }
    ensures each { IfOk result (λ v. (k : ℕ) (d : _) (e : _) → k < vec_len readers
        → IfOk (slice_index_or v.items k d)
        (λ a. AnswersAll pool.now.plan asks.now (slice_index_or readers.items k e).who step a.items)) }
{
    let run = |reader: BlockReader| -> Result<Vec<Answer>, Memory>
        requires reader { IsReaderOf pool.now reader.reader }
        requires step { (1 ≤ step) × (step ≤ MOST_READERS) }
        requires asks { AreAsksOf pool.now.plan lo asks.now }
        ensures { IfOk result (λ all. AnswersAll pool.entry.now.plan asks.entry.now reader.who step all.items) }
    { answer_all(rt, alloc, pool, reader, step, lo, asks, stop, gate) };
    thread::map_vec(rt, readers, &run).map_err(|_| Memory)
}
