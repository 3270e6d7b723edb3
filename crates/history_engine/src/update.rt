//! The steps of an update: a star step at its vertex, and the cleaning steps behind it.

ghost use Rattle.std.specs.Prelude.{◌≡◌, ◌<◌, ◌≤◌, ◌+◌, ◌*◌, ◌^◌, [], ◌∷◌, ◌++◌, length, Some, IfOk, OnOk};
ghost use Rattle.apsp_model.specs.Limits.{IsWorkerCount};
ghost use Rattle.apsp_model.specs.declared.TheConstants.{MOST_UPDATES, MOST_PATHS};
ghost use Rattle.apsp_model.specs.Star.{Star};
ghost use Rattle.apsp_model.specs.Command.{cleaned};
ghost use Rattle.path_book.specs.Book.{kept_paths};
ghost use Rattle.history_engine.specs.Seen.{EngineSeen};
ghost use Rattle.history_engine.specs.Lawful.{AreLawful, IsStepReady};
ghost use Rattle.history_engine.specs.Stepping.{IsStepDone, UpdateInvariant, StarIsInPlace};
ghost use Rattle.history_engine.specs.Times.{left_from};
ghost use Rattle.history_engine.specs.declared.update.TheConstants.{MOST_STEPS};

use crate::timeline::Timeline;
use apsp_io::Gate;
use apsp_model::Memory;
use cleanup_tasks::{forget_all, refresh, victims};
use fixup::settle;
use graph_store::Graph;
use path_book::Book;
use std::alloc::Global;
use std::marker::Sync;
use std::thread::Threads;

/// An update forgets the past at 2⁰, 2¹, .. updates ago, and there are fewer than 2⁴⁰ of them.
const POWERS: u32 = 40;

/// How many steps an update makes at most: one at its vertex, and a cleaning step for each power.
pub(crate) const MOST_STEPS: u64 = 41;

/// What makes the steps of an update: so many workers of a runtime, which pass the gate, with the
/// allocator that they take memory from.
#[derive(Drop)]
pub(crate) struct Workers<'a, R, G> {
    pub(crate) rt: &'a R,
    pub(crate) alloc: Global,
    pub(crate) count: u32,
    pub(crate) gate: &'a G,
    ghost few: { IsWorkerCount count },
}

/// How many paths a step added and took away.
#[derive(Clone, Copy, Debug, PartialEq, Eq)]
pub(crate) struct Turnover {
    pub(crate) formed: u64,
    pub(crate) removed: u64,
}

/// How many steps there were, and how many paths those of the latest update added and took away.
#[derive(Clone, Copy, Debug, PartialEq, Eq)]
pub(crate) struct Progress {
    pub(crate) steps: u64,
    pub(crate) formed: u64,
    pub(crate) removed: u64,
}

/// Makes the steps of an update at v, whose star is in the graph already.
pub(crate) fn update<R: Threads + Sync, G: Gate>(
    by: &Workers<'_, R, G>,
    book: &mut Book,
    graph: &Graph,
    timeline: &mut Timeline,
    smooth: bool,
    v: u32,
    steps: u64,
) -> Result<Progress, Memory>
    requires ready { IsStepReady v graph.now steps (kept_paths book.old) }
    requires book_size { book.old.arena.vertices ≡ graph.now.vertices }
    requires timeline_size { timeline.old.size ≡ graph.now.vertices }
    requires inside { v < graph.now.vertices }
    requires few_updates { length timeline.old.vertices < MOST_UPDATES }
    requires few_steps { steps + MOST_STEPS < 2 ^ 64 }
    ensures done { IfOk result
        (λ p. (e : EngineSeen) (s : Star)
        → StarIsInPlace e s graph.now smooth timeline.old.vertices v steps (kept_paths book.old)
        → UpdateInvariant e s graph.now [] p.steps p.formed p.removed (kept_paths book.new)) }
    ensures steps_few { IfOk result (λ p. p.steps ≤ steps + MOST_STEPS) }
    ensures steps_more { IfOk result (λ p. steps ≤ p.steps) }
    ensures book_size { OnOk result (book.new.arena.vertices ≡ book.old.arena.vertices) }
    ensures timeline { timeline.new.vertices ≡ timeline.old.vertices }
    ensures timeline_size { timeline.new.size ≡ timeline.old.size }
    ensures room { OnOk result (1 ≤ timeline.new.room) }
{
    timeline.reserve()?;
    let first = step(by, book, graph, v, steps)?;
    let done = Progress {
        steps: steps + 1,
        formed: first.formed,
        removed: first.removed,
    };
    if smooth {
        clean(by, book, graph, timeline, v, done)
    } else {
        Ok(done)
    }
}

/// Makes the cleaning steps behind the star step of an update at v.
fn clean<R: Threads + Sync, G: Gate>(
    by: &Workers<'_, R, G>,
    book: &mut Book,
    graph: &Graph,
    timeline: &Timeline,
    v: u32,
    done: Progress,
) -> Result<Progress, Memory>
    requires paths { AreLawful graph.now done.steps (kept_paths book.old) }
    requires book_size { book.old.arena.vertices ≡ graph.now.vertices }
    requires timeline_size { timeline.now.size ≡ graph.now.vertices }
    requires inside { v < graph.now.vertices }
    requires few_updates { length timeline.now.vertices < MOST_UPDATES }
    requires few_steps { done.steps + 40 < 2 ^ 64 }
    requires few_formed { done.formed ≤ MOST_PATHS }
    requires few_removed { done.removed ≤ MOST_PATHS }
    ensures done { IfOk result
        (λ p. (e : EngineSeen) (s : Star)
        → UpdateInvariant e s graph.now (cleaned (timeline.now.vertices ++ Some v ∷ [])) done.steps done.formed done.removed
        (kept_paths book.old) → UpdateInvariant e s graph.now [] p.steps p.formed p.removed (kept_paths book.new)) }
    ensures steps_few { IfOk result (λ p. p.steps ≤ done.steps + 40) }
    ensures steps_more { IfOk result (λ p. done.steps ≤ p.steps) }
    ensures book_size { OnOk result (book.new.arena.vertices ≡ book.old.arena.vertices) }
{
    let mut progress = done;
    'powers: for power in 0..POWERS {
        progress = clean_one(by, book, graph, timeline, v, power, progress)?;
    }
    Ok(progress)
}

/// Makes the cleaning step for a power of 2, if there is one.
fn clean_one<R: Threads + Sync, G: Gate>(
    by: &Workers<'_, R, G>,
    book: &mut Book,
    graph: &Graph,
    timeline: &Timeline,
    v: u32,
    power: u32,
    done: Progress,
) -> Result<Progress, Memory>
    requires paths { AreLawful graph.now done.steps (kept_paths book.old) }
    requires book_size { book.old.arena.vertices ≡ graph.now.vertices }
    requires timeline_size { timeline.now.size ≡ graph.now.vertices }
    requires inside { v < graph.now.vertices }
    requires power { power < 40 }
    requires few_steps { done.steps + 1 < 2 ^ 64 }
    requires few_formed { done.formed ≤ MOST_PATHS * (power + 1) }
    requires few_removed { done.removed ≤ MOST_PATHS * (power + 1) }
    ensures done { IfOk result
        (λ p. (e : EngineSeen) (s : Star)
        → UpdateInvariant e s graph.now
        (left_from (timeline.now.vertices ++ Some v ∷ []) power) done.steps done.formed done.removed (kept_paths book.old)
        → UpdateInvariant e s graph.now
        (left_from (timeline.now.vertices ++ Some v ∷ []) (power + 1)) p.steps p.formed p.removed (kept_paths book.new)) }
    ensures paths { IfOk result (λ p. AreLawful graph.now p.steps (kept_paths book.new)) }
    ensures steps_few { IfOk result (λ p. p.steps ≤ done.steps + 1) }
    ensures steps_more { IfOk result (λ p. done.steps ≤ p.steps) }
    ensures formed_few { IfOk result (λ p. p.formed ≤ MOST_PATHS * (power + 2)) }
    ensures removed_few { IfOk result (λ p. p.removed ≤ MOST_PATHS * (power + 2)) }
    ensures book_size { OnOk result (book.new.arena.vertices ≡ book.old.arena.vertices) }
{
    let Some(cleaned) = timeline.cleaned(v, power) else {
        return Ok(done);
    };
    let more = clean_in_place(by, book, graph, cleaned, done.steps)?;
    Ok(Progress {
        steps: done.steps + 1,
        formed: done.formed + more.formed,
        removed: done.removed + more.removed,
    })
}

/// Makes a star step at v, whose star is in the graph already: takes the paths through v away, and
/// settles what is left.
fn step<R: Threads + Sync, G: Gate>(
    by: &Workers<'_, R, G>,
    book: &mut Book,
    graph: &Graph,
    v: u32,
    steps: u64,
) -> Result<Turnover, Memory>
    requires ready { IsStepReady v graph.now steps (kept_paths book.old) }
    requires book_size { book.old.arena.vertices ≡ graph.now.vertices }
    requires inside { v < graph.now.vertices }
    requires few_steps { steps + 1 < 2 ^ 64 }
    ensures done { IfOk result
        (λ t. IsStepDone v graph.now steps (kept_paths book.old) (kept_paths book.new) t.formed t.removed) }
    ensures formed_few { IfOk result (λ t. t.formed ≤ MOST_PATHS) }
    ensures removed_few { IfOk result (λ t. t.removed ≤ MOST_PATHS) }
    ensures book_size { OnOk result (book.new.arena.vertices ≡ book.old.arena.vertices) }
{
    let before = book.count_paths();
    let through = victims(by.rt, by.alloc, book, v, by.count, by.gate)?;
    forget_all(book, &through);
    let left = book.count_paths();
    let settled = settle(
        by.rt,
        by.alloc,
        book,
        graph,
        v,
        steps + 1,
        by.count,
        by.gate,
    )?;
    Ok(Turnover {
        formed: settled.formed,
        removed: before - left,
    })
}

/// Makes a star step at v with the star that it has, in place: nothing settles, and no memory is
/// taken but for the list of the paths through v.
fn clean_in_place<R: Threads + Sync, G: Gate>(
    by: &Workers<'_, R, G>,
    book: &mut Book,
    graph: &Graph,
    v: u32,
    steps: u64,
) -> Result<Turnover, Memory>
    requires paths { AreLawful graph.now steps (kept_paths book.old) }
    requires book_size { book.old.arena.vertices ≡ graph.now.vertices }
    requires inside { v < graph.now.vertices }
    requires few_steps { steps + 1 < 2 ^ 64 }
    ensures done { IfOk result
        (λ t. IsStepDone v graph.now steps (kept_paths book.old) (kept_paths book.new) t.formed t.removed) }
    ensures formed_few { IfOk result (λ t. t.formed ≤ MOST_PATHS) }
    ensures removed_few { IfOk result (λ t. t.removed ≤ MOST_PATHS) }
    ensures book_size { OnOk result (book.new.arena.vertices ≡ book.old.arena.vertices) }
{
    let before = book.count_paths();
    let through = victims(by.rt, by.alloc, book, v, by.count, by.gate)?;
    refresh(book, &through, steps + 1);
    let removed = through.ids().len() as u64;
    Ok(Turnover {
        formed: book.count_paths() + removed - before,
        removed,
    })
}
