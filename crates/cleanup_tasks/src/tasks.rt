//! The walk by several workers, each from edges of its own.

ghost use Rattle.std.specs.Prelude.{◌≡◌, ℕ, ◌<◌, ◌≤◌, ◌++◌, [], ◌∷◌, length, true, false, IfOk, OnOk, Contains};
ghost use Rattle.apsp_model.specs.Limits.{IsWorkerCount};
ghost use Rattle.apsp_model.specs.declared.TheConstants.{MOST_VERTICES};
ghost use Rattle.path_arena.specs.Arena.{IsLive};
ghost use Rattle.path_book.specs.Book.{IsBook};
ghost use Rattle.path_book.specs.Through.{IsVictims, IsThrough, hops_at};
ghost use Rattle.cleanup_tasks.specs.Under.{AreEdges, AreLevels, paths_of_level, level_at, across, upto};

use crate::search::{Level, longer, push_level, walk};
use apsp_io::Gate;
use apsp_model::{MOST_VERTICES, Memory};
use path_arena::PathId;
use path_book::Book;
use std::alloc::Global;
use std::marker::{Model, Sync};
use std::thread::Threads;
use task_pool::{Job, run_tasks};

/// From so many kept paths on, the paths through a vertex are looked for by several workers. Starting
/// one costs about 20 µs of processor time, in which a walk comes to thousands of paths. A complete
/// graph of 128 vertices with equal weights keeps half as many, and is searched faster by the caller
/// alone.
pub(crate) const MANY_PATHS: u64 = 4_194_304;

/// Who looks for the paths through a vertex: so many workers, which pass the gate, where the book
/// keeps at least `many` paths, and the caller alone where it keeps fewer.
#[derive(Drop)]
pub(crate) struct Searchers<'a, R, G> {
    pub(crate) rt: &'a R,
    pub(crate) alloc: Global,
    pub(crate) workers: u32,
    pub(crate) gate: &'a G,
    pub(crate) many: u64,
    ghost count: { IsWorkerCount workers },
}

/// The edges at a vertex. The task of an edge walks from it, and gives the levels of the walk.
#[derive(Drop)]
struct Edges<'a> {
    alloc: Global,
    book: &'a Book,
    vertex: u32,
    ids: &'a [PathId],
}

impl<'a> Model for Edges<'a> {
    ghost use Rattle.cleanup_tasks.specs.Under.{EdgesAt, edges_code, AreEdges};

    ghost Value = { EdgesAt };

    ghost coded = { edges_code };

    ghost view = { λ e. record { book = e.book.now; vertex = e.vertex; edges = e.ids.now } };

    ghost invariant = { λ e. AreEdges e.book.now e.vertex e.ids.now };
}

impl<'a> Job for Edges<'a> {
    ghost use Rattle.std.specs.Prelude.{length};
    ghost use Rattle.cleanup_tasks.specs.Under.{WalksAt};

    type Out = Vec<Level>;

    ghost count = { λ e. length e.edges };

    ghost gives = { λ e k levels. WalksAt e k levels.items };

    fn run(&self, task: u32) -> Result<Vec<Level>, Memory> {
        levels_from(self.alloc, self.book, self.vertex, self.ids[task as usize])
    }
}

/// The kept paths through v that have an edge, in rising hops.
pub(crate) fn walk_by<R: Threads + Sync, G: Gate>(
    searchers: &Searchers<'_, R, G>,
    book: &Book,
    v: u32,
) -> Result<Vec<PathId>, Memory>
    requires vertex { v < book.now.arena.vertices }
    ensures all { IfOk result (λ ids. IsVictims book.now v ids.items) }
{
    if searchers.workers > 1 && book.count_paths() >= searchers.many {
        let edges = edges_at(searchers.alloc, book, v)?;
        if let Ok(tasks) = u32::try_from(edges.len()) {
            return walk_by_tasks(searchers, book, v, edges.as_slice(), tasks);
        }
    }
    walk(searchers.alloc, book, v, searchers.gate)
}

/// Walks from each edge at v by a task of its own. Each path through v lies under one of them.
fn walk_by_tasks<R: Threads + Sync, G: Gate>(
    searchers: &Searchers<'_, R, G>,
    book: &Book,
    v: u32,
    edges: &[PathId],
    tasks: u32,
) -> Result<Vec<PathId>, Memory>
    requires edges { AreEdges book.now v edges.now }
    requires all { tasks ≡ length edges.now }
    ensures all { IfOk result (λ ids. IsVictims book.now v ids.items) }
{
    let from = Edges {
        alloc: searchers.alloc,
        book,
        vertex: v,
        ids: edges,
    };
    let walked = run_tasks(
        searchers.rt,
        searchers.alloc,
        searchers.workers,
        tasks,
        &from,
        searchers.gate,
    )?;
    by_hops(searchers.alloc, walked.answers())
}

/// The edges at v.
fn edges_at(alloc: Global, book: &Book, v: u32) -> Result<Vec<PathId>, Memory>
    requires vertex { v < book.now.arena.vertices }
    ensures edges { IfOk result (λ edges. AreEdges book.now v edges.items) }
{
    let mut level = Level::new(alloc);
    longer(book, &[book.arena().vertex(v)], &[], &mut level)?;
    let mut edges = Vec::new(alloc);
    push_level(&level, &mut edges)?;
    Ok(edges)
}

/// The levels of the walk from an edge at v.
fn levels_from(alloc: Global, book: &Book, v: u32, edge: PathId) -> Result<Vec<Level>, Memory>
    requires lawful { IsBook book.now }
    requires vertex { v < book.now.arena.vertices }
    requires through { IsThrough book.now v edge }
    requires edge { hops_at book.now edge ≡ 1 }
    ensures levels { IfOk result (λ levels. AreLevels book.now v edge levels.items) }
{
    let mut level = first_level(alloc, edge, book.arena().first(edge) == v)?;
    let mut levels = Vec::new(alloc);
    'levels: while !level.is_empty() {
        let mut next = Level::new(alloc);
        longer(book, &level.starting, &level.passing, &mut next)?;
        let Ok(()) = levels.push(level) else {
            return Err(Memory);
        };
        level = next;
    }
    Ok(levels)
}

/// The level of one edge.
fn first_level(alloc: Global, edge: PathId, starts: bool) -> Result<Level, Memory>
    ensures paths { IfOk result (λ l. paths_of_level l ≡ edge ∷ []) }
    ensures starting { IfOk result (λ l. starts ≡ false → l.starting.items ≡ []) }
    ensures passing { IfOk result (λ l. starts ≡ true → l.passing.items ≡ []) }
{
    let mut level = Level::new(alloc);
    if starts {
        level.starting.push(edge).map_err(|_| Memory)?;
    } else {
        level.passing.push(edge).map_err(|_| Memory)?;
    }
    Ok(level)
}

/// The paths of several walks, level by level. A path has fewer edges than there are vertices.
fn by_hops(alloc: Global, walked: &[Vec<Level>]) -> Result<Vec<PathId>, Memory>
    ensures { IfOk result (λ ids. ids.items ≡ upto MOST_VERTICES walked.now) }
{
    let mut ids = Vec::new(alloc);
    'levels: for at in 0..MOST_VERTICES {
        push_levels(walked, at as usize, &mut ids)?;
    }
    Ok(ids)
}

/// Puts the paths of one level of each walk behind the ids.
fn push_levels(walked: &[Vec<Level>], at: usize, ids: &mut Vec<PathId>) -> Result<(), Memory>
    ensures { OnOk result (ids.new.items ≡ ids.old.items ++ across at walked.now) }
{
    'walks: for levels in walked {
        push_at(levels.as_slice(), at, ids)?;
    }
    Ok(())
}

/// Puts the paths of a level behind the ids, where the walk has it.
fn push_at(levels: &[Level], at: usize, ids: &mut Vec<PathId>) -> Result<(), Memory>
    ensures { OnOk result (ids.new.items ≡ ids.old.items ++ level_at levels.now at) }
{
    if at < levels.len() {
        return push_level(&levels[at], ids);
    }
    Ok(())
}
