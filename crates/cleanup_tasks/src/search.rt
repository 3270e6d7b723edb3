//! The search for the kept paths through a vertex.

ghost use Rattle.std.specs.Prelude.{◌≡◌, ℕ, ◌<◌, ◌≤◌, ◌+◌, ◌++◌, [], length, false, IfOk, OnOk, Contains, IsTrue};
ghost use Rattle.apsp_model.specs.Limits.{IsWorkerCount};
ghost use Rattle.path_arena.specs.Arena.{IsLive};
ghost use Rattle.apsp_model.specs.Walk.{IsOnceEach};
ghost use Rattle.extension_lists.specs.Known.{sides_at};
ghost use Rattle.path_book.specs.Book.{IsBook};
ghost use Rattle.path_book.specs.Through.{IsVictims};
ghost use Rattle.cleanup_tasks.specs.Walk.{side_of, extensions_of, AreExtensions};

use crate::listed::Victims;
use crate::tasks::{MANY_PATHS, Searchers, walk_by};
use apsp_io::{Gate, TASK};
use apsp_model::Memory;
use path_arena::PathId;
use path_book::Book;
use std::alloc::Global;
use std::marker::Sync;
use std::mem;
use std::thread::Threads;

/// Finds each kept path through v that has an edge. It takes time in proportion to their number.
///
/// The parent of such a path is the path without its last vertex where it starts at v, and the path
/// without its first vertex otherwise. So the walk from the single vertex to the children of each
/// path comes to each once, level by level. Each such path lies under one edge at v, and the walk
/// from an edge is one task, before which the gate is passed with `TASK`. The workers are used where
/// the book keeps many paths. Otherwise the caller walks alone.
pub fn victims<R: Threads + Sync, G: Gate>(
    rt: &R,
    alloc: Global,
    book: &Book,
    v: u32,
    workers: u32,
    gate: &G,
) -> Result<Victims, Memory>
    requires vertex { v < book.now.arena.vertices }
    requires workers { IsWorkerCount workers }
    ensures vertex { IfOk result (λ list. list.vertex ≡ v) }
    ensures all { IfOk result (λ list. IsVictims book.now v list.ids) }
{
    let searchers = Searchers {
        rt,
        alloc,
        workers,
        gate,
        many: MANY_PATHS,
    };
    let ids = walk_by(&searchers, book, v)?;
    Ok(Victims::new(v, ids))
}

/// Where a path goes on: in front of it, or behind it.
#[derive(Clone, Copy)]
enum ExtensionSide {
    Left,
    Right,
}

/// The paths of a level, which have equally many edges: those that start at v, and the others. What
/// goes on behind the first starts at v, and what goes on in front of any does not. So no path is
/// looked at.
#[derive(Drop)]
pub(crate) struct Level {
    pub(crate) starting: Vec<PathId>,
    pub(crate) passing: Vec<PathId>,
}

impl Level {
    pub(crate) fn new(alloc: Global) -> Level
        ensures starting { result.starting.items ≡ [] }
        ensures passing { result.passing.items ≡ [] }
    {
        Level {
            starting: Vec::new(alloc),
            passing: Vec::new(alloc),
        }
    }

    pub(crate) fn is_empty(&self) -> bool
        ensures none { IsTrue result → (self.now.starting.items ≡ []) × (self.now.passing.items ≡ []) }
        ensures some { result ≡ false → 1 ≤ length self.now.starting.items + length self.now.passing.items }
    {
        self.starting.is_empty() && self.passing.is_empty()
    }
}

/// The kept paths through v that have an edge, level by level.
pub(crate) fn walk<G: Gate>(
    alloc: Global,
    book: &Book,
    v: u32,
    gate: &G,
) -> Result<Vec<PathId>, Memory>
    requires vertex { v < book.now.arena.vertices }
    ensures all { IfOk result (λ ids. IsVictims book.now v ids.items) }
{
    let (mut level, mut next) = (Level::new(alloc), Level::new(alloc));
    longer(book, &[book.arena().vertex(v)], &[], &mut level)?;
    pass_tasks(level.starting.len(), gate);
    pass_tasks(level.passing.len(), gate);
    let mut ids = Vec::new(alloc);
    push_level(&level, &mut ids)?;
    'levels: while !level.is_empty() {
        longer(book, &level.starting, &level.passing, &mut next)?;
        mem::swap(&mut level, &mut next);
        push_level(&level, &mut ids)?;
    }
    Ok(ids)
}

/// Passes the gate for so many tasks.
fn pass_tasks<G: Gate>(tasks: usize, gate: &G) {
    for _ in 0..tasks {
        gate.pass(0, TASK);
    }
}

/// Puts the paths of a level behind the ids.
pub(crate) fn push_level(level: &Level, ids: &mut Vec<PathId>) -> Result<(), Memory>
    ensures { OnOk result (ids.new.items ≡ ids.old.items ++ (level.now.starting.items ++ level.now.passing.items)) }
{
    ids.extend_from_slice(&level.starting).map_err(|_| Memory)?;
    ids.extend_from_slice(&level.passing).map_err(|_| Memory)
}

/// Makes the next level of the children of paths that start at v and of others.
pub(crate) fn longer(
    book: &Book,
    starting: &[PathId],
    passing: &[PathId],
    next: &mut Level,
) -> Result<(), Memory>
    requires starting { (id : ℕ) → Contains starting.now id → IsLive book.now.arena id }
    requires passing { (id : ℕ) → Contains passing.now id → IsLive book.now.arena id }
    ensures longer { OnOk result
        (AreExtensions book.now starting.now passing.now next.new.starting.items next.new.passing.items) }
    ensures lawful { IsBook book.now }
{
    book.show_lawful();
    next.starting.clear();
    next.passing.clear();
    push_extensions(book, starting, ExtensionSide::Right, &mut next.starting)?;
    push_extensions(book, starting, ExtensionSide::Left, &mut next.passing)?;
    push_extensions(book, passing, ExtensionSide::Left, &mut next.passing)
}

/// Puts the paths that go on at a side of those of a list behind the ids.
#[inline(always)]
fn push_extensions(
    book: &Book,
    list: &[PathId],
    side: ExtensionSide,
    ids: &mut Vec<PathId>,
) -> Result<(), Memory>
    requires live { (id : ℕ) → Contains list.now id → IsLive book.now.arena id }
    ensures items { OnOk result (ids.new.items ≡ ids.old.items ++ extensions_of side book.now list.now) }
    ensures once { OnOk result
        ((p : ℕ) → Contains list.now p → IsOnceEach (side_of side (sides_at book.now.lists p))) }
{
    'list: for &path in list {
        push_all(ids, extensions(book, path, side))?;
    }
    Ok(())
}

/// The paths that go on at a side of a path.
#[inline(always)]
fn extensions(book: &Book, path: PathId, side: ExtensionSide) -> &[PathId]
    requires { IsLive book.now.arena path }
    ensures items { result.now ≡ side_of side (sides_at book.now.lists path) }
    ensures once { IsOnceEach (side_of side (sides_at book.now.lists path)) }
{
    match side {
        ExtensionSide::Left => book.lists().left(path),
        ExtensionSide::Right => book.lists().right(path),
    }
}

/// Puts ids behind others, one by one. Most lists have no more than two, for which a call that copies
/// them all costs more than the copying.
#[inline(always)]
fn push_all(ids: &mut Vec<PathId>, more: &[PathId]) -> Result<(), Memory>
    ensures { OnOk result (ids.new.items ≡ ids.old.items ++ more.now) }
{
    ids.reserve(more.len()).map_err(|_| Memory)?;
    'more: for &id in more {
        ids.push_reserved(id);
    }
    Ok(())
}
