//! The search for the historical paths that are no longer least walks.

ghost use Rattle.std.specs.Prelude.{◌≡◌, ℕ, ◌↔◌, IsTrue, IfOk, Contains};
ghost use Rattle.apsp_model.specs.Graph.{Graph};
ghost use Rattle.apsp_model.specs.Walk.{IsOnceEach};
ghost use Rattle.path_arena.specs.Arena.{IsLive, list_of, vertex_of};
ghost use Rattle.path_book.specs.Book.{kept_paths};
ghost use Rattle.apsp_model.specs.Local.{IsShortest};
ghost use Rattle.local_engine.specs.Kept.{CoversShortest};
ghost use Rattle.local_engine.specs.Demoting.{AreMarked, AreOutdone, AreSingleIds};

use apsp_model::Memory;
use path_arena::PathId;
use path_book::Book;
use std::alloc::Global;

/// The historical paths that are not the least kept ones of their pairs, in rising hops.
pub(crate) fn outdone(alloc: Global, book: &Book, n: u32) -> Result<Vec<PathId>, Memory>
    requires vertices { n ≡ book.now.arena.vertices }
    ensures outdone { IfOk result
        (λ ids. (g : Graph) → CoversShortest g (kept_paths book.now) → AreOutdone g book.now ids.items) }
{
    book.show_lawful();
    let all = historical(alloc, book, n)?;
    let mut paths = Vec::new(alloc);
    'all: for &id in &all {
        if !is_least(book, id) {
            paths.push(id).map_err(|_| Memory)?;
        }
    }
    Ok(paths)
}

/// The historical paths, in rising hops.
///
/// One with an edge goes on by one vertex behind a historical path, and behind one alone. So those
/// that go on behind the paths of the queue are put behind the queue, and each is found once.
fn historical(alloc: Global, book: &Book, n: u32) -> Result<Vec<PathId>, Memory>
    requires vertices { n ≡ book.now.arena.vertices }
    ensures marked { IfOk result (λ ids. AreMarked book.now ids.items) }
{
    book.show_lawful();
    let mut queue = singles(alloc, book, n)?;
    let mut done = 0;
    'queue: while done < queue.len() {
        let longer = book.lists().right_star(queue[done]);
        queue.extend_from_slice(longer).map_err(|_| Memory)?;
        done += 1;
    }
    Ok(queue)
}

/// The single vertices.
fn singles(alloc: Global, book: &Book, n: u32) -> Result<Vec<PathId>, Memory>
    requires vertices { n ≡ book.now.arena.vertices }
    ensures singles { IfOk result (λ ids. AreSingleIds book.now n ids.items) }
{
    let mut ids = Vec::new(alloc);
    'vertices: for v in 0..n {
        ids.push(book.arena().vertex(v)).map_err(|_| Memory)?;
    }
    Ok(ids)
}

/// Whether a kept path is the least one of its pair. Where each least walk is kept, it says whether
/// the path is a single vertex or a least walk.
pub(crate) fn is_least(book: &Book, id: PathId) -> bool
    requires live { IsLive book.now.arena id }
    ensures shortest { (g : Graph) → CoversShortest g (kept_paths book.now)
        → IsTrue result ↔ IsShortest g (list_of book.now.arena id) }
{
    let arena = book.arena();
    let (from, to) = (arena.first(id), arena.last(id));
    match book.least(from, to) {
        Some(first) => first == id,
        None => false,
    }
}
