//! The demotion of historical paths that are no longer least walks.

ghost use Rattle.std.specs.Prelude.{◌≡◌, ℕ, ◌-◌, false, length, List, [], ◌∷◌, ◌++◌, IfOk, OnOk, Contains};
ghost use Rattle.apsp_model.specs.Walk.{IsOnceEach};
ghost use Rattle.path_arena.specs.Arena.{HasAnEdge, IsLive, IsPartOfNone};
ghost use Rattle.path_book.specs.Book.{IsBook, IsMarked};
ghost use Rattle.path_book.specs.Through.{AreForgotten};
ghost use Rattle.local_engine.specs.Demoting.{AreToDemote, IsLastToDemote, IsLongerBy, IsForgottenFrom, AreLonger};
ghost use Rattle.local_engine.specs.Forming.{CanBeFormed, IsFormedOf};

use crate::search::is_least;
use apsp_model::Memory;
use graph_store::Graph;
use path_arena::PathId;
use path_book::Book;
use std::alloc::Global;

/// The paths that are left to demote, in rising hops, or that they are not known, since memory ran out.
#[derive(Drop)]
pub(crate) struct Left {
    pub(crate) paths: Vec<PathId>,
    pub(crate) is_unknown: bool,
}

/// Demotes the last of the paths that are left. The least kept path of each pair is historical then, so
/// the next settling begins with the pairs of what is formed and forgotten after it.
pub(crate) fn demote_last(
    alloc: Global,
    book: &mut Book,
    graph: &Graph,
    left: &mut Left,
    birth: u64,
)
    requires paths { left.old.is_unknown ≡ false → AreToDemote graph.now book.old left.old.paths.items }
    ensures rest { left.new.is_unknown ≡ false → AreToDemote graph.now book.new left.new.paths.items }
    ensures fewer { length left.new.paths.items ≡ length left.old.paths.items - 1 }
{
    let Some(id) = left.paths.pop() else {
        return;
    };
    if left.is_unknown {
        return;
    }
    match demote(alloc, book, graph, id, birth) {
        Ok(()) => book.note_clean(),
        Err(Memory) => left.is_unknown = true,
    }
}

/// Demotes a path that is a part of no other historical one: the paths with one vertex more are
/// forgotten, then the path itself, and where its two parts are least walks it is formed again.
fn demote(
    alloc: Global,
    book: &mut Book,
    graph: &Graph,
    id: PathId,
    birth: u64,
) -> Result<(), Memory>
    requires last { IsLastToDemote graph.now book.old id }
    ensures rest { OnOk result ((rest : List ℕ) → AreToDemote graph.now book.old (rest ++ id ∷ [])
        → AreToDemote graph.now book.new rest) }
{
    let arena = book.arena();
    let (left, right) = (arena.left_part(id), arena.right_part(id));
    let again = is_least(book, left) && is_least(book, right);
    forget_from(alloc, book, id)?;
    if again {
        form(book, graph, left, right, birth)?;
    }
    Ok(())
}

/// Forgets the paths with one vertex more than a path, and then the path.
fn forget_from(alloc: Global, book: &mut Book, id: PathId) -> Result<(), Memory>
    requires edge { HasAnEdge book.old.arena id }
    requires last { (k : ℕ) → IsMarked book.old k → IsLongerBy book.old.arena id k → ⊥ }
    ensures forgotten { OnOk result (IsForgottenFrom book.old book.new id) }
    ensures lawful { IsBook book.new }
{
    book.show_lawful();
    let longer = longer_by_one(alloc, book, id)?;
    forget_each(book, &longer);
    book.forget(id);
    Ok(())
}

/// The paths with one vertex more than a path.
fn longer_by_one(alloc: Global, book: &Book, id: PathId) -> Result<Vec<PathId>, Memory>
    requires { HasAnEdge book.now.arena id }
    ensures longer { IfOk result (λ ids. AreLonger book.now id ids.items) }
{
    book.show_lawful();
    let mut ids = Vec::new(alloc);
    ids.extend_from_slice(book.lists().left(id))
        .map_err(|_| Memory)?;
    ids.extend_from_slice(book.lists().right(id))
        .map_err(|_| Memory)?;
    Ok(ids)
}

/// Forgets paths that are parts of no kept ones.
fn forget_each(book: &mut Book, ids: &[PathId])
    requires edges { (id : ℕ) → Contains ids.now id → HasAnEdge book.old.arena id }
    requires free { (id : ℕ) → Contains ids.now id → IsPartOfNone book.old.arena id }
    requires once { IsOnceEach ids.now }
    ensures forgotten { AreForgotten book.old book.new ids.now }
    ensures lawful { IsBook book.new }
{
    book.show_lawful();
    'ids: for &id in ids {
        book.forget(id);
    }
}

/// Keeps the path that has these two historical parts.
fn form(
    book: &mut Book,
    graph: &Graph,
    left: PathId,
    right: PathId,
    birth: u64,
) -> Result<(), Memory>
    requires path { (h : List ℕ) × CanBeFormed graph.now book.old left right h }
    ensures formed { OnOk result ((h : List ℕ) → CanBeFormed graph.now book.old left right h
        → IsFormedOf graph.now birth h book.old book.new) }
{
    let arena = book.arena();
    if arena.hops(left) > 0 {
        book.form_join(left, right, birth)?;
        return Ok(());
    }
    let (from, to) = (arena.first(left), arena.last(right));
    if let Some(weight) = graph.weight(from, to) {
        book.form_edge(from, to, weight, birth)?;
    }
    Ok(())
}
