//! A book of more vertices with the kept paths of another.

ghost use Rattle.std.specs.Prelude.{◌≡◌, ◌≢◌, ℕ, ◌<◌, ◌≤◌, ◌+◌, ◌⊎◌, ◌↔◌, List, [], Some, IsSome, IfOk, OnOk, OnErr, Contains};
ghost use Rattle.apsp_model.specs.declared.TheConstants.{MOST_VERTICES};
ghost use Rattle.apsp_model.specs.Walk.{IsOnceEach, IsWalk};
ghost use Rattle.apsp_model.specs.Least.{IsLeastWalk};
ghost use Rattle.apsp_model.specs.Paths.{IsKeptIn, IsHistoricalIn};
ghost use Rattle.apsp_model.specs.Settled.{HaveWeights};
ghost use Rattle.path_arena.specs.Arena.{IsLive};
ghost use Rattle.path_book.specs.Book.{IsBook, IsOpeningBook, kept_paths};
ghost use Rattle.book_widening.specs.Widened.{IsWidenedTo};
ghost use Rattle.book_widening.specs.Copies.{copy_at, HaveSums, IsLevel, AreCopies, AreCopied, IsFormedLike, HasCopied, CanBeCopied};

use apsp_model::Memory;
use graph_store::Graph;
use path_arena::PathId;
use path_book::Book;
use std::alloc::Global;

/// A new book of n vertices with the kept paths of the graph's book, each with its birth and its mark,
/// and the new single vertices. `Memory` is the one error, and changes nothing.
///
/// They are copied level by level: the single vertices, then the edges, then the paths of two edges,
/// and so on. So the parts of a path are copied before it. Time: that of forming and promoting so many
/// paths in an empty book, and O(n).
pub fn wider_book(alloc: Global, book: &Book, graph: &Graph, n: u32) -> Result<Book, Memory>
    requires size { book.now.arena.vertices ≡ graph.now.vertices }
    requires more { graph.now.vertices ≤ n }
    requires most { n ≤ MOST_VERTICES }
    requires walks { (p : List ℕ) → IsKeptIn (kept_paths book.now) p → IsWalk graph.now p }
    requires weights { HaveWeights graph.now (kept_paths book.now) }
    requires leasts { (p : List ℕ) → IsLeastWalk graph.now p → IsHistoricalIn (kept_paths book.now) p }
    ensures widened { IfOk result (λ w. IsWidenedTo n (kept_paths book.now) (kept_paths w)) }
    ensures lawful { IfOk result IsBook }
    ensures vertices { IfOk result (λ w. w.arena.vertices ≡ n) }
{
    book.show_lawful();
    let mut wide = Book::new(alloc, n)?;
    // The copies, each at the key of the id that it is the copy of.
    let mut copies = Vec::new(alloc);
    let mut level = copy_singles(alloc, book, graph.vertices(), &wide, &mut copies)?;
    'levels: for _ in 1..graph.vertices() {
        let longer = extensions(alloc, book, &level)?;
        copy_all(book, &mut wide, &mut copies, &longer)?;
        level = longer;
    }
    wide.note_clean();
    Ok(wide)
}

/// Notes the copies of the single vertices, which are there, and lists these.
fn copy_singles(
    alloc: Global,
    book: &Book,
    n: u32,
    wide: &Book,
    copies: &mut Vec<Option<PathId>>,
) -> Result<Vec<PathId>, Memory>
    requires size { book.now.arena.vertices ≡ n }
    requires more { n ≤ wide.now.arena.vertices }
    requires opening { IsOpeningBook wide.now wide.now.arena.vertices }
    requires none { copies.old.items ≡ [] }
    ensures level { IfOk result (λ ids. IsLevel book.now 0 ids.items) }
    ensures copies { OnOk result (AreCopies book.now wide.now copies.new.items) }
    ensures copied { OnOk result (AreCopied book.now 0 copies.new.items) }
{
    book.show_lawful();
    wide.show_lawful();
    let mut ids = Vec::new(alloc);
    'vertices: for v in 0..n {
        let id = book.arena().vertex(v);
        note(copies, id, wide.arena().vertex(v))?;
        ids.push(id).map_err(|_| Memory)?;
    }
    Ok(ids)
}

/// The paths that go on by a vertex behind those of a level.
fn extensions(alloc: Global, book: &Book, level: &[PathId]) -> Result<Vec<PathId>, Memory>
    requires { (id : ℕ) → Contains level.now id → IsLive book.now.arena id }
    ensures { IfOk result (λ ids. (h : ℕ) → IsLevel book.now h level.now → IsLevel book.now (h + 1) ids.items) }
{
    book.show_lawful();
    let mut longer = Vec::new(alloc);
    'level: for &id in level {
        longer
            .extend_from_slice(book.lists().right(id))
            .map_err(|_| Memory)?;
    }
    Ok(longer)
}

/// Copies the paths of a list, whose parts are copied already.
fn copy_all(
    book: &Book,
    wide: &mut Book,
    copies: &mut Vec<Option<PathId>>,
    ids: &[PathId],
) -> Result<(), Memory>
    requires sums { HaveSums book.now.arena }
    requires copies { AreCopies book.now wide.old copies.old.items }
    requires ready { (id : ℕ) → Contains ids.now id → CanBeCopied book.now copies.old.items id }
    requires once { IsOnceEach ids.now }
    ensures copies { OnOk result (AreCopies book.now wide.new copies.new.items) }
    ensures copied { OnOk result
        ((o : ℕ) → IsSome (copy_at copies.new.items o) ↔ (IsSome (copy_at copies.old.items o) ⊎ Contains ids.now o)) }
    ensures vertices { OnOk result (wide.new.arena.vertices ≡ wide.old.arena.vertices) }
{
    book.show_lawful();
    'ids: for &id in ids {
        let copy = copy(book, wide, copies, id)?;
        note(copies, id, copy)?;
    }
    Ok(())
}

/// Copies a path whose parts are copied, with its birth and its mark.
fn copy(
    book: &Book,
    wide: &mut Book,
    copies: &[Option<PathId>],
    id: PathId,
) -> Result<PathId, Memory>
    requires sums { HaveSums book.now.arena }
    requires copies { AreCopies book.now wide.old copies.now }
    requires ready { CanBeCopied book.now copies.now id }
    ensures { IfOk result (HasCopied book.now wide.old wide.new id) }
{
    let copy = form_copy(book, wide, copies, id)?;
    if book.is_historical(id) {
        wide.promote(copy)?;
    }
    Ok(copy)
}

/// Keeps a path of the book in a wider one that has copies of its two parts: with its list, its weight
/// and its birth, and without a mark. `copies` has the copy of each id at its key. `Memory` is the one
/// error, and changes nothing. Time: that of forming a path.
pub fn form_copy(
    book: &Book,
    wide: &mut Book,
    copies: &[Option<PathId>],
    id: PathId,
) -> Result<PathId, Memory>
    requires sums { HaveSums book.now.arena }
    requires copies { AreCopies book.now wide.old copies.now }
    requires ready { CanBeCopied book.now copies.now id }
    ensures formed { IfOk result (IsFormedLike book.now wide.old wide.new id) }
    ensures memory { OnErr result (wide.new ≡ wide.old) }
    ensures lawful { IsBook wide.new }
    ensures from { IsBook book.now }
{
    book.show_lawful();
    wide.show_lawful();
    let arena = book.arena();
    let birth = arena.birth(id);
    if arena.hops(id) == 1 {
        let (from, to) = (arena.first(id), arena.last(id));
        wide.form_edge(from, to, arena.weight(id) as u32, birth)
    } else {
        let left = copied(copies, arena.left_part(id));
        let right = copied(copies, arena.right_part(id));
        wide.form_join(left, right, birth)
    }
}

/// The copy of a path that has one.
fn copied(copies: &[Option<PathId>], id: PathId) -> PathId
    requires { IsSome (copy_at copies.now id) }
    ensures { copy_at copies.now id ≡ Some result }
{
    match copies[id.key()] {
        Some(copy) => copy,
        None => unreachable!(),
    }
}

/// Notes which id is the copy of another.
fn note(copies: &mut Vec<Option<PathId>>, id: PathId, copy: PathId) -> Result<(), Memory>
    ensures here { OnOk result (copy_at copies.new.items id ≡ Some copy) }
    ensures others { OnOk result ((k : ℕ) → k ≢ id → copy_at copies.new.items k ≡ copy_at copies.old.items k) }
{
    'room: while copies.len() <= id.key() {
        copies.push(None).map_err(|_| Memory)?;
    }
    copies[id.key()] = Some(copy);
    Ok(())
}
