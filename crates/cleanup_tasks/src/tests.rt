//! Tests of the cleanup by calls.

ghost use Rattle.std.specs.Prelude.{◌≡◌, ◌≢◌, ◌<◌, ◌≤◌, IsTrue, IfOk, OnOk, All, length, [], ◌∷◌};
ghost use Rattle.apsp_model.specs.Limits.{IsWorkerCount};
ghost use Rattle.path_book.specs.Through.{IsVictims};
ghost use Rattle.path_book.specs.Book.{IsBook, IsNewList};

use crate::tasks::{Searchers, walk_by};
use crate::{Victims, forget_all, victims};
use apsp_io::OpenGate;
use path_arena::PathId;
use path_book::Book;
use std::alloc::Global;
use std::marker::Sync;
use std::test::Fail;
use std::thread::Threads;

/// Whether no kept path has these vertices.
fn is_new(book: &Book, list: &[u32]) -> bool
    requires some { 0 < length list.now }
    requires inside { All (λ v. v < book.now.arena.vertices) list.now }
    ensures new { IsTrue result → IsNewList book.now list.now }
    ensures lawful { IsBook book.now }
{
    match book.birth_of(list) {
        None => true,
        Some(_) => false,
    }
}

/// Keeps the edges from a to b and from b to c as historical, and their join.
fn join_edges(book: &mut Book, a: u32, b: u32, c: u32) -> Result<[PathId; 3], Fail>
    requires inside { (a < book.old.arena.vertices) × (b < book.old.arena.vertices) × (c < book.old.arena.vertices) }
    requires apart { (a ≢ b) × (b ≢ c) × (a ≢ c) }
    ensures vertices { book.new.arena.vertices ≡ book.old.arena.vertices }
{
    if is_new(book, &[a, b]) {
        if is_new(book, &[b, c]) {
            if is_new(book, &[a, b, c]) {
                return join_new_edges(book, a, b, c);
            }
        }
    }
    Err(Fail::from("kept already"))
}

fn join_new_edges(book: &mut Book, a: u32, b: u32, c: u32) -> Result<[PathId; 3], Fail>
    requires inside { (a < book.old.arena.vertices) × (b < book.old.arena.vertices) × (c < book.old.arena.vertices) }
    requires apart { (a ≢ b) × (b ≢ c) × (a ≢ c) }
    requires first { IsNewList book.old (a ∷ b ∷ []) }
    requires second { IsNewList book.old (b ∷ c ∷ []) }
    requires both { IsNewList book.old (a ∷ b ∷ c ∷ []) }
    requires lawful { IsBook book.old }
    ensures vertices { book.new.arena.vertices ≡ book.old.arena.vertices }
{
    let left = book.form_edge(a, b, 2, 1)?;
    let right = book.form_edge(b, c, 3, 1)?;
    book.promote(left)?;
    book.promote(right)?;
    let joined = book.form_join(left, right, 1)?;
    Ok([left, right, joined])
}

/// Two ways from 0 to 3, by 1 and by 2, and a vertex without edges; and the paths of each way.
fn two_ways(alloc: Global) -> Result<(Book, [PathId; 3], [PathId; 3]), Fail>
    ensures vertices { IfOk result (λ t. t.0.arena.vertices ≡ 5) }
{
    let mut book = Book::new(alloc, 5)?;
    let by_1 = join_edges(&mut book, 0, 1, 3)?;
    let by_2 = join_edges(&mut book, 0, 2, 3)?;
    Ok((book, by_1, by_2))
}

/// The victims of a vertex.
fn through<R: Threads + Sync>(rt: &R, alloc: Global, book: &Book, v: u32) -> Result<Victims, Fail>
    requires vertices { book.now.arena.vertices ≡ 5 }
    ensures vertex { IfOk result (λ list. list.vertex ≡ v) }
    ensures all { IfOk result (λ list. IsVictims book.now v list.ids) }
{
    if v >= 5 {
        return Err(Fail::from("no such vertex"));
    }
    let list = victims(rt, alloc, book, v, 1, &OpenGate)?;
    Ok(list)
}

/// Forgets the paths through a vertex, and tells how many are left.
fn left_without<R: Threads + Sync>(
    rt: &R,
    alloc: Global,
    book: &mut Book,
    v: u32,
) -> Result<u64, Fail>
    requires vertices { book.old.arena.vertices ≡ 5 }
{
    let list = through(rt, alloc, book, v)?;
    forget_all(book, &list);
    Ok(book.count_paths())
}

/// Whether these are the two ids, in either order.
fn are(ids: &[PathId], a: PathId, b: PathId) -> bool {
    ids == [a, b].as_slice() || ids == [b, a].as_slice()
}

/// Whether these are two edges, in either order, and then their join.
fn are_edges_and_join(ids: &[PathId], a: PathId, b: PathId, joined: PathId) -> bool {
    ids.len() == 3 && are(&ids[..2], a, b) && ids[2] == joined
}

/// Whether these are two edges and then two joins, each in either order.
fn are_edges_and_joins(ids: &[PathId], edges: [PathId; 2], joins: [PathId; 2]) -> bool {
    ids.len() == 4 && are(&ids[..2], edges[0], edges[1]) && are(&ids[2..], joins[0], joins[1])
}

#[test]
fn paths_through_a_vertex_are_found(rt: HostRuntime) -> Result<(), Fail> {
    let (book, [to_1, from_1, by_1], [to_2, _, by_2]) = two_ways(rt.alloc())?;
    let inner = through(&rt, rt.alloc(), &book, 1)?;
    assert!(rt; are_edges_and_join(inner.ids(), to_1, from_1, by_1));
    let start = through(&rt, rt.alloc(), &book, 0)?;
    assert!(rt; are_edges_and_joins(start.ids(), [to_1, to_2], [by_1, by_2]));
    let alone = through(&rt, rt.alloc(), &book, 4)?;
    assert_eq!(rt; alone.ids().len(), 0);
    Ok(())
}

#[test]
fn paths_through_a_vertex_are_forgotten(rt: HostRuntime) -> Result<(), Fail> {
    let (mut book, _, _) = two_ways(rt.alloc())?;
    assert_eq!(rt; left_without(&rt, rt.alloc(), &mut book, 1)?, 3);
    Ok(())
}

/// Forgets the paths through a vertex.
fn forget_at<R: Threads + Sync>(rt: &R, alloc: Global, book: &mut Book, v: u32) -> Result<(), Fail>
    requires vertices { book.old.arena.vertices ≡ 5 }
    ensures vertices { OnOk result (book.new.arena.vertices ≡ 5) }
{
    let list = through(rt, alloc, book, v)?;
    forget_all(book, &list);
    Ok(())
}

#[test]
fn paths_go_with_their_ends_and_can_come_again(rt: HostRuntime) -> Result<(), Fail> {
    let (mut book, _, _) = two_ways(rt.alloc())?;
    forget_at(&rt, rt.alloc(), &mut book, 3)?;
    assert_eq!(rt;
        (book.birth_of(&[0, 1]), book.birth_of(&[0, 1, 3])),
        (Some(1), None)
    );
    forget_at(&rt, rt.alloc(), &mut book, 0)?;
    assert_eq!(rt; (book.birth_of(&[0, 1]), book.count_paths()), (None, 0));
    let _ = join_edges(&mut book, 0, 1, 3)?;
    assert_eq!(rt;
        (book.birth_of(&[0, 1, 3]), book.count_historical()),
        (Some(1), 2)
    );
    Ok(())
}

/// The paths through 0, looked for by so many workers.
fn by_workers<R: Threads + Sync>(
    rt: &R,
    alloc: Global,
    book: &Book,
    workers: u32,
) -> Result<Vec<PathId>, Fail>
    requires vertices { book.now.arena.vertices ≡ 5 }
    requires workers { IsWorkerCount workers }
    ensures all { IfOk result (λ ids. IsVictims book.now 0 ids.items) }
{
    let searchers = Searchers {
        rt,
        alloc,
        workers,
        gate: &OpenGate,
        many: 1,
    };
    let ids = walk_by(&searchers, book, 0)?;
    Ok(ids)
}

#[test]
fn several_workers_find_the_same_paths(rt: HostRuntime) -> Result<(), Fail> {
    let (book, [to_1, _, by_1], [to_2, _, by_2]) = two_ways(rt.alloc())?;
    let alone = by_workers(&rt, rt.alloc(), &book, 1)?;
    assert!(rt; are_edges_and_joins(&alone, [to_1, to_2], [by_1, by_2]));
    let two = by_workers(&rt, rt.alloc(), &book, 2)?;
    assert!(rt; are_edges_and_joins(&two, [to_1, to_2], [by_1, by_2]));
    let seven = by_workers(&rt, rt.alloc(), &book, 7)?;
    assert!(rt; are_edges_and_joins(&seven, [to_1, to_2], [by_1, by_2]));
    Ok(())
}
