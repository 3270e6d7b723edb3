//! Tests of the book by calls.

ghost use Rattle.std.specs.Prelude.{◌≡◌, [], ◌∷◌, IfOk};
ghost use Rattle.path_arena.specs.Arena.{IsLive};
ghost use Rattle.path_book.specs.Book.{IsMarked};
ghost use Rattle.path_book.specs.Through.{IsVictims};

use crate::Book;
use apsp_model::Memory;
use path_arena::PathId;
use std::alloc::Global;
use std::test::Fail;

/// The edges 0 1 and 1 2, which are historical, and their join, which is not.
#[derive(Drop)]
struct Joined {
    book: Book,
    joined: PathId,
}

fn joined_edges(alloc: Global) -> Result<Joined, Memory>
    ensures vertices { IfOk result (λ t. t.book.arena.vertices ≡ 3) }
    ensures live { IfOk result (λ t. IsLive t.book.arena t.joined) }
    ensures pending { IfOk result (λ t. IsMarked t.book t.joined → ⊥) }
{
    let mut book = Book::new(alloc, 3)?;
    let left = book.form_edge(0, 1, 2, 1)?;
    let right = book.form_edge(1, 2, 3, 1)?;
    book.promote(left)?;
    book.promote(right)?;
    let joined = book.form_join(left, right, 7)?;
    Ok(Joined { book, joined })
}

#[test]
fn a_joined_path_is_kept_and_promoted(rt: HostRuntime) -> Result<(), Fail> {
    let Joined { mut book, joined } = joined_edges(rt.alloc())?;
    assert_eq!(rt; (book.count_paths(), book.count_historical()), (3, 2));
    assert_eq!(rt; book.birth_of(&[0, 1, 2]), Some(7));
    assert_eq!(rt; book.birth_of(&[1, 0]), None);
    let mut heads = Vec::new(rt.alloc());
    book.pending_leasts(&mut heads)?;
    assert!(rt; heads.as_slice() == [joined].as_slice());
    book.promote(joined)?;
    book.pending_leasts(&mut heads)?;
    assert!(rt; heads.is_empty());
    assert_eq!(rt; (book.count_paths(), book.count_historical()), (3, 3));
    assert_eq!(rt; book.least(0, 2), Some(joined));
    assert_eq!(rt; book.least(2, 0), None);
    Ok(())
}

/// The edges 0 1 and 2 1, which are historical, and 2 0, which is not.
#[derive(Drop)]
struct ThreeEdges {
    book: Book,
    out: PathId,
    past: PathId,
    into: PathId,
}

fn triangle(alloc: Global) -> Result<ThreeEdges, Memory>
    ensures vertices { IfOk result (λ t. t.book.arena.vertices ≡ 3) }
    ensures victims { IfOk result (λ t. IsVictims t.book 0 (t.out ∷ t.into ∷ [])) }
{
    let mut book = Book::new(alloc, 3)?;
    let out = book.form_edge(0, 1, 5, 1)?;
    book.promote(out)?;
    let past = book.form_edge(2, 1, 4, 2)?;
    book.promote(past)?;
    let into = book.form_edge(2, 0, 3, 3)?;
    Ok(ThreeEdges {
        book,
        out,
        past,
        into,
    })
}

#[test]
fn the_paths_through_a_vertex_are_forgotten(rt: HostRuntime) -> Result<(), Fail> {
    let ThreeEdges {
        mut book,
        out,
        past,
        into,
    } = triangle(rt.alloc())?;
    assert_eq!(rt; (book.count_paths(), book.count_historical()), (3, 2));
    book.forget_through(0, &[out, into]);
    assert_eq!(rt; (book.count_paths(), book.count_historical()), (1, 1));
    assert_eq!(rt; book.birth_of(&[0, 1]), None);
    assert_eq!(rt; book.birth_of(&[2, 0]), None);
    assert_eq!(rt; book.birth_of(&[2, 1]), Some(2));
    assert_eq!(rt; book.birth_of(&[0]), Some(0));
    assert_eq!(rt; book.least(0, 1), None);
    assert_eq!(rt; book.least(2, 0), None);
    assert_eq!(rt; book.least(2, 1), Some(past));
    assert!(rt; book.is_historical(past));
    Ok(())
}
