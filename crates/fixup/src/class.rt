//! A class: its winners are promoted, then the joins that they owe are listed, and then kept.

ghost use Rattle.std.specs.Prelude.{◌≡◌, ℕ, OnOk, OnErr, Contains, []};
ghost use Rattle.apsp_model.specs.Walk.{IsOnceEach, first, last};
ghost use Rattle.path_arena.specs.Arena.{list_of, IsLive, CanJoin, joined_path};
ghost use Rattle.path_book.specs.Book.{IsBook, IsMarked, IsNewList};
ghost use Rattle.weight_classes.specs.Classes.{ClassesFit};
ghost use Rattle.fixup.specs.Joining.{IsJoined};
ghost use Rattle.fixup.specs.Owing.{CanBeWinners, IsPromoted, AreOwed};
ghost use Rattle.fixup.specs.Stage.{Stage};
ghost use Rattle.fixup.specs.Growth.{PairsAreJoined};
ghost use Rattle.fixup.specs.Stages.{ClassIsTakenAt, ClassIsSettledAt, AreOwedAt, SomeClassIsTaken, SomeClassOwes};

use crate::listing::Join;
use crate::tasks::{Workers, list_joins};
use apsp_io::Gate;
use apsp_model::Memory;
use path_arena::PathId;
use path_book::Book;
use std::marker::Sync;
use std::thread::Threads;
use weight_classes::Classes;

/// Settles a class that was taken: makes its winners historical, and keeps the joins that they owe.
/// `joins` is room that is used again.
pub(crate) fn settle_class<R: Threads + Sync, G: Gate>(
    workers: &Workers<'_, R, G>,
    book: &mut Book,
    classes: &mut Classes,
    joins: &mut Vec<Join>,
    winners: &[PathId],
    birth: u64,
) -> Result<(), Memory>
    requires taken { SomeClassIsTaken birth winners.now book.old classes.old }
    ensures done { OnOk result ((s : Stage) → ClassIsTakenAt s birth winners.now book.old classes.old
        → ClassIsSettledAt s birth book.new classes.new) }
    ensures lawful { OnErr result (IsBook book.new) }
{
    promote_class(workers, book, winners, joins)?;
    keep_joins(book, classes, joins, birth)
}

/// Makes the winners of a class historical, all of them before any join is listed, and lists the
/// joins that the class owes then: of two historical paths, of which one is a winner or both are, each
/// once. Where both are, the greater one lists it. After `Memory` the book is lawful and nothing more
/// is known of it.
///
/// The gate is passed with `TASK` for each winner.
///
/// Time: for each winner its partners, each with the logarithm of the number of winners.
pub fn promote_class<R: Threads + Sync, G: Gate>(
    workers: &Workers<'_, R, G>,
    book: &mut Book,
    winners: &[PathId],
    joins: &mut Vec<Join>,
) -> Result<(), Memory>
    requires class { CanBeWinners book.old winners.now }
    requires pending { (w : ℕ) → Contains winners.now w → IsMarked book.old w → ⊥ }
    ensures promoted { OnOk result (IsPromoted book.old winners.now book.new) }
    ensures owed { OnOk result (AreOwed book.new winners.now joins.new.items) }
    ensures lawful { OnErr result (IsBook book.new) }
{
    joins.clear();
    promote_all(book, winners)?;
    list_joins(workers, book, winners, joins)
}

/// Makes the winners historical.
fn promote_all(book: &mut Book, winners: &[PathId]) -> Result<(), Memory>
    requires class { CanBeWinners book.old winners.now }
    requires pending { (w : ℕ) → Contains winners.now w → IsMarked book.old w → ⊥ }
    ensures promoted { OnOk result (IsPromoted book.old winners.now book.new) }
    ensures class { OnOk result (CanBeWinners book.new winners.now) }
    ensures lawful { OnErr result (IsBook book.new) }
{
    'winners: for &winner in winners {
        book.promote(winner)?;
    }
    Ok(())
}

/// Keeps the listed joins.
fn keep_joins(
    book: &mut Book,
    classes: &mut Classes,
    joins: &[Join],
    birth: u64,
) -> Result<(), Memory>
    requires ready { SomeClassOwes birth joins.now book.old classes.old }
    requires once { IsOnceEach joins.now }
    ensures done { OnOk result ((s : Stage) → PairsAreJoined s birth [] book.old classes.old → AreOwedAt s joins.now
        → PairsAreJoined s birth joins.now book.new classes.new) }
    ensures lawful { OnErr result (IsBook book.new) }
{
    'joins: for &pair in joins {
        join(book, classes, pair.left, pair.right, birth)?;
    }
    Ok(())
}

/// Keeps the join of two historical paths, unless its first vertex would be its last, and holds it
/// where it is the least of its pair.
fn join(
    book: &mut Book,
    classes: &mut Classes,
    l: PathId,
    r: PathId,
    birth: u64,
) -> Result<(), Memory>
    requires left_live { IsLive book.old.arena l }
    requires right_live { IsLive book.old.arena r }
    requires left { IsMarked book.old l }
    requires right { IsMarked book.old r }
    requires can { (first (list_of book.old.arena l) ≡ last (list_of book.old.arena r) → ⊥)
        → CanJoin book.old.arena l r }
    requires new { (first (list_of book.old.arena l) ≡ last (list_of book.old.arena r) → ⊥)
        → IsNewList book.old (joined_path book.old.arena l r birth).list }
    requires fits { ClassesFit classes.old book.old.arena }
    ensures joined { OnOk result (IsJoined book.old classes.old l r birth book.new classes.new) }
    ensures lawful { IsBook book.new }
    ensures fits { OnOk result (ClassesFit classes.new book.new.arena) }
{
    let arena = book.arena();
    let (from, to) = (arena.first(l), arena.last(r));
    if from == to {
        return Ok(());
    }
    let formed = book.form_join_between(l, r, from, to, birth)?;
    if formed.is_least {
        classes.push(book.arena(), formed.id)?;
    }
    Ok(())
}
