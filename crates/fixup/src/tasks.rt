//! The joins of a class, listed by one worker or by several.

ghost use Rattle.std.specs.Prelude.{◌≡◌, ◌≤◌, length, OnOk};
ghost use Rattle.apsp_model.specs.Limits.{IsWorkerCount};
ghost use Rattle.fixup.specs.Owing.{CanBeWinners};
ghost use Rattle.fixup.specs.Listing.{AreAdded, ListedByAny};

use crate::listing::{Join, list_alone, list_winner};
use apsp_io::Gate;
use apsp_model::{MOST_VERTICES, Memory};
use path_arena::PathId;
use path_book::Book;
use std::alloc::Global;
use std::marker::{Model, Sync};
use std::thread::Threads;
use task_pool::{Job, run_tasks};

/// From so many partners of its winners on, a class is listed by several workers. Starting one costs
/// about 20 µs of processor time, as much as looking at some thousands of partners.
pub(crate) const MANY_PARTNERS: usize = 16_384;

/// The workers that list the joins of a class, each of which passes the gate: so many where the
/// winners have at least `many` partners, and else the caller alone.
#[derive(Drop)]
pub struct Workers<'a, R, G> {
    pub rt: &'a R,
    pub alloc: Global,
    pub count: u32,
    pub gate: &'a G,
    pub many: usize,
    ghost bounded: { IsWorkerCount count },
}

/// The winners of a class. The task of a winner lists its joins.
#[derive(Drop)]
struct Listing<'a> {
    alloc: Global,
    book: &'a Book,
    winners: &'a [PathId],
}

impl<'a> Model for Listing<'a> {
    ghost use Rattle.fixup.specs.Owing.{CanBeWinners};
    ghost use Rattle.fixup.specs.Listing.{Class, class_code};

    ghost Value = { Class };

    ghost coded = { class_code };

    ghost view = { λ o. record { book = o.book.now; winners = o.winners.now } };

    ghost invariant = { λ o. CanBeWinners o.book.now o.winners.now };
}

impl<'a> Job for Listing<'a> {
    ghost use Rattle.std.specs.Prelude.{length};
    ghost use Rattle.fixup.specs.Listing.{ListsAt};

    type Out = Vec<Join>;

    ghost count = { λ class. length class.winners };

    ghost gives = { λ class k list. ListsAt class k list.items };

    fn run(&self, task: u32) -> Result<Vec<Join>, Memory> {
        let mut joins = Vec::new(self.alloc);
        list_winner(
            self.book,
            self.winners,
            self.winners[task as usize],
            &mut joins,
        )?;
        Ok(joins)
    }
}

/// Lists the joins of each winner, one winner behind another. Of two winners that are partners the
/// greater one lists the join. The gate is passed for each.
pub(crate) fn list_joins<R: Threads + Sync, G: Gate>(
    workers: &Workers<'_, R, G>,
    book: &Book,
    winners: &[PathId],
    joins: &mut Vec<Join>,
) -> Result<(), Memory>
    requires class { CanBeWinners book.now winners.now }
    ensures listed { OnOk result
        (AreAdded (ListedByAny book.now winners.now) joins.old.items joins.new.items) }
{
    if workers.count > 1 && has_partners(book, winners, workers.many) {
        if let Ok(tasks) = u32::try_from(winners.len()) {
            return list_by_tasks(workers, book, winners, tasks, joins);
        }
    }
    list_alone(book, winners, joins, workers.gate)
}

/// Lists the joins of each winner by a task of its own, and puts the lists one behind another.
fn list_by_tasks<R: Threads + Sync, G: Gate>(
    workers: &Workers<'_, R, G>,
    book: &Book,
    winners: &[PathId],
    tasks: u32,
    joins: &mut Vec<Join>,
) -> Result<(), Memory>
    requires class { CanBeWinners book.now winners.now }
    requires all { tasks ≡ length winners.now }
    ensures listed { OnOk result
        (AreAdded (ListedByAny book.now winners.now) joins.old.items joins.new.items) }
{
    let class = Listing {
        alloc: workers.alloc,
        book,
        winners,
    };
    let lists = run_tasks(
        workers.rt,
        workers.alloc,
        workers.count,
        tasks,
        &class,
        workers.gate,
    )?;
    'lists: for list in lists.answers() {
        let Ok(()) = joins.extend_from_slice(list.as_slice()) else {
            return Err(Memory);
        };
    }
    Ok(())
}

/// Whether the winners have at least so many partners in all. Each has at most one for each vertex
/// on either side, so few winners need no look.
fn has_partners(book: &Book, winners: &[PathId], many: usize) -> bool
    requires class { CanBeWinners book.now winners.now }
{
    if winners.len() < many / (2 * MOST_VERTICES as usize) {
        return false;
    }
    let (arena, lists) = (book.arena(), book.lists());
    let mut rest = many;
    'winners: for &winner in winners {
        let in_front = lists.left_star(arena.left_part(winner)).len();
        let behind = lists.right_star(arena.right_part(winner)).len();
        let partners = in_front.saturating_add(behind);
        if partners >= rest {
            return true;
        }
        rest -= partners;
    }
    false
}
