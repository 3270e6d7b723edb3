//! The joins that the winners of a class list.

ghost use Rattle.std.specs.Prelude.{◌≡◌, ℕ, ◌+◌, ◌≤◌, ◌↔◌, ◌++◌, IsTrue, OnOk, Contains, length, map, vec_len, vec_capacity};
ghost use Rattle.apsp_model.specs.Walk.{IsOnceEach};
ghost use Rattle.path_arena.specs.Arena.{IsLive};
ghost use Rattle.weight_classes.specs.Classes.{InOrder, ends_cmp};
ghost use Rattle.fixup.specs.Owing.{CanBeWinners};
ghost use Rattle.fixup.specs.Listing.{AreAdded, ListedByAny, Lists, ListsFrom, Yields, all_joins, join_at};

use apsp_io::{Gate, TASK};
use apsp_model::Memory;
use path_arena::{Arena, PathId};
use path_book::Book;
use std::cmp::Ordering;

/// Two paths, of which the left one without its first vertex is the right one without its last.
#[derive(Clone, Copy)]
pub struct Join {
    pub left: PathId,
    pub right: PathId,
}

/// Where the partners of a winner stand.
#[derive(Clone, Copy)]
pub(crate) enum PartnerSide {
    Left,
    Right,
}

impl PartnerSide {
    /// The join of a winner with a partner on this side.
    fn join(self, winner: PathId, partner: PathId) -> Join
        ensures { result ≡ join_at self winner partner }
    {
        match self {
            PartnerSide::Left => Join {
                left: partner,
                right: winner,
            },
            PartnerSide::Right => Join {
                left: winner,
                right: partner,
            },
        }
    }
}

/// Lists the joins of each winner, one winner behind another. The gate is passed for each.
pub(crate) fn list_alone<G: Gate>(
    book: &Book,
    winners: &[PathId],
    joins: &mut Vec<Join>,
    gate: &G,
) -> Result<(), Memory>
    requires class { CanBeWinners book.now winners.now }
    ensures listed { OnOk result
        (AreAdded (ListedByAny book.now winners.now) joins.old.items joins.new.items) }
{
    'winners: for &winner in winners {
        gate.pass(0, TASK);
        list_winner(book, winners, winner, joins)?;
    }
    Ok(())
}

/// Lists the joins of a winner with its historical partners. Of two winners that are partners the
/// greater one lists the join.
#[inline(always)]
pub(crate) fn list_winner(
    book: &Book,
    winners: &[PathId],
    winner: PathId,
    joins: &mut Vec<Join>,
) -> Result<(), Memory>
    requires class { CanBeWinners book.now winners.now }
    requires one { Contains winners.now winner }
    ensures listed { OnOk result
        (AreAdded (Lists book.now winners.now winner) joins.old.items joins.new.items) }
{
    let (arena, lists) = (book.arena(), book.lists());
    let (left, right) = (arena.left_part(winner), arena.right_part(winner));
    let (in_front, behind) = (lists.left_star(left), lists.right_star(right));
    // No partner of the only winner of a class is a winner.
    if winners.len() == 1 {
        return list_all(winner, in_front, behind, joins);
    }
    list_side(arena, winners, winner, in_front, PartnerSide::Left, joins)?;
    list_side(arena, winners, winner, behind, PartnerSide::Right, joins)
}

/// Lists the joins of a winner with the partners on one side.
#[inline(always)]
fn list_side(
    arena: &Arena,
    winners: &[PathId],
    winner: PathId,
    partners: &[PathId],
    side: PartnerSide,
    joins: &mut Vec<Join>,
) -> Result<(), Memory>
    requires sorted { InOrder arena.now winners.now }
    requires live { (w : ℕ) → Contains winners.now w → IsLive arena.now w }
    requires one { Contains winners.now winner }
    requires all { (q : ℕ) → Contains partners.now q → IsLive arena.now q }
    requires once { IsOnceEach partners.now }
    ensures listed { OnOk result
        (AreAdded (ListsFrom arena.now winners.now winner side partners.now) joins.old.items joins.new.items) }
{
    'partners: for &partner in partners {
        if lists(arena, winners, winner, partner) {
            let Ok(()) = joins.push(side.join(winner, partner)) else {
                return Err(Memory);
            };
        }
    }
    Ok(())
}

/// Lists the joins of a winner with all partners on both sides.
#[inline(always)]
fn list_all(
    winner: PathId,
    in_front: &[PathId],
    behind: &[PathId],
    joins: &mut Vec<Join>,
) -> Result<(), Memory>
    ensures listed { OnOk result
        (joins.new.items ≡ joins.old.items ++ all_joins winner in_front.now behind.now) }
{
    joins
        .reserve(in_front.len() + behind.len())
        .map_err(|_| Memory)?;
    push_all(winner, in_front, PartnerSide::Left, joins);
    push_all(winner, behind, PartnerSide::Right, joins);
    Ok(())
}

/// Puts the joins of a winner with all partners on one side behind the others. There is room.
#[inline(always)]
fn push_all(winner: PathId, partners: &[PathId], side: PartnerSide, joins: &mut Vec<Join>)
    requires room { vec_len joins.old + length partners.now ≤ vec_capacity joins.old }
    ensures listed { joins.new.items ≡ joins.old.items ++ map (join_at side winner) partners.now }
    ensures capacity { vec_capacity joins.new ≡ vec_capacity joins.old }
{
    'partners: for &partner in partners {
        joins.push_reserved(side.join(winner, partner));
    }
}

/// Whether a winner lists its join with a partner: where that is below it, or no winner.
fn lists(arena: &Arena, winners: &[PathId], winner: PathId, partner: PathId) -> bool
    requires sorted { InOrder arena.now winners.now }
    requires live { (w : ℕ) → Contains winners.now w → IsLive arena.now w }
    requires one { Contains winners.now winner }
    requires other { IsLive arena.now partner }
    ensures { IsTrue result ↔ Yields arena.now winners.now winner partner }
{
    // The search comes last: many partners are below the winner.
    arena.compare(partner, winner).is_lt() || !is_winner(arena, winners, partner)
}

/// Whether an id is among the winners, which stand in the order of their pairs.
fn is_winner(arena: &Arena, winners: &[PathId], id: PathId) -> bool
    requires sorted { InOrder arena.now winners.now }
    requires live { (w : ℕ) → Contains winners.now w → IsLive arena.now w }
    requires one { IsLive arena.now id }
    ensures { IsTrue result ↔ Contains winners.now id }
{
    let (mut low, mut high) = (0, winners.len());
    'search: while low < high {
        let middle = low + (high - low) / 2;
        let found = winners[middle];
        match compare_pairs(arena, found, id) {
            Ordering::Less => low = middle + 1,
            Ordering::Equal => return found == id,
            Ordering::Greater => high = middle,
        }
    }
    false
}

/// The order of the pairs of two live paths, by first and then by last vertex.
fn compare_pairs(arena: &Arena, a: PathId, b: PathId) -> Ordering
    requires first { IsLive arena.now a }
    requires second { IsLive arena.now b }
    ensures { result ≡ ends_cmp arena.now a b }
{
    arena
        .first(a)
        .cmp(&arena.first(b))
        .then(arena.last(a).cmp(&arena.last(b)))
}
