//! An entry of a heap goes up or down until no entry is below its parent.

ghost use Rattle.std.specs.Prelude.{true, false, ◌≡◌, ℕ, ◌+◌, ◌*◌, ◌<◌, ◌≤◌, length, slice_index, MatchOption};
ghost use Rattle.std.specs.List.Sorted.{IsPermutation};
ghost use Rattle.pair_heaps.specs.Heaps.{IsIdBelow, IsHeap};
ghost use Rattle.pair_heaps.specs.Sifting.{AreLive, IsChild, IsLoose, IsRising, IsSinking, IsUpon};

use path_arena::{Arena, PathId};
use std::cmp::Ordering;

/// Whether the path of an entry is below that of another.
#[inline(always)]
fn is_below(arena: &Arena, ids: &[PathId], one: usize, other: usize) -> bool
    requires live { AreLive arena.now ids.now }
    requires one_in { one < length ids.now }
    requires other_in { other < length ids.now }
    ensures yes { result ≡ true → IsIdBelow arena.now (slice_index ids.now one) (slice_index ids.now other) }
    ensures no { result ≡ false → IsUpon arena.now ids.now one other }
{
    arena.compare(ids[one], ids[other]) == Ordering::Less
}

/// The child of an entry that the other is not below.
#[inline(always)]
fn lesser_child(arena: &Arena, ids: &[PathId], at: usize) -> Option<usize>
    requires live { AreLive arena.now ids.now }
    ensures { MatchOption result (length ids.now ≤ 2 * at + 1)
        (λ c. IsChild c at × (c < length ids.now) × ((i : ℕ) → IsChild i at → i < length ids.now
        → IsUpon arena.now ids.now i c)) }
{
    if at >= ids.len() / 2 {
        return None;
    }
    let left = 2 * at + 1;
    let right = left + 1;
    if right >= ids.len() {
        return Some(left);
    }
    if is_below(arena, ids, right, left) {
        return Some(right);
    }
    Some(left)
}

/// An entry goes up while it is below its parent.
#[inline(always)]
pub(crate) fn rise(arena: &Arena, ids: &mut [PathId], at: usize)
    requires place { at < length ids.old }
    requires live { AreLive arena.now ids.old }
    requires rising { IsRising arena.now ids.old at }
    ensures moved { IsPermutation ids.old ids.new }
    ensures heap { IsHeap arena.now ids.new }
{
    let mut hole = at;
    'rising: while hole > 0 {
        let up = (hole - 1) / 2;
        if !is_below(arena, ids, hole, up) {
            return;
        }
        ids.swap(up, hole);
        hole = up;
    }
}

/// An entry goes down while a child is below it.
#[inline(always)]
pub(crate) fn sink(arena: &Arena, ids: &mut [PathId], at: usize)
    requires place { at < length ids.old }
    requires live { AreLive arena.now ids.old }
    requires sinking { IsSinking arena.now ids.old at }
    ensures moved { IsPermutation ids.old ids.new }
    ensures heap { IsHeap arena.now ids.new }
{
    let mut hole = at;
    'sinking: while let Some(child) = lesser_child(arena, ids, hole) {
        if !is_below(arena, ids, child, hole) {
            return;
        }
        ids.swap(hole, child);
        hole = child;
    }
}

/// An entry goes to where it belongs, up or down.
#[inline(always)]
pub(crate) fn settle(arena: &Arena, ids: &mut [PathId], at: usize)
    requires place { at < length ids.old }
    requires live { AreLive arena.now ids.old }
    requires loose { IsLoose arena.now ids.old at }
    ensures moved { IsPermutation ids.old ids.new }
    ensures heap { IsHeap arena.now ids.new }
{
    if at == 0 {
        sink(arena, ids, at);
        return;
    }
    if is_below(arena, ids, at, (at - 1) / 2) {
        rise(arena, ids, at);
        return;
    }
    sink(arena, ids, at);
}
