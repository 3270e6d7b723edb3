//! Whose turn comes next: a binary heap of the buckets that hold ids.

ghost use Rattle.std.specs.Prelude.{◌≡◌, ℕ, ◌<◌, ◌≤◌, ◌*◌, ◌+◌, ◌∷◌, [], Contains, IfNone, IfSome, MatchOption, OnErr, OnOk, length, slice_set};
ghost use Rattle.std.specs.List.Sorted.{IsPermutation};
ghost use Rattle.weight_classes.specs.Turns.{AreInOrder, IsBeside, IsFirst, IsChildOf, MayRise, MaySink, key_at};

use apsp_model::Memory;

/// The turn of a bucket. The least key comes first.
#[derive(Clone, Copy)]
pub(crate) struct Turn {
    pub(crate) key: u64,
    pub(crate) bucket: u32,
}

/// Puts in a turn. Memory changes nothing.
#[inline(always)]
pub(crate) fn insert(turns: &mut Vec<Turn>, turn: Turn) -> Result<(), Memory>
    requires { AreInOrder turns.old.items }
    ensures ok { OnOk result (IsPermutation (turn ∷ turns.old.items) turns.new.items) }
    ensures err { OnErr result (turns.new.items ≡ turns.old.items) }
    ensures order { AreInOrder turns.new.items }
{
    let last = turns.len();
    turns.push(turn).map_err(|_| Memory)?;
    rise(turns.as_mut_slice(), last);
    Ok(())
}

/// Takes out a turn of the least key.
#[inline(always)]
pub(crate) fn take_first(turns: &mut Vec<Turn>) -> Option<Turn>
    requires { AreInOrder turns.old.items }
    ensures some { IfSome result (λ t. IsPermutation turns.old.items (t ∷ turns.new.items)) }
    ensures first { IfSome result (λ t. IsFirst t turns.old.items) }
    ensures none { IfNone result (turns.old.items ≡ []) }
    ensures left { IfNone result (turns.new.items ≡ []) }
    ensures order { AreInOrder turns.new.items }
{
    let last = turns.pop()?;
    if turns.is_empty() {
        return Some(last);
    }
    let first = turns[0];
    sink(turns.as_mut_slice(), last);
    Some(first)
}

/// The turn at a place goes up while its key is below that of the turn above it. The turns on its way
/// go down by one place, and it is put where they end.
#[inline(always)]
fn rise(turns: &mut [Turn], at: usize)
    requires inside { at < length turns.old }
    requires rising { MayRise (key_at turns.old) (length turns.old) at }
    ensures moved { IsPermutation turns.old turns.new }
    ensures order { AreInOrder turns.new }
{
    let turn = turns[at];
    let mut hole = at;
    'rising: while let Some(up) = later_above(turns, hole, turn.key) {
        turns[hole] = turns[up];
        hole = up;
    }
    turns[hole] = turn;
}

/// The place above, if the turn there has a higher key.
#[inline(always)]
fn later_above(turns: &[Turn], at: usize, key: u64) -> Option<usize>
    requires { at < length turns.now }
    ensures { MatchOption result ((p : ℕ) → IsChildOf at p → key_at turns.now p ≤ key)
        (λ p. IsChildOf at p × (key < key_at turns.now p)) }
{
    if at == 0 {
        return None;
    }
    let up = (at - 1) / 2;
    if turns[up].key <= key {
        return None;
    }
    Some(up)
}

/// A turn takes the place of the first one, and goes down while its key is above that of a turn below
/// it. The turns on its way go up by one place.
#[inline(always)]
fn sink(turns: &mut [Turn], turn: Turn)
    requires some { 0 < length turns.old }
    requires order { AreInOrder turns.old }
    ensures moved { IsPermutation (slice_set turns.old 0 turn) turns.new }
    ensures order { AreInOrder turns.new }
{
    let mut hole = 0;
    let mut right = 2;
    'sinking: while let Some(child) = earlier_beside(turns, right, turn.key) {
        turns[hole] = turns[child];
        hole = child;
        right = 2 * child + 2;
    }
    turns[hole] = turn;
}

/// Of a place and the one before it that with the lesser key, if that is lower than this key.
#[inline(always)]
fn earlier_beside(turns: &[Turn], right: usize, key: u64) -> Option<usize>
    requires { 0 < right }
    ensures { MatchOption result ((i : ℕ) → IsBeside i right → i < length turns.now → key ≤ key_at turns.now i)
        (λ c. IsBeside c right × (c < length turns.now) × (key_at turns.now c < key)
        × ((i : ℕ) → IsBeside i right → i < length turns.now → key_at turns.now c ≤ key_at turns.now i)) }
{
    if right < turns.len() {
        let child = right - usize::from(turns[right - 1].key <= turns[right].key);
        if turns[child].key < key {
            return Some(child);
        }
        return None;
    }
    if right == turns.len() && turns[right - 1].key < key {
        return Some(right - 1);
    }
    None
}
