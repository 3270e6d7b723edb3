//! The entries of a heap, of which one more or one less is wanted.

ghost use Rattle.std.specs.Prelude.{◌≡◌, ℕ, ◌+◌, ◌-◌, ◌<◌, ◌≤◌, [], ◌∷◌, ◌++◌, length, take, slice_index, Contains};
ghost use Rattle.std.specs.List.Sorted.{IsPermutation};
ghost use Rattle.path_arena.specs.Arena.{IsLive};
ghost use Rattle.pair_heaps.specs.Heaps.{IsHeap};
ghost use Rattle.pair_heaps.specs.Sifting.{AreLive};

use crate::sift::{rise, settle};
use path_arena::{Arena, PathId};

/// Puts an id behind the first entries, this many, and lets it rise.
#[inline(always)]
pub(crate) fn put(arena: &Arena, entries: &mut [PathId], len: usize, id: PathId)
    requires room { len < length entries.old }
    requires live { IsLive arena.now id }
    requires all_live { AreLive arena.now (take len entries.old) }
    requires heap { IsHeap arena.now (take len entries.old) }
    ensures moved { IsPermutation (take len entries.old ++ id ∷ []) (take (len + 1) entries.new) }
    ensures heap { IsHeap arena.now (take (len + 1) entries.new) }
{
    entries[len] = id;
    rise(arena, &mut entries[..len + 1], len);
}

/// Takes an id out of the entries: the last of them takes its place, and goes to where it belongs.
#[inline(always)]
pub(crate) fn take_out(arena: &Arena, entries: &mut [PathId], id: PathId)
    requires held { Contains entries.old id }
    requires all_live { AreLive arena.now entries.old }
    requires heap { IsHeap arena.now entries.old }
    ensures moved { IsPermutation entries.old (id ∷ take (length entries.old - 1) entries.new) }
    ensures heap { IsHeap arena.now (take (length entries.old - 1) entries.new) }
{
    let place = place_in(entries, id);
    let last = entries.len() - 1;
    entries[place] = entries[last];
    if place < last {
        settle(arena, &mut entries[..last], place);
    }
}

/// The same of the first entries, this many.
#[inline(always)]
pub(crate) fn take_out_of(arena: &Arena, entries: &mut [PathId], len: usize, id: PathId)
    requires inside { len ≤ length entries.old }
    requires held { Contains (take len entries.old) id }
    requires all_live { AreLive arena.now (take len entries.old) }
    requires heap { IsHeap arena.now (take len entries.old) }
    ensures moved { IsPermutation (take len entries.old) (id ∷ take (len - 1) entries.new) }
    ensures heap { IsHeap arena.now (take (len - 1) entries.new) }
{
    take_out(arena, &mut entries[..len], id);
}

/// The place of an id, by a look at each entry before it.
#[inline(always)]
fn place_in(ids: &[PathId], id: PathId) -> usize
    requires { Contains ids.now id }
    ensures inside { result < length ids.now }
    ensures at { slice_index ids.now result ≡ id }
{
    let mut place = 0;
    'others: while ids[place] != id {
        place += 1;
    }
    place
}
