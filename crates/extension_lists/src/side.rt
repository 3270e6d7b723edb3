//! One list of extensions, whose historical ones stand in front, marked.

ghost use Rattle.std.specs.Prelude.{◌≡◌, ◌≢◌, ℕ, ◌+◌, ◌-◌, ◌<◌, ◌≤◌, [], ◌∷◌, ◌++◌, length, take, Some, slice_get, IsNone, IfSome, OnOk, OnErr, MatchOption, Contains};
ghost use Rattle.std.specs.List.Sorted.{IsPermutation};
ghost use Rattle.apsp_model.specs.Walk.{IsOnceEach};
ghost use Rattle.id_pool.specs.Lists.{IsChanged, ids_at, marked_at};
ghost use Rattle.extension_lists.specs.Known.{IsWithout};
ghost use Rattle.extension_lists.specs.Slots.{stars_at};

use id_pool::Lists as Pool;
use path_arena::PathId;

/// The place of an id, if it stands there. Victims go in the reverse order in which they stand, so
/// the search begins at the back.
#[inline(always)]
fn place_of(ids: &[PathId], id: PathId) -> Option<usize>
    ensures { MatchOption result (Contains ids.now id → ⊥) (λ place. slice_get ids.now place ≡ Some id) }
{
    let mut behind = ids.len();
    'looking: while behind > 0 {
        behind -= 1;
        if ids[behind] == id {
            return Some(behind);
        }
    }
    None
}

/// Takes out the last id, which is not marked.
pub(crate) fn take_back(pool: &mut Pool, list: usize)
    requires inside { list < length pool.old }
    requires plain { marked_at pool.old list < length (ids_at pool.old list) }
    ensures only { IsChanged pool.old pool.new list }
    ensures ids { ids_at pool.new list ≡ take (length (ids_at pool.old list) - 1) (ids_at pool.old list) }
    ensures marked { marked_at pool.new list ≡ marked_at pool.old list }
{
    let last = pool.ids(list).len() - 1;
    pool.take_at(list, last);
}

/// Marks an id that stands in the list and is not marked. The marked ones keep their order.
#[inline(always)]
pub(crate) fn star(pool: &mut Pool, list: usize, id: PathId)
    requires inside { list < length pool.old }
    requires here { Contains (ids_at pool.old list) id }
    requires new { Contains (stars_at pool.old list) id → ⊥ }
    ensures only { IsChanged pool.old pool.new list }
    ensures moved { IsPermutation (ids_at pool.old list) (ids_at pool.new list) }
    ensures starred { stars_at pool.new list ≡ stars_at pool.old list ++ id ∷ [] }
{
    let place = pool.place_of(list, id);
    pool.mark_at(list, place);
}

/// Takes the mark from an id, if it is marked.
#[inline(always)]
pub(crate) fn unstar(pool: &mut Pool, list: usize, id: PathId)
    requires inside { list < length pool.old }
    requires once { IsOnceEach (ids_at pool.old list) }
    ensures only { IsChanged pool.old pool.new list }
    ensures moved { IsPermutation (ids_at pool.old list) (ids_at pool.new list) }
    ensures stars { IsWithout id (stars_at pool.old list) (stars_at pool.new list) }
{
    if let Some(place) = place_of(pool.marked_ids(list), id) {
        pool.unmark_at(list, place);
    }
}

/// Takes an id out, if it stands there.
#[inline(always)]
pub(crate) fn take_out(pool: &mut Pool, list: usize, id: PathId)
    requires inside { list < length pool.old }
    requires once { IsOnceEach (ids_at pool.old list) }
    ensures only { IsChanged pool.old pool.new list }
    ensures without { IsWithout id (ids_at pool.old list) (ids_at pool.new list) }
    ensures stars { IsWithout id (stars_at pool.old list) (stars_at pool.new list) }
{
    if let Some(place) = place_of(pool.ids(list), id) {
        pool.take_at(list, place);
    }
}
