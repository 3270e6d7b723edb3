//! Which ids of a class win.

ghost use Rattle.std.specs.Prelude.{◌≡◌, ℕ, ◌∷◌, [], ◌+◌, ◌*◌, ◌<◌, ◌≤◌, ◌^◌, length, vec_len, vec_capacity, Contains};
ghost use Rattle.path_arena.specs.Arena.{IsLive};
ghost use Rattle.smallvec.specs.SmallVec.{small_vec_len, HasRoomFor};
ghost use Rattle.weight_classes.specs.Ids.{ids_in, need_of};
ghost use Rattle.weight_classes.specs.Choice.{AreKeys, IsChosen, EndsAreVertices, IsConsidered, key_of};

use crate::ids::{Ids, List};
use path_arena::{Arena, PathId};
use std::cmp::Ordering;

/// An id with the place of its pair, row by row.
#[derive(Clone, Copy)]
pub(crate) struct Key {
    pub(crate) place: usize,
    pub(crate) id: PathId,
}

/// The keys of ids, by the places of their pairs. There is room for them.
fn fill(keys: &mut Vec<Key>, arena: &Arena, n: u32, ids: &[PathId])
    requires vertices { arena.now.vertices ≡ n }
    requires live { (q : ℕ) → Contains ids.now q → IsLive arena.now q }
    requires room { length ids.now ≤ vec_capacity keys.old }
    ensures keys { AreKeys arena.now ids.now keys.new.items }
    ensures capacity { vec_capacity keys.old ≤ vec_capacity keys.new }
{
    keys.clear();
    'filling: for &id in ids {
        // There is room, so it takes none.
        let _ = keys.push(make_key(arena, n, id));
    }
    keys.sort_unstable_by_key(|key| key.place);
}

fn make_key(arena: &Arena, n: u32, id: PathId) -> Key
    requires vertices { arena.now.vertices ≡ n }
    requires live { IsLive arena.now id }
    ensures is { result ≡ key_of arena.now id }
    ensures ends { EndsAreVertices arena.now id }
{
    Key {
        place: arena.first(id) as usize * n as usize + arena.last(id) as usize,
        id,
    }
}

/// Gives the winners among the ids, in their room, and makes their pairs won. There is room for keys.
pub(crate) fn winners(
    keys: &mut Vec<Key>,
    won: &mut Vec<bool>,
    arena: &Arena,
    n: u32,
    ids: Ids,
) -> Ids
    requires vertices { arena.now.vertices ≡ n }
    requires live { (q : ℕ) → Contains (ids_in ids) q → IsLive arena.now q }
    requires room { need_of ids ≤ vec_capacity keys.old }
    requires pairs { vec_len won.old ≡ arena.now.vertices * arena.now.vertices }
    ensures chosen { (last : ℕ)
        × IsChosen arena.now (Contains (ids_in ids)) won.old.items won.new.items (ids_in result) last }
    ensures ends { (q : ℕ) → Contains (ids_in ids) q → EndsAreVertices arena.now q }
    ensures capacity { vec_capacity keys.old ≤ vec_capacity keys.new }
{
    match ids {
        Ids::Empty => Ids::Empty,
        Ids::One(id) => only(won, arena, n, id),
        Ids::Several(list) => {
            fill(keys, arena, n, list.as_slice());
            Ids::Several(choose(list, keys, won, arena))
        }
    }
}

/// The same for one id, which needs no order.
fn only(won: &mut Vec<bool>, arena: &Arena, n: u32, id: PathId) -> Ids
    requires vertices { arena.now.vertices ≡ n }
    requires live { IsLive arena.now id }
    requires pairs { vec_len won.old ≡ arena.now.vertices * arena.now.vertices }
    ensures chosen { (last : ℕ)
        × IsChosen arena.now (Contains (id ∷ [])) won.old.items won.new.items (ids_in result) last }
    ensures ends { EndsAreVertices arena.now id }
{
    let key = make_key(arena, n, id);
    if won[key.place] {
        return Ids::Empty;
    }
    won[key.place] = true;
    Ids::One(id)
}

/// Puts the winners among the keys into the room that the ids had: of each pair that was not won
/// the least, by the places of the pairs. Their pairs are won.
fn choose(mut ids: List, keys: &[Key], won: &mut Vec<bool>, arena: &Arena) -> List
    requires keys { AreKeys arena.now ids.items keys.now }
    requires live { (q : ℕ) → Contains ids.items q → IsLive arena.now q }
    requires pairs { vec_len won.old ≡ arena.now.vertices * arena.now.vertices }
    ensures { (last : ℕ) × IsChosen arena.now (Contains ids.items) won.old.items won.new.items result.items last }
{
    // There are no more winners than ids, so they take no memory.
    prove!(ids.len() <= ids.capacity());
    ids.clear();
    let mut last = won.len();
    'choosing: for &key in keys {
        last = consider(&mut ids, won, last, arena, key);
    }
    ids
}

/// Takes a key into account behind those of lower places, and gives the place of the last winner.
fn consider(winners: &mut List, won: &mut Vec<bool>, last: usize, arena: &Arena, key: Key) -> usize
    requires inside { key.place < vec_len won.old }
    requires live { IsLive arena.now key.id }
    requires all_live { (q : ℕ) → Contains winners.old.items q → IsLive arena.now q }
    requires some { last ≡ key.place → 0 < small_vec_len winners.old }
    requires room { HasRoomFor winners.old 1 }
    ensures considered { IsConsidered arena.now key
        (record { winners = winners.old.items; won = won.old.items; last = last })
        (record { winners = winners.new.items; won = won.new.items; last = result }) }
    ensures capacity { winners.new.capacity ≡ winners.old.capacity }
    ensures len { small_vec_len winners.new ≤ small_vec_len winners.old + 1 }
{
    if !won[key.place] {
        won[key.place] = true;
        winners.push_reserved(key.id);
        return key.place;
    }
    if last == key.place {
        let end = winners.len() - 1;
        if arena.compare(key.id, winners[end]) == Ordering::Less {
            winners[end] = key.id;
        }
    }
    last
}
