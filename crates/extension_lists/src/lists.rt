//! The lists of all ids, by key.

ghost use Rattle.std.specs.Prelude.{◌≡◌, ◌≢◌, ℕ, ◌<◌, ◌≤◌, ◌+◌, ◌*◌, ◌^◌, [], ◌∷◌, ◌++◌, OnOk, OnErr, Contains, IsNone, length, vec_len};
ghost use Rattle.std.specs.FinMap as map;
ghost use Rattle.apsp_model.specs.Walk.{IsOnceEach};
ghost use Rattle.extension_lists.specs.Known.{IsKnown, IsDropped, IsStarred, IsUnstarred, IsTakenFromLeft, IsTakenFromRight, StandsOnlyAt, added, change, no_sides, sides_at};
ghost use Rattle.extension_lists.specs.Slots.{IsCleared, IsSides, known_by};

use crate::side::{star, take_back, take_out, unstar};
use apsp_model::Memory;
use id_pool::Lists as Pool;
use path_arena::PathId;
use std::alloc::Global;
use std::marker::Model;

/// The extensions of paths by one edge. Of each known id it holds four lists: the ids of the left
/// and the right extensions, and the historical ones of them. Contracts see it as a finite map from
/// the keys of the known ids to their lists.
///
/// A key has two lists of one pool side by side, the left one first. The historical ids of a list
/// stand in front of it, marked. The lists of a key that no known id has are empty.
#[derive(Drop)]
pub struct Lists {
    known: Vec<bool>,
    pool: Pool,
}

impl Model for Lists {
    ghost use Rattle.extension_lists.specs.Known.{Known, known_code};

    ghost Value = { Known };

    ghost coded = { known_code };

    ghost use Rattle.extension_lists.specs.Layout.{view_of, IsSound};

    ghost view = { view_of };

    ghost invariant = { IsSound };
}

impl Lists {
    /// Knows no id.
    pub fn new(alloc: Global) -> Lists
        ensures { result ≡ map.empty }
    {
        Lists {
            known: Vec::new(alloc),
            pool: Pool::new(alloc),
        }
    }

    /// Gives an id four empty lists.
    #[inline(always)]
    pub fn enter(&mut self, id: PathId) -> Result<(), Memory>
        requires { IsNone (map.get self.old id) }
        ensures ok { OnOk result (self.new ≡ map.insert self.old id no_sides) }
        ensures err { OnErr result (self.new ≡ self.old) }
    {
        let key = id.key();
        make_room(&mut self.known, &mut self.pool, key)?;
        self.known[key] = true;
        Ok(())
    }

    /// Puts an id behind the right extensions of l and the left extensions of r. Where a list is full
    /// its ids move into a block of twice the room.
    #[inline(always)]
    pub fn add(&mut self, id: PathId, l: PathId, r: PathId) -> Result<(), Memory>
        requires known { IsKnown self.old id }
        requires known_l { IsKnown self.old l }
        requires known_r { IsKnown self.old r }
        requires new_right { Contains (sides_at self.old l).right id → ⊥ }
        requires new_left { Contains (sides_at self.old r).left id → ⊥ }
        ensures ok { OnOk result (self.new ≡ added self.old id l r) }
        ensures err { OnErr result (self.new ≡ self.old) }
    {
        let right = 2 * l.key() + 1;
        let left = 2 * r.key();
        self.pool.put(right, id)?;
        match self.pool.put(left, id) {
            Ok(()) => Ok(()),
            Err(memory) => {
                take_back(&mut self.pool, right);
                Err(memory)
            }
        }
    }

    /// Puts an id behind the historical right extensions of l and the historical left extensions
    /// of r, where it is an extension of both: in time of the lists' lengths, and without memory.
    #[inline(always)]
    pub fn add_star(&mut self, id: PathId, l: PathId, r: PathId) -> Result<(), Memory>
        requires known_l { IsKnown self.old l }
        requires known_r { IsKnown self.old r }
        requires right { Contains (sides_at self.old l).right id }
        requires left { Contains (sides_at self.old r).left id }
        requires new_right { Contains (sides_at self.old l).right_star id → ⊥ }
        requires new_left { Contains (sides_at self.old r).left_star id → ⊥ }
        ensures ok { OnOk result (IsStarred self.old self.new id l r) }
        ensures err { OnErr result (self.new ≡ self.old) }
    {
        star(&mut self.pool, 2 * l.key() + 1, id);
        star(&mut self.pool, 2 * r.key(), id);
        Ok(())
    }

    /// Takes an id out of the historical right extensions of l and the historical left extensions of
    /// r, in time of their numbers. It stays an extension of both.
    #[inline(always)]
    pub fn drop_star(&mut self, id: PathId, l: PathId, r: PathId)
        requires known_l { IsKnown self.old l }
        requires known_r { IsKnown self.old r }
        ensures { IsUnstarred self.old self.new id l r }
    {
        unstar(&mut self.pool, 2 * l.key() + 1, id);
        unstar(&mut self.pool, 2 * r.key(), id);
    }

    /// Takes an id out of the lists of l and r, in time of their lengths, and forgets it.
    #[inline(always)]
    pub fn drop_id(&mut self, id: PathId, l: PathId, r: PathId)
        requires known { IsKnown self.old id }
        requires known_l { IsKnown self.old l }
        requires known_r { IsKnown self.old r }
        requires empty { sides_at self.old id ≡ no_sides }
        requires nowhere_else { StandsOnlyAt self.old id l r }
        ensures { IsDropped self.old self.new id l r }
    {
        take_out(&mut self.pool, 2 * l.key() + 1, id);
        take_out(&mut self.pool, 2 * r.key(), id);
        self.known[id.key()] = false;
    }

    /// Takes an id out of the left extensions of r, in time of their number.
    #[inline(always)]
    pub fn drop_left(&mut self, id: PathId, r: PathId)
        requires { IsKnown self.old r }
        ensures { IsTakenFromLeft self.old self.new id r }
    {
        let list = 2 * r.key();
        take_out(&mut self.pool, list, id);
    }

    /// Takes an id out of the right extensions of l, in time of their number.
    #[inline(always)]
    pub fn drop_right(&mut self, id: PathId, l: PathId)
        requires { IsKnown self.old l }
        ensures { IsTakenFromRight self.old self.new id l }
    {
        let list = 2 * l.key() + 1;
        take_out(&mut self.pool, list, id);
    }

    /// Empties the lists of a known id, in constant time.
    #[inline(always)]
    pub fn clear(&mut self, id: PathId)
        requires { IsKnown self.old id }
        ensures { self.new ≡ map.insert self.old id no_sides }
    {
        clear_both(&mut self.pool, id.key());
    }

    /// Forgets a known id and its lists, in constant time. The lists in which it stands keep it.
    #[inline(always)]
    pub fn forget(&mut self, id: PathId)
        requires { IsKnown self.old id }
        ensures { self.new ≡ map.remove self.old id }
    {
        let gone = id.key();
        clear_both(&mut self.pool, gone);
        self.known[gone] = false;
    }

    /// The left extensions of a known id.
    pub fn left(&self, id: PathId) -> &[PathId]
        requires { IsKnown self.now id }
        ensures lent { result.now ≡ (sides_at self.now id).left }
        ensures once { IsOnceEach result.now }
    {
        self.pool.ids(2 * id.key())
    }

    /// The right extensions of a known id.
    pub fn right(&self, id: PathId) -> &[PathId]
        requires { IsKnown self.now id }
        ensures lent { result.now ≡ (sides_at self.now id).right }
        ensures once { IsOnceEach result.now }
    {
        self.pool.ids(2 * id.key() + 1)
    }

    /// The historical left extensions of a known id.
    pub fn left_star(&self, id: PathId) -> &[PathId]
        requires { IsKnown self.now id }
        ensures lent { result.now ≡ (sides_at self.now id).left_star }
        ensures once { IsOnceEach result.now }
    {
        self.pool.marked_ids(2 * id.key())
    }

    /// The historical right extensions of a known id.
    pub fn right_star(&self, id: PathId) -> &[PathId]
        requires { IsKnown self.now id }
        ensures lent { result.now ≡ (sides_at self.now id).right_star }
        ensures once { IsOnceEach result.now }
    {
        self.pool.marked_ids(2 * id.key() + 1)
    }
}

/// Empties both lists of a key.
#[inline(always)]
fn clear_both(pool: &mut Pool, key: usize)
    requires inside { 2 * key + 1 < length pool.old }
    requires small { key < 2 ^ 32 }
    ensures { IsCleared pool.old pool.new key }
{
    pool.clear(2 * key);
    pool.clear(2 * key + 1);
}

/// Makes lists for a key, which nobody knows. Mostly there are some already.
#[inline(always)]
fn make_room(known: &mut Vec<bool>, pool: &mut Pool, key: usize) -> Result<(), Memory>
    requires sound { IsSides known.old.items pool.old }
    requires small { key < 2 ^ 32 }
    ensures sound { IsSides known.new.items pool.new }
    ensures same { known_by known.new.items pool.new ≡ known_by known.old.items pool.old }
    ensures ok { OnOk result (key < vec_len known.new) }
{
    if key < known.len() {
        return Ok(());
    }
    lengthen(known, pool, key)
}

/// Makes lists for all keys up to this one, which nobody knows.
#[inline(never)]
fn lengthen(known: &mut Vec<bool>, pool: &mut Pool, key: usize) -> Result<(), Memory>
    requires sound { IsSides known.old.items pool.old }
    requires small { key < 2 ^ 32 }
    ensures sound { IsSides known.new.items pool.new }
    ensures same { known_by known.new.items pool.new ≡ known_by known.old.items pool.old }
    ensures ok { OnOk result (key < vec_len known.new) }
{
    'lists: while pool.count() < 2 * key + 2 {
        pool.add()?;
    }
    'flags: while known.len() <= key {
        known.push(false).map_err(|_| Memory)?;
    }
    Ok(())
}
