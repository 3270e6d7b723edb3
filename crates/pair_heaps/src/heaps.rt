//! The heaps of all pairs.

ghost use Rattle.std.specs.Prelude.{◌≡◌, ℕ, ◌<◌, ◌≤◌, ◌↔◌, [], length, OnOk, OnErr, IfOk, IfSome, IsNone};
ghost use Rattle.apsp_model.specs.Walk.{IsOnceEach};
ghost use Rattle.path_arena.specs.Arena.{Arena as Paths, IsLive};
ghost use Rattle.pair_heaps.specs.Heaps.{HeapsFit, HasEnds, IsHeap, IsHeld, IsInserted, IsLeastHeld, IsRemoved, IsReserved, TellsLeast, held_at, place_of, spare_at};
ghost use Rattle.pair_heaps.specs.Rooms.{IsRoomOf};

use crate::pair::PairHeap;
use apsp_model::Memory;
use path_arena::{Arena, PathId};
use std::alloc::Global;
use std::marker::Model;

/// The held ids of each pair of vertices, each once. Contracts see them as a list per pair, in an
/// order of this type's own, and a number of further ids for which the pair has room.
///
/// The ids of a pair are a binary heap by the order of their paths, so the least is found at once. An
/// id is put in and taken out with as many comparisons of paths as the logarithm of their number, and
/// is found by a look at each. A pair has room for three ids in 16 bytes of its own, then for eight.
#[derive(Drop)]
pub struct Heaps {
    n: u32,
    // The pair from x to y has the place x * n + y.
    pairs: Vec<PairHeap>,
}

/// Room for one more id of the pair from x to y.
#[derive(Clone, Copy, Debug, PartialEq, Eq)]
pub struct Room {
    pub x: u32,
    pub y: u32,
    // The place of the pair.
    place: usize,
}

impl Model for Heaps {
    ghost use Rattle.pair_heaps.specs.Heaps.{Heaps as Pairs, heaps_code};

    ghost Value = { Pairs };

    ghost coded = { heaps_code };

    ghost use Rattle.pair_heaps.specs.Rows.{view_of, IsSound};

    ghost view = { view_of };

    ghost invariant = { IsSound };
}

impl Heaps {
    /// Holds no ids.
    pub fn new(alloc: Global, n: u32) -> Result<Heaps, Memory>
        ensures vertices { IfOk result (λ h. h.vertices ≡ n) }
        ensures empty { IfOk result (λ h. (x y : ℕ) → held_at h x y ≡ []) }
        ensures fits { IfOk result (λ h. (a : Paths) → a.vertices ≡ n → HeapsFit h a) }
    {
        let places = n as usize * n as usize;
        let mut pairs = Vec::with_capacity(alloc, places).map_err(|_| Memory)?;
        'rows: while pairs.len() < places {
            pairs.push(PairHeap::new()).map_err(|_| Memory)?;
        }
        Ok(Heaps { n, pairs })
    }

    /// Makes room for one more id of the pair. Memory changes nothing.
    pub fn reserve(&mut self, x: u32, y: u32) -> Result<(), Memory>
        requires from { x < self.old.vertices }
        requires to { y < self.old.vertices }
        ensures ok { OnOk result (IsReserved self.old self.new x y) }
        ensures err { OnErr result (self.new ≡ self.old) }
        ensures fits { (a : Paths) → HeapsFit self.old a ↔ HeapsFit self.new a }
    {
        let _ = self.reserve_room(x, y)?;
        Ok(())
    }

    /// The same, and gives the room.
    #[inline(always)]
    pub fn reserve_room(&mut self, x: u32, y: u32) -> Result<Room, Memory>
        requires from { x < self.old.vertices }
        requires to { y < self.old.vertices }
        ensures ok { OnOk result (IsReserved self.old self.new x y) }
        ensures from { IfOk result (λ room. room.x ≡ x) }
        ensures to { IfOk result (λ room. room.y ≡ y) }
        ensures room { IfOk result (IsRoomOf self.new) }
        ensures kept { OnOk result (spare_at self.old x y ≤ spare_at self.new x y) }
        ensures err { OnErr result (self.new ≡ self.old) }
        ensures full { OnErr result (spare_at self.old x y ≡ 0) }
        ensures fits { (a : Paths) → HeapsFit self.old a ↔ HeapsFit self.new a }
    {
        let place = self.place(x, y);
        let alloc = *self.pairs.allocator();
        let pair = &mut self.pairs[place];
        pair.reserve(alloc)?;
        Ok(Room { x, y, place })
    }

    /// Adds an id to its pair. Memory comes only where the pair has no room left, and changes nothing.
    pub fn insert(&mut self, arena: &Arena, id: PathId) -> Result<(), Memory>
        requires fits { HeapsFit self.old arena.now }
        requires live { IsLive arena.now id }
        requires fresh { IsHeld self.old id → ⊥ }
        ensures ok { OnOk result ((x y : ℕ) → HasEnds arena.now id x y → IsInserted self.old self.new id x y) }
        ensures err { OnErr result (self.new ≡ self.old) }
        ensures full { OnErr result ((x y : ℕ) → HasEnds arena.now id x y → spare_at self.old x y ≡ 0) }
        ensures fits { HeapsFit self.new arena.now }
    {
        let (x, y) = (arena.first(id), arena.last(id));
        let room = self.reserve_room(x, y)?;
        let _ = self.insert_into(arena, id, room);
        Ok(())
    }

    /// Adds an id to the pair that has the room, and says whether it is the least of the pair now.
    ///
    /// Compares as many paths as the logarithm of the number of ids of the pair.
    #[inline(always)]
    pub fn insert_into(&mut self, arena: &Arena, id: PathId, room: Room) -> bool
        requires room { IsRoomOf self.old room }
        requires spare { 1 ≤ spare_at self.old room.x room.y }
        requires fits { HeapsFit self.old arena.now }
        requires live { IsLive arena.now id }
        requires ends { HasEnds arena.now id room.x room.y }
        requires fresh { IsHeld self.old id → ⊥ }
        ensures ok { IsInserted self.old self.new id room.x room.y }
        ensures least { TellsLeast arena.now result self.new self.old id room.x room.y }
        ensures fits { HeapsFit self.new arena.now }
    {
        let pair = &mut self.pairs[room.place];
        pair.put(arena, id);
        pair.is_first(id)
    }

    /// Takes a held id out of its pair.
    pub fn remove(&mut self, arena: &Arena, id: PathId)
        requires fits { HeapsFit self.old arena.now }
        requires held { IsHeld self.old id }
        ensures removed { (x y : ℕ) → HasEnds arena.now id x y → IsRemoved self.old self.new id x y }
        ensures fits { HeapsFit self.new arena.now }
    {
        let (x, y) = (arena.first(id), arena.last(id));
        let _ = self.remove_between(arena, id, x, y);
    }

    /// Takes a held id out of its pair, from x to y, and says whether it was the least of the pair.
    ///
    /// Looks at each id of the pair, and compares as many paths as the logarithm of their number.
    #[inline(always)]
    pub fn remove_between(&mut self, arena: &Arena, id: PathId, x: u32, y: u32) -> bool
        requires from { x < self.old.vertices }
        requires to { y < self.old.vertices }
        requires fits { HeapsFit self.old arena.now }
        requires ends { HasEnds arena.now id x y }
        requires held { IsHeld self.old id }
        ensures removed { IsRemoved self.old self.new id x y }
        ensures least { TellsLeast arena.now result self.old self.new id x y }
        ensures fits { HeapsFit self.new arena.now }
    {
        let place = self.place(x, y);
        let pair = &mut self.pairs[place];
        let was = pair.is_first(id);
        pair.take_out(arena, id);
        was
    }

    /// The held id of the pair that none of them is below.
    pub fn least(&self, x: u32, y: u32) -> Option<PathId>
        requires from { x < self.now.vertices }
        requires to { y < self.now.vertices }
        ensures least { IfSome result (IsLeastHeld self.now x y) }
        ensures none { IsNone result ↔ (held_at self.now x y ≡ []) }
    {
        let pair = &self.pairs[self.place(x, y)];
        pair.first()
    }

    /// The heap of the pair, its held ids each once: no entry at a place i above 0 is below the one at
    /// the place (i - 1) / 2.
    #[inline(always)]
    pub fn held(&self, x: u32, y: u32) -> &[PathId]
        requires from { x < self.now.vertices }
        requires to { y < self.now.vertices }
        ensures held { result.now ≡ held_at self.now x y }
        ensures once { IsOnceEach result.now }
        ensures heap { (a : Paths) → HeapsFit self.now a → IsHeap a result.now }
    {
        let pair = &self.pairs[self.place(x, y)];
        pair.held()
    }

    fn place(&self, x: u32, y: u32) -> usize
        requires from { x < self.now.vertices }
        requires to { y < self.now.vertices }
        ensures is { result ≡ place_of self.now.vertices x y }
        ensures inside { result < length self.now.pairs }
    {
        x as usize * self.n as usize + y as usize
    }
}
