//! The ids of a pair that has many.

ghost use Rattle.std.specs.Prelude.{◌≡◌, ℕ, ◌+◌, ◌-◌, ◌<◌, ◌≤◌, length, slice_get, Contains, OnOk, OnErr, IfOk, IsTrue, ◌↔◌};
ghost use Rattle.apsp_model.specs.Walk.{IsOnceEach};
ghost use Rattle.path_arena.specs.Arena.{IsLive};
ghost use Rattle.pair_heaps.specs.Heaps.{IsHeap, IsWith, IsAllBut};
ghost use Rattle.pair_heaps.specs.Sifting.{AreLive};

use crate::entries;
use crate::sift::rise;
use apsp_model::Memory;
use path_arena::{Arena, PathId};
use std::alloc::Global;
use std::marker::Model;

/// A heap of many ids.
#[derive(Drop)]
pub(crate) struct Tall {
    ids: Vec<PathId>,
}

impl Model for Tall {
    ghost use Rattle.pair_heaps.specs.Heaps.{Pair, pair_code};

    ghost Value = { Pair };

    ghost coded = { pair_code };

    ghost use Rattle.pair_heaps.specs.Tall.{tall_of, IsTall};

    ghost view = { tall_of };

    ghost invariant = { IsTall };
}

impl Tall {
    /// Holds these ids, and has room for one more.
    pub(crate) fn new(alloc: Global, few: &[PathId]) -> Result<Box<Tall>, Memory>
        requires once { IsOnceEach few.now }
        requires small { length few.now ≤ 8 }
        ensures held { IfOk result (λ b. b.value.held ≡ few.now) }
        ensures room { IfOk result (λ b. 1 ≤ b.value.spare) }
    {
        let mut ids = Vec::with_capacity(alloc, 16).map_err(|_| Memory)?;
        ids.extend_from_slice(few).map_err(|_| Memory)?;
        Box::new(alloc, Tall { ids }).map_err(|_| Memory)
    }

    /// The entries of the heap.
    pub(crate) fn ids(&self) -> &[PathId]
        ensures held { result.now ≡ self.now.held }
        ensures once { IsOnceEach self.now.held }
    {
        self.ids.as_slice()
    }

    /// The first entry, if there is one.
    #[inline(always)]
    pub(crate) fn first(&self) -> Option<PathId>
        ensures { result ≡ slice_get self.now.held 0 }
    {
        self.ids.first().copied()
    }

    /// Whether there is room for one more id.
    pub(crate) fn has_room(&self) -> bool
        ensures { IsTrue result ↔ (1 ≤ self.now.spare) }
    {
        self.ids.len() < self.ids.capacity()
    }

    /// Makes room for one more id. Memory changes nothing.
    pub(crate) fn reserve(&mut self) -> Result<(), Memory>
        ensures held { self.new.held ≡ self.old.held }
        ensures ok { OnOk result (1 ≤ self.new.spare) }
        ensures err { OnErr result (self.new ≡ self.old) }
    {
        self.ids.reserve(1).map_err(|_| Memory)
    }

    /// Puts in an id, for which there is room.
    #[inline(never)]
    pub(crate) fn put(&mut self, arena: &Arena, id: PathId)
        requires room { 1 ≤ self.old.spare }
        requires live { IsLive arena.now id }
        requires all_live { AreLive arena.now self.old.held }
        requires heap { IsHeap arena.now self.old.held }
        requires fresh { Contains self.old.held id → ⊥ }
        ensures held { IsWith id self.old.held self.new.held }
        ensures spare { self.old.spare ≤ self.new.spare + 1 }
        ensures heap { IsHeap arena.now self.new.held }
    {
        let at = self.ids.len();
        self.ids.push_reserved(id);
        rise(arena, &mut self.ids, at);
    }

    /// Takes out a held id.
    #[inline(never)]
    pub(crate) fn take_out(&mut self, arena: &Arena, id: PathId)
        requires held { Contains self.old.held id }
        requires all_live { AreLive arena.now self.old.held }
        requires heap { IsHeap arena.now self.old.held }
        ensures held { IsAllBut id self.old.held self.new.held }
        ensures spare { self.old.spare ≤ self.new.spare }
        ensures heap { IsHeap arena.now self.new.held }
    {
        entries::take_out(arena, &mut self.ids, id);
        let last = self.ids.len() - 1;
        self.ids.truncate(last);
    }
}
