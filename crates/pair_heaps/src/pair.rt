//! The ids of one pair.

ghost use Rattle.std.specs.List.Sorted.{IsPermutation};
ghost use Rattle.std.specs.Prelude.{◌≡◌, ℕ, ◌+◌, ◌-◌, ◌<◌, ◌≤◌, ◌⊎◌, ◌==◌, [], ◌∷◌, ◌++◌, length, slice_get, slice_index, take, Contains, OnOk, OnErr, IfOk, IsTrue, ◌↔◌};
ghost use Rattle.apsp_model.specs.Walk.{IsOnceEach};
ghost use Rattle.path_arena.specs.Arena.{IsLive};
ghost use Rattle.pair_heaps.specs.Heaps.{IsHeap, IsWith, IsAllBut, no_pair};
ghost use Rattle.pair_heaps.specs.Layout.{IsPairHeap, front_id, front_of, id_count, pair_of, with_len};
ghost use Rattle.pair_heaps.specs.Sifting.{AreLive};

use crate::entries;
use crate::tall::Tall;
use apsp_model::Memory;
use path_arena::{Arena, PathId};
use std::alloc::Global;
use std::marker::Model;

/// The ids of one pair as a binary heap, in 16 bytes of its own. A pair keeps the room that it got.
#[derive(Drop)]
pub(crate) struct PairHeap {
    ids: Ids,
}

/// The first of each is the number of ids, which stand in front, and of a tall heap 0 where it is
/// empty. The least id stands behind it at the same place of all three, so that it is read without a
/// look at which it is: the first of few, and beside the others once more.
#[derive(Drop)]
pub(crate) enum Ids {
    InPlace(u8, [PathId; 3]),
    InBlock(u8, PathId, Box<[PathId; 8]>),
    Grown(u8, PathId, Box<Tall>),
}

impl Model for PairHeap {
    ghost use Rattle.pair_heaps.specs.Heaps.{Pair, pair_code};

    ghost Value = { Pair };

    ghost coded = { pair_code };

    ghost use Rattle.pair_heaps.specs.Layout.{pair_of, IsPairHeap};

    ghost view = { λ p. pair_of p.ids };

    ghost invariant = { λ p. IsPairHeap p.ids };
}

impl PairHeap {
    /// Holds no ids, and has room for three.
    pub(crate) fn new() -> PairHeap
        ensures { result.held ≡ no_pair.held }
    {
        let few = [PathId::default(); 3];
        PairHeap {
            ids: Ids::InPlace(0, few),
        }
    }

    /// The entries of the heap.
    #[inline(always)]
    pub(crate) fn held(&self) -> &[PathId]
        ensures held { result.now ≡ self.now.held }
        ensures once { IsOnceEach self.now.held }
    {
        match &self.ids {
            Ids::InPlace(len, few) => &few[..*len as usize],
            Ids::InBlock(len, _, block) => &block[..*len as usize],
            Ids::Grown(_, _, tall) => tall.ids(),
        }
    }

    /// The first entry, if there is one.
    #[inline(always)]
    pub(crate) fn first(&self) -> Option<PathId>
        ensures { result ≡ slice_get self.now.held 0 }
    {
        let (len, front) = self.ids.front();
        if len == 0 { None } else { Some(front) }
    }

    /// Whether the first entry is this one, which is held.
    #[inline(always)]
    pub(crate) fn is_first(&self, id: PathId) -> bool
        requires { Contains self.now.held id }
        ensures { result ≡ (slice_index self.now.held 0 == id) }
    {
        let (_, front) = self.ids.front();
        front == id
    }

    /// Makes room for one more id. Memory changes nothing.
    #[inline(always)]
    pub(crate) fn reserve(&mut self, alloc: Global) -> Result<(), Memory>
        ensures held { self.new.held ≡ self.old.held }
        ensures ok { OnOk result (1 ≤ self.new.spare) }
        ensures spare { self.old.spare ≤ self.new.spare }
        ensures err { OnErr result (self.new ≡ self.old) }
        ensures full { OnErr result (self.old.spare ≡ 0) }
    {
        if self.has_room() {
            return Ok(());
        }
        self.grow(alloc)
    }

    /// Whether there is room for one more id.
    #[inline(always)]
    fn has_room(&self) -> bool
        ensures { IsTrue result ↔ (1 ≤ self.now.spare) }
    {
        match &self.ids {
            Ids::InPlace(len, _) => *len < 3,
            Ids::InBlock(len, _, _) => *len < 8,
            Ids::Grown(_, _, tall) => tall.has_room(),
        }
    }

    #[inline(never)]
    fn grow(&mut self, alloc: Global) -> Result<(), Memory>
        requires { self.old.spare ≡ 0 }
        ensures held { self.new.held ≡ self.old.held }
        ensures ok { OnOk result (1 ≤ self.new.spare) }
        ensures err { OnErr result (self.new ≡ self.old) }
    {
        match &mut self.ids {
            Ids::InPlace(_, few) => {
                let front = few[0];
                self.ids = Ids::InBlock(3, front, in_block(alloc, few)?);
            }
            Ids::InBlock(_, front, block) => {
                let front = *front;
                self.ids = Ids::Grown(1, front, Tall::new(alloc, &**block)?);
            }
            Ids::Grown(_, _, tall) => {
                tall.reserve()?;
            }
        }
        Ok(())
    }

    /// Puts in an id, for which there is room.
    #[inline(always)]
    pub(crate) fn put(&mut self, arena: &Arena, id: PathId)
        requires room { 1 ≤ self.old.spare }
        requires live { IsLive arena.now id }
        requires all_live { AreLive arena.now self.old.held }
        requires heap { IsHeap arena.now self.old.held }
        requires fresh { Contains self.old.held id → ⊥ }
        ensures held { IsWith id self.old.held self.new.held }
        ensures spare { self.old.spare ≤ self.new.spare + 1 }
        ensures heap { IsHeap arena.now self.new.held }
    {
        let len = self.ids.len();
        match &mut self.ids {
            Ids::InPlace(_, few) => entries::put(arena, few, len as usize, id),
            Ids::InBlock(_, front, block) => {
                *front = put_in_block(arena, block, len as usize, id);
            }
            Ids::Grown(some, front, tall) => {
                tall.put(arena, id);
                note(some, front, tall.first());
                return;
            }
        }
        self.ids.set_len(len + 1);
    }

    /// Takes out a held id.
    #[inline(always)]
    pub(crate) fn take_out(&mut self, arena: &Arena, id: PathId)
        requires held { Contains self.old.held id }
        requires all_live { AreLive arena.now self.old.held }
        requires heap { IsHeap arena.now self.old.held }
        ensures held { IsAllBut id self.old.held self.new.held }
        ensures spare { self.old.spare ≤ self.new.spare }
        ensures heap { IsHeap arena.now self.new.held }
    {
        let len = self.ids.len();
        match &mut self.ids {
            Ids::InPlace(_, few) => entries::take_out_of(arena, few, len as usize, id),
            Ids::InBlock(_, front, block) => {
                *front = take_out_of_block(arena, block, len as usize, id);
            }
            Ids::Grown(some, front, tall) => {
                tall.take_out(arena, id);
                note(some, front, tall.first());
                return;
            }
        }
        self.ids.set_len(len - 1);
    }
}

#[inline(always)]
fn put_in_block(arena: &Arena, block: &mut Box<[PathId; 8]>, len: usize, id: PathId) -> PathId
    requires room { len < 8 }
    requires live { IsLive arena.now id }
    requires all_live { AreLive arena.now (take len block.old.value) }
    requires heap { IsHeap arena.now (take len block.old.value) }
    ensures moved { IsPermutation (take len block.old.value ++ id ∷ []) (take (len + 1) block.new.value) }
    ensures heap { IsHeap arena.now (take (len + 1) block.new.value) }
    ensures first { result ≡ slice_index block.new.value 0 }
    ensures size { length block.new.value ≡ 8 }
{
    put_among_eight(arena, block, len, id)
}

#[inline(always)]
fn put_among_eight(arena: &Arena, places: &mut [PathId; 8], len: usize, id: PathId) -> PathId
    requires room { len < 8 }
    requires live { IsLive arena.now id }
    requires all_live { AreLive arena.now (take len places.old) }
    requires heap { IsHeap arena.now (take len places.old) }
    ensures moved { IsPermutation (take len places.old ++ id ∷ []) (take (len + 1) places.new) }
    ensures heap { IsHeap arena.now (take (len + 1) places.new) }
    ensures first { result ≡ slice_index places.new 0 }
    ensures size { length places.new ≡ 8 }
{
    entries::put(arena, places, len, id);
    places[0]
}

#[inline(always)]
fn take_out_of_block(arena: &Arena, block: &mut Box<[PathId; 8]>, len: usize, id: PathId) -> PathId
    requires inside { len ≤ 8 }
    requires held { Contains (take len block.old.value) id }
    requires all_live { AreLive arena.now (take len block.old.value) }
    requires heap { IsHeap arena.now (take len block.old.value) }
    ensures moved { IsPermutation (take len block.old.value) (id ∷ take (len - 1) block.new.value) }
    ensures heap { IsHeap arena.now (take (len - 1) block.new.value) }
    ensures first { result ≡ slice_index block.new.value 0 }
    ensures size { length block.new.value ≡ 8 }
{
    take_out_of_eight(arena, block, len, id)
}

#[inline(always)]
fn take_out_of_eight(arena: &Arena, places: &mut [PathId; 8], len: usize, id: PathId) -> PathId
    requires inside { len ≤ 8 }
    requires held { Contains (take len places.old) id }
    requires all_live { AreLive arena.now (take len places.old) }
    requires heap { IsHeap arena.now (take len places.old) }
    ensures moved { IsPermutation (take len places.old) (id ∷ take (len - 1) places.new) }
    ensures heap { IsHeap arena.now (take (len - 1) places.new) }
    ensures first { result ≡ slice_index places.new 0 }
    ensures size { length places.new ≡ 8 }
{
    entries::take_out_of(arena, places, len, id);
    places[0]
}

/// Notes the first entry of a tall heap.
#[inline(always)]
fn note(some: &mut u8, front: &mut PathId, first: Option<PathId>)
    ensures { first ≡ front_of some.new front.new }
{
    match first {
        Some(id) => {
            *some = 1;
            *front = id;
        }
        None => *some = 0,
    }
}

impl Ids {
    /// The number of ids in place or in a block, and of a tall heap 0 where it is empty.
    #[inline(always)]
    fn len(&self) -> u8
        ensures { result ≡ id_count self.now }
    {
        let (len, _) = self.front();
        len
    }

    /// The same, and the first entry, which means nothing where there is none.
    #[tactic(auto, using(crate::proofs::Pairs::front_read))]
    #[inline(always)]
    fn front(&self) -> (u8, PathId)
        ensures len { result.0 ≡ id_count self.now }
        ensures first { result.1 ≡ front_id self.now }
        ensures noted { IsPairHeap self.now → slice_get (pair_of self.now).held 0 ≡ front_of result.0 result.1 }
    {
        match self {
            Ids::InPlace(len, few) => (*len, few[0]),
            Ids::InBlock(len, front, _) => (*len, *front),
            Ids::Grown(some, front, _) => (*some, *front),
        }
    }

    #[inline(always)]
    fn set_len(&mut self, to: u8)
        ensures { self.new ≡ with_len self.old to }
    {
        match self {
            Ids::InPlace(len, _) => *len = to,
            Ids::InBlock(len, _, _) => *len = to,
            Ids::Grown(some, _, _) => *some = to,
        }
    }
}

fn in_block(alloc: Global, few: &[PathId; 3]) -> Result<Box<[PathId; 8]>, Memory>
    ensures held { IfOk result (λ b. take 3 b.value ≡ few.now) }
    ensures first { IfOk result (λ b. slice_index b.value 0 ≡ slice_index few.now 0) }
    ensures size { IfOk result (λ b. length b.value ≡ 8) }
{
    let mut block = [PathId::default(); 8];
    block[0] = few[0];
    block[1] = few[1];
    block[2] = few[2];
    Box::new(alloc, block).map_err(|_| Memory)
}
