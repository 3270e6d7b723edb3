//! The lists by number.

ghost use Rattle.std.specs.Prelude.{◌≡◌, ℕ, ◌+◌, ◌-◌, ◌<◌, ◌≤◌, [], ◌∷◌, ◌++◌, length, take, slice_get, Some, Contains, OnOk, OnErr};
ghost use Rattle.id_pool.specs.Lists.{Held, IsChanged, IsMarkedAt, IsUnmarkedAt, IsTakenAt, no_ids, list_at, ids_at, marked_at};

use crate::blocks::Blocks;
use crate::head::{Head, add_empty};
use apsp_model::Memory;
use path_arena::PathId;
use std::alloc::Global;
use std::marker::Model;

/// Lists of ids, by number. Contracts see them as a list of records: of each list its ids, and how
/// many of them, from the front, are marked.
///
/// Up to three ids stand in 16 bytes of the list's own, more in a block of one pool. A list that
/// shrinks to three gives its block back, and the next list of that size takes it.
#[derive(Drop)]
pub struct Lists {
    heads: Vec<Head>,
    blocks: Blocks,
}

impl Model for Lists {
    ghost use Rattle.std.specs.Prelude.{List};
    ghost use Rattle.std.specs.Coded.{coded_list};
    ghost use Rattle.id_pool.specs.Lists.{Held, held_code};

    ghost Value = { List Held };

    ghost coded = { coded_list held_code };

    ghost use Rattle.id_pool.specs.Layout.{view_of, IsSound};

    ghost view = { view_of };

    ghost invariant = { IsSound };
}

impl Lists {
    /// No lists.
    pub fn new(alloc: Global) -> Lists
        ensures { result ≡ [] }
    {
        Lists {
            heads: Vec::new(alloc),
            blocks: Blocks::new(alloc),
        }
    }

    /// How many lists there are.
    pub fn count(&self) -> usize
        ensures { result ≡ length self.now }
    {
        self.heads.len()
    }

    /// One more list, which is empty. Memory changes nothing.
    pub fn add(&mut self) -> Result<(), Memory>
        ensures ok { OnOk result (self.new ≡ self.old ++ no_ids ∷ []) }
        ensures err { OnErr result (self.new ≡ self.old) }
    {
        add_empty(&mut self.heads, PathId::default())
    }

    /// The ids of a list, the marked ones in front.
    #[inline(always)]
    pub fn ids(&self, list: usize) -> &[PathId]
        requires { list < length self.now }
        ensures lent { result.now ≡ ids_at self.now list }
        ensures marked { marked_at self.now list ≤ length result.now }
    {
        let head = &self.heads[list];
        head.ids(&self.blocks)
    }

    /// The marked ids of a list.
    #[inline(always)]
    pub fn marked_ids(&self, list: usize) -> &[PathId]
        requires { list < length self.now }
        ensures lent { result.now ≡ take (marked_at self.now list) (ids_at self.now list) }
        ensures most { marked_at self.now list ≤ length (ids_at self.now list) }
    {
        let head = &self.heads[list];
        head.marked_ids(&self.blocks)
    }

    /// The place of an id that stands in a list, in time of the ids behind it.
    #[inline(always)]
    pub fn place_of(&self, list: usize, id: PathId) -> usize
        requires inside { list < length self.now }
        requires here { Contains (ids_at self.now list) id }
        ensures place { slice_get (ids_at self.now list) result ≡ Some id }
        ensures most { marked_at self.now list ≤ length (ids_at self.now list) }
    {
        let head = &self.heads[list];
        head.place_of(&self.blocks, id)
    }

    /// Puts an id behind the others, in constant time; where the list is full its ids move into a block
    /// of twice the room. One id more than 32768 is want of memory. Memory changes nothing.
    #[inline(always)]
    pub fn put(&mut self, list: usize, id: PathId) -> Result<(), Memory>
        requires { list < length self.old }
        ensures only { OnOk result (IsChanged self.old self.new list) }
        ensures ids { OnOk result (ids_at self.new list ≡ ids_at self.old list ++ id ∷ []) }
        ensures marked { OnOk result (marked_at self.new list ≡ marked_at self.old list) }
        ensures most { OnOk result (marked_at self.old list ≤ length (ids_at self.old list)) }
        ensures err { OnErr result (self.new ≡ self.old) }
    {
        let head = &mut self.heads[list];
        head.put(&mut self.blocks, id)
    }

    /// Marks the id at a place, which changes places with the first one that is not marked, in
    /// constant time.
    #[inline(always)]
    pub fn mark_at(&mut self, list: usize, at: usize)
        requires inside { list < length self.old }
        requires plain { marked_at self.old list ≤ at }
        requires place { at < length (ids_at self.old list) }
        ensures only { IsChanged self.old self.new list }
        ensures marked { IsMarkedAt (list_at self.old list) (list_at self.new list) at }
    {
        let head = &mut self.heads[list];
        head.mark_at(&mut self.blocks, at);
    }

    /// Takes the mark from the marked id at a place, which changes places with the last marked one, in
    /// constant time.
    #[inline(always)]
    pub fn unmark_at(&mut self, list: usize, at: usize)
        requires inside { list < length self.old }
        requires marked { at < marked_at self.old list }
        ensures only { IsChanged self.old self.new list }
        ensures unmarked { IsUnmarkedAt (list_at self.old list) (list_at self.new list) at }
        ensures most { marked_at self.old list ≤ length (ids_at self.old list) }
    {
        let head = &mut self.heads[list];
        head.unmark_at(&mut self.blocks, at);
    }

    /// Takes out the id at a place, in constant time. If it is marked, the last marked one takes its
    /// place; the last one of all takes the place that is free then. A list that had four ids gives
    /// its block back.
    #[inline(always)]
    pub fn take_at(&mut self, list: usize, at: usize)
        requires inside { list < length self.old }
        requires place { at < length (ids_at self.old list) }
        ensures only { IsChanged self.old self.new list }
        ensures taken { IsTakenAt (list_at self.old list) (list_at self.new list) at }
        ensures most { marked_at self.old list ≤ length (ids_at self.old list) }
    {
        let head = &mut self.heads[list];
        head.take_at(&mut self.blocks, at);
    }

    /// Takes all ids out of a list, in constant time. A list that had more than three gives its block
    /// back.
    #[inline(always)]
    pub fn clear(&mut self, list: usize)
        requires { list < length self.old }
        ensures only { IsChanged self.old self.new list }
        ensures none { list_at self.new list ≡ no_ids }
    {
        self.heads[list].clear(&mut self.blocks);
    }
}
