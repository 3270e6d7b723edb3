//! Where one list stands.

ghost use Rattle.std.specs.Prelude.{◌≡◌, ◌≢◌, ℕ, zero, suc, ◌+◌, ◌-◌, ◌*◌, ◌^◌, ◌<◌, ◌≤◌, length, slice_get, slice_index, slice_set, Some, Contains, [], ◌∷◌, ◌++◌, take, drop, OnOk, OnErr, IfOk};
ghost use Rattle.id_pool.specs.Blocks.{IsStanding, room_of};
ghost use Rattle.id_pool.specs.Heads.{Near, Far, shape, far_of, IsOneMore, IsPlacedInPool, IsMoved, held_of, ids_of, len_of, mark_of};
ghost use Rattle.id_pool.specs.Lists.{IsMarkedAt, IsUnmarkedAt, IsTakenAt, no_ids};

use crate::blocks::{Blocks, LEVELS, room};
use apsp_model::Memory;
use path_arena::PathId;

/// A list of ids, of which the first `mark` are marked. 16 bytes.
///
/// Up to three ids stand in `few`. More stand in a block of the pool; then `few` tells the block's
/// place and its level.
#[derive(Clone, Copy)]
pub(crate) struct Head {
    len: u16,
    mark: u16,
    few: [PathId; 3],
}

/// Puts an empty list behind the others. Memory changes nothing.
pub(crate) fn add_empty(heads: &mut Vec<Head>, filler: PathId) -> Result<(), Memory>
    ensures ok { OnOk result (IsOneMore heads.old.items heads.new.items) }
    ensures err { OnErr result (heads.new.items ≡ heads.old.items) }
{
    let head = Head {
        len: 0,
        mark: 0,
        few: [filler; 3],
    };
    match heads.extend_from_slice(&[head]) {
        Ok(()) => Ok(()),
        Err(_) => Err(Memory),
    }
}

impl Head {
    /// The ids of the list.
    #[inline(always)]
    pub(crate) fn ids<'a>(&'a self, blocks: &'a Blocks) -> &'a [PathId]
        requires { IsPlacedInPool blocks.now.ids.items blocks.now.free (shape self.now) }
        ensures { result.now ≡ ids_of blocks.now.ids.items (shape self.now) }
    {
        let len = self.len as usize;
        if len <= 3 {
            &self.few[..len]
        } else {
            let start = self.few[0].key();
            &blocks.ids[start..start + len]
        }
    }

    /// The marked ids, which stand in front.
    #[inline(always)]
    pub(crate) fn marked_ids<'a>(&'a self, blocks: &'a Blocks) -> &'a [PathId]
        requires { IsPlacedInPool blocks.now.ids.items blocks.now.free (shape self.now) }
        ensures { result.now ≡ take (mark_of (shape self.now)) (ids_of blocks.now.ids.items (shape self.now)) }
    {
        let mark = self.mark as usize;
        if self.len <= 3 {
            &self.few[..mark]
        } else {
            let start = self.few[0].key();
            &blocks.ids[start..start + mark]
        }
    }

    /// The place of an id that stands there.
    #[inline(always)]
    pub(crate) fn place_of(&self, blocks: &Blocks, id: PathId) -> usize
        requires placed { IsPlacedInPool blocks.now.ids.items blocks.now.free (shape self.now) }
        requires here { Contains (ids_of blocks.now.ids.items (shape self.now)) id }
        ensures { slice_get (ids_of blocks.now.ids.items (shape self.now)) result ≡ Some id }
    {
        if self.len > 3 {
            return place_in(self.ids(blocks), id);
        }
        place_among(&self.few, id)
    }

    /// Puts an id behind the others. Memory changes nothing.
    #[inline(always)]
    pub(crate) fn put(&mut self, blocks: &mut Blocks, id: PathId) -> Result<(), Memory>
        requires { IsPlacedInPool blocks.old.ids.items blocks.old.free (shape self.old) }
        ensures moved { OnOk result
            (IsMoved blocks.old.ids.items blocks.old.free (shape self.old) blocks.new.ids.items blocks.new.free
            (shape self.new)) }
        ensures ids { OnOk result (ids_of blocks.new.ids.items (shape self.new)
            ≡ ids_of blocks.old.ids.items (shape self.old) ++ id ∷ []) }
        ensures mark { OnOk result (mark_of (shape self.new) ≡ mark_of (shape self.old)) }
        ensures err_head { OnErr result (self.new ≡ self.old) }
        ensures err_ids { OnErr result (blocks.new.ids.items ≡ blocks.old.ids.items) }
        ensures err_free { OnErr result (blocks.new.free ≡ blocks.old.free) }
    {
        let len = self.len as usize;
        if len < 3 {
            self.few[len] = id;
            self.len += 1;
            return Ok(());
        }
        self.put_far(blocks, id)
    }

    /// Puts an id behind three or more. Memory changes nothing.
    #[inline(never)]
    fn put_far(&mut self, blocks: &mut Blocks, id: PathId) -> Result<(), Memory>
        requires placed { IsPlacedInPool blocks.old.ids.items blocks.old.free (shape self.old) }
        requires many { 3 ≤ len_of (shape self.old) }
        ensures moved { OnOk result
            (IsMoved blocks.old.ids.items blocks.old.free (shape self.old) blocks.new.ids.items blocks.new.free
            (shape self.new)) }
        ensures ids { OnOk result (ids_of blocks.new.ids.items (shape self.new)
            ≡ ids_of blocks.old.ids.items (shape self.old) ++ id ∷ []) }
        ensures mark { OnOk result (mark_of (shape self.new) ≡ mark_of (shape self.old)) }
        ensures err_head { OnErr result (self.new ≡ self.old) }
        ensures err_ids { OnErr result (blocks.new.ids.items ≡ blocks.old.ids.items) }
        ensures err_free { OnErr result (blocks.new.free ≡ blocks.old.free) }
    {
        let len = self.len as usize;
        if len == 3 {
            let to = spill(self.few, blocks)?;
            blocks.ids[to + 3] = id;
            self.stand(to, 0, 4);
            return Ok(());
        }
        let place = self.place();
        let level = self.level();
        if len < room(level) {
            blocks.ids[place + len] = id;
            self.len += 1;
            return Ok(());
        }
        let to = grow(blocks, level, len, place)?;
        blocks.ids[to + len] = id;
        self.stand(to, level + 1, len as u16 + 1);
        Ok(())
    }

    /// Tells the block in which the list stands.
    #[inline(always)]
    fn stand(&mut self, place: usize, level: usize, len: u16)
        requires place { place < 2 ^ 32 }
        requires level { level < 13 }
        requires many { 3 < len }
        ensures { shape self.new ≡ Far level len place self.old.mark }
    {
        self.few[0] = PathId::new(place as u32);
        self.few[1] = PathId::new(level as u32);
        self.len = len;
    }

    /// The place of the block, where there is one.
    #[inline(always)]
    fn place(&self) -> usize
        ensures { result ≡ slice_index self.now.few 0 }
    {
        self.few[0].key()
    }

    /// The level of the block, where there is one.
    #[inline(always)]
    fn level(&self) -> usize
        ensures { result ≡ slice_index self.now.few 1 }
    {
        self.few[1].key()
    }

    /// Marks the id at a place, which changes places with the first one that is not marked.
    #[inline(always)]
    pub(crate) fn mark_at(&mut self, blocks: &mut Blocks, at: usize)
        requires placed { IsPlacedInPool blocks.old.ids.items blocks.old.free (shape self.old) }
        requires plain { mark_of (shape self.old) ≤ at }
        requires inside { at < len_of (shape self.old) }
        ensures moved { IsMoved blocks.old.ids.items blocks.old.free
            (shape self.old) blocks.new.ids.items blocks.new.free (shape self.new) }
        ensures marked { IsMarkedAt (held_of blocks.old.ids.items (shape self.old))
            (held_of blocks.new.ids.items (shape self.new)) at }
    {
        if self.len > 3 {
            self.mark_far(blocks, at);
            return;
        }
        let first = self.mark as usize;
        let id = self.few[first];
        self.few[first] = self.few[at];
        self.few[at] = id;
        self.mark += 1;
    }

    /// Marks an id of a block.
    fn mark_far(&mut self, blocks: &mut Blocks, at: usize)
        requires placed { IsPlacedInPool blocks.old.ids.items blocks.old.free (far_of self.old) }
        requires many { 3 < self.old.len }
        requires plain { self.old.mark ≤ at }
        requires inside { at < self.old.len }
        ensures moved { IsMoved blocks.old.ids.items blocks.old.free
            (far_of self.old) blocks.new.ids.items blocks.new.free (far_of self.new) }
        ensures marked { IsMarkedAt (held_of blocks.old.ids.items (far_of self.old))
            (held_of blocks.new.ids.items (far_of self.new)) at }
        ensures len { self.new.len ≡ self.old.len }
    {
        let start = self.place();
        let first = self.mark as usize;
        let id = blocks.ids[start + first];
        blocks.ids[start + first] = blocks.ids[start + at];
        blocks.ids[start + at] = id;
        self.mark += 1;
    }

    /// Takes the mark from the id at a place, which changes places with the last marked one.
    #[inline(always)]
    pub(crate) fn unmark_at(&mut self, blocks: &mut Blocks, at: usize)
        requires placed { IsPlacedInPool blocks.old.ids.items blocks.old.free (shape self.old) }
        requires marked { at < mark_of (shape self.old) }
        ensures moved { IsMoved blocks.old.ids.items blocks.old.free
            (shape self.old) blocks.new.ids.items blocks.new.free (shape self.new) }
        ensures unmarked { IsUnmarkedAt (held_of blocks.old.ids.items (shape self.old))
            (held_of blocks.new.ids.items (shape self.new)) at }
    {
        if self.len > 3 {
            self.unmark_far(blocks, at);
            return;
        }
        let last = self.mark as usize - 1;
        let id = self.few[at];
        self.few[at] = self.few[last];
        self.few[last] = id;
        self.mark -= 1;
    }

    /// Takes the mark from an id of a block.
    fn unmark_far(&mut self, blocks: &mut Blocks, at: usize)
        requires placed { IsPlacedInPool blocks.old.ids.items blocks.old.free (far_of self.old) }
        requires many { 3 < self.old.len }
        requires marked { at < self.old.mark }
        ensures moved { IsMoved blocks.old.ids.items blocks.old.free
            (far_of self.old) blocks.new.ids.items blocks.new.free (far_of self.new) }
        ensures unmarked { IsUnmarkedAt (held_of blocks.old.ids.items (far_of self.old))
            (held_of blocks.new.ids.items (far_of self.new)) at }
        ensures len { self.new.len ≡ self.old.len }
    {
        let start = self.place();
        let last = self.mark as usize - 1;
        let id = blocks.ids[start + at];
        blocks.ids[start + at] = blocks.ids[start + last];
        blocks.ids[start + last] = id;
        self.mark -= 1;
    }

    /// Takes out the id at a place. If it is marked, the last marked one takes its place; the last
    /// one of all takes the place that is free then.
    #[inline(always)]
    pub(crate) fn take_at(&mut self, blocks: &mut Blocks, at: usize)
        requires placed { IsPlacedInPool blocks.old.ids.items blocks.old.free (shape self.old) }
        requires inside { at < len_of (shape self.old) }
        ensures moved { IsMoved blocks.old.ids.items blocks.old.free
            (shape self.old) blocks.new.ids.items blocks.new.free (shape self.new) }
        ensures taken { IsTakenAt (held_of blocks.old.ids.items (shape self.old))
            (held_of blocks.new.ids.items (shape self.new)) at }
    {
        if self.len > 3 {
            self.take_far(blocks, at);
            return;
        }
        let last = self.len as usize - 1;
        if at < self.mark as usize {
            let hole = self.mark as usize - 1;
            let id = self.few[at];
            self.few[at] = self.few[hole];
            self.few[hole] = id;
            self.few[hole] = self.few[last];
            self.mark -= 1;
            self.len -= 1;
            return;
        }
        self.few[at] = self.few[last];
        self.len -= 1;
    }

    /// Takes an id out of a block. Three ids stand in place again.
    #[inline(never)]
    fn take_far(&mut self, blocks: &mut Blocks, at: usize)
        requires placed { IsPlacedInPool blocks.old.ids.items blocks.old.free (far_of self.old) }
        requires many { 3 < self.old.len }
        requires inside { at < self.old.len }
        ensures moved { IsMoved blocks.old.ids.items blocks.old.free
            (far_of self.old) blocks.new.ids.items blocks.new.free (shape self.new) }
        ensures taken { IsTakenAt (held_of blocks.old.ids.items (far_of self.old))
            (held_of blocks.new.ids.items (shape self.new)) at }
    {
        self.close(blocks, at);
        if self.len == 3 {
            self.stand_in_place(blocks);
        }
    }

    /// Takes an id out of a block, in which the others stay.
    #[inline(always)]
    fn close(&mut self, blocks: &mut Blocks, at: usize)
        requires placed { IsPlacedInPool blocks.old.ids.items blocks.old.free (far_of self.old) }
        requires inside { at < self.old.len }
        ensures moved { IsMoved blocks.old.ids.items blocks.old.free
            (far_of self.old) blocks.new.ids.items blocks.new.free (far_of self.new) }
        ensures taken { IsTakenAt (held_of blocks.old.ids.items (far_of self.old))
            (held_of blocks.new.ids.items (far_of self.new)) at }
        ensures len { self.new.len + 1 ≡ self.old.len }
    {
        let start = self.place();
        let last = self.len as usize - 1;
        if at < self.mark as usize {
            let hole = self.mark as usize - 1;
            let id = blocks.ids[start + at];
            blocks.ids[start + at] = blocks.ids[start + hole];
            blocks.ids[start + hole] = id;
            blocks.ids[start + hole] = blocks.ids[start + last];
            self.mark -= 1;
            self.len -= 1;
            return;
        }
        blocks.ids[start + at] = blocks.ids[start + last];
        self.len -= 1;
    }

    /// Three ids stand in place again, and their block is free.
    #[inline(always)]
    fn stand_in_place(&mut self, blocks: &mut Blocks)
        requires placed { IsPlacedInPool blocks.old.ids.items blocks.old.free (far_of self.old) }
        requires three { self.old.len ≡ 3 }
        ensures moved { IsMoved blocks.old.ids.items blocks.old.free
            (far_of self.old) blocks.new.ids.items blocks.new.free (shape self.new) }
        ensures held { held_of blocks.new.ids.items (shape self.new) ≡ held_of blocks.old.ids.items (far_of self.old) }
    {
        let start = self.place();
        let level = self.level();
        self.few[0] = blocks.ids[start];
        self.few[1] = blocks.ids[start + 1];
        self.few[2] = blocks.ids[start + 2];
        blocks.give_back(start, level);
    }

    /// Takes out all ids.
    #[inline(always)]
    pub(crate) fn clear(&mut self, blocks: &mut Blocks)
        requires { IsPlacedInPool blocks.old.ids.items blocks.old.free (shape self.old) }
        ensures moved { IsMoved blocks.old.ids.items blocks.old.free
            (shape self.old) blocks.new.ids.items blocks.new.free (shape self.new) }
        ensures none { held_of blocks.new.ids.items (shape self.new) ≡ no_ids }
    {
        if self.len > 3 {
            self.clear_far(blocks);
            return;
        }
        self.len = 0;
        self.mark = 0;
    }

    /// Gives the block back.
    fn clear_far(&mut self, blocks: &mut Blocks)
        requires placed { IsPlacedInPool blocks.old.ids.items blocks.old.free (far_of self.old) }
        ensures moved { IsMoved blocks.old.ids.items blocks.old.free
            (far_of self.old) blocks.new.ids.items blocks.new.free (shape self.new) }
        ensures none { held_of blocks.new.ids.items (shape self.new) ≡ no_ids }
    {
        blocks.give_back(self.place(), self.level());
        self.len = 0;
        self.mark = 0;
    }
}

/// The place of an id that stands there. An id is mostly looked for soon after it was put in, so the
/// search begins at the back.
#[inline(never)]
fn place_in(ids: &[PathId], id: PathId) -> usize
    requires { Contains ids.now id }
    ensures { slice_get ids.now result ≡ Some id }
{
    let mut place = ids.len() - 1;
    'looking: while ids[place] != id {
        place -= 1;
    }
    place
}

/// The first place of an id among three, of which it is one: the last where it is neither of the
/// others. It is chosen without a branch.
#[inline(always)]
fn place_among(few: &[PathId; 3], id: PathId) -> usize
    ensures { (len : ℕ) → Contains (take len few.now) id → slice_get (take len few.now) result ≡ Some id }
{
    let behind = if few[1] == id { 1 } else { 2 };
    if few[0] == id { 0 } else { behind }
}

/// Puts three ids in front of a block that is taken for them. Memory changes nothing.
fn spill(few: [PathId; 3], blocks: &mut Blocks) -> Result<usize, Memory>
    requires standing { IsStanding blocks.old.ids.items blocks.old.free }
    requires three { length few ≡ 3 }
    ensures moved { IfOk result
        (λ to. (mark : ℕ)
        → IsMoved blocks.old.ids.items blocks.old.free (Near 3 mark few) blocks.new.ids.items blocks.new.free
        (Far 0 3 to mark)) }
    ensures ids { IfOk result (λ to. ids_of blocks.new.ids.items (Far 0 3 to 0) ≡ take 3 few) }
    ensures inside { IfOk result (λ to. to + 8 ≤ length blocks.new.ids.items) }
    ensures small { IfOk result (λ to. to < 2 ^ 32) }
    ensures err_ids { OnErr result (blocks.new.ids.items ≡ blocks.old.ids.items) }
    ensures err_free { OnErr result (blocks.new.free ≡ blocks.old.free) }
{
    let to = blocks.take(0)?;
    blocks.ids[to] = few[0];
    blocks.ids[to + 1] = few[1];
    blocks.ids[to + 2] = few[2];
    Ok(to)
}

/// Moves the ids of a block into one of the next level, and gives theirs back. Memory changes
/// nothing.
fn grow(blocks: &mut Blocks, level: usize, len: usize, place: usize) -> Result<usize, Memory>
    requires { IsPlacedInPool blocks.old.ids.items blocks.old.free (Far level len place 0) }
    ensures level { IfOk result (λ _. level + 1 < 13) }
    ensures moved { IfOk result
        (λ to. (mark : ℕ)
        → IsMoved blocks.old.ids.items blocks.old.free (Far level len place mark) blocks.new.ids.items blocks.new.free
        (Far (level + 1) len to mark)) }
    ensures ids { IfOk result (λ to. ids_of blocks.new.ids.items (Far (level + 1) len to 0)
        ≡ ids_of blocks.old.ids.items (Far level len place 0)) }
    ensures inside { IfOk result (λ to. to + room_of (level + 1) ≤ length blocks.new.ids.items) }
    ensures small { IfOk result (λ to. to < 2 ^ 32) }
    ensures err_ids { OnErr result (blocks.new.ids.items ≡ blocks.old.ids.items) }
    ensures err_free { OnErr result (blocks.new.free ≡ blocks.old.free) }
{
    if level + 1 == LEVELS {
        return Err(Memory);
    }
    let to = blocks.take(level + 1)?;
    blocks.ids.copy_within(place..place + len, to);
    blocks.give_back(place, level);
    Ok(to)
}
