//! The book of kept paths.

ghost use Rattle.std.specs.Prelude.{◌≡◌, ◌≢◌, ℕ, ◌<◌, ◌≤◌, ◌^◌, ◌↔◌, ◌∷◌, [], All, Some, IfNone, IfOk, IfSome, OnOk, OnErr, MatchOption, Contains, length};
ghost use Rattle.std.specs.FinSet as set;
ghost use Rattle.apsp_model.specs.Walk.{IsOnceEach, first, last};
ghost use Rattle.apsp_model.specs.Paths.{IsKeptIn, HasBirthIn};
ghost use Rattle.extension_lists.specs.Known.{IsStarred, IsUnstarred};
ghost use Rattle.path_arena.specs.Arena.{path_at, path_of, list_of, IsLive, HasAnEdge, edge_path, joined_path, IsPartOfNone, CanJoin};
ghost use Rattle.path_book.specs.Through.{AreForgotten, IsVictims};
ghost use Rattle.path_book.specs.Book.{IsBook, IsMarked, IsOpeningBook, kept_paths, IsNewList, with_kept, with_mark, without_mark, with_new_birth, left_id, right_id, IsForgotten, IsLeastKeptId, KeepsNone, IsPendingLeast, HasNoPendingLeast, HasNonePending, TellsLeastKept, ArePendingLeasts, PathsCount, HistoricalCount};

use crate::admit::{NewPath, admit, admit_known, enter_vertices};
use crate::dirty::Dirty;
use crate::leave::{leave_left, leave_right};
use crate::marks::{is_marked, make_room, uncount};
use apsp_model::{MOST_PATHS, MOST_VERTICES, Memory};
use extension_lists::Lists;
use pair_heaps::Heaps;
use path_arena::{Arena, PathId};
use std::alloc::Global;
use std::marker::Model;

/// A join that was kept.
#[derive(Clone, Copy, Debug, PartialEq, Eq)]
pub struct NewJoin {
    /// Its id.
    pub id: PathId,
    /// Whether it is the least kept path of its pair.
    pub is_least: bool,
}

/// The kept paths. Contracts see them by id, with the ids of those that are historical.
#[derive(Drop)]
pub struct Book {
    arena: Arena,
    heaps: Heaps,
    lists: Lists,
    // Whether the path of a key is historical; a key past the end is not.
    marks: Vec<bool>,
    // The least path of a pair that is not dirty is historical, if there is one.
    dirty: Dirty,
    // How many paths with an edge are historical, and how many are not yet.
    historical: u64,
    pending: u64,
}

impl Model for Book {
    ghost use Rattle.path_book.specs.Book.{Book as Kept, book_code};

    ghost Value = { Kept };

    ghost coded = { book_code };

    ghost use Rattle.path_book.specs.Layout.{view_of, IsSound};

    ghost view = { view_of };

    ghost invariant = { IsSound };
}

impl Book {
    ghost use Rattle.path_book.specs.Dirty.{AreInside};
    ghost use Rattle.path_book.specs.Layout.{AreHeadsOf, IsExtensionTo};

    /// Keeps the single vertices.
    pub fn new(alloc: Global, n: u32) -> Result<Book, Memory>
        requires some { 1 ≤ n }
        requires most { n ≤ MOST_VERTICES }
        ensures opening { IfOk result (λ b. IsOpeningBook b n) }
        ensures lawful { IfOk result IsBook }
    {
        let arena = Arena::new(alloc, n)?;
        let heaps = Heaps::new(alloc, n)?;
        let dirty = Dirty::new(alloc, n)?;
        let mut lists = Lists::new(alloc);
        let mut marks = Vec::new(alloc);
        enter_vertices(&arena, &mut lists, &mut marks, n)?;
        Ok(Book {
            arena,
            heaps,
            lists,
            marks,
            dirty,
            historical: 0,
            pending: 0,
        })
    }

    /// Keeps the path u, v. Memory changes nothing.
    pub fn form_edge(&mut self, u: u32, v: u32, w: u32, birth: u64) -> Result<PathId, Memory>
        requires from { u < self.old.arena.vertices }
        requires to { v < self.old.arena.vertices }
        requires apart { u ≢ v }
        requires new { IsNewList self.old (u ∷ v ∷ []) }
        ensures fresh { IfOk result (λ id. path_at self.old.arena id ≡ None) }
        ensures formed { IfOk result (λ id. self.new ≡ with_kept self.old id (edge_path self.old.arena u v w birth)) }
        ensures lawful { IsBook self.new }
        ensures memory { OnErr result (self.new ≡ self.old) }
    {
        if self.historical + self.pending == MOST_PATHS {
            return Err(Memory);
        }
        let room = self.heaps.reserve_room(u, v)?;
        let id = self.arena.edge(u, v, w, birth)?;
        admit(&mut self.arena, &mut self.heaps, &mut self.lists, id, room)?;
        self.dirty.note(u, v);
        self.pending += 1;
        Ok(id)
    }

    /// Keeps the join of two historical paths, which is not historical yet. Memory changes nothing.
    pub fn form_join(&mut self, l: PathId, r: PathId, birth: u64) -> Result<PathId, Memory>
        requires join { CanJoin self.old.arena l r }
        requires left { IsMarked self.old l }
        requires right { IsMarked self.old r }
        requires new { IsNewList self.old (joined_path self.old.arena l r birth).list }
        ensures fresh { IfOk result (λ id. path_at self.old.arena id ≡ None) }
        ensures formed { IfOk result (λ id. self.new ≡ with_kept self.old id (joined_path self.old.arena l r birth)) }
        ensures lawful { IsBook self.new }
        ensures memory { OnErr result (self.new ≡ self.old) }
    {
        let (from, to) = (self.arena.first(l), self.arena.last(r));
        let formed = self.form_join_between(l, r, from, to, birth)?;
        Ok(formed.id)
    }

    /// The same where the first vertex of l and the last one of r are known. Says whether the join is
    /// the least kept path of its pair.
    #[inline(always)]
    pub fn form_join_between(
        &mut self,
        l: PathId,
        r: PathId,
        from: u32,
        to: u32,
        birth: u64,
    ) -> Result<NewJoin, Memory>
        requires join { CanJoin self.old.arena l r }
        requires left { IsMarked self.old l }
        requires right { IsMarked self.old r }
        requires new { IsNewList self.old (joined_path self.old.arena l r birth).list }
        requires from { first (list_of self.old.arena l) ≡ Some from }
        requires to { last (list_of self.old.arena r) ≡ Some to }
        ensures fresh { IfOk result (λ f. path_at self.old.arena f.id ≡ None) }
        ensures formed { IfOk result (λ f. self.new ≡ with_kept self.old f.id (joined_path self.old.arena l r birth)) }
        ensures least { IfOk result (λ f. TellsLeastKept self.new from to f.id f.is_least) }
        ensures lawful { IsBook self.new }
        ensures memory { OnErr result (self.new ≡ self.old) }
    {
        if self.historical + self.pending == MOST_PATHS {
            return Err(Memory);
        }
        let room = self.heaps.reserve_room(from, to)?;
        let id = self.arena.join(l, r, birth)?;
        let path = NewPath {
            id,
            left: l,
            right: r,
            room,
        };
        let is_least = admit_known(&mut self.arena, &mut self.heaps, &mut self.lists, path)?;
        self.dirty.note_all();
        self.pending += 1;
        Ok(NewJoin { id, is_least })
    }

    /// Makes a kept path historical. Memory changes nothing.
    #[inline(always)]
    pub fn promote(&mut self, id: PathId) -> Result<(), Memory>
        requires live { IsLive self.old.arena id }
        requires pending { IsMarked self.old id → ⊥ }
        ensures marked { OnOk result (self.new ≡ with_mark self.old id self.new.lists) }
        ensures starred { OnOk result
            (IsStarred self.old.lists self.new.lists id (left_id (path_of self.old.arena id))
            (right_id (path_of self.old.arena id))) }
        ensures lawful { IsBook self.new }
        ensures memory { OnErr result (self.new ≡ self.old) }
    {
        make_room(&mut self.marks, id.key())?;
        let (left, right) = (self.arena.left_part(id), self.arena.right_part(id));
        self.lists.add_star(id, left, right)?;
        self.marks[id.key()] = true;
        self.historical += 1;
        self.pending -= 1;
        Ok(())
    }

    /// Takes the mark from a historical path that is no part of a kept one and not the least of its
    /// pair.
    #[inline(always)]
    pub fn unmark(&mut self, id: PathId)
        requires edge { HasAnEdge self.old.arena id }
        requires free { IsPartOfNone self.old.arena id }
        requires marked { IsMarked self.old id }
        requires above { (x y : ℕ) → IsLeastKeptId self.old x y id → ⊥ }
        ensures unmarked { self.new ≡ without_mark self.old id self.new.lists }
        ensures unstarred { IsUnstarred self.old.lists self.new.lists id (left_id (path_of self.old.arena id))
            (right_id (path_of self.old.arena id)) }
        ensures lawful { IsBook self.new }
    {
        let (left, right) = (self.arena.left_part(id), self.arena.right_part(id));
        self.lists.drop_star(id, left, right);
        self.marks[id.key()] = false;
        self.historical -= 1;
        self.pending += 1;
    }

    /// Gives a kept path with an edge another birth.
    #[inline(always)]
    pub fn set_birth(&mut self, id: PathId, birth: u64)
        requires { HasAnEdge self.old.arena id }
        ensures born { self.new ≡ with_new_birth self.old id birth }
        ensures lawful { IsBook self.new }
    {
        self.arena.set_birth(id, birth);
    }

    /// Forgets a path that is no part of a kept one.
    #[inline(always)]
    pub fn forget(&mut self, id: PathId)
        requires edge { HasAnEdge self.old.arena id }
        requires free { IsPartOfNone self.old.arena id }
        ensures forgotten { IsForgotten self.old self.new id }
        ensures lawful { IsBook self.new }
    {
        self.dirty.note(self.arena.first(id), self.arena.last(id));
        let (left, right) = (self.arena.left_part(id), self.arena.right_part(id));
        self.heaps.remove(&self.arena, id);
        self.lists.drop_id(id, left, right);
        self.arena.remove(id);
        let marks = &mut self.marks;
        uncount(marks, id.key(), &mut self.historical, &mut self.pending);
    }

    /// Forgets a path that is no part of a kept one and not the least of its pair.
    #[inline(always)]
    pub fn forget_higher(&mut self, id: PathId)
        requires edge { HasAnEdge self.old.arena id }
        requires free { IsPartOfNone self.old.arena id }
        requires above { (x y : ℕ) → IsLeastKeptId self.old x y id → ⊥ }
        ensures forgotten { IsForgotten self.old self.new id }
        ensures lawful { IsBook self.new }
    {
        let (left, right) = (self.arena.left_part(id), self.arena.right_part(id));
        self.heaps.remove(&self.arena, id);
        self.lists.drop_id(id, left, right);
        self.arena.remove(id);
        let marks = &mut self.marks;
        uncount(marks, id.key(), &mut self.historical, &mut self.pending);
    }

    /// Forgets all paths through v, of which these are the ids, in rising hops.
    ///
    /// A part that passes v goes too, unless it is the single vertex. So a path leaves only the lists of
    /// a part that stays: those of its right part where it starts at v, and those of its left part where
    /// it ends there. Its own lists are emptied, and at the end those of v. This takes constant time for
    /// each path, but for the searches in its pair and in those lists.
    #[inline(never)]
    pub fn forget_through(&mut self, v: u32, ids: &[PathId])
        requires vertex { v < self.old.arena.vertices }
        requires ids { IsVictims self.old v ids.now }
        ensures forgotten { AreForgotten self.old self.new ids.now }
        ensures lawful { IsBook self.new }
    {
        // The longest go first, so each is part of no other then.
        let mut rest = ids;
        'longest: while let Some((&id, shorter)) = rest.split_last() {
            rest = shorter;
            let (from, to) = (self.arena.first(id), self.arena.last(id));
            let (left, right) = (self.arena.left_part(id), self.arena.right_part(id));
            self.dirty.note(from, to);
            let _ = self.heaps.remove_between(&self.arena, id, from, to);
            leave_right(&mut self.lists, id, right, from == v);
            leave_left(&mut self.lists, id, left, to == v);
            self.lists.forget(id);
            self.arena.remove(id);
            let key = id.key();
            uncount(
                &mut self.marks,
                key,
                &mut self.historical,
                &mut self.pending,
            );
        }
        self.lists.clear(self.arena.vertex(v));
    }

    /// The kept path of the pair that none of them is below. From x to x it is the single vertex.
    pub fn least(&self, x: u32, y: u32) -> Option<PathId>
        requires from { x < self.now.arena.vertices }
        requires to { y < self.now.arena.vertices }
        ensures least { MatchOption result (KeepsNone self.now x y) (IsLeastKeptId self.now x y) }
        ensures lawful { IsBook self.now }
    {
        if x == y {
            Some(self.arena.vertex(x))
        } else {
            self.heaps.least(x, y)
        }
    }

    /// Lists the least kept paths of the pairs that are not historical, each once. It looks at the
    /// pairs of which an edge was formed or a path was forgotten since the last `note_clean`, and at
    /// all pairs where a join was formed since. Memory changes nothing of the book.
    pub fn pending_leasts(&mut self, heads: &mut Vec<PathId>) -> Result<(), Memory>
        ensures same { self.new ≡ self.old }
        ensures heads { OnOk result (ArePendingLeasts self.old self.old.arena.vertices heads.new.items) }
        ensures lawful { IsBook self.new }
    {
        heads.clear();
        self.dirty.list()?;
        self.push_heads(self.dirty.pairs(), heads)
    }

    /// Notes that of each pair the least kept path, if there is one, is historical.
    pub fn note_clean(&mut self)
        requires clean { HasNonePending self.old }
        ensures same { self.new ≡ self.old }
        ensures lawful { IsBook self.new }
    {
        self.dirty.clear();
    }

    /// Lists the least kept paths of these pairs that are not historical.
    fn push_heads(&self, pairs: &[(u32, u32)], heads: &mut Vec<PathId>) -> Result<(), Memory>
        requires inside { AreInside self.now.arena.vertices pairs.now }
        requires once { IsOnceEach pairs.now }
        requires none { heads.old.items ≡ [] }
        ensures heads { OnOk result (AreHeadsOf self.now pairs.now heads.new.items) }
    {
        'pairs: for &(x, y) in pairs {
            if let Some(id) = self.least_if_pending(x, y) {
                heads.push(id).map_err(|_| Memory)?;
            }
        }
        Ok(())
    }

    fn least_if_pending(&self, x: u32, y: u32) -> Option<PathId>
        requires from { x < self.now.arena.vertices }
        requires to { y < self.now.arena.vertices }
        ensures { MatchOption result (HasNoPendingLeast self.now x y) (IsPendingLeast self.now x y) }
    {
        let id = self.least(x, y)?;
        if self.is_historical(id) {
            None
        } else {
            Some(id)
        }
    }

    /// Whether a kept path is historical.
    pub fn is_historical(&self, id: PathId) -> bool
        ensures value { result ≡ set.contains self.now.marked id }
        ensures lawful { IsBook self.now }
    {
        is_marked(&self.marks, id.key())
    }

    /// Shows the prover that the book is lawful. It does nothing when it runs.
    pub fn show_lawful(&self)
        ensures { IsBook self.now }
    {
        let _ = &self.arena;
    }

    /// The records of the kept paths.
    pub fn arena(&self) -> &Arena
        ensures lent { result.now ≡ self.now.arena }
        ensures lawful { IsBook self.now }
    {
        &self.arena
    }

    /// The extensions of the kept paths by one edge, and the historical ones of them.
    pub fn lists(&self) -> &Lists
        ensures lent { result.now ≡ self.now.lists }
        ensures lawful { IsBook self.now }
    {
        &self.lists
    }

    /// The number of kept paths with an edge.
    pub fn count_paths(&self) -> u64
        ensures count { PathsCount self.now result }
        ensures most { result ≤ MOST_PATHS }
        ensures lawful { IsBook self.now }
    {
        self.historical + self.pending
    }

    /// The number of historical paths with an edge.
    pub fn count_historical(&self) -> u64
        ensures count { HistoricalCount self.now result }
        ensures most { result ≤ MOST_PATHS }
        ensures lawful { IsBook self.now }
    {
        self.historical
    }

    /// The birth of the kept path with these vertices. It follows the kept paths from the first
    /// vertex, in time of the extensions of the list's beginnings.
    pub fn birth_of(&self, list: &[u32]) -> Option<u64>
        requires some { 0 < length list.now }
        requires inside { All (λ v. v < self.now.arena.vertices) list.now }
        ensures birth { MatchOption result (IsKeptIn (kept_paths self.now) list.now → ⊥)
            (HasBirthIn (kept_paths self.now) list.now) }
        ensures lawful { IsBook self.now }
    {
        let mut id = self.arena.vertex(list[0]);
        for &v in &list[1..] {
            id = self.extension(id, v)?;
        }
        Some(self.arena.birth(id))
    }

    /// The kept path that goes on to v behind a kept path.
    fn extension(&self, id: PathId, v: u32) -> Option<PathId>
        requires { IsLive self.now.arena id }
        ensures found { IfSome result (IsExtensionTo self.now.arena id v) }
        ensures none { IfNone result ((q : ℕ) → IsExtensionTo self.now.arena id v q → ⊥) }
    {
        for &longer in self.lists.right(id) {
            if self.arena.last(longer) == v {
                return Some(longer);
            }
        }
        None
    }
}
