//! The arena of path records.

ghost use Rattle.std.specs.Prelude.{◌≡◌, ◌≢◌, ℕ, ◌<◌, ◌≤◌, ◌↔◌, Some, IsTrue, IfOk, OnErr, Contains, length};
ghost use Rattle.std.specs.Ordering.{nat_cmp};
ghost use Rattle.std.specs.Cmp.Lexicographic.{slice_cmp};
ghost use Rattle.apsp_model.specs.Walk.{first, last, hops_of};
ghost use Rattle.apsp_model.specs.Order.{path_cmp};
ghost use Rattle.path_arena.specs.Arena.{path_at, vertex_of, IsLive, path_of, list_of, weight_of_id, left_of, right_of, HasAnEdge, single, edge_path, joined_path, with_path, without_path, with_birth, second, IsPartOfNone, CanJoin, IsArena, IsOpening};
ghost use Rattle.path_arena.specs.Records.{IsPut, IsSingleRecord};

use crate::id::PathId;
use crate::vertices::Vertices;
use apsp_model::{MOST_VERTICES, Memory};
use slab::Slab;
use std::alloc::Global;
use std::cmp::Ordering;
use std::marker::Model;

/// A path. For a single vertex, which has no edge, the two parts mean nothing, and the second vertex
/// is the vertex itself.
#[derive(Drop)]
struct Record {
    weight: u64,
    // Vertices and numbers of edges are below 2^16. With 16 bits each a slot of the slab takes 40 bytes.
    first: u16,
    second: u16,
    last: u16,
    hops: u16,
    // The ids of the path without its last vertex, and without its first vertex.
    left: PathId,
    right: PathId,
    // Read least, so behind what a comparison and a join read.
    birth: u64,
}

/// Path records. Contracts see the ids of the single vertices and a finite map from ids to paths,
/// each with its list of vertices, its weight, its birth and the ids of its two parts.
///
/// An id names one path until that path is removed. No list of vertices is stored: a record knows
/// its first vertex and the id of its right part, so a list is read off a chain of records.
#[derive(Drop)]
pub struct Arena {
    // The ids of the single vertices, in order.
    singles: Vec<PathId>,
    records: Slab<Record>,
}

impl Model for Arena {
    ghost use Rattle.path_arena.specs.Arena.{Arena as Paths, arena_code};

    ghost Value = { Paths };

    ghost coded = { arena_code };

    ghost use Rattle.path_arena.specs.Records.{view_of, IsSound};

    ghost view = { view_of };

    ghost invariant = { IsSound };
}

impl Arena {
    ghost use Rattle.path_arena.specs.Records.{IsRecordOf};

    /// Holds the n single vertices, with birth 0.
    pub fn new(alloc: Global, n: u32) -> Result<Arena, Memory>
        requires some { 1 ≤ n }
        requires most { n ≤ MOST_VERTICES }
        ensures opening { IfOk result (λ a. IsOpening a n) }
        ensures lawful { IfOk result IsArena }
    {
        let mut singles = Vec::with_capacity(alloc, n as usize).map_err(|_| Memory)?;
        let mut records = Slab::with_capacity(alloc, n as usize).map_err(|_| Memory)?;
        for v in 0..n {
            let id = put(&mut records, single_record(v))?;
            singles.push(id).map_err(|_| Memory)?;
        }
        Ok(Arena { singles, records })
    }

    /// The id of the single vertex.
    pub fn vertex(&self, v: u32) -> PathId
        requires { v < self.now.vertices }
        ensures value { result ≡ vertex_of self.now v }
        ensures single { path_at self.now result ≡ Some (single v) }
        ensures lawful { IsArena self.now }
    {
        self.singles[v as usize]
    }

    /// Adds the path u, v. Memory changes nothing.
    pub fn edge(&mut self, u: u32, v: u32, w: u32, birth: u64) -> Result<PathId, Memory>
        requires from { u < self.old.vertices }
        requires to { v < self.old.vertices }
        requires apart { u ≢ v }
        ensures fresh { IfOk result (λ id. path_at self.old id ≡ None) }
        ensures added { IfOk result (λ id. self.new ≡ with_path self.old id (edge_path self.old u v w birth)) }
        ensures lawful { IsArena self.new }
        ensures memory { OnErr result (self.new ≡ self.old) }
    {
        let (left, right) = (self.vertex(u), self.vertex(v));
        let edge = Record {
            weight: u64::from(w),
            first: u as u16,
            second: v as u16,
            last: v as u16,
            hops: 1,
            left,
            right,
            birth,
        };
        put(&mut self.records, edge)
    }

    /// Adds the path of l with the last vertex of r behind it. Its weight is that of l plus that of
    /// r less that of the path that they overlap in. Memory changes nothing.
    #[inline(always)]
    pub fn join(&mut self, l: PathId, r: PathId, birth: u64) -> Result<PathId, Memory>
        requires { CanJoin self.old l r }
        ensures fresh { IfOk result (λ id. path_at self.old id ≡ None) }
        ensures added { IfOk result (λ id. self.new ≡ with_path self.old id (joined_path self.old l r birth)) }
        ensures lawful { IsArena self.new }
        ensures memory { OnErr result (self.new ≡ self.old) }
    {
        let left = self.record(l);
        let right = self.record(r);
        let overlap = self.record(left.right);
        let joined = Record {
            weight: left.weight + (right.weight - overlap.weight),
            first: left.first,
            second: left.second,
            last: right.last,
            hops: left.hops + 1,
            left: l,
            right: r,
            birth,
        };
        put(&mut self.records, joined)
    }

    /// Takes out a path that is no part of a live one.
    #[inline(always)]
    pub fn remove(&mut self, id: PathId)
        requires edge { HasAnEdge self.old id }
        requires free { IsPartOfNone self.old id }
        ensures removed { self.new ≡ without_path self.old id }
        ensures lawful { IsArena self.new }
    {
        let _ = self.records.remove(id.key());
    }

    /// Gives a live path with an edge another birth.
    #[inline(always)]
    pub fn set_birth(&mut self, id: PathId, birth: u64)
        requires { HasAnEdge self.old id }
        ensures born { self.new ≡ with_birth self.old id birth }
        ensures lawful { IsArena self.new }
    {
        self.records[id.key()].birth = birth;
    }

    fn record(&self, id: PathId) -> &Record
        requires { IsLive self.now id }
        ensures describes { IsRecordOf (path_of self.now id) result.now }
        ensures lawful { IsArena self.now }
    {
        &self.records[id.key()]
    }

    /// The first vertex of a live path.
    pub fn first(&self, id: PathId) -> u32
        requires { IsLive self.now id }
        ensures value { first (list_of self.now id) ≡ Some result }
        ensures lawful { IsArena self.now }
    {
        u32::from(self.record(id).first)
    }

    /// The second vertex of a live path, and of a single vertex that vertex. One record is read.
    pub fn second(&self, id: PathId) -> u32
        requires { IsLive self.now id }
        ensures value { second (list_of self.now id) ≡ Some result }
        ensures lawful { IsArena self.now }
    {
        u32::from(self.record(id).second)
    }

    /// The last vertex of a live path.
    pub fn last(&self, id: PathId) -> u32
        requires { IsLive self.now id }
        ensures value { last (list_of self.now id) ≡ Some result }
        ensures lawful { IsArena self.now }
    {
        u32::from(self.record(id).last)
    }

    /// The weight of a live path.
    pub fn weight(&self, id: PathId) -> u64
        requires { IsLive self.now id }
        ensures value { result ≡ weight_of_id self.now id }
        ensures lawful { IsArena self.now }
    {
        self.record(id).weight
    }

    /// The number of edges of a live path.
    pub fn hops(&self, id: PathId) -> u32
        requires { IsLive self.now id }
        ensures value { result ≡ hops_of (list_of self.now id) }
        ensures lawful { IsArena self.now }
    {
        u32::from(self.record(id).hops)
    }

    /// The birth of a live path.
    pub fn birth(&self, id: PathId) -> u64
        requires { IsLive self.now id }
        ensures value { result ≡ (path_of self.now id).birth }
        ensures lawful { IsArena self.now }
    {
        self.record(id).birth
    }

    /// The id of the path without its last vertex, of a live path with an edge.
    pub fn left_part(&self, id: PathId) -> PathId
        requires { HasAnEdge self.now id }
        ensures value { left_of self.now id ≡ Some result }
        ensures lawful { IsArena self.now }
    {
        self.record(id).left
    }

    /// The id of the path without its first vertex, of a live path with an edge.
    pub fn right_part(&self, id: PathId) -> PathId
        requires { HasAnEdge self.now id }
        ensures value { right_of self.now id ≡ Some result }
        ensures lawful { IsArena self.now }
    {
        self.record(id).right
    }

    /// The id of the right part of a live path, and none for a single vertex.
    pub(crate) fn tail(&self, id: PathId) -> Option<PathId>
        requires { IsLive self.now id }
        ensures value { result ≡ right_of self.now id }
        ensures lawful { IsArena self.now }
    {
        let record = self.record(id);
        if record.hops == 0 {
            None
        } else {
            Some(record.right)
        }
    }

    /// The order of two live paths, by weight, then by the number of edges, then lexicographically.
    /// The lists are walked only where the rest ties, and only until both walks meet in one record.
    pub fn compare(&self, a: PathId, b: PathId) -> Ordering
        requires first { IsLive self.now a }
        requires second { IsLive self.now b }
        ensures value { result
            ≡ path_cmp (weight_of_id self.now a) (list_of self.now a) (weight_of_id self.now b) (list_of self.now b) }
        ensures lawful { IsArena self.now }
    {
        let (left, right) = (self.record(a), self.record(b));
        match left.weight.cmp(&right.weight) {
            Ordering::Equal => match left.hops.cmp(&right.hops) {
                Ordering::Equal => self.compare_lists(a, b),
                unequal => unequal,
            },
            unequal => unequal,
        }
    }

    /// The lexicographic order of two live paths with as many edges.
    fn compare_lists(&self, mut a: PathId, mut b: PathId) -> Ordering
        requires first { IsLive self.now a }
        requires second { IsLive self.now b }
        requires alike { length (list_of self.now a) ≡ length (list_of self.now b) }
        ensures { result ≡ slice_cmp nat_cmp (list_of self.now a) (list_of self.now b) }
    {
        while a != b {
            let (left, right) = (self.record(a), self.record(b));
            if left.first != right.first {
                return left.first.cmp(&right.first);
            }
            a = left.right;
            b = right.right;
        }
        Ordering::Equal
    }

    /// Whether a vertex stands in the list of a live path.
    pub fn passes(&self, id: PathId, v: u32) -> bool
        requires { IsLive self.now id }
        ensures { IsTrue result ↔ Contains (list_of self.now id) v }
    {
        self.vertices(id).any(|vertex| vertex == v)
    }

    /// The vertices of a live path from the first to the last.
    pub fn vertices(&self, id: PathId) -> Vertices<'_>
        requires { IsLive self.now id }
        ensures { result ≡ list_of self.now id }
    {
        Vertices::new(self, id)
    }
}

/// The record of a single vertex.
fn single_record(v: u32) -> Record
    requires { v < MOST_VERTICES }
    ensures { IsSingleRecord v result }
{
    let unused = PathId::new(0);
    Record {
        weight: 0,
        first: v as u16,
        second: v as u16,
        last: v as u16,
        hops: 0,
        left: unused,
        right: unused,
        birth: 0,
    }
}

/// Puts a record under a new key that an id can hold. Memory changes no slot. The two halves of the
/// slab's `insert` are made in place, which that one is not.
#[inline(always)]
fn put(records: &mut Slab<Record>, path: Record) -> Result<PathId, Memory>
    ensures ok { IfOk result (λ key. IsPut records.old.slots records.new.slots key path) }
    ensures memory { OnErr result (records.new.slots ≡ records.old.slots) }
{
    let key = u32::try_from(records.vacant_key()).map_err(|_| Memory)?;
    records.reserve(1).map_err(|_| Memory)?;
    let _ = records.insert_reserved(path);
    Ok(PathId::new(key))
}
