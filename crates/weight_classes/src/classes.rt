//! The held ids by weight and number of edges.

ghost use Rattle.std.specs.Prelude.{replicate, false, ◌≡◌, ◌≢◌, ℕ, ◌+◌, ◌*◌, ◌<◌, ◌≤◌, ◌⊎◌, ◌↔◌, [], IfOk, OnOk, OnErr, MatchOption, IfNone, List, Contains, length, vec_len, vec_capacity, slice_index, slice_set, ◌∷◌, ◌++◌};
ghost use Rattle.path_arena.specs.Arena.{Arena as Paths, IsLive};
ghost use Rattle.weight_classes.specs.Classes.{ClassesFit, IsHeldWithRank, IsPopped, IsPushed, IsWon, Rank};
ghost use Rattle.weight_classes.specs.Inside.{AreRoomy, AreTurns, IsIndexed, IsNextBucket, IsQueue, idss_in, ranks_in, shown_by};
ghost use Rattle.weight_classes.specs.declared.buckets.TheConstants.{NO_BUCKET};

use crate::buckets::{Bucket, NO_BUCKET, bucket_of, hold, next, rank, take};
use crate::choice::{Key, winners};
use crate::ids::Ids;
use crate::turns::Turn;
use apsp_model::{MOST_VERTICES, Memory};
use path_arena::{Arena, PathId};
use std::alloc::{AllocError, Global};
use std::marker::Model;

/// The winners of the ids of one weight and number of edges.
#[derive(Drop)]
pub struct Class {
    weight: u64,
    hops: u32,
    winners: Ids,
}

impl Model for Class {
    ghost use Rattle.weight_classes.specs.Classes.{Taken};
    ghost use Rattle.weight_classes.specs.Ids.{ids_in};

    ghost Value = { Taken };

    ghost view = { λ c. record { rank = record { weight = c.weight; hops = c.hops }; winners = ids_in c.winners } };
}

impl Class {
    /// The weight of the class.
    pub fn weight(&self) -> u64
        ensures { result ≡ self.now.rank.weight }
    {
        self.weight
    }

    /// The number of edges of each path of the class.
    pub fn hops(&self) -> u32
        ensures { result ≡ self.now.rank.hops }
    {
        self.hops
    }

    /// The winners, by first and then by last vertex.
    pub fn winners(&self) -> &[PathId]
        ensures { result.now ≡ self.now.winners }
    {
        self.winners.as_slice()
    }
}

/// Ids by weight and number of edges, and for each pair of vertices whether it is won. Contracts see
/// the held ids with their weights and numbers of edges, and which pairs are won.
#[derive(Drop)]
pub struct Classes {
    n: u32,
    // For each cell its latest bucket.
    heads: Vec<u32>,
    buckets: Vec<Bucket>,
    turns: Vec<Turn>,
    won: Vec<bool>,
    // Room for the keys of as many ids as one bucket has.
    keys: Vec<Key>,
}

impl Model for Classes {
    ghost use Rattle.weight_classes.specs.Classes.{Classes as Held, classes_code};

    ghost Value = { Held };

    ghost coded = { classes_code };

    ghost use Rattle.weight_classes.specs.Inside.{view_of, IsSound};

    ghost view = { view_of };

    ghost invariant = { IsSound };
}

impl Classes {
    /// Holds nothing, and no pair is won.
    pub fn new(alloc: Global, n: u32) -> Result<Classes, Memory>
        ensures vertices { IfOk result (λ c. c.vertices ≡ n) }
        ensures empty { IfOk result (λ c. c.held ≡ []) }
        ensures unwon { IfOk result (λ c. (x y : ℕ) → IsWon c x y → ⊥) }
    {
        let Ok(won) = none_won(alloc, n as usize * n as usize) else {
            return Err(Memory);
        };
        let Ok(heads) = no_heads(alloc, cells(n)) else {
            return Err(Memory);
        };
        let Ok(buckets) = Vec::with_capacity(alloc, 4 * cells(n)) else {
            return Err(Memory);
        };
        let Ok(turns) = Vec::with_capacity(alloc, cells(n) / 4) else {
            return Err(Memory);
        };
        Ok(Classes {
            n,
            heads,
            buckets,
            turns,
            won,
            keys: Vec::new(alloc),
        })
    }

    /// Holds nothing any more, and makes no pair won.
    pub fn restart(&mut self)
        ensures vertices { self.new.vertices ≡ self.old.vertices }
        ensures empty { self.new.held ≡ [] }
        ensures unwon { (x y : ℕ) → IsWon self.new x y → ⊥ }
    {
        self.heads.fill(NO_BUCKET);
        self.buckets.clear();
        self.turns.clear();
        self.won.fill(false);
    }

    /// Holds an id. Memory changes nothing.
    pub fn push(&mut self, arena: &Arena, id: PathId) -> Result<(), Memory>
        requires fits { ClassesFit self.old arena.now }
        requires live { IsLive arena.now id }
        requires fresh { (r : Rank) → IsHeldWithRank self.old r id → ⊥ }
        ensures ok { OnOk result (IsPushed self.old self.new arena.now id) }
        ensures err { OnErr result (self.new ≡ self.old) }
        ensures fits { ClassesFit self.new arena.now }
    {
        let (weight, hops) = (arena.weight(id), arena.hops(id));
        let at = bucket_of(&mut self.heads, &mut self.buckets, weight, hops)?;
        let key = weight * MOST_VERTICES as u64 + hops as u64;
        hold(
            &mut self.buckets,
            &mut self.turns,
            &mut self.keys,
            at,
            key,
            id,
        )
    }

    /// Takes out all ids of the least weight that have the fewest edges among those. Of each pair among
    /// them that was not won the least id wins, and the pair is won.
    pub fn pop_class(&mut self, arena: &Arena) -> Option<Class>
        requires fits { ClassesFit self.old arena.now }
        ensures class { MatchOption result (self.old.held ≡ [])
            (λ c. IsPopped self.old self.new arena.now c.rank c.winners) }
        ensures none { IfNone result (self.new ≡ self.old) }
        ensures fits { ClassesFit self.new arena.now }
    {
        let at = next(&mut self.turns, &self.buckets)?;
        let class = class_at(
            &mut self.buckets,
            &mut self.keys,
            &mut self.won,
            arena,
            self.n,
            at,
        );
        Some(class)
    }
}

/// Takes the ids of a bucket, whichever it is, and makes the pairs of the winners among them won.
#[inline(always)]
fn class_at(
    buckets: &mut Vec<Bucket>,
    keys: &mut Vec<Key>,
    won: &mut Vec<bool>,
    arena: &Arena,
    n: u32,
    at: u32,
) -> Class
    requires vertices { arena.now.vertices ≡ n }
    requires inside { at < length buckets.old.items }
    requires fits { ClassesFit (shown_by n buckets.old.items won.old.items) arena.now }
    requires room { AreRoomy (vec_capacity keys.old) buckets.old.items }
    requires pairs { vec_len won.old ≡ n * n }
    ensures popped { (heads : List ℕ) → IsIndexed heads buckets.old.items → IsNextBucket buckets.old.items at
        → IsPopped (shown_by n buckets.old.items won.old.items)
        (shown_by n buckets.new.items won.new.items) arena.now result.rank result.winners }
    ensures fits { ClassesFit (shown_by n buckets.new.items won.new.items) arena.now }
    ensures same { (heads : List ℕ) → IsIndexed heads buckets.old.items → IsIndexed heads buckets.new.items }
    ensures queue { (turns : List Turn)
        → AreTurns turns (ranks_in buckets.old.items) (slice_set (idss_in buckets.old.items) at [])
        → IsQueue turns buckets.new.items }
    ensures room { AreRoomy (vec_capacity keys.new) buckets.new.items }
    ensures pairs { vec_len won.new ≡ vec_len won.old }
{
    let (weight, hops) = rank(buckets, at);
    let ids = take(buckets, at);
    let winners = winners(keys, won, arena, n, ids);
    Class {
        weight,
        hops,
        winners,
    }
}

/// A power of two that is a fraction of the pairs: few of them come in one settling, and each begins
/// with the cells cleared.
fn cells(n: u32) -> usize
    ensures some { 0 < result }
    ensures most { result ≤ 65536 }
{
    match n {
        0..=128 => 512,
        129..=256 => 16384,
        _ => 65536,
    }
}

/// No pair is won.
fn none_won(alloc: Global, places: usize) -> Result<Vec<bool>, AllocError>
    ensures { IfOk result (λ won. won.items ≡ replicate places false) }
{
    vec![in alloc; false; places]
}

/// Cells without a bucket.
fn no_heads(alloc: Global, cells: usize) -> Result<Vec<u32>, AllocError>
    ensures { IfOk result (λ heads. heads.items ≡ replicate cells NO_BUCKET) }
{
    vec![in alloc; NO_BUCKET; cells]
}
