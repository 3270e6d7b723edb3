//! The ids of each weight and number of edges, and which of them come next.

ghost use Rattle.std.specs.Prelude.{◌≡◌, ◌≢◌, ℕ, List, ◌+◌, ◌<◌, ◌≤◌, [], ◌∷◌, ◌++◌, IfOk, IfSome, IfNone, OnOk, OnErr, length, vec_capacity, map, slice_set};
ghost use Rattle.apsp_model.specs.declared.TheConstants.{MOST_VERTICES};
ghost use Rattle.weight_classes.specs.Ids.{ids_in, need_of};
ghost use Rattle.weight_classes.specs.Inside.{AreEmpty, AreRoomy, AreTurns, IsIndexed, IsNextBucket, IsQueue, IsBucketAdded, cell_of, idss_in, bucket_ids, key_of, need_at, needs_in, rank_at, ranks_in};

use crate::choice::Key;
use crate::ids::Ids;
use crate::turns::{Turn, insert, take_first};
use apsp_model::Memory;
use path_arena::PathId;

/// The held ids of one weight and number of edges. Once they are taken there are none, and the
/// bucket stays until the restart.
#[derive(Drop)]
pub(crate) struct Bucket {
    pub(crate) weight: u64,
    pub(crate) hops: u32,
    // The bucket before it of the same cell.
    next: u32,
    pub(crate) ids: Ids,
}

/// Stands for the bucket where there is none.
pub(crate) const NO_BUCKET: u32 = u32::MAX;

/// The cell in which the latest bucket of a weight and number of edges stands.
fn cell(cells: usize, weight: u64, hops: u32) -> usize
    requires { 0 < cells }
    ensures is { result ≡ cell_of cells (record { weight = weight; hops = hops }) }
    ensures inside { result < cells }
{
    let mixed = weight
        .wrapping_add(hops as u64)
        .wrapping_mul(0x9E37_79B9_7F4A_7C15);
    (mixed >> 32) as usize & (cells - 1)
}

/// The bucket of a weight and number of edges.
fn find(heads: &[u32], buckets: &[Bucket], weight: u64, hops: u32) -> Option<u32>
    requires { IsIndexed heads.now buckets.now }
    ensures some { IfSome result
        (λ i. (i < length buckets.now) × (rank_at (ranks_in buckets.now) i ≡ record { weight = weight; hops = hops })) }
    ensures none { IfNone result ((i : ℕ) → i < length buckets.now → rank_at (ranks_in buckets.now) i
        ≢ record { weight = weight; hops = hops }) }
{
    let mut at = heads[cell(heads.len(), weight, hops)];
    'chain: while at != NO_BUCKET {
        let bucket = &buckets[at as usize];
        if bucket.weight == weight && bucket.hops == hops {
            return Some(at);
        }
        at = bucket.next;
    }
    None
}

/// The bucket of a weight and number of edges, which is made where there is none.
pub(crate) fn bucket_of(
    heads: &mut Vec<u32>,
    buckets: &mut Vec<Bucket>,
    weight: u64,
    hops: u32,
) -> Result<u32, Memory>
    requires indexed { IsIndexed heads.old.items buckets.old.items }
    requires few { hops < MOST_VERTICES }
    ensures bucket { IfOk result
        (λ i. (i < length buckets.new.items) × (rank_at (ranks_in buckets.new.items) i
        ≡ record { weight = weight; hops = hops })) }
    ensures added { IsBucketAdded buckets.old.items buckets.new.items }
    ensures indexed { IsIndexed heads.new.items buckets.new.items }
{
    if let Some(at) = find(heads, buckets, weight, hops) {
        return Ok(at);
    }
    let len = buckets.len();
    if len >= NO_BUCKET as usize {
        return Err(Memory);
    }
    let cell = cell(heads.len(), weight, hops);
    let bucket = Bucket {
        weight,
        hops,
        next: heads[cell],
        ids: Ids::Empty,
    };
    buckets.push(bucket).map_err(|_| Memory)?;
    heads[cell] = len as u32;
    Ok(len as u32)
}

/// Puts an id into a bucket. The first one gives the bucket its turn, further ones make room for keys.
pub(crate) fn hold(
    buckets: &mut Vec<Bucket>,
    turns: &mut Vec<Turn>,
    keys: &mut Vec<Key>,
    at: u32,
    key: u64,
    id: PathId,
) -> Result<(), Memory>
    requires inside { at < length buckets.old.items }
    requires key { key ≡ key_of (rank_at (ranks_in buckets.old.items) at) }
    requires queue { IsQueue turns.old.items buckets.old.items }
    requires room { AreRoomy (vec_capacity keys.old) buckets.old.items }
    ensures ranks { ranks_in buckets.new.items ≡ ranks_in buckets.old.items }
    ensures same { (heads : List ℕ) → IsIndexed heads buckets.old.items → IsIndexed heads buckets.new.items }
    ensures ok { OnOk result
        (idss_in buckets.new.items ≡ slice_set (idss_in buckets.old.items) at (bucket_ids (idss_in buckets.old.items) at
        ++ id ∷ [])) }
    ensures err { OnErr result (idss_in buckets.new.items ≡ idss_in buckets.old.items) }
    ensures queue { IsQueue turns.new.items buckets.new.items }
    ensures room { AreRoomy (vec_capacity keys.new) buckets.new.items }
{
    let bucket = &mut buckets[at as usize];
    if !bucket.ids.is_empty() {
        return put(&mut bucket.ids, keys, id);
    }
    insert(turns, Turn { key, bucket: at })?;
    bucket.ids = Ids::One(id);
    Ok(())
}

/// Puts an id behind the others of a bucket, and makes room for their keys.
fn put(ids: &mut Ids, keys: &mut Vec<Key>, id: PathId) -> Result<(), Memory>
    requires { need_of ids.old ≤ vec_capacity keys.old }
    ensures ok { OnOk result (ids_in ids.new ≡ ids_in ids.old ++ id ∷ []) }
    ensures err { OnErr result (ids.new ≡ ids.old) }
    ensures room { need_of ids.new ≤ vec_capacity keys.new }
    ensures capacity { vec_capacity keys.old ≤ vec_capacity keys.new }
{
    keys.clear();
    keys.reserve(ids.len() + 1).map_err(|_| Memory)?;
    ids.push(*keys.allocator(), id)
}

/// The bucket of the least weight that has the fewest edges among those that hold an id. Its turn is over, and so
/// are those of the empty buckets before it.
#[inline(always)]
pub(crate) fn next(turns: &mut Vec<Turn>, buckets: &[Bucket]) -> Option<u32>
    requires { IsQueue turns.old.items buckets.now }
    ensures some { IfSome result (IsNextBucket buckets.now) }
    ensures none { IfNone result (AreEmpty buckets.now) }
    ensures queue { IfNone result (IsQueue turns.new.items buckets.now) }
    ensures others { IfSome result
        (λ at. AreTurns turns.new.items (ranks_in buckets.now) (slice_set (idss_in buckets.now) at [])) }
{
    'turns: while let Some(turn) = take_first(turns) {
        if !buckets[turn.bucket as usize].ids.is_empty() {
            return Some(turn.bucket);
        }
    }
    None
}

/// Takes the ids of a bucket.
#[inline(always)]
pub(crate) fn take(buckets: &mut Vec<Bucket>, at: u32) -> Ids
    requires { at < length buckets.old.items }
    ensures ids { ids_in result ≡ bucket_ids (idss_in buckets.old.items) at }
    ensures need { need_of result ≡ need_at (needs_in buckets.old.items) at }
    ensures ranks { ranks_in buckets.new.items ≡ ranks_in buckets.old.items }
    ensures idss { idss_in buckets.new.items ≡ slice_set (idss_in buckets.old.items) at [] }
    ensures same { (heads : List ℕ) → IsIndexed heads buckets.old.items → IsIndexed heads buckets.new.items }
    ensures room { (most : ℕ) → AreRoomy most buckets.old.items → AreRoomy most buckets.new.items }
{
    std::mem::replace(&mut buckets[at as usize].ids, Ids::Empty)
}

/// The weight and the number of edges of a bucket.
pub(crate) fn rank(buckets: &[Bucket], at: u32) -> (u64, u32)
    requires { at < length buckets.now }
    ensures { rank_at (ranks_in buckets.now) at ≡ record { weight = result.0; hops = result.1 } }
{
    let bucket = &buckets[at as usize];
    (bucket.weight, bucket.hops)
}
