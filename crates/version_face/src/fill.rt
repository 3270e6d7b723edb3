//! The tables of a version, filled from answers.

ghost use Rattle.std.specs.Prelude.{◌≡◌, ◌<◌, ◌*◌, ◌+◌, length, slice_set};
ghost use Rattle.version_face.specs.Rows.{AreCells, dist_cell, hops_cell, next_cell};

use crate::{Answers, Entry, NO_DISTANCE, NO_HOPS, NO_NEXT};

/// Writes the cells of all pairs.
pub fn fill_rows<A: Answers>(from: &A, dist: &mut [u64], hops: &mut [u32], next: &mut [u32])
    requires ready { A.ready from.now }
    requires dist_size { length dist.old ≡ (A.graph from.now).vertices * (A.graph from.now).vertices }
    requires hops_size { length hops.old ≡ (A.graph from.now).vertices * (A.graph from.now).vertices }
    requires next_size { length next.old ≡ (A.graph from.now).vertices * (A.graph from.now).vertices }
    ensures { AreCells (A.graph from.now) ((A.graph from.now).vertices * (A.graph from.now).vertices)
        dist.new hops.new next.new }
{
    'rows: for x in 0..from.vertices() {
        fill_row(from, x, dist, hops, next);
    }
}

/// Writes the cells of the pairs from x.
fn fill_row<A: Answers>(from: &A, x: u32, dist: &mut [u64], hops: &mut [u32], next: &mut [u32])
    requires ready { A.ready from.now }
    requires inside { x < (A.graph from.now).vertices }
    requires before { AreCells (A.graph from.now) (x * (A.graph from.now).vertices) dist.old hops.old next.old }
    ensures { AreCells (A.graph from.now) ((x + 1) * (A.graph from.now).vertices) dist.new hops.new next.new }
{
    let n = from.vertices();
    'cells: for y in 0..n {
        let place = x as usize * n as usize + y as usize;
        let entry = from.entry(x, y);
        put_cell(dist, hops, next, place, entry);
    }
}

/// Writes the three cells at a place.
fn put_cell(
    dist: &mut [u64],
    hops: &mut [u32],
    next: &mut [u32],
    place: usize,
    entry: Option<Entry>,
)
    requires in_dist { place < length dist.old }
    requires in_hops { place < length hops.old }
    requires in_next { place < length next.old }
    ensures dist { dist.new ≡ slice_set dist.old place (dist_cell entry) }
    ensures hops { hops.new ≡ slice_set hops.old place (hops_cell entry) }
    ensures next { next.new ≡ slice_set next.old place (next_cell entry) }
{
    let cells = match entry {
        Some(entry) => (entry.dist, entry.hops, entry.next),
        None => (NO_DISTANCE, NO_HOPS, NO_NEXT),
    };
    dist[place] = cells.0;
    hops[place] = cells.1;
    next[place] = cells.2;
}
