//! The checker of certificates: it goes over the pairs and tests each by the edges of its first vertex
//! alone.
#![tactic(auto)]

ghost use Rattle.std.specs.Prelude.{◌≡◌, ◌≢◌, ◌+◌, ◌<◌, ◌≤◌, MatchOption};
ghost use Rattle.apsp_model.specs.Stated.{Entry as Stated_entry, entry_at, entry_cmp, StepHolds, NoSmaller, NoneMissing};
ghost use Rattle.version_face.specs.Entries.{stated};
ghost use Rattle.cert_check.specs.Tests.{Passes, FailsFirst, IsVerdict};
ghost use Rattle.cert_check.specs.Pairs.{AreEnds, IsPairAnswer, IsRowAnswer, IsFailureAnswer, IsStepAnswer, IsSmallerAnswer, IsMissingAnswer, IsWayAnswer, IsBelowAnswer};

pub mod laws;

use apsp_model::MOST_VERTICES;
use apsp_model::laws::law_cert;
use arrayvec::ArrayVec;
use certificate::Stated;
use version_face::Entry;

/// Why a certificate is not lawful.
#[derive(Clone, Copy, Debug, PartialEq, Eq)]
pub enum Reason {
    /// An entry is not made of the edge to its next vertex and the entry from there on.
    Step,
    /// An edge and the entry from its end on make less than the entry.
    Smaller,
    /// There is no entry, but an edge leads to one.
    Missing,
}

/// What the checker answers.
#[derive(Clone, Copy, Debug, PartialEq, Eq)]
pub enum Verdict {
    /// All that is stated of this number is right.
    Yes(u64),
    /// The first pair with a failing test, and that test.
    No { x: u32, y: u32, reason: Reason },
}

/// A pair with the first of its tests that fails.
#[derive(Clone, Copy)]
struct Failure {
    x: u32,
    y: u32,
    reason: Reason,
}

/// The most edges from one vertex.
const MOST_ENDS: usize = MOST_VERTICES as usize;

/// Whether the stated distances, hops and walks are those of the least walks, for all pairs. It takes
/// no memory, and about as many looks for each pair as its first vertex has edges.
pub fn check(stated: &Stated) -> Verdict
    ensures { IsVerdict stated.now result }
{
    law_cert();
    match first_failure(stated, stated.vertices()) {
        Some(Failure { x, y, reason }) => Verdict::No { x, y, reason },
        None => Verdict::Yes(stated.number()),
    }
}

/// The first pair with a failing test, from the first so many vertices.
fn first_failure(stated: &Stated, rows: u32) -> Option<Failure>
    requires { rows ≤ stated.now.graph.vertices }
    ensures { IsFailureAnswer stated.now rows result }
{
    'rows: for x in 0..rows {
        if let Some((y, reason)) = row_failure(stated, x) {
            return Some(Failure { x, y, reason });
        }
    }
    None
}

/// The first pair from x with a failing test.
fn row_failure(stated: &Stated, x: u32) -> Option<(u32, Reason)>
    requires { x < stated.now.graph.vertices }
    ensures { IsRowAnswer stated.now x stated.now.graph.vertices result }
{
    let ends = ends_from(stated, x);
    'pairs: for y in 0..stated.vertices() {
        if x != y {
            if let Some(reason) = pair_failure(stated, ends.as_slice(), x, y) {
                return Some((y, reason));
            }
        }
    }
    None
}

/// The ends of the edges from x.
fn ends_from(stated: &Stated, x: u32) -> ArrayVec<u32, MOST_ENDS>
    requires { x < stated.now.graph.vertices }
    ensures { AreEnds stated.now x stated.now.graph.vertices result.items }
{
    let mut ends = ArrayVec::new();
    'ends: for u in 0..stated.vertices() {
        put_end(stated, x, u, &mut ends);
    }
    ends
}

/// Puts u behind the ends, if an edge from x leads there.
fn put_end(stated: &Stated, x: u32, u: u32, ends: &mut ArrayVec<u32, MOST_ENDS>)
    requires from { x < stated.now.graph.vertices }
    requires to { u < stated.now.graph.vertices }
    requires so_far { AreEnds stated.now x u ends.old.items }
    ensures { AreEnds stated.now x (u + 1) ends.new.items }
{
    if stated.weight(x, u).is_some() {
        ends.push(u);
    }
}

/// The first test that a pair fails, where the ends of the edges from x are given.
fn pair_failure(stated: &Stated, ends: &[u32], x: u32, y: u32) -> Option<Reason>
    requires from { x < stated.now.graph.vertices }
    requires to { y < stated.now.graph.vertices }
    requires apart { x ≢ y }
    requires ends { AreEnds stated.now x stated.now.graph.vertices ends.now }
    ensures { IsPairAnswer stated.now x y result }
{
    match stated.entry(x, y) {
        Some(entry) => {
            if !step_holds(stated, x, y, entry) {
                Some(Reason::Step)
            } else if has_smaller(stated, ends, x, y, entry) {
                Some(Reason::Smaller)
            } else {
                None
            }
        }
        None => {
            if has_way(stated, ends, x, y) {
                Some(Reason::Missing)
            } else {
                None
            }
        }
    }
}

/// What the edge from x to u and the entry from there to y make together, if both are there.
fn way(stated: &Stated, x: u32, u: u32, y: u32) -> Option<Entry>
    requires from { x < stated.now.graph.vertices }
    requires over { u < stated.now.graph.vertices }
    requires to { y < stated.now.graph.vertices }
    ensures { IsWayAnswer stated.now x u y result }
{
    let weight = stated.weight(x, u)?;
    let rest = stated.entry(u, y)?;
    Some(Entry {
        dist: u64::from(weight) + rest.dist,
        hops: 1 + rest.hops,
        next: u,
    })
}

fn step_holds(stated: &Stated, x: u32, y: u32, entry: Entry) -> bool
    requires from { x < stated.now.graph.vertices }
    requires to { y < stated.now.graph.vertices }
    requires next { entry.next < stated.now.graph.vertices }
    ensures { IsStepAnswer stated.now x y entry result }
{
    way(stated, x, entry.next, y) == Some(entry)
}

fn has_smaller(stated: &Stated, ends: &[u32], x: u32, y: u32, entry: Entry) -> bool
    requires from { x < stated.now.graph.vertices }
    requires to { y < stated.now.graph.vertices }
    requires ends { AreEnds stated.now x stated.now.graph.vertices ends.now }
    ensures { IsSmallerAnswer stated.now x y entry stated.now.graph.vertices result }
{
    'ways: for u in ends {
        if let Some(made) = way(stated, x, *u, y) {
            if is_below(made, entry) {
                return true;
            }
        }
    }
    false
}

fn has_way(stated: &Stated, ends: &[u32], x: u32, y: u32) -> bool
    requires from { x < stated.now.graph.vertices }
    requires to { y < stated.now.graph.vertices }
    requires ends { AreEnds stated.now x stated.now.graph.vertices ends.now }
    ensures { IsMissingAnswer stated.now x y stated.now.graph.vertices result }
{
    'ways: for u in ends {
        if way(stated, x, *u, y).is_some() {
            return true;
        }
    }
    false
}

/// Compared number by number from the left.
fn is_below(made: Entry, entry: Entry) -> bool
    ensures { IsBelowAnswer made entry result }
{
    made.dist < entry.dist
        || (made.dist == entry.dist
            && (made.hops < entry.hops || (made.hops == entry.hops && made.next < entry.next)))
}

#[cfg(test)]
mod tests;
