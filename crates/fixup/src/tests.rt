//! Tests of settling by calls.

ghost use Rattle.std.specs.Prelude.{◌≡◌, ℕ, ◌<◌, ◌≤◌, IsTrue, IfOk, OnOk};
ghost use Rattle.apsp_model.specs.Limits.{IsWorkerCount};
ghost use Rattle.apsp_model.specs.Settled.{without_star, IsReady, IsSettled};
ghost use Rattle.graph_store.specs.Making.{IsVertexCount};
ghost use Rattle.path_book.specs.Book.{kept_paths};

use crate::settling::settle_by;
use crate::tasks::{MANY_PARTNERS, Workers};
use crate::{Settled, settle};
use apsp_io::OpenGate;
use apsp_model::{MOST_VERTICES, Memory};
use graph_store::{Graph, Star};
use path_book::Book;
use std::alloc::Global;
use std::marker::Sync;
use std::process::Abort;
use std::test::Fail;
use std::thread::Threads;

/// The ends of an edge, and its weight.
type Edge = (u32, u32, u64);

/// Edges that are put at a vertex without edges, and the birth of the paths that come with them.
#[derive(Clone, Copy)]
struct Step<'a> {
    vertex: u32,
    birth: u64,
    edges: &'a [Edge],
}

/// A list of vertices, and the birth of the path that has it, where one is kept.
type Birth<'a> = (&'a [u32], Option<u64>);

/// What is settled, and what is expected of it.
#[derive(Drop)]
struct Case<'a> {
    vertices: u32,
    steps: &'a [Step<'a>],
    /// How many paths each step forms and promotes.
    settled: &'a [(u64, u64)],
    /// The numbers of kept and of historical paths at the end.
    counts: (u64, u64),
    births: &'a [Birth<'a>],
    /// Pairs, and the edges of the least kept path of each, which is historical.
    least: &'a [(u32, u32, u32)],
}

/// A graph without edges, and its book.
fn opening(alloc: Global, n: u32) -> Result<(Graph, Book), Fail>
    requires count { IsVertexCount n }
    ensures graph { IfOk result (λ t. t.0.vertices ≡ n) }
    ensures book { IfOk result (λ t. t.1.arena.vertices ≡ n) }
    ensures ready { IfOk result (λ t. (v : ℕ) → without_star t.0 v ≡ t.0 → IsReady t.0 v (kept_paths t.1)) }
{
    let graph = Graph::new(alloc, n)?;
    let book = Book::new(alloc, n)?;
    Ok((graph, book))
}

/// Whether the graph has no edges at v.
fn has_none_at(graph: &Graph, v: u32) -> bool
    requires inside { v < graph.now.vertices }
    ensures none { IsTrue result → without_star graph.now v ≡ graph.now }
{
    'others: for u in 0..graph.vertices() {
        if graph.weight(u, v).is_some() || graph.weight(v, u).is_some() {
            return false;
        }
    }
    true
}

/// Settles by the public call where the workers have its threshold.
fn settle_with<R: Threads + Sync>(
    workers: &Workers<'_, R, OpenGate>,
    book: &mut Book,
    graph: &Graph,
    v: u32,
    birth: u64,
) -> Result<Settled, Memory>
    requires same { book.old.arena.vertices ≡ graph.now.vertices }
    requires inside { v < graph.now.vertices }
    requires ready { IsReady graph.now v (kept_paths book.old) }
    ensures settled { IfOk result
        (λ s. IsSettled graph.now birth (kept_paths book.old) (kept_paths book.new) s.formed s.promoted) }
    ensures vertices { OnOk result (book.new.arena.vertices ≡ book.old.arena.vertices) }
{
    if workers.many == MANY_PARTNERS {
        settle(
            workers.rt,
            workers.alloc,
            book,
            graph,
            v,
            birth,
            workers.count,
            workers.gate,
        )
    } else {
        settle_by(workers, book, graph, v, birth)
    }
}

/// Puts a star in place at a vertex that has no edges yet, and settles.
fn settle_star<R: Threads + Sync>(
    workers: &Workers<'_, R, OpenGate>,
    book: &mut Book,
    graph: &mut Graph,
    star: &Star,
    birth: u64,
) -> Result<Settled, Fail>
    requires star { star.now.vertices ≡ graph.old.vertices }
    requires book { book.old.arena.vertices ≡ graph.old.vertices }
    requires ready { (v : ℕ) → without_star graph.old v ≡ graph.old → IsReady graph.old v (kept_paths book.old) }
    ensures graph { graph.new.vertices ≡ graph.old.vertices }
    ensures book { OnOk result (book.new.arena.vertices ≡ book.old.arena.vertices) }
    ensures ready { OnOk result ((v : ℕ) → without_star graph.new v ≡ graph.new
        → IsReady graph.new v (kept_paths book.new)) }
{
    let v = star.vertex();
    if !has_none_at(graph, v) {
        return Err(Fail::from("the vertex has edges already"));
    }
    graph.apply(star);
    let settled = settle_with(workers, book, graph, v, birth)?;
    Ok(settled)
}

/// The star of v with these edges.
fn star_with(alloc: Global, n: u32, v: u32, edges: &[Edge]) -> Result<Star, Fail>
    requires count { IsVertexCount n }
    ensures vertices { IfOk result (λ s. s.vertices ≡ n) }
{
    let mut star = Star::new(alloc, n, v)?;
    'edges: for &edge in edges {
        put_edge(&mut star, edge)?;
    }
    Ok(star)
}

fn put_edge(star: &mut Star, edge: Edge) -> Result<(), Fail>
    ensures vertices { star.new.vertices ≡ star.old.vertices }
{
    let (from, to, weight) = edge;
    if from == star.vertex() {
        star.set_out(to, weight)?;
    } else {
        star.set_in(from, weight)?;
    }
    Ok(())
}

/// Settles step by step, and gives the book at the end and what each settling did.
fn settle_steps<R: Threads + Sync>(
    workers: &Workers<'_, R, OpenGate>,
    n: u32,
    steps: &[Step<'_>],
) -> Result<(Book, Vec<(u64, u64)>), Fail>
    requires count { IsVertexCount n }
    ensures vertices { IfOk result (λ t. t.0.arena.vertices ≡ n) }
{
    let (mut graph, mut book) = opening(workers.alloc, n)?;
    let mut all = Vec::new(workers.alloc);
    'steps: for &step in steps {
        let star = star_with(workers.alloc, n, step.vertex, step.edges)?;
        let settled = settle_star(workers, &mut book, &mut graph, &star, step.birth)?;
        all.push((settled.formed, settled.promoted))?;
    }
    Ok((book, all))
}

/// The birth of a list that is kept.
fn birth_of(book: &Book, n: u32, list: &[u32]) -> Option<u64>
    requires vertices { book.now.arena.vertices ≡ n }
{
    'list: for &v in list {
        if v >= n {
            return None;
        }
    }
    if list.is_empty() {
        return None;
    }
    book.birth_of(list)
}

/// The edges of the least kept path of a pair, where it is historical.
fn historical_hops(book: &Book, n: u32, x: u32, y: u32) -> Option<u32>
    requires vertices { book.now.arena.vertices ≡ n }
{
    if x >= n || y >= n {
        return None;
    }
    let id = book.least(x, y)?;
    if book.is_historical(id) {
        Some(book.arena().hops(id))
    } else {
        None
    }
}

/// Settles what the case says, and compares.
fn check_with<R: Threads + Sync + Abort>(
    workers: &Workers<'_, R, OpenGate>,
    case: &Case<'_>,
) -> Result<(), Fail> {
    let (rt, n) = (workers.rt, case.vertices);
    if n < 1 || n > MOST_VERTICES {
        return Err(Fail::from("no such number of vertices"));
    }
    let (book, settled) = settle_steps(workers, n, case.steps)?;
    assert_eq!(rt; settled.as_slice(), case.settled);
    assert_eq!(rt; (book.count_paths(), book.count_historical()), case.counts);
    for &(list, birth) in case.births {
        assert_eq!(rt; birth_of(&book, n, list), birth, "{list:?}");
    }
    for &(x, y, hops) in case.least {
        assert_eq!(rt;
            historical_hops(&book, n, x, y),
            Some(hops),
            "from {x} to {y}"
        );
    }
    Ok(())
}

/// So many workers, for classes with at least so many partners.
fn workers_of<'a, R>(
    rt: &'a R,
    alloc: Global,
    gate: &'a OpenGate,
    workers: u32,
    many: usize,
) -> Workers<'a, R, OpenGate>
    requires workers { IsWorkerCount workers }
{
    Workers {
        rt,
        alloc,
        count: workers,
        gate,
        many,
    }
}

/// Settles what the case says, by the caller alone and with each class listed by tasks.
fn check<R: Threads + Sync + Abort>(rt: &R, alloc: Global, case: &Case<'_>) -> Result<(), Fail> {
    let gate = &OpenGate;
    check_with(&workers_of(rt, alloc, gate, 1, MANY_PARTNERS), case)?;
    check_with(&workers_of(rt, alloc, gate, 2, 1), case)?;
    check_with(&workers_of(rt, alloc, gate, 7, 1), case)
}

/// Two edges of one weight are historical in one class, and their join is formed once.
#[test]
fn two_edges_are_joined_once(rt: HostRuntime) -> Result<(), Fail> {
    let case = Case {
        vertices: 3,
        steps: &[Step {
            vertex: 1,
            birth: 7,
            edges: &[(0, 1, 2), (1, 2, 2)],
        }],
        settled: &[(3, 3)],
        counts: (3, 3),
        births: &[(&[0, 1, 2], Some(7)), (&[0], Some(0))],
        least: &[(0, 2, 2)],
    };
    check(&rt, rt.alloc(), &case)
}

/// An edge there and one back make no path that comes back to its start.
#[test]
fn there_and_back_is_not_kept(rt: HostRuntime) -> Result<(), Fail> {
    let case = Case {
        vertices: 2,
        steps: &[Step {
            vertex: 0,
            birth: 1,
            edges: &[(0, 1, 1), (1, 0, 1)],
        }],
        settled: &[(2, 2)],
        counts: (2, 2),
        births: &[(&[1, 0], Some(1)), (&[0, 1, 0], None)],
        least: &[(0, 1, 1), (1, 0, 1)],
    };
    check(&rt, rt.alloc(), &case)
}

/// Two ways of one weight from 0 to 3: both are kept, and only the first list is historical.
#[test]
fn of_two_ways_one_is_historical(rt: HostRuntime) -> Result<(), Fail> {
    let case = Case {
        vertices: 4,
        steps: &[
            Step {
                vertex: 0,
                birth: 1,
                edges: &[(0, 1, 1), (0, 2, 2)],
            },
            Step {
                vertex: 3,
                birth: 2,
                edges: &[(1, 3, 2), (2, 3, 1)],
            },
        ],
        settled: &[(2, 2), (4, 3)],
        counts: (6, 5),
        births: &[
            (&[0, 1], Some(1)),
            (&[0, 1, 3], Some(2)),
            (&[0, 2, 3], Some(2)),
        ],
        least: &[(0, 3, 2)],
    };
    check(&rt, rt.alloc(), &case)
}

/// Ways of one weight from 0 to 2, with one edge and with two: the one edge is historical, and the
/// other way is kept. The way of that weight from 0 to 3, with two edges, is historical too.
#[test]
fn of_one_weight_fewer_edges_come_first(rt: HostRuntime) -> Result<(), Fail> {
    let case = Case {
        vertices: 4,
        steps: &[
            Step {
                vertex: 1,
                birth: 1,
                edges: &[(1, 2, 1), (1, 3, 1)],
            },
            Step {
                vertex: 0,
                birth: 2,
                edges: &[(0, 1, 1), (0, 2, 2)],
            },
        ],
        settled: &[(2, 2), (4, 3)],
        counts: (6, 5),
        births: &[(&[0, 1, 2], Some(2)), (&[0, 1, 3], Some(2))],
        least: &[(0, 2, 1), (0, 3, 2)],
    };
    check(&rt, rt.alloc(), &case)
}
