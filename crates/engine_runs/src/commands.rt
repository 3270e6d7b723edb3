//! Mends and grows at the start, in the middle and at the end of lists of commands, with and without smoothing. What is
//! wanted was computed from the definitions by listing all simple walks.

use crate::calls::{Edge, grow, mend, put};
use history_engine::{Change, Engine};
use std::alloc::Global;
use std::marker::Sync;
use std::test::Fail;
use std::thread::Threads;

/// An update or a mend.
#[derive(Clone, Copy, Debug)]
enum Command<'a> {
    /// The edges at a vertex are these.
    Star(u32, &'a [Edge]),
    /// There are so many vertices.
    Grow(u32),
    /// The kept paths are made anew.
    Mend,
}

/// What an engine says behind a command.
#[derive(Clone, Copy, Debug, PartialEq, Eq)]
struct Seen {
    /// Of the change: number, steps, formed, removed.
    change: [u64; 4],
    /// Updates, steps, paths, historical ones, formed, removed.
    counts: [u64; 6],
    /// Of the edges from 0 to 1 and from 2 to 1, and 0 where the edge is not kept.
    births: [u64; 2],
}

const fn wanted(change: [u64; 4], counts: [u64; 6], births: [u64; 2]) -> Seen {
    Seen {
        change,
        counts,
        births,
    }
}

fn make<R: Threads + Sync>(
    rt: &R,
    alloc: Global,
    engine: &mut Engine,
    command: Command<'_>,
) -> Result<Change, Fail> {
    match command {
        Command::Star(v, edges) => put(rt, alloc, engine, v, edges),
        Command::Grow(n) => grow(engine, n),
        Command::Mend => mend(rt, engine),
    }
}

/// What an engine that is not spent says behind a change.
fn said_behind(engine: &Engine, change: Change) -> Option<Seen> {
    if engine.is_spent() {
        return None;
    }
    let counts = engine.counts();
    Some(Seen {
        change: [change.number, change.steps, change.formed, change.removed],
        counts: [
            counts.updates,
            counts.steps,
            counts.paths,
            counts.historical,
            counts.formed,
            counts.removed,
        ],
        births: [birth(engine, 0, 1), birth(engine, 2, 1)],
    })
}

/// The birth of an edge, and 0 where it is not kept.
fn birth(engine: &Engine, u: u32, v: u32) -> u64 {
    let n = engine.vertices();
    if u >= n || v >= n || engine.is_spent() {
        return 0;
    }
    engine.birth(&[u, v]).unwrap_or(0)
}

/// Before the first grow the edge from 0 to 2 is historical and not least, but for the cleaning step.
#[test]
fn mends_around_a_grow(rt: HostRuntime) -> Result<(), Fail> {
    let rows = [
        (
            Command::Mend,
            wanted([0, 1, 0, 0], [0, 1, 0, 0, 0, 0], [0, 0]),
            wanted([0, 1, 0, 0], [0, 1, 0, 0, 0, 0], [0, 0]),
        ),
        (
            Command::Star(0, &[(0, 1, 0), (0, 2, 2), (2, 0, 1)]),
            wanted([1, 1, 4, 0], [1, 2, 4, 4, 4, 0], [2, 0]),
            wanted([1, 1, 4, 0], [1, 2, 4, 4, 4, 0], [2, 0]),
        ),
        (
            Command::Star(1, &[(0, 1, 1), (1, 2, 0), (2, 1, 0)]),
            wanted([2, 1, 7, 2], [2, 3, 9, 7, 7, 2], [3, 3]),
            wanted([2, 2, 13, 9], [2, 4, 8, 6, 13, 9], [4, 3]),
        ),
        (
            Command::Grow(4),
            wanted([3, 1, 0, 0], [3, 4, 9, 7, 0, 0], [3, 3]),
            wanted([3, 1, 0, 0], [3, 5, 8, 6, 0, 0], [4, 3]),
        ),
        (
            Command::Mend,
            wanted([3, 1, 8, 0], [3, 5, 8, 6, 0, 0], [5, 5]),
            wanted([3, 1, 8, 0], [3, 6, 8, 6, 0, 0], [6, 6]),
        ),
        (
            Command::Star(3, &[(0, 3, 0), (3, 2, 2), (1, 3, 1)]),
            wanted([4, 1, 11, 0], [4, 6, 19, 12, 11, 0], [5, 5]),
            wanted([4, 2, 23, 12], [4, 8, 19, 12, 23, 12], [8, 8]),
        ),
        (
            Command::Star(1, &[(0, 1, 1)]),
            wanted([5, 1, 3, 12], [5, 7, 10, 9, 3, 12], [7, 0]),
            wanted([5, 3, 18, 27], [5, 11, 10, 9, 18, 27], [11, 0]),
        ),
        (
            Command::Mend,
            wanted([5, 1, 10, 0], [5, 8, 10, 9, 3, 12], [8, 0]),
            wanted([5, 1, 10, 0], [5, 12, 10, 9, 18, 27], [12, 0]),
        ),
        (
            Command::Grow(5),
            wanted([6, 1, 0, 0], [6, 9, 10, 9, 0, 0], [8, 0]),
            wanted([6, 1, 0, 0], [6, 13, 10, 9, 0, 0], [12, 0]),
        ),
    ];
    for smooth in [false, true] {
        let mut engine = Engine::new(rt.alloc(), 3, smooth)?;
        for (command, plain, cleaned) in rows {
            let change = make(&rt, rt.alloc(), &mut engine, command)?;
            let wanted = if smooth { cleaned } else { plain };
            assert_eq!(rt; said_behind(&engine, change), Some(wanted), "{command:?}");
        }
    }
    Ok(())
}

/// Two grows, one behind the other, then a mend that forgets the edge from 1 to 2, and a mend at the end.
#[test]
fn grows_before_a_mend(rt: HostRuntime) -> Result<(), Fail> {
    let rows = [
        (
            Command::Star(0, &[(0, 1, 1), (1, 0, 0)]),
            wanted([1, 1, 2, 0], [1, 1, 2, 2, 2, 0], [1, 0]),
            wanted([1, 1, 2, 0], [1, 1, 2, 2, 2, 0], [1, 0]),
        ),
        (
            Command::Grow(3),
            wanted([2, 1, 0, 0], [2, 2, 2, 2, 0, 0], [1, 0]),
            wanted([2, 1, 0, 0], [2, 2, 2, 2, 0, 0], [1, 0]),
        ),
        (
            Command::Grow(4),
            wanted([3, 1, 0, 0], [3, 3, 2, 2, 0, 0], [1, 0]),
            wanted([3, 1, 0, 0], [3, 3, 2, 2, 0, 0], [1, 0]),
        ),
        (
            Command::Star(2, &[(0, 2, 0), (2, 1, 0), (1, 2, 2)]),
            wanted([4, 1, 6, 0], [4, 4, 8, 7, 6, 0], [1, 4]),
            wanted([4, 1, 6, 0], [4, 4, 8, 7, 6, 0], [1, 4]),
        ),
        (
            Command::Mend,
            wanted([4, 1, 8, 0], [4, 5, 8, 6, 6, 0], [5, 5]),
            wanted([4, 1, 8, 0], [4, 5, 8, 6, 6, 0], [5, 5]),
        ),
        (
            Command::Star(3, &[(3, 0, 0), (2, 3, 1), (1, 3, 1)]),
            wanted([5, 1, 10, 0], [5, 6, 18, 12, 10, 0], [5, 5]),
            wanted([5, 3, 36, 26], [5, 8, 18, 12, 36, 26], [8, 7]),
        ),
        (
            Command::Star(1, &[(0, 1, 0), (1, 3, 2)]),
            wanted([6, 1, 7, 12], [6, 7, 13, 12, 7, 12], [7, 0]),
            wanted([6, 3, 25, 30], [6, 11, 13, 12, 25, 30], [9, 0]),
        ),
        (
            Command::Star(2, &[(2, 1, 1), (0, 2, 0)]),
            wanted([7, 1, 7, 7], [7, 8, 13, 12, 7, 7], [7, 8]),
            wanted([7, 3, 26, 26], [7, 14, 13, 12, 26, 26], [13, 13]),
        ),
        (
            Command::Mend,
            wanted([7, 1, 13, 0], [7, 9, 13, 12, 7, 7], [9, 9]),
            wanted([7, 1, 13, 0], [7, 15, 13, 12, 26, 26], [15, 15]),
        ),
    ];
    for smooth in [false, true] {
        let mut engine = Engine::new(rt.alloc(), 2, smooth)?;
        for (command, plain, cleaned) in rows {
            let change = make(&rt, rt.alloc(), &mut engine, command)?;
            let wanted = if smooth { cleaned } else { plain };
            assert_eq!(rt; said_behind(&engine, change), Some(wanted), "{command:?}");
        }
    }
    Ok(())
}
