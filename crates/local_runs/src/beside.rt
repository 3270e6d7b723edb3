//! The engine over drawn updates, beside that of locally historical paths and beside the definitions.

use crate::calls::{put, version_of};
use apsp_io::OpenGate;
use apsp_model::MOST_VERTICES;
use graph_store::Star;
use history_engine::Engine;
use local_engine::LocalEngine;
use std::alloc::Global;
use std::marker::Sync;
use std::test::Fail;
use std::thread::Threads;
use version_face::Version;

/// Drawn numbers are below this one.
const MODULUS: u32 = 65537;

/// What is drawn: so many vertices, and weights from the least on of which there are so many.
#[derive(Clone, Copy)]
struct Kind {
    vertices: u32,
    least: u64,
    weights: u64,
}

fn draw(last: &mut u32) -> u32 {
    *last = (75 * (*last % MODULUS) + 74) % MODULUS;
    *last
}

/// The star that is drawn next: its vertex, then an edge to each other vertex or none, then one from each or none.
fn drawn_star(alloc: Global, kind: Kind, last: &mut u32) -> Result<Star, Fail> {
    let n = kind.vertices;
    if n == 0 || n > MOST_VERTICES {
        return Err(Fail::from("no such star"));
    }
    let v = draw(last) % n;
    let mut star = Star::new(alloc, n, v)?;
    for out in [true, false] {
        for u in 0..n {
            if u != v {
                put_drawn(&mut star, kind, out, u, draw(last).into())?;
            }
        }
    }
    Ok(star)
}

/// Puts the edge that a number gives, if it gives one.
fn put_drawn(star: &mut Star, kind: Kind, out: bool, u: u32, number: u64) -> Result<(), Fail> {
    if number % 2 == 1 || kind.weights == 0 {
        return Ok(());
    }
    let weight = (number / 2 % kind.weights).saturating_add(kind.least);
    if out {
        star.set_out(u, weight)?;
    } else {
        star.set_in(u, weight)?;
    }
    Ok(())
}

/// Makes an update of the engine of locally historical paths, and gives its version.
fn put_beside<R: Threads + Sync>(
    rt: &R,
    alloc: Global,
    engine: &mut Engine,
    star: &Star,
) -> Result<Version, Fail> {
    if star.vertices() != engine.vertices() || engine.number() >= 1 << 40 {
        return Err(Fail::from("no such update"));
    }
    engine.star(rt, star, 1, &OpenGate)?;
    let mut version = Version::new(alloc, engine.vertices())?;
    if engine.is_spent() || version.vertices() != engine.graph().vertices() {
        return Err(Fail::from("no version"));
    }
    engine.fill(&mut version);
    Ok(version)
}

/// Whether two versions say the same.
fn agree(one: &Version, other: &Version) -> bool {
    let n = one.vertices();
    one.number() == other.number()
        && n == other.vertices()
        && (0..n).all(|x| rows_agree(one, other, x))
}

/// Whether they say the same of the edges and the walks from x.
fn rows_agree(one: &Version, other: &Version, x: u32) -> bool {
    let n = one.vertices();
    if x >= n || n != other.vertices() {
        return false;
    }
    one.dist_row(x) == other.dist_row(x)
        && one.hops_row(x) == other.hops_row(x)
        && one.next_row(x) == other.next_row(x)
        && (0..n).all(|y| y < n && one.weight(x, y) == other.weight(x, y))
}

#[test]
fn both_engines_answer_alike(rt: HostRuntime) -> Result<(), Fail> {
    let kind = Kind {
        vertices: 12,
        least: 1,
        weights: 1000,
    };
    let mut local = LocalEngine::new(rt.alloc(), kind.vertices)?;
    let mut history = Engine::new(rt.alloc(), kind.vertices, false)?;
    let mut last = 7;
    for _ in 0..2 * kind.vertices {
        let star = drawn_star(rt.alloc(), kind, &mut last)?;
        put(&rt, &mut local, &star)?;
        let version = put_beside(&rt, rt.alloc(), &mut history, &star)?;
        assert!(rt; agree(&version_of(rt.alloc(), &local)?, &version));
    }
    Ok(())
}

/// Whether so many paths are kept, and so many pairs have a walk, behind each update that a number draws.
fn keeps<R: Threads + Sync>(
    rt: &R,
    alloc: Global,
    kind: Kind,
    first: u32,
    wanted: &[(u64, u64)],
) -> Result<bool, Fail> {
    let mut engine = LocalEngine::new(alloc, kind.vertices)?;
    let mut last = first;
    for &(paths, shortest) in wanted {
        let star = drawn_star(alloc, kind, &mut last)?;
        let made = put(rt, &mut engine, &star)?;
        if made.paths != paths || made.shortest != shortest {
            return Ok(false);
        }
    }
    Ok(true)
}

// The numbers come from the definitions, by a program outside the repository that goes over all simple walks.
#[test]
fn many_ties_keep_what_the_definitions_say(rt: HostRuntime) -> Result<(), Fail> {
    let three = Kind {
        vertices: 7,
        least: 0,
        weights: 3,
    };
    let of_three = [
        (17, 17),
        (37, 30),
        (38, 30),
        (57, 42),
        (67, 42),
        (61, 42),
        (81, 42),
        (85, 42),
        (91, 42),
        (91, 42),
        (71, 42),
        (72, 42),
        (78, 42),
        (86, 42),
    ];
    assert!(rt; keeps(&rt, rt.alloc(), three, 7, &of_three)?);
    let two = Kind {
        vertices: 6,
        least: 0,
        weights: 2,
    };
    let of_two = [
        (3, 3),
        (10, 9),
        (28, 25),
        (28, 25),
        (31, 21),
        (31, 21),
        (44, 30),
        (45, 30),
        (41, 30),
        (42, 30),
        (41, 30),
        (45, 30),
    ];
    assert!(rt; keeps(&rt, rt.alloc(), two, 3, &of_two)?);
    Ok(())
}
