//! What is kept of small networks, and the walks of a larger one.

use crate::calls::{Update, counts, engine_behind, is_kept, put, star_of, version_of, walk};
use apsp_model::MOST_VERTICES;
use graph_store::{MakeError, Star};
use local_engine::{LocalChange, LocalEngine};
use std::alloc::Global;
use std::test::Fail;

fn change(number: u64, paths: u64, shortest: u64) -> LocalChange {
    LocalChange {
        number,
        paths,
        shortest,
    }
}

/// Two ways from 0 to 2, the later one of less weight, and then a way on from 2 to 3.
const THREE_STARS: [Update<'static>; 3] = [
    (0, &[(0, 1, 4), (0, 2, 9)]),
    (1, &[(1, 2, 3), (0, 1, 4)]),
    (3, &[(2, 3, 1)]),
];

/// Two ways from 0 to 3 of equal weight.
const TIED: [Update<'static>; 2] = [(0, &[(0, 1, 1), (0, 2, 2)]), (3, &[(1, 3, 2), (2, 3, 1)])];

#[test]
fn so_many_paths_are_kept(rt: HostRuntime) -> Result<(), Fail> {
    let alone: [Update<'_>; 1] = [(0, &[])];
    let way: [Update<'_>; 1] = [(1, &[(0, 1, 2), (1, 2, 2)])];
    let round: [Update<'_>; 1] = [(0, &[(0, 1, 1), (1, 0, 1)])];
    let of_no_weight: [Update<'_>; 2] = [
        (1, &[(0, 1, 0), (1, 2, 0)]),
        (0, &[(0, 1, 0), (0, 2, 0)]),
    ];
    for (n, updates, wanted) in [
        (1, alone.as_slice(), change(1, 0, 0)),
        (3, &THREE_STARS[..2], change(2, 4, 3)),
        (4, &THREE_STARS, change(3, 7, 6)),
        (4, &TIED, change(2, 6, 5)),
        (3, &way, change(1, 3, 3)),
        (2, &round, change(1, 2, 2)),
        (3, &of_no_weight, change(2, 4, 3)),
    ] {
        let engine = engine_behind(&rt, rt.alloc(), n, updates)?;
        assert_eq!(rt; counts(&engine)?, wanted);
    }
    Ok(())
}

// The path 0 2 was a least walk before 0 1 2 was there.
#[test]
fn the_past_is_forgotten(rt: HostRuntime) -> Result<(), Fail> {
    let engine = engine_behind(&rt, rt.alloc(), 4, &THREE_STARS)?;
    for (list, wanted) in [
        ([0, 2].as_slice(), true),
        (&[0, 1, 2, 3], true),
        (&[0, 2, 3], false),
        (&[3], true),
        (&[3, 2], false),
    ] {
        assert_eq!(rt; is_kept(&engine, list)?, wanted);
    }
    Ok(())
}

/// The number of columns and of rows of a road network.
const COLUMNS: u32 = 10;

const ROWS: u32 = 6;

/// The streets at a crossing: 100 along a row, 150 along a column, both ways.
fn streets(alloc: Global, v: u32) -> Result<Star, Fail> {
    let (row, column) = (v / COLUMNS, v % COLUMNS);
    let mut star = star_of(alloc, ROWS * COLUMNS, &(v, &[]))?;
    for u in 0..ROWS * COLUMNS {
        let (rows, columns) = (row.abs_diff(u / COLUMNS), column.abs_diff(u % COLUMNS));
        let weight = match (rows, columns) {
            (0, 1) => 100,
            (1, 0) => 150,
            _ => continue,
        };
        star.set_out(u, weight)?;
        star.set_in(u, weight)?;
    }
    Ok(star)
}

#[test]
fn walks_of_a_road_network(rt: HostRuntime) -> Result<(), Fail> {
    let last = ROWS * COLUMNS - 1;
    let mut engine = LocalEngine::new(rt.alloc(), ROWS * COLUMNS)?;
    for v in 0..ROWS * COLUMNS {
        let star = streets(rt.alloc(), v)?;
        put(&rt, &mut engine, &star)?;
    }
    let version = version_of(rt.alloc(), &engine)?;
    let along = [0, 1, 2, 3, 4, 5, 6, 7, 8, 9, 19, 29, 39, 49, 59];
    assert_eq!(rt;
        walk(rt.alloc(), &version, 0, last)?.as_slice(),
        along.as_slice()
    );
    assert_eq!(rt; counts(&engine)?.shortest, u64::from(last * (last + 1)));
    put(
        &rt,
        &mut engine,
        &star_of(rt.alloc(), ROWS * COLUMNS, &(9, &[]))?,
    )?;
    let round = [0, 1, 2, 3, 4, 5, 6, 7, 8, 18, 19, 29, 39, 49, 59];
    let version = version_of(rt.alloc(), &engine)?;
    assert_eq!(rt;
        walk(rt.alloc(), &version, 0, last)?.as_slice(),
        round.as_slice()
    );
    assert!(rt; walk(rt.alloc(), &version, 0, 9)?.is_empty());
    Ok(())
}

#[test]
fn numbers_of_vertices(rt: HostRuntime) -> Result<(), Fail> {
    for (n, wanted) in [
        (0, Some(MakeError::Vertices)),
        (1, None),
        (MOST_VERTICES, None),
        (MOST_VERTICES + 1, Some(MakeError::Vertices)),
    ] {
        assert_eq!(rt; LocalEngine::new(rt.alloc(), n).err(), wanted);
    }
    Ok(())
}
