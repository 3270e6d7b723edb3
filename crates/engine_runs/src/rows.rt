//! The engine on a small network, with and without smoothing.

use crate::calls::{grow, mend, put};
use apsp_model::MOST_VERTICES;
use graph_store::MakeError;
use history_engine::{Change, Counts, Engine};
use std::alloc::Global;
use std::marker::Sync;
use std::test::Fail;
use std::thread::Threads;
use version_face::{NO_DISTANCE, NO_HOPS, NO_NEXT, Version};

/// Three vertices, with an edge from 0 to 2 and then a lighter way by 1.
fn two_stars<R: Threads + Sync>(rt: &R, alloc: Global, smooth: bool) -> Result<Engine, Fail> {
    let mut engine = Engine::new(alloc, 3, smooth)?;
    put(rt, alloc, &mut engine, 0, &[(0, 1, 4), (0, 2, 9)])?;
    put(rt, alloc, &mut engine, 1, &[(0, 1, 4), (1, 2, 3)])?;
    Ok(engine)
}

/// What an engine that is not spent did and keeps.
fn counts(engine: &Engine) -> Option<Counts> {
    if engine.is_spent() {
        None
    } else {
        Some(engine.counts())
    }
}

/// The birth of a list that is kept.
fn birth(engine: &Engine, list: &[u32]) -> Option<u64> {
    let n = engine.vertices();
    'list: for &v in list {
        if v >= n {
            return None;
        }
    }
    if list.is_empty() || engine.is_spent() {
        return None;
    }
    engine.birth(list)
}

/// The weight of an edge.
fn weight(engine: &Engine, u: u32, v: u32) -> Option<u32> {
    let n = engine.vertices();
    if u >= n || v >= n {
        return None;
    }
    engine.graph().weight(u, v)
}

/// The least walk of a pair: its weight, its edges, whether it is historical, and whether it is the
/// list.
fn least(engine: &Engine, x: u32, y: u32, list: [u32; 2]) -> Option<(u64, u32, bool, bool)> {
    let n = engine.vertices();
    if x >= n || y >= n || engine.is_spent() {
        return None;
    }
    let least = engine.least(x, y)?;
    let historical = engine.book().is_historical(least.id());
    let same = least.vertices().eq(list);
    Some((least.weight(), least.hops(), historical, same))
}

/// The version of an engine that is not spent.
fn version_of(alloc: Global, engine: &Engine) -> Result<Version, Fail> {
    if engine.is_spent() {
        return Err(Fail::from("the engine is spent"));
    }
    let mut version = Version::new(alloc, engine.vertices())?;
    engine.fill(&mut version);
    Ok(version)
}

/// Whether a version has these rows for x.
fn are_rows(version: &Version, x: u32, dist: &[u64], hops: &[u32], next: &[u32]) -> bool {
    x < version.vertices()
        && version.dist_row(x) == dist
        && version.hops_row(x) == hops
        && version.next_row(x) == next
}

/// Whether the walk of a pair in a version is the list.
fn is_walk(version: &Version, x: u32, y: u32, list: [u32; 3]) -> bool {
    let n = version.vertices();
    x < n && y < n && version.walk(x, y).eq(list)
}

/// The weight of an edge of a version.
fn weight_in(version: &Version, u: u32, v: u32) -> Option<u32> {
    let n = version.vertices();
    if u >= n || v >= n {
        return None;
    }
    version.weight(u, v)
}

#[test]
fn counts_of_two_updates(rt: HostRuntime) -> Result<(), Fail> {
    let engine = two_stars(&rt, rt.alloc(), false)?;
    let wanted = Counts {
        updates: 2,
        steps: 2,
        paths: 4,
        historical: 4,
        formed: 3,
        removed: 1,
    };
    assert_eq!(rt; counts(&engine), Some(wanted));
    Ok(())
}

#[test]
fn a_path_outlives_what_was_lighter(rt: HostRuntime) -> Result<(), Fail> {
    let mut engine = two_stars(&rt, rt.alloc(), false)?;
    let change = put(&rt, rt.alloc(), &mut engine, 1, &[])?;
    let wanted = Change {
        number: 3,
        steps: 1,
        formed: 0,
        removed: 3,
    };
    assert_eq!(rt; change, wanted);
    assert_eq!(rt; (engine.number(), engine.vertices()), (3, 3));
    assert_eq!(rt; weight(&engine, 0, 2), Some(9));
    for (list, wanted) in [
        ([0, 2].as_slice(), Some(1)),
        (&[0, 1], None),
        (&[1], Some(0)),
    ] {
        assert_eq!(rt; birth(&engine, list), wanted, "{list:?}");
    }
    assert_eq!(rt; least(&engine, 2, 0, [2, 0]), None);
    assert_eq!(rt; least(&engine, 0, 2, [0, 2]), Some((9, 1, true, true)));
    Ok(())
}

#[test]
fn a_cleaning_step_forms_the_edge_again(rt: HostRuntime) -> Result<(), Fail> {
    let engine = two_stars(&rt, rt.alloc(), true)?;
    let wanted = Counts {
        updates: 2,
        steps: 3,
        paths: 4,
        historical: 3,
        formed: 6,
        removed: 4,
    };
    assert_eq!(rt; counts(&engine), Some(wanted));
    assert_eq!(rt; birth(&engine, &[0, 2]), Some(3));
    Ok(())
}

#[test]
fn a_mend_forgets_the_past(rt: HostRuntime) -> Result<(), Fail> {
    let mut engine = two_stars(&rt, rt.alloc(), false)?;
    let wanted = Change {
        number: 2,
        steps: 1,
        formed: 4,
        removed: 0,
    };
    assert_eq!(rt; mend(&rt, &mut engine)?, wanted);
    let wanted = Counts {
        updates: 2,
        steps: 3,
        paths: 4,
        historical: 3,
        formed: 3,
        removed: 1,
    };
    assert_eq!(rt; counts(&engine), Some(wanted));
    assert_eq!(rt; birth(&engine, &[0, 1]), Some(3));
    assert_eq!(rt; birth(&engine, &[0, 2]), Some(3));
    put(&rt, rt.alloc(), &mut engine, 1, &[])?;
    let wanted = Counts {
        updates: 3,
        steps: 4,
        paths: 1,
        historical: 1,
        formed: 0,
        removed: 3,
    };
    assert_eq!(rt; counts(&engine), Some(wanted));
    assert_eq!(rt; birth(&engine, &[0, 2]), Some(3));
    assert_eq!(rt; engine.steps(), 4);
    Ok(())
}

#[test]
fn a_grow_keeps_what_is_kept(rt: HostRuntime) -> Result<(), Fail> {
    let mut engine = Engine::new(rt.alloc(), 2, false)?;
    put(&rt, rt.alloc(), &mut engine, 0, &[(0, 1, 5)])?;
    let wanted = Change {
        number: 2,
        steps: 1,
        formed: 0,
        removed: 0,
    };
    assert_eq!(rt; grow(&mut engine, 4)?, wanted);
    let wanted = Counts {
        updates: 2,
        steps: 2,
        paths: 1,
        historical: 1,
        formed: 0,
        removed: 0,
    };
    assert_eq!(rt; counts(&engine), Some(wanted));
    put(&rt, rt.alloc(), &mut engine, 1, &[(0, 1, 5), (1, 3, 2)])?;
    assert_eq!(rt; least(&engine, 0, 1, [0, 1]), Some((5, 1, true, true)));
    let wanted = Counts {
        updates: 3,
        steps: 3,
        paths: 3,
        historical: 3,
        formed: 3,
        removed: 1,
    };
    assert_eq!(rt; counts(&engine), Some(wanted));
    assert_eq!(rt; birth(&engine, &[0, 1]), Some(3));
    Ok(())
}

#[test]
fn a_grow_cleans_nothing(rt: HostRuntime) -> Result<(), Fail> {
    let mut engine = Engine::new(rt.alloc(), 2, true)?;
    put(&rt, rt.alloc(), &mut engine, 0, &[(0, 1, 5)])?;
    grow(&mut engine, 3)?;
    put(&rt, rt.alloc(), &mut engine, 1, &[(0, 1, 5), (1, 2, 1)])?;
    let wanted = Counts {
        updates: 3,
        steps: 4,
        paths: 3,
        historical: 3,
        formed: 5,
        removed: 3,
    };
    assert_eq!(rt; counts(&engine), Some(wanted));
    Ok(())
}

#[test]
fn a_grow_copies_births_and_marks(rt: HostRuntime) -> Result<(), Fail> {
    let mut engine = two_stars(&rt, rt.alloc(), false)?;
    mend(&rt, &mut engine)?;
    grow(&mut engine, 5)?;
    let wanted = Counts {
        updates: 3,
        steps: 4,
        paths: 4,
        historical: 3,
        formed: 0,
        removed: 0,
    };
    assert_eq!(rt; counts(&engine), Some(wanted));
    assert_eq!(rt; birth(&engine, &[0, 1, 2]), Some(3));
    assert_eq!(rt; birth(&engine, &[4]), Some(0));
    Ok(())
}

#[test]
fn a_version_is_filled(rt: HostRuntime) -> Result<(), Fail> {
    let engine = two_stars(&rt, rt.alloc(), false)?;
    assert_eq!(rt; weight(&engine, 0, 2), Some(9));
    let version = version_of(rt.alloc(), &engine)?;
    assert_eq!(rt; version.number(), 2);
    assert_eq!(rt; weight_in(&version, 0, 2), Some(9));
    assert_eq!(rt; weight_in(&version, 2, 0), None);
    assert!(rt; are_rows(&version, 0, &[0, 4, 7], &[0, 1, 2], &[0, 1, 1]));
    let none = NO_DISTANCE;
    assert!(rt;
        are_rows(
            &version,
            2,
            &[none, none, 0],
            &[NO_HOPS, NO_HOPS, 0],
            &[NO_NEXT, NO_NEXT, 2]
        )
    );
    assert!(rt; is_walk(&version, 0, 2, [0, 1, 2]));
    Ok(())
}

#[test]
fn numbers_of_vertices(rt: HostRuntime) -> Result<(), Fail> {
    for (n, wanted) in [
        (0, Some(MakeError::Vertices)),
        (1, None),
        (MOST_VERTICES, None),
        (MOST_VERTICES + 1, Some(MakeError::Vertices)),
    ] {
        assert_eq!(rt; Engine::new(rt.alloc(), n, true).err(), wanted, "at {n}");
    }
    Ok(())
}
