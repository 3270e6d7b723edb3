//! Classes of edges.

ghost use Rattle.std.specs.Prelude.{◌≡◌, ◌≢◌, ◌<◌, OnOk};
ghost use Rattle.weight_classes.specs.Classes.{ClassesFit};

use crate::Classes;
use apsp_model::Memory;
use path_arena::{Arena, PathId};
use std::test::Fail;

/// Holds one more edge of a graph of three vertices.
fn add(arena: &mut Arena, classes: &mut Classes, u: u32, v: u32, w: u32) -> Result<PathId, Memory>
    requires fits { ClassesFit classes.old arena.old }
    requires three { arena.old.vertices ≡ 3 }
    requires from { u < 3 }
    requires to { v < 3 }
    requires apart { u ≢ v }
    ensures fits { OnOk result (ClassesFit classes.new arena.new) }
    ensures three { OnOk result (arena.new.vertices ≡ 3) }
{
    let id = arena.edge(u, v, w, 1)?;
    classes.push(arena, id)?;
    Ok(id)
}

/// Whether the next class has this weight, paths of this many edges and these winners.
fn comes(arena: &Arena, classes: &mut Classes, weight: u64, hops: u32, winners: &[PathId]) -> bool
    requires { ClassesFit classes.old arena.now }
    ensures { ClassesFit classes.new arena.now }
{
    let class = classes.pop_class(arena);
    class.is_some_and(|class| {
        class.weight() == weight && class.hops() == hops && class.winners() == winners
    })
}

#[test]
fn three_classes(rt: HostRuntime) -> Result<(), Fail> {
    let mut arena = Arena::new(rt.alloc(), 3)?;
    let mut classes = Classes::new(rt.alloc(), 3)?;
    let late = add(&mut arena, &mut classes, 1, 2, 7)?;
    let early = add(&mut arena, &mut classes, 0, 1, 7)?;
    let other = add(&mut arena, &mut classes, 2, 0, 8)?;
    let _ = add(&mut arena, &mut classes, 0, 1, 9)?;
    assert!(rt; comes(&arena, &mut classes, 7, 1, &[early, late]));
    assert!(rt; comes(&arena, &mut classes, 8, 1, &[other]));
    assert!(rt; comes(&arena, &mut classes, 9, 1, &[]));
    assert!(rt; classes.pop_class(&arena).is_none());
    classes.restart();
    assert!(rt; classes.pop_class(&arena).is_none());
    Ok(())
}

#[test]
fn classes_come_by_weight(rt: HostRuntime) -> Result<(), Fail> {
    let mut arena = Arena::new(rt.alloc(), 3)?;
    let mut classes = Classes::new(rt.alloc(), 3)?;
    let fourth = add(&mut arena, &mut classes, 0, 1, 5)?;
    let third = add(&mut arena, &mut classes, 1, 0, 3)?;
    let fifth = add(&mut arena, &mut classes, 0, 2, 8)?;
    let first = add(&mut arena, &mut classes, 2, 0, 1)?;
    let sixth = add(&mut arena, &mut classes, 1, 2, 9)?;
    let second = add(&mut arena, &mut classes, 2, 1, 2)?;
    assert!(rt; comes(&arena, &mut classes, 1, 1, &[first]));
    assert!(rt; comes(&arena, &mut classes, 2, 1, &[second]));
    assert!(rt; comes(&arena, &mut classes, 3, 1, &[third]));
    assert!(rt; comes(&arena, &mut classes, 5, 1, &[fourth]));
    assert!(rt; comes(&arena, &mut classes, 8, 1, &[fifth]));
    assert!(rt; comes(&arena, &mut classes, 9, 1, &[sixth]));
    assert!(rt; classes.pop_class(&arena).is_none());
    Ok(())
}
