//! Tests of the arena by calls.

ghost use Rattle.std.specs.Prelude.{IfOk};
ghost use Rattle.path_arena.specs.Arena.{IsLive, HasAnEdge};

use crate::{Arena, PathId};
use apsp_model::Memory;
use std::alloc::Global;
use std::cmp::Ordering;
use std::test::Fail;

/// The edges 0 1 and 1 2 of weights 2 and 3, and their join.
#[derive(Drop)]
struct Joined {
    arena: Arena,
    left: PathId,
    right: PathId,
    joined: PathId,
}

fn joined_edges(alloc: Global) -> Result<Joined, Memory>
    ensures left { IfOk result (λ t. IsLive t.arena t.left) }
    ensures joined { IfOk result (λ t. HasAnEdge t.arena t.joined) }
    ensures live { IfOk result (λ t. IsLive t.arena t.joined) }
{
    let mut arena = Arena::new(alloc, 3)?;
    let left = arena.edge(0, 1, 2, 1)?;
    let right = arena.edge(1, 2, 3, 4)?;
    let joined = arena.join(left, right, 5)?;
    Ok(Joined {
        arena,
        left,
        right,
        joined,
    })
}

#[test]
fn a_join_is_read_back(rt: HostRuntime) -> Result<(), Fail> {
    let Joined {
        arena,
        left,
        right,
        joined,
    } = joined_edges(rt.alloc())?;
    assert_eq!(rt;
        (
            arena.weight(joined),
            arena.hops(joined),
            arena.birth(joined)
        ),
        (5, 2, 5)
    );
    assert_eq!(rt;
        (
            arena.first(joined),
            arena.second(joined),
            arena.last(joined)
        ),
        (0, 1, 2)
    );
    assert!(rt; arena.left_part(joined) == left && arena.right_part(joined) == right);
    let list: Vec<u32> = arena.vertices(joined).collect(rt.alloc())?;
    assert_eq!(rt; list.as_slice(), [0, 1, 2].as_slice());
    assert!(rt; arena.passes(joined, 1) && !arena.passes(left, 2));
    Ok(())
}

/// Paths from 0 to 3 that weigh the same.
#[derive(Drop)]
struct Ties {
    arena: Arena,
    through_one: PathId,
    through_two: PathId,
    direct: PathId,
}

fn tying_paths(alloc: Global) -> Result<Ties, Memory>
    ensures through_one { IfOk result (λ t. IsLive t.arena t.through_one) }
    ensures through_two { IfOk result (λ t. IsLive t.arena t.through_two) }
    ensures direct { IfOk result (λ t. IsLive t.arena t.direct) }
{
    let mut arena = Arena::new(alloc, 4)?;
    let (first, third) = (arena.edge(0, 1, 1, 1)?, arena.edge(1, 3, 2, 1)?);
    let through_one = arena.join(first, third, 1)?;
    let (second, fourth) = (arena.edge(0, 2, 2, 1)?, arena.edge(2, 3, 1, 1)?);
    let through_two = arena.join(second, fourth, 1)?;
    let direct = arena.edge(0, 3, 3, 2)?;
    Ok(Ties {
        arena,
        through_one,
        through_two,
        direct,
    })
}

#[test]
fn ties_go_by_hops_and_then_by_list(rt: HostRuntime) -> Result<(), Fail> {
    let Ties {
        arena,
        through_one,
        through_two,
        direct,
    } = tying_paths(rt.alloc())?;
    assert_eq!(rt; arena.compare(through_one, direct), Ordering::Greater);
    assert_eq!(rt; arena.compare(through_one, through_two), Ordering::Less);
    assert_eq!(rt; arena.compare(through_two, through_one), Ordering::Greater);
    assert_eq!(rt; arena.compare(direct, direct), Ordering::Equal);
    Ok(())
}
