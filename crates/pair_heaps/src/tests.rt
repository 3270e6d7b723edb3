//! Paths of one pair: forty, and the least of them until none is left; three, as their heap has them;
//! eleven, of which each is told whether it is the least.

ghost use Rattle.std.specs.Prelude.{◌≡◌, OnOk};
ghost use Rattle.pair_heaps.specs.Heaps.{HeapsFit};

use crate::Heaps;
use apsp_model::Memory;
use path_arena::{Arena, PathId};
use std::test::Fail;

/// One more path from 0 to 2.
fn add(arena: &mut Arena, heaps: &mut Heaps, w: u32) -> Result<PathId, Memory>
    requires fits { HeapsFit heaps.old arena.old }
    requires three { arena.old.vertices ≡ 3 }
    ensures fits { OnOk result (HeapsFit heaps.new arena.new) }
    ensures three { OnOk result (arena.new.vertices ≡ 3) }
{
    let id = arena.edge(0, 2, w, 1)?;
    heaps.reserve(0, 2)?;
    heaps.insert(arena, id)?;
    Ok(id)
}

/// One more path from 0 to 2, and whether it is the least now.
fn add_told(arena: &mut Arena, heaps: &mut Heaps, w: u32) -> Result<bool, Memory>
    requires fits { HeapsFit heaps.old arena.old }
    requires three { arena.old.vertices ≡ 3 }
    ensures fits { OnOk result (HeapsFit heaps.new arena.new) }
    ensures three { OnOk result (arena.new.vertices ≡ 3) }
{
    let id = arena.edge(0, 2, w, 1)?;
    let (x, y) = (arena.first(id), arena.last(id));
    let room = heaps.reserve_room(x, y)?;
    Ok(heaps.insert_into(arena, id, room))
}

/// The weight of the path at a place of the heap, which is taken out, and whether it was the least.
fn take_told(arena: &Arena, heaps: &mut Heaps, place: usize) -> Option<(u64, bool)>
    requires fits { HeapsFit heaps.old arena.now }
    requires three { arena.now.vertices ≡ 3 }
    ensures { HeapsFit heaps.new arena.now }
{
    let id = *heaps.held(0, 2).get(place)?;
    let told = heaps.remove_between(arena, id, 0, 2);
    Some((arena.weight(id), told))
}

/// The weight of the least path from 0 to 2, which is taken out.
fn take_least(arena: &Arena, heaps: &mut Heaps) -> Option<u64>
    requires fits { HeapsFit heaps.old arena.now }
    requires three { arena.now.vertices ≡ 3 }
    ensures { HeapsFit heaps.new arena.now }
{
    let id = heaps.least(0, 2)?;
    heaps.remove(arena, id);
    Some(arena.weight(id))
}

/// The weight of the path at a place of the heap, which is taken out.
fn take_at(arena: &Arena, heaps: &mut Heaps, place: usize) -> Option<u64>
    requires fits { HeapsFit heaps.old arena.now }
    requires three { arena.now.vertices ≡ 3 }
    ensures { HeapsFit heaps.new arena.now }
{
    let id = *heaps.held(0, 2).get(place)?;
    heaps.remove(arena, id);
    Some(arena.weight(id))
}

fn least_weight(arena: &Arena, heaps: &Heaps) -> Option<u64>
    requires fits { HeapsFit heaps.now arena.now }
    requires three { arena.now.vertices ≡ 3 }
{
    let id = heaps.least(0, 2)?;
    Some(arena.weight(id))
}

/// Whether the least path has the least of these weights until none is left, where the paths are taken
/// out from all places of the heap.
fn agree(arena: &Arena, heaps: &mut Heaps, weights: &mut Vec<u64>) -> bool
    requires fits { HeapsFit heaps.old arena.now }
    requires three { arena.now.vertices ≡ 3 }
{
    'emptying: for left in (1..41usize).rev() {
        if least_weight(arena, heaps) != weights.iter().copied().min() {
            return false;
        }
        let gone = take_at(arena, heaps, 29 % left);
        match weights.iter().position(|w| Some(*w) == gone) {
            Some(at) => {
                let _ = weights.swap_remove(at);
            }
            None => return false,
        }
    }
    weights.is_empty() && heaps.least(0, 2).is_none()
}

/// Whether of each path that is taken out it is told that it was the least exactly where it has the
/// least of these weights, until none is left.
fn tells(arena: &Arena, heaps: &mut Heaps, weights: &mut Vec<u64>) -> bool
    requires fits { HeapsFit heaps.old arena.now }
    requires three { arena.now.vertices ≡ 3 }
{
    // Places of the heap, first and others.
    'emptying: for place in [3usize, 0, 5, 0, 0, 2, 1, 0, 1, 1, 0] {
        let least = weights.iter().copied().min();
        match take_told(arena, heaps, place) {
            Some((gone, told)) if told == (least == Some(gone)) => weights.retain(|w| *w != gone),
            _ => return false,
        }
    }
    weights.is_empty() && heaps.least(0, 2).is_none()
}

/// Whether the least paths have these weights until none is left.
fn comes_out(arena: &Arena, heaps: &mut Heaps, weights: &[u32]) -> bool
    requires fits { HeapsFit heaps.old arena.now }
    requires three { arena.now.vertices ≡ 3 }
{
    'emptying: for w in weights {
        if take_least(arena, heaps) != Some(u64::from(*w)) {
            return false;
        }
    }
    heaps.least(0, 2).is_none()
}

#[test]
fn forty_paths(rt: HostRuntime) -> Result<(), Fail> {
    let mut arena = Arena::new(rt.alloc(), 3)?;
    let mut heaps = Heaps::new(rt.alloc(), 3)?;
    assert!(rt; heaps.least(0, 2).is_none());
    // 13 k mod 41 takes each of 1 to 40 once, and 0 never; some weights come twice.
    let mut weights = Vec::new(rt.alloc());
    'filling: for k in 1..41u32 {
        let w = (13 * k % 41) / 2 + 1;
        let _ = add(&mut arena, &mut heaps, w)?;
        weights.push(w)?;
    }
    weights.sort()?;
    assert!(rt; heaps.least(2, 0).is_none());
    assert!(rt; comes_out(&arena, &mut heaps, &weights));
    Ok(())
}

#[test]
fn forty_paths_in_another_order(rt: HostRuntime) -> Result<(), Fail> {
    let mut arena = Arena::new(rt.alloc(), 3)?;
    let mut heaps = Heaps::new(rt.alloc(), 3)?;
    let mut weights = Vec::new(rt.alloc());
    'filling: for k in 1..41u32 {
        let w = (13 * k % 41) / 2 + 1;
        let _ = add(&mut arena, &mut heaps, w)?;
        weights.push(u64::from(w))?;
    }
    assert!(rt; agree(&arena, &mut heaps, &mut weights));
    Ok(())
}

#[test]
fn each_is_told_whether_it_is_the_least(rt: HostRuntime) -> Result<(), Fail> {
    let mut arena = Arena::new(rt.alloc(), 3)?;
    let mut heaps = Heaps::new(rt.alloc(), 3)?;
    let mut weights = Vec::new(rt.alloc());
    // Each of eleven weights, and whether it is below those before it.
    let rows = [
        (50, true),
        (70, false),
        (30, true),
        (60, false),
        (40, false),
        (20, true),
        (80, false),
        (10, true),
        (90, false),
        (5, true),
        (15, false),
    ];
    'filling: for (w, least) in rows {
        assert_eq!(rt; add_told(&mut arena, &mut heaps, w)?, least, "{w} put in");
        weights.push(u64::from(w))?;
    }
    assert!(rt; tells(&arena, &mut heaps, &mut weights));
    Ok(())
}

#[test]
fn held_is_a_heap(rt: HostRuntime) -> Result<(), Fail> {
    let mut arena = Arena::new(rt.alloc(), 3)?;
    let mut heaps = Heaps::new(rt.alloc(), 3)?;
    let least = add(&mut arena, &mut heaps, 1)?;
    let greatest = add(&mut arena, &mut heaps, 9)?;
    let middle = add(&mut arena, &mut heaps, 5)?;
    // A list in the order of paths has the middle one before the greatest.
    assert!(rt; heaps.held(0, 2) == [least, greatest, middle].as_slice());
    Ok(())
}
