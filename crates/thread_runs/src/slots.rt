//! Two rights to read one slot at once.

ghost use Rattle.std.specs.Prelude.{All, IfSome};
ghost use Rattle.version_pool.specs.Pooled.{IsReaderOf};

use graph_store::{Graph, Plan};
use pin_cells::{Cells, Tally};
use std::alloc::Global;
use std::test::Fail;
use version_face::Version;
use version_pool::{Pool, PoolParts, Reader};

/// The numbers that two pins of one slot show, both there at once.
fn pin_twice(cells: &Cells<'_>, slot: u32, tally: &mut Tally) -> Option<(u64, u64)> {
    if slot >= cells.slots() {
        return None;
    }
    let first = cells.pin_any(slot, tally)?;
    let Some(second) = cells.pin_any(slot, tally) else {
        first.leave();
        return None;
    };
    let numbers = (first.version().number(), second.version().number());
    second.leave();
    first.leave();
    Some(numbers)
}

#[test]
fn a_slot_is_pinned_twice_at_once(rt: HostRuntime) -> Result<(), Fail> {
    let alloc = rt.alloc();
    let plan = Plan::new(alloc, &Graph::new(alloc, 3)?, 0)?;
    let cells = Cells::new(alloc, 2, &plan, &Version::new(alloc, 3)?)?;
    let mut tally = Tally::new();
    for slot in [0, 1] {
        assert_eq!(rt;
            pin_twice(&cells, slot, &mut tally),
            Some((0, 0)),
            "slot {slot}"
        );
        assert_eq!(rt; (tally.lost(), tally.other()), (0, 0), "slot {slot}");
    }
    Ok(())
}

/// The last of these readers.
fn take_reader(pool: &Pool<'_>, readers: &mut Vec<Reader>) -> Option<Reader>
    requires { All (IsReaderOf pool.now) readers.old.items }
    ensures left { All (IsReaderOf pool.now) readers.new.items }
    ensures of_pool { IfSome result (IsReaderOf pool.now) }
{
    readers.pop()
}

/// The numbers that two readers hold, both at once.
fn hold_both(
    pool: &Pool<'_>,
    one: &mut Reader,
    other: &mut Reader,
    tally: &mut Tally,
) -> Option<(u64, u64)>
    requires one { IsReaderOf pool.now one.old }
    requires other { IsReaderOf pool.now other.old }
{
    let Ok(first) = one.try_hold(pool, tally) else {
        return None;
    };
    let Ok(second) = other.try_hold(pool, tally) else {
        first.release();
        return None;
    };
    let numbers = (first.version().number(), second.version().number());
    second.release();
    first.release();
    Some(numbers)
}

/// What two readers of a new pool hold at once, with the turns that were lost and the pins of
/// another number.
fn held_twice(alloc: Global) -> Result<Option<(u64, u64, u64, u64)>, Fail> {
    let plan = Plan::new(alloc, &Graph::new(alloc, 3)?, 0)?;
    let first = Version::new(alloc, 3)?;
    let PoolParts {
        pool,
        publisher: _,
        mut readers,
    } = Pool::new(alloc, 2, 2, &plan, &first)?;
    let Some(mut one) = take_reader(&pool, &mut readers) else {
        return Ok(None);
    };
    let Some(mut other) = take_reader(&pool, &mut readers) else {
        return Ok(None);
    };
    let mut tally = Tally::new();
    let Some((a, b)) = hold_both(&pool, &mut one, &mut other, &mut tally) else {
        return Ok(None);
    };
    Ok(Some((a, b, tally.lost(), tally.other())))
}

#[test]
fn a_version_is_held_twice_at_once(rt: HostRuntime) -> Result<(), Fail> {
    assert_eq!(rt; held_twice(rt.alloc())?, Some((0, 0, 0, 0)));
    Ok(())
}
