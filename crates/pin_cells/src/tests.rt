ghost use Rattle.pin_cells.specs.Pinned.{IsOfPlan};

use super::*;
use graph_store::{Graph, Plan};
use std::test::Fail;
use std::thread::{Threads, join};
use version_face::Version;

/// The number of the version in the slot, if a pin on it was won.
fn pinned_number(cells: &Cells<'_>, slot: u32, tally: &mut Tally) -> Option<u64> {
    if slot >= cells.slots() {
        return None;
    }
    let pin = cells.pin_any(slot, tally)?;
    let number = pin.version().number();
    pin.leave();
    Some(number)
}

/// Whether the version of the slot has this number, in so far as a pin tells.
fn shows(cells: &Cells<'_>, slot: u32, number: u64, tally: &mut Tally) -> bool {
    if slot >= cells.slots() {
        return false;
    }
    match cells.try_pin(slot, number, tally) {
        Some(pin) => {
            pin.leave();
            true
        }
        None => false,
    }
}

/// Whether a claim of the slot was won, and a pin and a claim lost meanwhile.
fn claims_alone(cells: &Cells<'_>, slot: u32, spare: Version, tally: &mut Tally) -> Option<bool>
    requires { IsOfPlan cells.now.plan spare }
{
    if slot >= cells.slots() {
        return None;
    }
    let claimed = cells.try_claim(slot, tally)?;
    let pinned = pinned_number(cells, slot, tally).is_some();
    claimed.put(spare);
    Some(!pinned)
}

fn pin_on_two_threads<R: Threads + Sync>(rt: &R, cells: &Cells<'_>) -> (bool, bool) {
    let run = || {
        let mut tally = Tally::new();
        shows(cells, 1, 0, &mut tally) || tally.lost() == 1
    };
    join(rt, &run, &run)
}

#[test]
fn pins_and_claims_of_one_thread(rt: HostRuntime) -> Result<(), Fail> {
    let alloc = rt.alloc();
    let plan = Plan::new(alloc, &Graph::new(alloc, 3)?, 0)?;
    let first = Version::new(alloc, 3)?;
    let cells = Cells::new(alloc, 2, &plan, &first)?;
    let mut tally = Tally::new();
    for slot in [0, 1] {
        assert_eq!(rt;
            pinned_number(&cells, slot, &mut tally),
            Some(0),
            "slot {slot}"
        );
        assert!(rt; shows(&cells, slot, 0, &mut tally), "slot {slot}");
        assert_eq!(rt; (tally.lost(), tally.other()), (0, 0));
    }
    assert!(rt; !shows(&cells, 1, 7, &mut tally));
    assert_eq!(rt; (tally.lost(), tally.other()), (0, 1));

    // Nobody else gets a slot that is claimed, and the turn is counted as lost.
    let spare = Version::new(alloc, 3)?;
    assert_eq!(rt; claims_alone(&cells, 1, spare, &mut tally), Some(true));
    assert_eq!(rt; (tally.lost(), tally.other()), (1, 1));
    assert!(rt; shows(&cells, 1, 0, &mut tally));
    Ok(())
}

#[test]
fn two_threads_pin_one_slot(rt: HostRuntime) -> Result<(), Fail> {
    let alloc = rt.alloc();
    let plan = Plan::new(alloc, &Graph::new(alloc, 3)?, 0)?;
    let cells = Cells::new(alloc, 2, &plan, &Version::new(alloc, 3)?)?;
    assert_eq!(rt; pin_on_two_threads(&rt, &cells), (true, true));
    Ok(())
}
