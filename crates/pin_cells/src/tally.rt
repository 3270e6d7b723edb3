//! Turns that were lost, pins that had another number than was asked, and the pins themselves.

ghost use Rattle.std.specs.Prelude.{◌≡◌, ◌≢◌, ℕ, ◌<◌, replicate, if◌then◌else◌, None, IfSome, IfNone};
ghost use Rattle.graph_store.specs.Plan.{IsVersionOf};
ghost use Rattle.apsp_model.specs.declared.TheConstants.{MOST_SLOTS};
ghost use Rattle.pin_cells.specs.Tallied.{Tally as Tally_seen, lost_of, LosesAt, MeetsOther};
ghost use Rattle.pin_cells.specs.Pinned.{IsOfPlan};

use crate::cells::Kept;
use apsp_model::MOST_SLOTS;
use counted_slot::{Claim, Counted, FREE, MOST_READERS, ONE_READER, PRESENT, TAKEN};
use std::marker::Model;
use std::snapshot::Snapshot;
use version_face::Version;

/// An ask for a number that met a pin of another one.
#[derive(Clone, Copy)]
struct LastAsk {
    slot: u32,
    asked: u64,
    found: u64,
}

/// How often tries got nothing, and why: the turns that were lost at each slot, and the pins that
/// had another number than was asked. Only the calls of this crate raise it. Each count stays at
/// its last value.
#[derive(Drop)]
pub struct Tally {
    lost: [u64; MOST_SLOTS as usize],
    other: u64,
    ask: Option<LastAsk>,
}

impl Model for Tally {
    ghost use Rattle.std.specs.Prelude.{◌≢◌, IfSome};
    ghost use Rattle.pin_cells.specs.Tallied.{Tally as Tally_seen};
    ghost use Rattle.pin_cells.specs.TallyView.{tally_seen};

    ghost Value = { Tally_seen };

    ghost view = { tally_seen };

    ghost invariant = { λ t. IfSome t.ask (λ a. a.found ≢ a.asked) };
}

impl Tally {
    /// Nothing was lost so far. Takes no memory.
    pub fn new() -> Tally
        ensures { result ≡ record { lost = replicate MOST_SLOTS 0; other = 0; ask = None } }
    {
        Tally {
            lost: [0; MOST_SLOTS as usize],
            other: 0,
            ask: None,
        }
    }

    /// How many turns were lost, over all slots, with a look at each.
    pub fn lost(&self) -> u64
        ensures lost { result ≡ lost_of self.now }
        ensures differ { IfSome self.now.ask (λ a. a.found ≢ a.asked) }
    {
        let mut all = 0u64;
        for count in self.lost {
            all = all.saturating_add(count);
        }
        all
    }

    /// How often a pin had another number than was asked.
    pub fn other(&self) -> u64
        ensures other { result ≡ self.now.other }
        ensures differ { IfSome self.now.ask (λ a. a.found ≢ a.asked) }
    {
        self.other
    }

    fn lose(&mut self, slot: u32)
        requires { slot < MOST_SLOTS }
        ensures { LosesAt self.old self.new slot }
    {
        let at = slot as usize;
        self.lost[at] = self.lost[at].saturating_add(1);
    }
}

/// One try for the right to read, or to write, the value of a slot. It is the only place where a
/// turn is counted as lost.
pub(crate) fn turn_once<'a>(
    cell: &'a Counted<Kept>,
    slot: u32,
    to_write: bool,
    tally: &mut Tally,
) -> Option<Claim<'a, Kept>>
    requires { slot < MOST_SLOTS }
    ensures gained { IfSome result (λ c. (c.right ≡ (if to_write then 2 else 1)) × (c.tag ≡ cell.now)) }
    ensures kept { IfSome result (λ _. tally.new ≡ tally.old) }
    ensures lost { IfNone result (LosesAt tally.old tally.new slot) }
{
    let seen = cell.load();
    let may = if to_write {
        seen == PRESENT || seen == FREE
    } else {
        seen % 4 == PRESENT && seen % 0x1_0000_0000 / 4 < MOST_READERS
    };
    if may {
        let next = if to_write { TAKEN } else { seen + ONE_READER };
        let (found, claim) = cell.turn(seen, next);
        if found == seen {
            return Some(claim);
        }
        claim.done();
    }
    tally.lose(slot);
    None
}

/// The right to read a slot. While it is held, its version stays as it is. It has to be spent by
/// `leave` or `differs`.
pub struct Pin<'a> {
    slot: u32,
    claim: Claim<'a, Kept>,
    shown: Snapshot<Version>,
}

impl<'a> Model for Pin<'a> {
    ghost use Rattle.std.specs.Prelude.{◌≡◌, Some};
    ghost use Rattle.pin_cells.specs.Pinned.{Pin as Pin_seen, pin_code};

    ghost Value = { Pin_seen };

    ghost coded = { pin_code };

    ghost view = { λ p. record { slot = p.slot; version = p.shown.value } };

    ghost invariant = { λ p. (p.claim.right ≡ 1) × (p.claim.value ≡ Some (record { version = p.shown.value })) };
}

impl<'a> Pin<'a> {
    pub(crate) fn of(slot: u32, claim: Claim<'a, Kept>) -> Pin<'a>
        requires { claim.right ≡ 1 }
        ensures slot { result.slot ≡ slot }
        ensures of_plan { IsOfPlan claim.entry.tag result.version }
    {
        let shown = Snapshot::of(&claim.get().version);
        Pin { slot, claim, shown }
    }

    /// The version. Takes no memory.
    pub fn version(&self) -> &Version
        ensures { result.now ≡ self.now.version }
    {
        &self.claim.get().version
    }

    /// Gives the pin back.
    pub fn leave(self) {
        let Pin {
            slot: _,
            claim,
            shown: _,
        } = self;
        claim.leave();
    }

    /// Gives a pin back whose version has another number than was asked, and counts that. It is the
    /// only place where such pins are counted.
    pub fn differs(self, number: u64, tally: &mut Tally)
        requires { self.version.number ≢ number }
        ensures { MeetsOther tally.old tally.new self.entry.slot number self.entry.version.number }
    {
        tally.other = tally.other.saturating_add(1);
        tally.ask = Some(LastAsk {
            slot: self.slot,
            asked: number,
            found: self.version().number(),
        });
        self.leave();
    }
}
