//! The slots.

ghost use Rattle.std.specs.Prelude.{◌≡◌, ◌<◌, ◌≤◌, All, IfSome, IfNone, IfOk, vec_len};
ghost use Rattle.apsp_model.specs.Limits.{IsSlotCount};
ghost use Rattle.apsp_model.specs.declared.TheConstants.{MOST_SLOTS};
ghost use Rattle.pin_cells.specs.Tallied.{LosesAt, MissesPin};
ghost use Rattle.pin_cells.specs.Pinned.{IsOfPlan, IsPinAt};

use crate::tally::{Pin, Tally, turn_once};
use apsp_model::Memory;
use counted_slot::{Claim, Counted, Fits, PRESENT};
use graph_store::Plan;
use std::alloc::{AllocError, Global};
use std::marker::Model;
use version_face::Version;

/// A version, of which the slot keeps that it is the plan's version of its own number.
#[derive(Drop)]
pub(crate) struct Kept {
    pub(crate) version: Version,
}

impl Fits for Kept {
    ghost use Rattle.pin_cells.specs.Pinned.{IsOfPlan};

    type Tag = Plan;

    ghost fits = { λ plan kept. IsOfPlan plan kept.version };
}

/// Slots that each hold a version of the plan, which they borrow for their whole life.
#[derive(Drop)]
pub struct Cells<'p> {
    plan: &'p Plan,
    slots: Vec<Counted<Kept>>,
}

impl<'p> Model for Cells<'p> {
    ghost use Rattle.std.specs.Prelude.{◌≡◌, ◌≤◌, All, vec_len};
    ghost use Rattle.apsp_model.specs.declared.TheConstants.{MOST_SLOTS};
    ghost use Rattle.pin_cells.specs.Pinned.{Cells as Cells_seen, cells_code};

    ghost Value = { Cells_seen };

    ghost coded = { cells_code };

    ghost view = { λ c. record { plan = c.plan.now; slots = vec_len c.slots } };

    ghost invariant = { λ c. (vec_len c.slots ≤ MOST_SLOTS) × All (λ tag. tag ≡ c.plan.now) c.slots.items };
}

/// The right to write a slot, which nobody reads meanwhile. It has to be spent by `put`.
pub struct Claimed<'a> {
    slot: u32,
    claim: Claim<'a, Kept>,
}

impl<'a> Model for Claimed<'a> {
    ghost use Rattle.std.specs.Prelude.{◌≡◌};
    ghost use Rattle.pin_cells.specs.Pinned.{Claimed as Claimed_seen, claimed_code};

    ghost Value = { Claimed_seen };

    ghost coded = { claimed_code };

    ghost view = { λ c. record { plan = c.claim.tag; slot = c.slot } };

    ghost invariant = { λ c. c.claim.right ≡ 2 };
}

impl<'p> Cells<'p> {
    /// So many slots, each with a copy of the first version. It takes memory for one version more.
    pub fn new(
        alloc: Global,
        slots: u32,
        plan: &'p Plan,
        first: &Version,
    ) -> Result<Cells<'p>, Memory>
        requires slots { IsSlotCount slots }
        requires first { IsOfPlan plan.now first.now }
        requires lo { first.now.number ≡ plan.now.lo }
        ensures { IfOk result (λ c. c ≡ record { plan = plan.entry.now; slots = slots }) }
    {
        let slots = slots_of(alloc, slots, plan, first).map_err(|_| Memory)?;
        Ok(Cells { plan, slots })
    }

    /// How many slots there are.
    pub fn slots(&self) -> u32
        ensures slots { result ≡ self.now.slots }
        ensures most { result ≤ MOST_SLOTS }
    {
        self.slots.len() as u32
    }

    /// Tries once to pin the slot, whatever number its version has. Takes no memory.
    pub fn pin_any(&self, slot: u32, tally: &mut Tally) -> Option<Pin<'_>>
        requires { slot < self.now.slots }
        ensures slot { IfSome result (λ p. p.slot ≡ slot) }
        ensures of_plan { IfSome result (λ p. IsOfPlan self.now.plan p.version) }
        ensures tally { IfSome result (λ _. tally.new ≡ tally.old) }
        ensures lost { IfNone result (LosesAt tally.old tally.new slot) }
    {
        let claim = turn_once(&self.slots[slot as usize], slot, false, tally)?;
        Some(Pin::of(slot, claim))
    }

    /// Tries once to pin the slot, and keeps the pin where its version has this number. Takes no
    /// memory.
    pub fn try_pin(&self, slot: u32, number: u64, tally: &mut Tally) -> Option<Pin<'_>>
        requires { slot < self.now.slots }
        ensures pinned { IfSome result (IsPinAt self.now slot number) }
        ensures tally { IfSome result (λ _. tally.new ≡ tally.old) }
        ensures missed { IfNone result (MissesPin tally.old tally.new slot number) }
    {
        let pin = self.pin_any(slot, tally)?;
        if pin.version().number() == number {
            return Some(pin);
        }
        pin.differs(number, tally);
        None
    }

    /// Tries once to claim the slot. Takes no memory.
    pub fn try_claim(&self, slot: u32, tally: &mut Tally) -> Option<Claimed<'_>>
        requires { slot < self.now.slots }
        ensures claimed { IfSome result (λ c. c ≡ record { plan = self.now.plan; slot = slot }) }
        ensures tally { IfSome result (λ _. tally.new ≡ tally.old) }
        ensures lost { IfNone result (LosesAt tally.old tally.new slot) }
    {
        let claim = turn_once(&self.slots[slot as usize], slot, true, tally)?;
        Some(Claimed { slot, claim })
    }
}

/// So many slots, each with a copy of this version.
fn slots_of(
    alloc: Global,
    count: u32,
    plan: &Plan,
    first: &Version,
) -> Result<Vec<Counted<Kept>>, AllocError>
    requires { IsOfPlan plan.now first.now }
    ensures count { IfOk result (λ slots. vec_len slots ≡ count) }
    ensures plan { IfOk result (λ slots. All (λ tag. tag ≡ plan.now) slots.items) }
{
    let mut spare = copy_of(alloc, first)?;
    let mut slots = Vec::with_capacity(alloc, count as usize)?;
    for _ in 0..count {
        let version = copy_of(alloc, first)?;
        let slot = Counted::new(Kept { version }, plan);
        spare = filled(&slot, spare);
        slots.push(slot)?;
    }
    Ok(slots)
}

/// Another version that is equal to this one.
fn copy_of(alloc: Global, version: &Version) -> Result<Version, AllocError>
    ensures { IfOk result (λ v. v ≡ version.now) }
{
    let mut copy = Version::new(alloc, version.vertices()).map_err(|_| AllocError)?;
    version.copy_into(&mut copy);
    Ok(copy)
}

/// Puts the version into a new slot, which readers may then pin, and gives back the one that was
/// there. No other thread has the slot.
fn filled(cell: &Counted<Kept>, spare: Version) -> Version
    requires { IsOfPlan cell.now spare }
    ensures { IsOfPlan cell.now result }
{
    let (found, claim) = cell.turn(0, 3);
    if found == 0 {
        claim.put(Kept { version: spare }, PRESENT).version
    } else {
        claim.done();
        spare
    }
}

impl<'a> Claimed<'a> {
    /// The number of the slot.
    pub fn slot(&self) -> u32
        ensures { result ≡ self.now.slot }
    {
        self.slot
    }

    /// Gives the slot this version, and gives back the one that it had. Takes no memory.
    pub fn put(self, version: Version) -> Version
        requires { IsOfPlan self.plan version }
        ensures { IsOfPlan self.entry.plan result }
    {
        let Claimed { slot: _, claim } = self;
        claim.put(Kept { version }, PRESENT).version
    }
}
