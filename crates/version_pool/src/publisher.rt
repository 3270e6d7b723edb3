//! The publisher, and the notes that it gives.

ghost use Rattle.std.specs.Prelude.{◌≡◌, ◌≢◌, ◌+◌, ◌<◌, IfOk, OnErr, IfSome, IfNone};
ghost use Rattle.graph_store.specs.Plan.{IsVersionOf};
ghost use Rattle.version_pool.specs.Pooled.{IsPublisherOf, IsNoteOf, IsNextMark, LosesFrom};

use crate::pool::Pool;
use crate::word::{Mark, Place, announce, note};
use pin_cells::{Cells, Claimed, Tally};
use std::marker::Model;
use version_face::{Answers, Version};

/// A turn was lost at every slot but the announced one.
#[derive(Clone, Copy, PartialEq, Eq, Debug)]
pub struct AllHeld;

/// Who puts versions into the slots, one number after another. Contracts see the mark that it
/// announced last.
#[derive(Drop)]
pub struct Publisher {
    pub(crate) seat: Place,
    pub(crate) mark: Mark,
    // Takes the next version, and is exchanged for the one that stands in the claimed slot. It is
    // away only within `publish`.
    pub(crate) spare: Option<Version>,
}

impl Model for Publisher {
    ghost use Rattle.std.specs.Prelude.{◌≡◌, ◌≢◌, ◌<◌, ◌≤◌, [], None};
    ghost use Rattle.apsp_model.specs.declared.TheConstants.{MOST_SLOTS};
    ghost use Rattle.version_pool.specs.Pooled.{Publisher as Publisher_seen, spare_vertices};
    ghost use Rattle.version_pool.specs.declared.word.Role.TheVariants.{Publisher as publishing};

    ghost Value = { Publisher_seen };

    ghost view = { λ p. record {
      pool = p.seat.table_id;
      slots = p.seat.me.0.slots;
      vertices = spare_vertices p.spare;
      mark = p.mark;
    } };

    ghost invariant = { λ p. (p.seat.me.1 ≡ []) × (p.seat.me.0.role ≡ publishing) × (p.seat.me.0.mark ≡ p.mark)
        × (p.mark.slot < p.seat.me.0.slots) × (p.seat.me.0.slots ≤ MOST_SLOTS) × (p.spare ≢ None) };
}

/// Tells a reader of which number the publisher knew that it was announced. A reader that learns it
/// holds nothing older from then on.
#[derive(Drop)]
pub struct Note {
    pub(crate) seat: Place,
    pub(crate) mark: Mark,
}

impl Model for Note {
    ghost use Rattle.std.specs.Prelude.{◌≡◌, ◌<◌, []};
    ghost use Rattle.version_pool.specs.Pooled.{Note as Note_seen};
    ghost use Rattle.version_pool.specs.declared.word.Role.TheVariants.{Note as noted};

    ghost Value = { Note_seen };

    ghost view = { λ n. record { pool = n.seat.table_id; slots = n.seat.me.0.slots; mark = n.mark } };

    ghost invariant = { λ n. (n.seat.me.1 ≡ []) × (n.seat.me.0.role ≡ noted) × (n.seat.me.0.mark ≡ n.mark)
        × (n.mark.slot < n.seat.me.0.slots) };
}

impl Note {
    /// The number that it tells. Takes no memory.
    pub fn number(&self) -> u64
        ensures { result ≡ self.now.mark.number }
    {
        self.mark.number
    }
}

impl Publisher {
    /// Publishes the next number: fills the spare version from these answers, puts it into the
    /// highest slot that can be claimed but the announced one, and announces it. Each slot is tried
    /// at most once. `AllHeld` leaves the same number announced. It takes no memory; what it takes
    /// is time to fill a version, whatever comes of it, and one turn for each slot that it tries.
    pub fn publish<A: Answers>(
        &mut self,
        pool: &Pool<'_>,
        from: &A,
        tally: &mut Tally,
    ) -> Result<Mark, AllHeld>
        requires publisher { IsPublisherOf pool.now self.old }
        requires ready { A.ready from.now }
        requires number { A.stamp from.now ≡ self.old.mark.number + 1 }
        requires of_plan { IsVersionOf pool.now.plan (A.stamp from.now) (A.graph from.now) }
        ensures publisher { IsPublisherOf pool.now self.new }
        ensures announced { IfOk result (λ m. IsNextMark pool.now.slots self.old.mark m × (self.new.mark ≡ m)) }
        ensures above { IfOk result
            (λ m. LosesFrom tally.old tally.new pool.now.slots self.old.mark.slot (m.slot + 1)) }
        ensures unchanged { OnErr result (self.new ≡ self.old) }
        ensures all_held { OnErr result (LosesFrom tally.old tally.new pool.now.slots self.old.mark.slot 0) }
    {
        let Some(mut spare) = self.spare.take() else {
            unreachable!()
        };
        spare.refill(from);
        let Some(claimed) = claim_from_top(&pool.cells, self.mark.slot, tally) else {
            self.spare = Some(spare);
            return Err(AllHeld);
        };
        let mark = Mark {
            number: self.mark.number + 1,
            slot: claimed.slot(),
        };
        self.spare = Some(claimed.put(spare));
        announce(&pool.board.shared, &mut self.seat, mark);
        self.mark = mark;
        Ok(mark)
    }

    /// The number that is announced. Takes no memory.
    pub fn announced(&self) -> u64
        ensures { result ≡ self.now.mark.number }
    {
        self.mark.number
    }

    /// A note of the number that is announced. Takes no memory.
    pub fn note(&mut self, pool: &Pool<'_>) -> Note
        requires { IsPublisherOf pool.now self.old }
        ensures of_pool { IsNoteOf pool.now result }
        ensures mark { result.mark ≡ self.old.mark }
        ensures unchanged { self.new ≡ self.old }
    {
        let seat = note(&pool.board.shared, &mut self.seat);
        Note {
            seat,
            mark: self.mark,
        }
    }
}

/// The highest slot that can be claimed, but the announced one.
fn claim_from_top<'a>(
    cells: &'a Cells<'_>,
    announced: u32,
    tally: &mut Tally,
) -> Option<Claimed<'a>>
    ensures slot { IfSome result (λ c. (c.slot < cells.entry.now.slots) × (c.slot ≢ announced)) }
    ensures plan { IfSome result (λ c. c.plan ≡ cells.entry.now.plan) }
    ensures above { IfSome result (λ c. LosesFrom tally.old tally.new cells.entry.now.slots announced (c.slot + 1)) }
    ensures none { IfNone result (LosesFrom tally.old tally.new cells.entry.now.slots announced 0) }
{
    let mut slot = cells.slots();
    while slot > 0 {
        slot -= 1;
        if slot != announced {
            let claimed = cells.try_claim(slot, tally);
            if claimed.is_some() {
                return claimed;
            }
            let None = claimed else { unreachable!() };
        }
    }
    None
}
