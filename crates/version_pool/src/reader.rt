//! The readers, and the versions that they hold.

ghost use Rattle.std.specs.Prelude.{◌≡◌, ◌+◌, ◌≤◌, IfOk, OnErr};
ghost use Rattle.pin_cells.specs.Pinned.{IsOfPlan};
ghost use Rattle.pin_cells.specs.Tallied.{MissesPin};
ghost use Rattle.version_pool.specs.Marks.{later_mark};
ghost use Rattle.version_pool.specs.Pooled.{IsReaderOf, IsNoteOf};

use crate::pool::Pool;
use crate::publisher::Note;
use crate::word::{Mark, Place, learn, look};
use pin_cells::{Pin, Tally};
use std::marker::Model;
use version_face::Version;

/// The announced slot could not be pinned, or had another number by then.
#[derive(Clone, Copy, PartialEq, Eq, Debug)]
pub struct Missed;

/// Who holds versions. Contracts see the mark that it has seen, and how often it looked at the
/// announced word.
#[derive(Drop)]
pub struct Reader {
    pub(crate) seat: Place,
    pub(crate) mark: Mark,
}

impl Model for Reader {
    ghost use Rattle.std.specs.Prelude.{◌≡◌, ◌<◌, []};
    ghost use Rattle.version_pool.specs.Pooled.{Reader as Reader_seen};
    ghost use Rattle.version_pool.specs.declared.word.Role.TheVariants.{Reader as reading};

    ghost Value = { Reader_seen };

    ghost view = { λ r. record {
      pool = r.seat.table_id;
      slots = r.seat.me.0.slots;
      mark = r.mark;
      looks = r.seat.me.0.looks;
    } };

    ghost invariant = { λ r. (r.seat.me.1 ≡ []) × (r.seat.me.0.role ≡ reading) × (r.seat.me.0.mark ≡ r.mark)
        × (r.mark.slot < r.seat.me.0.slots) };
}

/// A version that is held, and stays as it is until `release`, by which it has to be given back.
pub struct Held<'a> {
    pin: Pin<'a>,
}

impl<'a> Model for Held<'a> {
    ghost use Rattle.version_face.specs.Seen.{VersionSeen, version_seen_code};

    ghost Value = { VersionSeen };

    ghost coded = { version_seen_code };

    ghost view = { λ h. h.pin.version };
}

impl<'a> Held<'a> {
    /// The version. Takes no memory.
    pub fn version(&self) -> &Version
        ensures { result.now ≡ self.now }
    {
        self.pin.version()
    }

    /// Gives it back. Takes no memory.
    pub fn release(self) {
        let Held { pin } = self;
        pin.leave();
    }
}

impl Reader {
    /// The number that it has seen. Takes no memory.
    pub fn seen(&self) -> u64
        ensures { result ≡ self.now.mark.number }
    {
        self.mark.number
    }

    /// Makes what it has seen the later of this and the note's. Takes no memory.
    pub fn learn(&mut self, pool: &Pool<'_>, note: Note)
        requires reader { IsReaderOf pool.now self.old }
        requires note { IsNoteOf pool.now note }
        ensures { self.new ≡ record self.old { mark = later_mark self.old.mark note.mark } }
    {
        let Note { seat, mark } = note;
        learn(&pool.board.shared, &mut self.seat, seat);
        if self.mark.number < mark.number {
            self.mark = mark;
        }
    }

    /// Looks once at what is announced, and tries once to hold that version. It takes no memory.
    pub fn try_hold<'a>(
        &mut self,
        pool: &'a Pool<'_>,
        tally: &mut Tally,
    ) -> Result<Held<'a>, Missed>
        requires { IsReaderOf pool.now self.old }
        ensures reader { IsReaderOf pool.now self.new }
        ensures looks { self.new.looks ≡ self.old.looks + 1 }
        ensures later { self.old.mark.number ≤ self.new.mark.number }
        ensures number { IfOk result (λ h. h.number ≡ self.new.mark.number) }
        ensures of_plan { IfOk result (IsOfPlan pool.entry.now.plan) }
        ensures tally { IfOk result (λ _. tally.new ≡ tally.old) }
        ensures missed { OnErr result (MissesPin tally.old tally.new self.new.mark.slot self.new.mark.number) }
    {
        let mark = look(&pool.board.shared, &mut self.seat);
        self.mark = mark;
        match pool.cells.try_pin(mark.slot, mark.number, tally) {
            Some(pin) => Ok(Held { pin }),
            None => Err(Missed),
        }
    }
}
