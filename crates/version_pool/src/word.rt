//! The announced word, and the rule that every step at it keeps.

ghost use Rattle.std.specs.Prelude.{◌≡◌, ◌≢◌, ◌+◌, ◌^◌, ◌<◌, ◌≤◌, [], IfOk};
ghost use Rattle.apsp_model.specs.declared.TheConstants.{MOST_UPDATES, MOST_SLOTS};
ghost use Rattle.version_pool.specs.Marks.{mark, view, new_reader, new_note, learned};
ghost use Rattle.version_pool.specs.declared.word.Role.TheVariants.{Publisher, Reader, Note, Spent};

use apsp_model::MOST_SLOTS;
use atomic_table::{Join, Play, Seat, Shared, Split, Table, TableRule};
use std::alloc::{AllocError, Global};

/// The word has room for a slot below its number.
const WORD_SLOTS: u64 = MOST_SLOTS as u64;

/// A number with the slot in which its version stands.
#[derive(Clone, Copy, PartialEq, Eq, Debug)]
pub struct Mark {
    pub number: u64,
    pub slot: u32,
}

/// Whose a seat at the announced word is.
pub enum Role {
    Publisher,
    Reader,
    Note,
    Spent,
}

/// What a seat at the announced word knows. No value of it is made.
pub struct View {
    pub role: Role,
    pub mark: Mark,
    pub looks: u64,
    pub slots: u64,
}

/// What the table is told once: the number of slots, and the number that is announced first, in
/// slot 0.
pub struct Opening {
    pub slots: u64,
    pub lo: u64,
}

pub struct Announced;

impl TableRule<(), View, Opening> for Announced {
    ghost use Rattle.version_pool.specs.Announced.{IsAnnounced};
    ghost use Rattle.version_pool.specs.Marks.{view, mark};
    ghost use Rattle.version_pool.specs.declared.word.Role.TheVariants.{Publisher};

    ghost holds = { λ o. IsAnnounced o.slots };

    ghost first = { λ o. view Publisher (mark o.lo 0) 0 o.slots };
}

struct Looking;

impl Play<(), View> for Looking {
    ghost use Rattle.version_pool.specs.Announced.{Looks};

    ghost then = { Looks };
}

struct Storing;

impl Play<(), View> for Storing {
    ghost use Rattle.version_pool.specs.Announced.{Stores};

    ghost then = { Stores };
}

struct Entering;

impl Split<View> for Entering {
    ghost use Rattle.version_pool.specs.Marks.{new_reader};

    ghost left = { λ v. v };

    ghost right = { new_reader };
}

struct Noting;

impl Split<View> for Noting {
    ghost use Rattle.version_pool.specs.Marks.{new_note};

    ghost left = { λ v. v };

    ghost right = { new_note };
}

impl Join<View> for Noting {
    ghost use Rattle.version_pool.specs.Marks.{learned, spent};

    ghost both = { learned };

    ghost spent = { spent };
}

pub type Word = Shared<(), View, Opening, Announced>;

pub type Place = Seat<(), View>;

pub type Board = Table<(), View, Opening, Announced, Global>;

/// A new word, in which the number lo is announced in slot 0, and the publisher's seat at it.
pub fn board(alloc: Global, slots: u32, lo: u64) -> Result<(Board, Place), AllocError>
    requires some { 1 ≤ slots }
    requires most { slots ≤ MOST_SLOTS }
    requires lo { lo ≤ MOST_UPDATES }
    ensures one_word { IfOk result (λ b. b.0.shared.table_id.words ≡ 1) }
    ensures table { IfOk result (λ b. b.1.table_id ≡ b.0.shared.table_id) }
    ensures publisher { IfOk result (λ b. b.1.me ≡ (view Publisher (mark lo 0) 0 slots, [])) }
{
    let opening = Opening {
        slots: slots as u64,
        lo,
    };
    let made = Table::of_words(alloc, &[lo * WORD_SLOTS], &opening);
    let Opening { slots: _, lo: _ } = opening;
    made
}

/// A reader's look at the word.
pub fn look(word: &Word, seat: &mut Place) -> Mark
    requires word { (word.now.table_id.words ≡ 1) × (seat.old.table_id ≡ word.now.table_id) }
    requires reader { seat.old.me.0.role ≡ Reader }
    ensures table { seat.new.table_id ≡ seat.old.table_id }
    ensures looked { seat.new.me ≡ (view Reader result (seat.old.me.0.looks + 1) seat.old.me.0.slots, seat.old.me.1) }
    ensures later { seat.old.me.0.mark.number ≤ result.number }
    ensures slot { result.slot < seat.old.me.0.slots }
{
    let found = word.load::<Looking>(seat, 0);
    Mark {
        number: found / WORD_SLOTS,
        slot: (found % WORD_SLOTS) as u32,
    }
}

/// The publisher announces its next number.
pub fn announce(word: &Word, seat: &mut Place, next: Mark)
    requires word { (word.now.table_id.words ≡ 1) × (seat.old.table_id ≡ word.now.table_id) }
    requires publisher { seat.old.me.0.role ≡ Publisher }
    requires next { next.number ≡ seat.old.me.0.mark.number + 1 }
    requires small { next.number ≤ MOST_UPDATES }
    requires slot { (next.slot < seat.old.me.0.slots) × (next.slot < MOST_SLOTS) }
    ensures table { seat.new.table_id ≡ seat.old.table_id }
    ensures announced { seat.new.me ≡ (view Publisher next seat.old.me.0.looks seat.old.me.0.slots, seat.old.me.1) }
{
    word.store::<Storing>(seat, 0, next.number * WORD_SLOTS + next.slot as u64);
}

/// A reader's seat, from the publisher's.
pub fn enter(word: &Word, seat: &mut Place) -> Place
    requires word { (word.now.table_id.words ≡ 1) × (seat.old.table_id ≡ word.now.table_id) }
    requires live { seat.old.me.0.role ≢ Spent }
    ensures same { (seat.new.table_id ≡ seat.old.table_id) × (seat.new.me ≡ seat.old.me) }
    ensures new { (result.table_id ≡ seat.old.table_id) × (result.me ≡ (new_reader seat.old.me.0, [])) }
{
    word.split_seat::<Entering>(seat)
}

/// The seat of a note, from the publisher's.
pub fn note(word: &Word, seat: &mut Place) -> Place
    requires word { (word.now.table_id.words ≡ 1) × (seat.old.table_id ≡ word.now.table_id) }
    requires live { seat.old.me.0.role ≢ Spent }
    ensures same { (seat.new.table_id ≡ seat.old.table_id) × (seat.new.me ≡ seat.old.me) }
    ensures new { (result.table_id ≡ seat.old.table_id) × (result.me ≡ (new_note seat.old.me.0, [])) }
{
    word.split_seat::<Noting>(seat)
}

/// A reader learns what a note says.
pub fn learn(word: &Word, seat: &mut Place, note: Place)
    requires word { (word.now.table_id.words ≡ 1) × (seat.old.table_id ≡ word.now.table_id) }
    requires note { (note.table_id ≡ word.now.table_id) × (note.me.1 ≡ []) }
    requires roles { (seat.old.me.0.role ≡ Reader) × (note.me.0.role ≡ Note) }
    ensures table { seat.new.table_id ≡ seat.old.table_id }
    ensures learned { seat.new.me ≡ (learned seat.old.me.0 note.me.0, seat.old.me.1) }
{
    word.join_seat::<Noting>(seat, note);
}
