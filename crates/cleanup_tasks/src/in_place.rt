//! The paths through a vertex are cleaned in place.

ghost use Rattle.std.specs.Prelude.{◌≡◌, ◌≢◌, ℕ, ◌↔◌, false, IsTrue};
ghost use Rattle.fixup_math.specs.Refresh.{HaveLeasts, IsRefreshed};
ghost use Rattle.path_arena.specs.Arena.{IsLive, HasAnEdge, IsPartOfNone};
ghost use Rattle.path_book.specs.Book.{IsBook, IsMarked, IsLeastKeptId, kept_paths};
ghost use Rattle.path_book.specs.Through.{IsThrough, IsVictims};
ghost use Rattle.cleanup_tasks.specs.Refreshing.{IsLeastId, IsHigherId, LeftStays, RightStays, HasStayingParts};

use crate::listed::Victims;
use path_arena::PathId;
use path_book::Book;

/// Cleans the listed paths in place, which are all the kept paths with an edge through the list's
/// vertex. Of them those stay historical that are the least of their pairs, and those stay kept both
/// of whose parts stay historical; they get the birth. All other paths stay as they are.
///
/// That is a star step at the vertex with the star that it has. It takes no memory.
pub fn refresh(book: &mut Book, list: &Victims, birth: u64)
    requires victims { IsVictims book.old list.now.vertex list.now.ids }
    requires leasts { HaveLeasts (kept_paths book.old) }
    ensures refreshed { IsRefreshed list.now.vertex birth (kept_paths book.old) (kept_paths book.new) }
    ensures vertices { book.new.arena.vertices ≡ book.old.arena.vertices }
    ensures lawful { IsBook book.new }
{
    book.show_lawful();
    let v = list.vertex();
    // The longest go first, so each is part of no other where it goes or is marked no more.
    let mut rest = list.ids();
    'longest: while let Some((&id, shorter)) = rest.split_last() {
        rest = shorter;
        if is_least(book, id) {
            book.set_birth(id, birth);
        } else if has_staying_parts(book, v, id) {
            demote(book, id);
            book.set_birth(id, birth);
        } else {
            book.forget_higher(id);
        }
    }
}

/// Takes the mark from a path that is no part of a kept one and not the least of its pair, if it has
/// one.
#[inline(always)]
fn demote(book: &mut Book, id: PathId)
    requires edge { HasAnEdge book.old.arena id }
    requires free { IsPartOfNone book.old.arena id }
    requires above { (x y : ℕ) → IsLeastKeptId book.old x y id → ⊥ }
    ensures arena { book.new.arena ≡ book.old.arena }
    ensures marked { (q : ℕ) → IsMarked book.new q ↔ (IsMarked book.old q × (q ≢ id)) }
    ensures lawful { IsBook book.new }
{
    if book.is_historical(id) {
        book.unmark(id);
    }
}

/// Whether a kept path is the least of its pair.
#[inline(always)]
fn is_least(book: &Book, id: PathId) -> bool
    requires { IsLive book.now.arena id }
    ensures yes { IsTrue result → IsLeastId book.now id }
    ensures no { result ≡ false → IsHigherId book.now id }
    ensures lawful { IsBook book.now }
{
    book.show_lawful();
    let (from, to) = (book.arena().first(id), book.arena().last(id));
    match book.least(from, to) {
        Some(least) => least == id,
        None => false,
    }
}

/// Whether both parts of a path through v stay historical.
#[inline(always)]
fn has_staying_parts(book: &Book, v: u32, id: PathId) -> bool
    requires { IsThrough book.now v id }
    ensures yes { IsTrue result → HasStayingParts v book.now id }
    ensures no { result ≡ false → HasStayingParts v book.now id → ⊥ }
{
    left_stays(book, v, id) && right_stays(book, v, id)
}

/// Whether the left part of a path through v stays historical. It does where it avoids v.
#[inline(always)]
fn left_stays(book: &Book, v: u32, id: PathId) -> bool
    requires { IsThrough book.now v id }
    ensures yes { IsTrue result → LeftStays v book.now id }
    ensures no { result ≡ false → LeftStays v book.now id → ⊥ }
{
    book.show_lawful();
    if book.arena().last(id) == v {
        return true;
    }
    is_least(book, book.arena().left_part(id))
}

/// Whether the right part of a path through v stays historical. It does where it avoids v.
#[inline(always)]
fn right_stays(book: &Book, v: u32, id: PathId) -> bool
    requires { IsThrough book.now v id }
    ensures yes { IsTrue result → RightStays v book.now id }
    ensures no { result ≡ false → RightStays v book.now id → ⊥ }
{
    book.show_lawful();
    if book.arena().first(id) == v {
        return true;
    }
    is_least(book, book.arena().right_part(id))
}
