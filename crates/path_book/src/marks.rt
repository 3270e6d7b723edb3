//! Marks by key.

ghost use Rattle.std.specs.Prelude.{◌≡◌, ◌+◌, ◌-◌, ◌<◌, ◌≤◌, ◌^◌, false, if◌then◌else◌, OnOk, vec_len};
ghost use Rattle.std.specs.FinSet as set;
ghost use Rattle.path_book.specs.Layout.{marked_in, mark_at};

use apsp_model::Memory;

/// Makes room for the mark of a key, and marks nothing.
pub(crate) fn make_room(marks: &mut Vec<bool>, key: usize) -> Result<(), Memory>
    requires { key < 2 ^ 32 }
    ensures room { OnOk result (key < vec_len marks.new) }
    ensures same { marked_in marks.new.items ≡ marked_in marks.old.items }
{
    'room: while marks.len() <= key {
        marks.push(false).map_err(|_| Memory)?;
    }
    Ok(())
}

/// Whether a key is marked.
pub(crate) fn is_marked(marks: &[bool], key: usize) -> bool
    ensures { result ≡ mark_at marks.now key }
{
    marks.get(key).copied().unwrap_or(false)
}

/// Takes the mark of a key away, and says whether it had one.
fn clear(marks: &mut Vec<bool>, key: usize) -> bool
    ensures was { result ≡ mark_at marks.old.items key }
    ensures cleared { marked_in marks.new.items ≡ set.remove (marked_in marks.old.items) key }
{
    let was = is_marked(marks, key);
    if was {
        marks[key] = false;
    }
    was
}

/// Takes the mark of a key away, and one off the number of the marked ones, where it had one, or else
/// of the unmarked ones.
#[inline(always)]
pub(crate) fn uncount(marks: &mut Vec<bool>, key: usize, marked: &mut u64, unmarked: &mut u64)
    requires { 1 ≤ (if mark_at marks.old.items key then marked.old else unmarked.old) }
    ensures cleared { marked_in marks.new.items ≡ set.remove (marked_in marks.old.items) key }
    ensures marked { marked.new ≡ (if mark_at marks.old.items key then marked.old - 1 else marked.old) }
    ensures unmarked { unmarked.new ≡ (if mark_at marks.old.items key then unmarked.old else unmarked.old - 1) }
{
    if clear(marks, key) {
        *marked -= 1;
    } else {
        *unmarked -= 1;
    }
}
