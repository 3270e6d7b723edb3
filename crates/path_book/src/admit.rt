//! A new path is put into the parts of a book.

ghost use Rattle.std.specs.Prelude.{◌≡◌, ℕ, ◌≤◌, Some, [], IfOk, OnOk, OnErr};
ghost use Rattle.std.specs.FinMap as map;
ghost use Rattle.path_arena.specs.Arena.{HasAnEdge, without_path, IsPartOfNone, IsArena};
ghost use Rattle.pair_heaps.specs.Heaps.{HasEnds, IsHeld, TellsLeast};
ghost use Rattle.pair_heaps.specs.Rooms.{IsRoomOf};
ghost use Rattle.extension_lists.specs.Known.{IsKnown};
ghost use Rattle.path_book.specs.Admitted.{StandsNowhere, CanEnter, HasRoomForPath, IsAdmitted, IsKnownPath};
ghost use Rattle.path_book.specs.Book.{entered};
ghost use Rattle.path_book.specs.Layout.{IsOpenedTo};

use crate::marks::make_room;
use apsp_model::Memory;
use extension_lists::Lists;
use pair_heaps::{Heaps, Room};
use path_arena::{Arena, PathId};

/// A path that is new in the arena, with its parts and the room in the heap of its pair.
#[derive(Clone, Copy)]
pub(crate) struct NewPath {
    pub(crate) id: PathId,
    pub(crate) left: PathId,
    pub(crate) right: PathId,
    pub(crate) room: Room,
}

/// Puts a path that is new in the arena into the heap of its pair and the lists of its parts. Where
/// there is no memory it is taken out of the arena again.
pub(crate) fn admit(
    arena: &mut Arena,
    heaps: &mut Heaps,
    lists: &mut Lists,
    id: PathId,
    room: Room,
) -> Result<(), Memory>
    requires lawful { IsArena arena.old }
    requires edge { HasAnEdge arena.old id }
    requires free { IsPartOfNone arena.old id }
    requires room { HasRoomForPath arena.old heaps.old id }
    requires here { IsRoomOf heaps.old room }
    requires ends { HasEnds arena.old id room.x room.y }
    requires new { IsHeld heaps.old id → ⊥ }
    requires lists { CanEnter arena.old lists.old id }
    ensures kept { OnOk result (arena.new ≡ arena.old) }
    ensures admitted { OnOk result (IsAdmitted arena.new heaps.old heaps.new lists.old lists.new id) }
    ensures taken_back { OnErr result (arena.new ≡ without_path arena.old id) }
    ensures heaps_kept { OnErr result (heaps.new ≡ heaps.old) }
    ensures lists_kept { OnErr result (lists.new ≡ lists.old) }
{
    let path = NewPath {
        id,
        left: arena.left_part(id),
        right: arena.right_part(id),
        room,
    };
    admit_known(arena, heaps, lists, path)?;
    Ok(())
}

/// The same for a path whose parts are known. Says whether it is the least of its pair.
#[inline(always)]
pub(crate) fn admit_known(
    arena: &mut Arena,
    heaps: &mut Heaps,
    lists: &mut Lists,
    path: NewPath,
) -> Result<bool, Memory>
    requires lawful { IsArena arena.old }
    requires edge { HasAnEdge arena.old path.id }
    requires free { IsPartOfNone arena.old path.id }
    requires room { HasRoomForPath arena.old heaps.old path.id }
    requires new { IsHeld heaps.old path.id → ⊥ }
    requires lists { CanEnter arena.old lists.old path.id }
    requires known { IsKnownPath arena.old path }
    requires here { IsRoomOf heaps.old path.room }
    ensures kept { OnOk result (arena.new ≡ arena.old) }
    ensures admitted { OnOk result (IsAdmitted arena.new heaps.old heaps.new lists.old lists.new path.id) }
    ensures least { IfOk result
        (λ told. TellsLeast arena.new told heaps.new heaps.old path.id path.room.x path.room.y) }
    ensures taken_back { OnErr result (arena.new ≡ without_path arena.old path.id) }
    ensures heaps_kept { OnErr result (heaps.new ≡ heaps.old) }
    ensures lists_kept { OnErr result (lists.new ≡ lists.old) }
{
    if enter(lists, path.id, path.left, path.right).is_err() {
        arena.remove(path.id);
        return Err(Memory);
    }
    Ok(heaps.insert_into(arena, path.id, path.room))
}

/// Lets the lists know an id, as an extension of its two parts.
#[inline(always)]
fn enter(lists: &mut Lists, id: PathId, left: PathId, right: PathId) -> Result<(), Memory>
    requires new { IsKnown lists.old id → ⊥ }
    requires left_known { IsKnown lists.old left }
    requires right_known { IsKnown lists.old right }
    requires nowhere { StandsNowhere lists.old id }
    ensures entered { OnOk result (lists.new ≡ entered lists.old id left right) }
    ensures same { OnErr result (lists.new ≡ lists.old) }
{
    lists.enter(id)?;
    match lists.add(id, left, right) {
        Ok(()) => Ok(()),
        Err(memory) => {
            lists.drop_id(id, left, right);
            Err(memory)
        }
    }
}

/// Lets the lists know the single vertices, and marks them.
pub(crate) fn enter_vertices(
    arena: &Arena,
    lists: &mut Lists,
    marks: &mut Vec<bool>,
    n: u32,
) -> Result<(), Memory>
    requires vertices { arena.now.vertices ≡ n }
    requires no_lists { lists.old ≡ map.empty }
    requires no_marks { marks.old.items ≡ [] }
    ensures { OnOk result (IsOpenedTo arena.now lists.new marks.new.items n) }
{
    for v in 0..n {
        let id = arena.vertex(v);
        lists.enter(id)?;
        make_room(marks, id.key())?;
        marks[id.key()] = true;
    }
    Ok(())
}
