//! A path leaves the lists of its parts.

ghost use Rattle.std.specs.Prelude.{◌≡◌, MatchBool};
ghost use Rattle.extension_lists.specs.Known.{IsKnown, IsTakenFromLeft, IsTakenFromRight};

use extension_lists::Lists;
use path_arena::PathId;

/// Takes a path out of the lists of its right part, where that stays.
#[inline(always)]
pub(crate) fn leave_right(lists: &mut Lists, id: PathId, right: PathId, stays: bool)
    requires { IsKnown lists.old right }
    ensures { MatchBool stays (IsTakenFromLeft lists.old lists.new id right) (lists.new ≡ lists.old) }
{
    if stays {
        lists.drop_left(id, right);
    }
}

/// Takes a path out of the lists of its left part, where that stays.
#[inline(always)]
pub(crate) fn leave_left(lists: &mut Lists, id: PathId, left: PathId, stays: bool)
    requires { IsKnown lists.old left }
    ensures { MatchBool stays (IsTakenFromRight lists.old lists.new id left) (lists.new ≡ lists.old) }
{
    if stays {
        lists.drop_right(id, left);
    }
}
