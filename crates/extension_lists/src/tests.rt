//! The lists of two ids that grow into a block and shrink back in place.

ghost use Rattle.std.specs.Prelude.{ℕ, ◌<◌, ◌≤◌, IfOk};
ghost use Rattle.extension_lists.specs.Known.{IsKnown};

use crate::Lists;
use apsp_model::Memory;
use path_arena::PathId;
use std::alloc::Global;
use std::test::Fail;

/// Knows the ids below `many`. Those from 2 on are right extensions of 0 and left extensions of 1,
/// and those of them below `plain` are historical.
fn extended(alloc: Global, plain: u32, many: u32) -> Result<Lists, Memory>
    requires two { 2 ≤ plain }
    requires more { plain ≤ many }
    ensures { IfOk result (λ lists. (k : ℕ) → k < many → IsKnown lists k) }
{
    let (l, r) = (PathId::new(0), PathId::new(1));
    let mut lists = Lists::new(alloc);
    lists.enter(l)?;
    lists.enter(r)?;
    'stars: for key in 2..plain {
        let id = PathId::new(key);
        lists.enter(id)?;
        lists.add(id, l, r)?;
        lists.add_star(id, l, r)?;
    }
    'others: for key in plain..many {
        let id = PathId::new(key);
        lists.enter(id)?;
        lists.add(id, l, r)?;
    }
    Ok(lists)
}

/// Whether these are the ids of these keys, in this order.
fn are(ids: &[PathId], keys: &[u32]) -> bool {
    if ids.len() != keys.len() {
        return false;
    }
    for (id, key) in ids.iter().zip(keys.iter()) {
        if *id != PathId::new(*key) {
            return false;
        }
    }
    true
}

#[test]
fn an_id_leaves_the_lists_of_one_part(rt: HostRuntime) -> Result<(), Fail> {
    let (l, r) = (PathId::new(0), PathId::new(1));
    let mut lists = extended(rt.alloc(), 5, 8)?;
    // The key that is taken out of the left extensions, and these and the historical ones then. The
    // last one takes the place of an id, or else that of the last historical one, which takes its place.
    let rows: [(u32, &[u32], &[u32]); 6] = [
        (3, &[2, 4, 7, 5, 6], &[2, 4]),
        (6, &[2, 4, 7, 5], &[2, 4]),
        (2, &[4, 5, 7], &[4]),
        (9, &[4, 5, 7], &[4]),
        (7, &[4, 5], &[4]),
        (4, &[5], &[]),
    ];
    'gone: for (key, left, stars) in rows {
        lists.drop_left(PathId::new(key), r);
        assert!(rt; are(lists.left(r), left), "{key} gone");
        assert!(rt; are(lists.left_star(r), stars), "{key} gone");
    }
    assert!(rt; are(lists.right(l), &[2, 3, 4, 5, 6, 7]));
    lists.drop_right(PathId::new(3), l);
    assert!(rt; are(lists.right(l), &[2, 4, 7, 5, 6]));
    assert!(rt; are(lists.right_star(l), &[2, 4]));
    assert!(rt; are(lists.left(r), &[5]));
    Ok(())
}

#[test]
fn cleared_and_forgotten_ids_have_no_lists(rt: HostRuntime) -> Result<(), Fail> {
    let (l, r) = (PathId::new(0), PathId::new(1));
    let mut lists = extended(rt.alloc(), 4, 12)?;
    lists.clear(l);
    assert!(rt; lists.right(l).is_empty());
    assert!(rt; lists.right_star(l).is_empty());
    assert!(rt; are(lists.left(r), &[2, 3, 4, 5, 6, 7, 8, 9, 10, 11]));
    assert!(rt; are(lists.left_star(r), &[2, 3]));
    lists.forget(r);
    lists.enter(r)?;
    assert!(rt; lists.left(r).is_empty());
    assert!(rt; lists.left_star(r).is_empty());
    Ok(())
}
