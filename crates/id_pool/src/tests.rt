//! Two lists that grow and shrink side by side, against plain vectors.

ghost use Rattle.std.specs.Prelude.{◌≡◌, ◌<◌, ◌≤◌, length};

use crate::Lists;
use apsp_model::Memory;
use path_arena::PathId;
use std::alloc::Global;
use std::test::Fail;

/// A list by the words of its contract.
#[derive(Drop)]
struct Plain {
    ids: Vec<PathId>,
    marked: usize,
}

impl Plain {
    fn new(alloc: Global) -> Plain {
        Plain {
            ids: Vec::new(alloc),
            marked: 0,
        }
    }

    fn put(&mut self, id: PathId) -> Result<(), Memory> {
        self.ids.push(id).map_err(|_| Memory)
    }

    fn mark_at(&mut self, at: usize) {
        if self.marked < self.ids.len() && at < self.ids.len() {
            self.ids.swap(self.marked, at);
            self.marked += 1;
        }
    }

    fn take_at(&mut self, at: usize) {
        let mut hole = at;
        if at < self.marked && self.marked <= self.ids.len() {
            self.marked -= 1;
            self.ids.swap(at, self.marked);
            hole = self.marked;
        }
        if hole < self.ids.len() {
            self.ids.swap_remove(hole);
        }
    }

    fn clear(&mut self) {
        self.ids.clear();
        self.marked = 0;
    }

    fn is_same(&self, lists: &Lists, list: usize) -> bool
        requires { list < length lists.now }
    {
        let ids = lists.ids(list);
        if ids.len() != self.ids.len() || lists.marked_ids(list).len() != self.marked {
            return false;
        }
        for (held, plain) in ids.iter().zip(self.ids.iter()) {
            if held != plain {
                return false;
            }
        }
        true
    }
}

/// Puts an id, where the number says so, or else marks or takes one.
fn change(
    lists: &mut Lists,
    plain: &mut Plain,
    list: usize,
    puts: u32,
    number: u32,
) -> Result<(), Memory>
    requires { list < length lists.old }
    ensures { length lists.new ≡ length lists.old }
{
    let len = lists.ids(list).len();
    if number % 8 < puts || len == 0 {
        lists.put(list, PathId::new(number))?;
        return plain.put(PathId::new(number));
    }
    let at = number as usize / 8 % len;
    if number % 3 == 0 && lists.marked_ids(list).len() <= at {
        lists.mark_at(list, at);
        plain.mark_at(at);
    } else {
        lists.take_at(list, at);
        plain.take_at(at);
    }
    Ok(())
}

#[test]
fn two_lists_are_as_their_contracts_say(rt: HostRuntime) -> Result<(), Fail> {
    let mut lists = Lists::new(rt.alloc());
    lists.add()?;
    lists.add()?;
    let mut even = Plain::new(rt.alloc());
    let mut odd = Plain::new(rt.alloc());
    let mut number = 7u32;
    // So many of eight changes put an id into the one list and into the other: each grows past
    // several sizes of blocks and shrinks. The other is cleared at the end of each phase.
    'phases: for (puts, others, steps) in [(6, 2, 60), (1, 7, 90), (7, 1, 300), (2, 6, 500)] {
        'steps: for _step in 0..steps {
            number = (75 * number + 74) % 65537;
            change(&mut lists, &mut even, 0, puts, number)?;
            number = (75 * number + 74) % 65537;
            change(&mut lists, &mut odd, 1, others, number)?;
            assert!(rt; even.is_same(&lists, 0));
            assert!(rt; odd.is_same(&lists, 1));
        }
        lists.clear(1);
        odd.clear();
        assert!(rt; even.is_same(&lists, 0));
        assert!(rt; odd.is_same(&lists, 1));
    }
    Ok(())
}
