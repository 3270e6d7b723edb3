//! The answers of the readers, put into the order of the questions.

ghost use Rattle.std.specs.Prelude.{◌≡◌, ℕ, ◌/◌, ◌%◌, ◌<◌, length, IfOk, Ok, vec_len, slice_index_or, map};

use crate::{Answer, VertexList};
use apsp_model::Memory;
use std::alloc::Global;
use std::mem;

/// The answers in the order of the questions, where each list has those of one reader: the question
/// i is that of place i / R in the list i % R of R lists. No answer is copied.
pub(crate) fn in_order(
    alloc: Global,
    mut lists: Vec<Vec<Answer>>,
    count: usize,
) -> Result<Vec<Answer>, Memory>
    requires some { 0 < vec_len lists }
    requires long { (i : ℕ) (d : _) → i < count
        → i / vec_len lists < vec_len (slice_index_or lists.items (i % vec_len lists) d) }
    ensures len { IfOk result (λ v. vec_len v ≡ count) }
    ensures each { IfOk result (λ v. (i : ℕ) (d : _) (e : Answer) → i < count
        → slice_index_or v.items i e
        ≡ slice_index_or (slice_index_or lists.items (i % vec_len lists) d).items (i / vec_len lists) e) }
{
    let readers = lists.len();
    let mut all = Vec::with_capacity(alloc, count).map_err(|_| Memory)?;
    'asks: for i in 0..count {
        let answer = take_one(alloc, &mut lists, i % readers, i / readers);
        all.push(answer).map_err(|_| Memory)?;
    }
    Ok(all)
}

/// Takes an answer out of one of the lists, and leaves one without a walk.
fn take_one(alloc: Global, lists: &mut [Vec<Answer>], reader: usize, place: usize) -> Answer
    requires reader { reader < length lists.old }
    requires place { (d : _) → place < vec_len (slice_index_or lists.old reader d) }
    ensures answer { (d : _) (e : Answer) → result ≡ slice_index_or (slice_index_or lists.old reader d).items place e }
    ensures len { length lists.new ≡ length lists.old }
    ensures lens { (q : ℕ) (d : _) → q < length lists.old
        → vec_len (slice_index_or lists.new q d) ≡ vec_len (slice_index_or lists.old q d) }
    ensures rest { (q j : ℕ) (d : _) (e : Answer) → q < length lists.old → (q ≡ reader → j ≡ place → ⊥)
        → slice_index_or (slice_index_or lists.new q d).items j e
        ≡ slice_index_or (slice_index_or lists.old q d).items j e }
{
    take_from(alloc, &mut lists[reader], place)
}

/// Takes an answer out of a list, and leaves one without a walk.
fn take_from(alloc: Global, list: &mut [Answer], place: usize) -> Answer
    requires place { place < length list.old }
    ensures answer { (e : Answer) → result ≡ slice_index_or list.old place e }
    ensures len { length list.new ≡ length list.old }
    ensures rest { (j : ℕ) (e : Answer) → (j ≡ place → ⊥) → slice_index_or list.new j e ≡ slice_index_or list.old j e }
{
    let empty = Answer {
        number: 0,
        x: 0,
        y: 0,
        dist: 0,
        walk: VertexList {
            items: Vec::new(alloc),
        },
    };
    mem::replace(&mut list[place], empty)
}

/// The lists, where no reader ran out of memory.
pub(crate) fn unwrapped(
    alloc: Global,
    lists: Vec<Result<Vec<Answer>, Memory>>,
) -> Result<Vec<Vec<Answer>>, Memory>
    ensures { IfOk result (λ all. map Ok all.items ≡ lists.items) }
{
    let mut all = Vec::with_capacity(alloc, lists.len()).map_err(|_| Memory)?;
    for list in lists {
        all.push(list?).map_err(|_| Memory)?;
    }
    Ok(all)
}
