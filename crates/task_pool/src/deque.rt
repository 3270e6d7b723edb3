//! A deque of task numbers, and its protocol.

ghost use Rattle.std.specs.Prelude.{◌≡◌, ℕ, ◌+◌, ◌-◌, ◌^◌, ◌<◌, ◌≤◌, [], ◌∷◌, ◌++◌, length, IfOk, IfSome, IfNone, MatchOption, ◌⊎◌};
ghost use Rattle.crossbeam_deque.specs.Handles.{view, IsPassOf, SamePass, SameWorker, worker_deque, stealer_deque, worker_view, worker_flavor, stealer_flavor, worker_capacity, worker_index};
ghost use Rattle.task_pool.specs.Lists.{times, from_on};
ghost use Rattle.task_pool.specs.Shares.{account, ALL_PARTS, both_of};

use crossbeam_deque::protocol::{Join, Outcome, Protocol, Split};
use crossbeam_deque::{Pass, Steal, Stealer, Worker};
use std::alloc::{AllocError, Global};
use std::collections::LinkedList;

/// What a pass knows: its parts of the right to know all, the numbers that it pushed, and those that it took. No value
/// of it is made.
pub(crate) struct Account {
    pub parts: u64,
    pub pushed: LinkedList<u32>,
    pub took: LinkedList<u32>,
}

pub(crate) struct Shared;

impl Protocol<u32, Account> for Shared {
    ghost use Rattle.std.specs.Prelude.{[]};
    ghost use Rattle.task_pool.specs.Shares.{Shares, account, ALL_PARTS};

    ghost holds = { Shares };

    ghost first = { account ALL_PARTS [] [] };

    ghost guest = { account 0 [] [] };
}

struct Pushing;

impl Outcome<u32, Account> for Pushing {
    ghost use Rattle.task_pool.specs.Shares.{Pushed};

    ghost then = { Pushed };
}

struct Taking;

impl Outcome<u32, Account> for Taking {
    ghost use Rattle.task_pool.specs.Shares.{Took, Emptied};

    ghost then = { Took };

    ghost empty = { Emptied };
}

struct Parts;

impl Split<Account> for Parts {
    ghost use Rattle.task_pool.specs.Shares.{without_part, one_part};

    ghost left = { without_part };

    ghost right = { one_part };
}

impl Join<Account> for Parts {
    ghost use Rattle.std.specs.Prelude.{[]};
    ghost use Rattle.task_pool.specs.Shares.{both_of, account};

    ghost both = { both_of };

    ghost spent = { account 0 [] [] };
}

pub(crate) type Owner = Worker<u32, Global, Account, Shared>;

pub(crate) type Thief = Stealer<u32, Global, Account, Shared>;

/// A deque that holds the `count` numbers from `from` on. No push can be refused.
pub(crate) fn filled(alloc: Global, from: u32, count: u32) -> Result<Owner, AllocError>
    requires { from + count < 2 ^ 32 }
    ensures { IfOk result (λ w. (worker_flavor w ≡ 0) × (worker_view w ≡ account ALL_PARTS (from_on from count) [])) }
{
    let mut owner = Owner::fifo_as(alloc, count as usize)?;
    for i in 0..count {
        let Ok(()) = owner.push_as::<Pushing>(from + i) else {
            unreachable!()
        };
    }
    Ok(owner)
}

/// The next of the owner's tasks. `None` comes only where the deque was empty at one moment of the call.
pub(crate) fn next(owner: &mut Owner) -> Option<u32>
    requires { (worker_flavor owner.old ≡ 0) × (0 < (worker_view owner.old).parts) }
    ensures same { SameWorker owner.old owner.new }
    ensures took { IfSome result
        (λ x. worker_view owner.new
        ≡ account (worker_view owner.old).parts (worker_view owner.old).pushed
        ((worker_view owner.old).took ++ x ∷ [])) }
    ensures few { IfSome result (λ x. (worker_view owner.old).parts ≡ ALL_PARTS
        → length (worker_view owner.new).took ≤ length (worker_view owner.new).pushed) }
    ensures empty { IfNone result ((worker_view owner.new ≡ worker_view owner.old)
        × ((worker_view owner.old).parts ≡ ALL_PARTS → (x : ℕ)
        → times x (worker_view owner.old).took ≡ times x (worker_view owner.old).pushed)) }
{
    owner.pop_as::<Taking>()
}

/// At most one task of another's deque.
pub(crate) fn stolen(thief: &Thief, pass: &mut Pass<u32, Account>) -> Option<u32>
    requires { IsPassOf (stealer_deque thief.now) pass.old × (stealer_flavor thief.now ≡ 0)
        × (0 < (view pass.old).parts) }
    ensures same { IsPassOf (stealer_deque thief.now) pass.new × (pass.new.id ≡ pass.old.id) }
    ensures took { IfSome result
        (λ x. view pass.new ≡ account (view pass.old).parts (view pass.old).pushed ((view pass.old).took ++ x ∷ [])) }
    ensures none { IfNone result (view pass.new ≡ view pass.old) }
{
    match thief.steal_as::<Taking>(pass) {
        Steal::Success(task) => Some(task),
        Steal::Empty => None,
        Steal::Retry => None,
    }
}

/// A pass for one more thief.
pub(crate) fn pass_of(owner: &mut Owner) -> Pass<u32, Account>
    requires { 1 < (worker_view owner.old).parts }
    ensures same { SameWorker owner.old owner.new × IsPassOf (worker_deque owner.old) result }
    ensures rest { worker_view owner.new
        ≡ account ((worker_view owner.old).parts - 1) (worker_view owner.old).pushed (worker_view owner.old).took }
    ensures new { view result ≡ account 1 [] [] }
{
    owner.another::<Parts>()
}

/// Takes in what a thief took.
pub(crate) fn take_in(owner: &mut Owner, pass: Pass<u32, Account>)
    requires { IsPassOf (worker_deque owner.old) pass × (0 < (worker_view owner.old).parts) }
    ensures same { SameWorker owner.old owner.new }
    ensures both { worker_view owner.new ≡ both_of (worker_view owner.old) (view pass) }
{
    owner.absorb::<Parts>(pass);
}

/// The tasks that nobody took, once all passes are back: there are none in practice. Afterwards each number that was
/// pushed was taken as often.
pub(crate) fn rest(owner: &mut Owner, alloc: Global) -> Result<Vec<u32>, AllocError>
    requires { (worker_flavor owner.old ≡ 0) × ((worker_view owner.old).parts ≡ ALL_PARTS) }
    ensures { IfOk result (λ v. (x : ℕ) → times x (worker_view owner.old).took + times x v.items
        ≡ times x (worker_view owner.old).pushed) }
{
    let mut all = Vec::new(alloc);
    while let Some(task) = next(owner) {
        all.push(task)?;
    }
    Ok(all)
}
