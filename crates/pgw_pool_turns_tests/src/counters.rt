//! A stock to be lent: numbered things.
ghost use Rattle.std.specs.Prelude.{◌≡◌, ◌≤◌, ◌+◌, ◌++◌, ◌∷◌, [], IfOk};
ghost use Rattle.std.specs.VecDeque.{deque_len, deque_capacity};

use pgw_pool_turns::{Stock, Turns};
use std::alloc::{AllocError, Global};
use std::collections::VecDeque;

/// Numbers, each of which is lent to one holder.
#[derive(Drop)]
pub(crate) struct Things {
    idle: VecDeque<usize>,
    room: usize,
    most: usize,
    ghost fits: { deque_len idle ≤ room },
    ghost reserved: { room ≤ deque_capacity idle },
}

fn filled(alloc: Global, count: usize) -> Result<VecDeque<usize>, AllocError>
    ensures len { IfOk result (λ q. deque_len q ≡ count) }
    ensures room { IfOk result (λ q. count ≤ deque_capacity q) }
{
    let mut idle = VecDeque::with_capacity(alloc, count)?;
    for number in 0..count {
        idle.push_back_reserved(number);
    }
    Ok(idle)
}

impl Things {
    /// The numbers below `count`, of which so many are lent at most.
    pub(crate) fn new(alloc: Global, count: usize, most: usize) -> Result<Things, AllocError>
        ensures { IfOk result (λ t. deque_len t.idle ≡ t.room) }
    {
        Ok(Things {
            idle: filled(alloc, count)?,
            room: count,
            most,
        })
    }
}

/// Turns over these, for which so many may wait.
pub(crate) fn turns_over(
    alloc: Global,
    count: usize,
    most: usize,
    room_to_wait: usize,
) -> Result<Turns<Things>, AllocError> {
    let things = Things::new(alloc, count, most)?;
    Turns::new(alloc, things, room_to_wait)
}

impl Stock for Things {
    type Lent = usize;

    type Back = usize;

    ghost ready = { λ t. deque_len t.idle };

    ghost room = { λ t. t.room };

    ghost lends = { λ s t n. (s.idle.items ≡ n ∷ t.idle.items) × (s.most ≡ t.most + 1) };

    ghost is_spent = { λ s. s.most ≡ 0 };

    ghost takes = { λ s n t. (t.idle.items ≡ s.idle.items ++ n ∷ []) × (t.most ≡ s.most) };

    ghost refuses = { λ s n. s.room ≤ n };

    ghost loses = { λ s t. t ≡ s };

    ghost fresh = { λ n. Unit {0} };

    fn ready(&self) -> usize {
        self.idle.len()
    }

    fn room(&self) -> usize {
        self.room
    }

    fn lend(&mut self) -> Option<usize> {
        if self.most == 0 {
            return None;
        }
        self.most -= 1;
        self.idle.pop_front()
    }

    // Another number is none of its own.
    fn put(&mut self, back: usize) -> bool {
        if back >= self.room {
            return false;
        }
        self.idle.push_back_reserved(back);
        true
    }

    fn lose(&mut self) {}
}
