//! What those who wait sleep on.
ghost use Rattle.std.specs.Prelude.{◌≡◌, vec_len, IfOk};

use std::alloc::{AllocError, Global};
use std::sync::Condvar;

// A call wakes only those who sleep on the same bell, so that not all who wait are woken for one.
const BELLS: usize = 16;

#[derive(Drop)]
pub(crate) struct Bells {
    all: Vec<Condvar>,
    ghost enough: { vec_len all ≡ 16 },
}

fn hang(alloc: Global) -> Result<Vec<Condvar>, AllocError>
    ensures { IfOk result (λ all. vec_len all ≡ 16) }
{
    let mut all = Vec::with_capacity(alloc, BELLS)?;
    for _ in 0..BELLS {
        all.push(Condvar::new())?;
    }
    Ok(all)
}

impl Bells {
    pub(crate) fn new(alloc: Global) -> Result<Bells, AllocError> {
        Ok(Bells { all: hang(alloc)? })
    }

    /// The bell of a ticket.
    pub(crate) fn of(&self, ticket: u64) -> &Condvar {
        &self.all[(ticket % 16) as usize]
    }
}
