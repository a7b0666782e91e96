//! What the calls of a dialer did, kept for proofs alone.
ghost use Rattle.std.specs.Prelude.{◌≡◌, List, Bool};
ghost use Rattle.std.specs.Borrow.{ftrue};
ghost use Rattle.pgw_types.specs.declared.address.Address.{Address};
ghost use Rattle.pgw_link.specs.Tape.{Tape};
ghost use Rattle.pgw_link.specs.Dials.{new_dials};

use crate::log::Log;
use pgw_types::address::Address;
use std::marker::Model;

/// A history of dials and closed links. It takes no memory, and its methods do nothing at run time.
#[derive(Drop)]
pub struct DialLog {
    pub ghost dialled: { List (Address × Bool) },
    pub ghost shut: { List Tape },
}

impl Model for DialLog {
    ghost also_owns = { λ _. ftrue };
}

// It owns nothing.
unsafe impl Send for DialLog {}

/// One call: this address was dialled, and a link was made or not; or a link with this history was closed.
#[derive(Clone, Copy, Drop)]
pub enum DialNote<'a> {
    Dialled(&'a Address, bool),
    Shut(&'a Log),
}

impl DialLog {
    ghost use Rattle.pgw_link.specs.DialLog.{dial_tape_of, dial_noted};

    /// The history of no call.
    pub fn new() -> DialLog
        ensures { dial_tape_of result ≡ new_dials }
    {
        DialLog {}
    }

    /// This history with one call more.
    #[inline(always)]
    pub fn then(&self, _note: &DialNote<'_>) -> DialLog
        ensures { dial_tape_of result ≡ dial_noted (dial_tape_of self.now) _note.now }
    {
        DialLog {}
    }
}
