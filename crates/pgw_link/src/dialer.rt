//! Links to a server at an address.
ghost use Rattle.std.specs.Prelude.{◌≡◌, ℕ, List, Option, None, IfOk, OnErr};
ghost use Rattle.pgw_link.specs.Dials.{DialTape, Dialled, NotDialled, CountsDial, Shut, CountsClose, MakesNext};

use crate::link::Link;
use pgw_types::address::Address;

/// Why a dial gave no link.
#[derive(Clone, Copy, Debug, PartialEq, Eq, Drop)]
pub enum DialError {
    Fault,
    OutOfMemory,
}

/// What makes links to servers, and takes them back. It tells which addresses it dialled, and what each link that it
/// took back had told by then.
pub trait Dialer: Drop {
    type Link: Link;

    /// What the dialer tells of what its calls did.
    ghost tape: { Self → DialTape };

    /// The bytes that each link still to be made has to come, in order, where they are known.
    ghost offers: { Self → Option (List (List ℕ)) } = { λ _. None };

    /// A fact that holds where the offers are known, and what is to come on the links.
    ghost foretells: { Type 0 };

    /// How often a dial has failed, or a link with faults was closed. It never falls.
    ghost faults: { Self → ℕ };

    /// Makes a link to the address. No call was made of the link, so it has no fault.
    fn dial(&mut self, address: &Address) -> Result<Self::Link, DialError>
        ensures counts { CountsDial (faults self.old) (faults self.new) result }
        ensures faultless { IfOk result (λ made. Self.Link.faults made ≡ 0) }
        ensures dialled { IfOk result (λ made.
            Dialled address.now (tape self.old) (tape self.new) (Self.Link.tape made)) }
        ensures offered { foretells → IfOk result (λ made.
            MakesNext (offers self.old) (offers self.new) (Self.Link.left made)) }
        ensures failed { OnErr result (NotDialled address.now (tape self.old) (tape self.new)) }
        ensures kept { foretells → OnErr result (offers self.new ≡ offers self.old) };

    /// Gives a link up. It takes no memory.
    fn close(&mut self, used: Self::Link)
        ensures counts { CountsClose (faults self.old) (faults self.new) (Self.Link.faults used) }
        ensures shut { Shut (tape self.old) (tape self.new) (Self.Link.tape used) }
        ensures kept { foretells → offers self.new ≡ offers self.old };

    /// Where a dialer knows its offers, its links know what is to come.
    ghost links_foretell: { foretells → Self.Link.foretells };
}
