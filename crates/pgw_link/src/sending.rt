//! Writes what is to be sent, all of it.
ghost use Rattle.std.specs.Prelude.{◌≡◌, OnOk, OnErr};
ghost use Rattle.std.specs.Io.KnownBytes.{Keeps};
ghost use Rattle.pgw_link.specs.Tape.{HasTapeCause};
ghost use Rattle.pgw_link.specs.Sending.{Wrote, WroteSome};

use crate::link::{Link, LinkFault};

/// Writes the bytes, all of them, and flushes.
pub fn send<L: Link>(link: &mut L, bytes: &[u8]) -> Result<(), LinkFault>
    ensures cause { HasTapeCause (L.faults link.old) (L.faults link.new) result }
    ensures clean { OnOk result (L.faults link.new ≡ L.faults link.old) }
    ensures kept { L.plan link.new ≡ L.plan link.old }
    ensures left { L.foretells → Keeps (L.left link.old) (L.left link.new) }
    ensures sent { OnOk result (Wrote (L.tape link.old) (L.tape link.new) bytes.now) }
    ensures failed { OnErr result (WroteSome (L.tape link.old) (L.tape link.new) bytes.now) }
{
    let mut at = 0;
    while at < bytes.len() {
        let n = link.write(&bytes[at..])?;
        at += n;
    }
    link.flush()
}
