//! The end of a client.
ghost use Rattle.std.specs.Prelude.{◌≡◌, false};
ghost use Rattle.pgw_handlers.specs.Handling.{HasCause};
ghost use Rattle.pgw_client_calls.specs.Closing.{TakesLeave, Closed};
ghost use Rattle.pgw_client_calls.specs.State.{is_broken, link_of};

use crate::client::PgWireClient;
use crate::connection::Connection;
use pgw_backend::client_error::{PgWireClientError, PgWireClientResult};
use pgw_link::dialer::Dialer;
use pgw_link::link::Link;
use pgw_link::sending::send;

// Terminate, as it is written.
const TERMINATE: [u8; 5] = [b'X', 0, 0, 0, 4];

// Takes leave of the server, which a client that cannot be used does not.
fn take_leave<L: Link>(broken: bool, link: &mut L) -> PgWireClientResult<()>
    ensures { TakesLeave broken (L.tape link.old) (L.tape link.new)
        (L.faults link.old) (L.faults link.new) result }
{
    if broken {
        return Ok(());
    }
    match send(link, &TERMINATE) {
        Ok(()) => Ok(()),
        Err(_) => Err(PgWireClientError::IoError),
    }
}

impl<L: Link> Connection<L> {
    pub(crate) fn into_link(self) -> L
        ensures { result ≡ self.link }
    {
        let Connection {
            desk,
            link,
            inbox: _inbox,
            piece: _piece,
            read: _read,
            limit: _limit,
        } = self;
        drop(desk);
        link
    }
}

impl<L: Link> PgWireClient<L> {
    /// Gives the client up for its link, and tells the server nothing. It takes no memory.
    pub fn into_link(self) -> L
        ensures { result ≡ link_of self }
    {
        let PgWireClient { connection } = self;
        connection.into_link()
    }

    /// Ends the session: writes Terminate and flushes, where the client can be used, and gives the
    /// link back to its dialer, which closes it in each case. It takes no memory.
    pub fn close<D: Dialer<Link = L>>(self, dialer: &mut D) -> PgWireClientResult<()>
        // Terminate was written and flushed, or nothing where an earlier error left the client
        // unusable, and then the link was closed. IoError comes only where a call of it failed here.
        ensures closed { Closed (is_broken self)
            (L.tape (link_of self)) (L.faults (link_of self))
            (D.tape dialer.old) (D.tape dialer.new)
            (D.faults dialer.old) (D.faults dialer.new) result }
        ensures cause { HasCause (D.faults dialer.old) (D.faults dialer.new) false result }
        // The links that the dialer makes next are those that they were.
        ensures offers { D.foretells → D.offers dialer.new ≡ D.offers dialer.old }
    {
        let broken = self.is_broken();
        let mut link = self.into_link();
        let left = take_leave(broken, &mut link);
        dialer.close(link);
        left
    }
}
