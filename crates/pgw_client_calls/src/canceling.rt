//! Canceling over a link of its own.
ghost use Rattle.std.specs.Prelude.{◌≡◌, ◌≤◌, ℕ, List, Option, true, false, Err, IfOk, IfErr, OnOk};
ghost use Rattle.pgw_backend.specs.declared.client_error.PgWireClientError.TheVariants as client;
ghost use Rattle.pgw_dialogue.specs.Wire.{PutOut};
ghost use Rattle.pgw_handlers.specs.Handling.{HasCause};
ghost use Rattle.pgw_link.specs.Dials.{MakesNext};
ghost use Rattle.pgw_client_calls.specs.Canceling.{IsTokenOf, cancel_bytes, SentOnce, NotSentOnce, Cancels, CancelsFor};
ghost use Rattle.pgw_client_calls.specs.Connecting.{LacksAddress};
ghost use Rattle.pgw_client_calls.specs.Desk.{client_of};
ghost use Rattle.pgw_client_calls.specs.State.{is_broken, known_by};

use crate::client::PgWireClient;
use crate::connect::{address_in, dial_to};
use crate::desk::{Desk, put};
use bytes::BytesMut;
use pgw_backend::client_error::{PgWireClientError, PgWireClientResult};
use pgw_control::cancel::CancelRequest;
use pgw_dialogue::standings::own_key;
use pgw_frontend::frontend::PgWireFrontendMessage;
use pgw_link::dialer::Dialer;
use pgw_link::link::Link;
use pgw_link::sending::send;
use pgw_types::address::Address;
use pgw_types::listed::Duplicate;
use pgw_wire::secret_key::SecretKey;
use std::alloc::Global;

/// What a server is asked by to cancel what it does for a client. It borrows nothing of the client,
/// so that another thread can ask while the client awaits an answer.
#[derive(Debug, Drop)]
pub struct CancelToken {
    pub address: Address,
    pub process_id: i32,
    pub secret_key: SecretKey,
    pub alloc: Global,
}

// Writes some bytes over a link of its own, which is closed behind that.
fn send_once<D: Dialer>(bytes: &[u8], address: &Address, dialer: &mut D) -> PgWireClientResult<()>
    ensures sent { OnOk result
        (SentOnce address.now bytes.now (D.tape dialer.old) (D.tape dialer.new)) }
    ensures calm { OnOk result (D.faults dialer.new ≡ D.faults dialer.old) }
    ensures next { D.foretells → OnOk result ((offer : Option (List ℕ))
        × MakesNext (D.offers dialer.old) (D.offers dialer.new) offer) }
    ensures failed { IfErr result
        (NotSentOnce D.foretells address.now bytes.now (D.offers dialer.old) (D.offers dialer.new)
        (D.tape dialer.old) (D.tape dialer.new) (D.faults dialer.old) (D.faults dialer.new)) }
    ensures later { D.faults dialer.old ≤ D.faults dialer.new }
{
    let mut link = match dial_to(address, dialer) {
        Ok(link) => link,
        Err(error) => return Err(error),
    };
    let sent = send(&mut link, bytes);
    dialer.close(link);
    match sent {
        Ok(()) => Ok(()),
        Err(_) => Err(PgWireClientError::IoError),
    }
}

impl CancelToken {
    // Appends the request, or nothing.
    fn put(&self, out: &mut BytesMut) -> PgWireClientResult<()>
        ensures { PutOut (cancel_bytes self.now.process_id self.now.secret_key)
            out.old.items out.new.items result }
    {
        let key = match self.secret_key.duplicate() {
            Ok(key) => key,
            Err(_) => return Err(PgWireClientError::OutOfMemory),
        };
        let request = CancelRequest::new(self.process_id, key);
        let message = PgWireFrontendMessage::CancelRequest(request);
        let done = put(&message, out);
        drop(message);
        done
    }

    /// Asks the server to cancel what it does for the client: over a link of its own, which is closed
    /// behind that. It dials once at most.
    pub fn cancel<D: Dialer>(&self, dialer: &mut D) -> PgWireClientResult<()>
        // One request was written to a link to the address and flushed, and no call failed; or why not.
        ensures cancels { Cancels (dialer.new ≡ dialer.old) D.foretells self.now.address
            (cancel_bytes self.now.process_id self.now.secret_key)
            (D.offers dialer.old) (D.offers dialer.new) (D.tape dialer.old) (D.tape dialer.new)
            (D.faults dialer.old) (D.faults dialer.new) result }
        // IoError comes only where the dialer's count rose, and Broken never.
        ensures cause { HasCause (D.faults dialer.old) (D.faults dialer.new) false result }
    {
        let mut out = BytesMut::new(self.alloc);
        match self.put(&mut out) {
            Ok(()) => send_once(out.as_slice(), &self.address, dialer),
            Err(error) => Err(error),
        }
    }
}

impl Desk {
    // What cancels what the server does for the client that knows this.
    fn token(&self) -> PgWireClientResult<CancelToken>
        ensures token { IfOk result (IsTokenOf (client_of self.now)) }
        ensures lacks { IfErr result (LacksAddress self.now.config) }
    {
        let address = match address_in(self.alloc, &self.config) {
            Ok(address) => address,
            Err(error) => return Err(error),
        };
        match own_key(self.alloc, &self.secret_key) {
            Ok(secret_key) => Ok(CancelToken {
                address,
                process_id: self.process_id,
                secret_key,
                alloc: self.alloc,
            }),
            Err(_) => Err(PgWireClientError::OutOfMemory),
        }
    }
}

impl<L: Link> PgWireClient<L> {
    /// What cancels what the server does for this client, to be used from anywhere.
    pub fn cancel_token(&self) -> PgWireClientResult<CancelToken>
        ensures broken { is_broken self.now ≡ true → result ≡ Err client.Broken }
        // It is this client's.
        ensures token { IfOk result (IsTokenOf (known_by self.now)) }
        // Else the configuration has no address, or memory was wanting.
        ensures lacks { is_broken self.now ≡ false →
            IfErr result (LacksAddress (known_by self.now).config) }
    {
        if self.connection.desk.broken {
            return Err(PgWireClientError::Broken);
        }
        self.connection.desk.token()
    }

    /// Asks the server to cancel what it does for this client, by the client's token. The client's own
    /// link stays as it is.
    pub fn cancel<D: Dialer>(&self, dialer: &mut D) -> PgWireClientResult<()>
        ensures broken { is_broken self.now ≡ true → (result ≡ Err client.Broken) ×
            (dialer.new ≡ dialer.old) }
        // It is what the token's cancel does and answers; or there is no token.
        ensures cancels { is_broken self.now ≡ false → CancelsFor (known_by self.now)
            (dialer.new ≡ dialer.old) D.foretells
            (D.offers dialer.old) (D.offers dialer.new) (D.tape dialer.old) (D.tape dialer.new)
            (D.faults dialer.old) (D.faults dialer.new) result }
        // IoError comes only where the dialer's count rose.
        ensures cause { HasCause (D.faults dialer.old) (D.faults dialer.new) (is_broken self.now)
            result }
    {
        match self.cancel_token() {
            Ok(token) => token.cancel(dialer),
            Err(error) => Err(error),
        }
    }
}
