//! A recording proxy: pieces go in as they come from either side, and those to be sent on come out.
ghost use Rattle.std.specs.Prelude.{◌≡◌, ◌∷◌, ◌++◌, ℕ, List, [], Err};
ghost use Rattle.pgw_proxy.specs.declared.recorded.Side.TheVariants.{Client, Server};
ghost use Rattle.pgw_proxy.specs.Proxied.{SideEvent};
ghost use Rattle.pgw_proxy.specs.Stands.{IsRelayOver, ProxyGoesOn, RelayStands, ProxyArrives, Forwards};

use crate::context::Context;
use crate::fault::ProxyFault;
use crate::recorded::Side;
use crate::taking::take_piece;
use bytes::BytesMut;
use std::alloc::Global;

/// What stands between a client and a server: it takes the pieces that come from each, passes each
/// message on to the other side once it is whole, as it was spelled, and records it. It reads and
/// writes nothing itself.
///
/// What waits in it is of each side no more than one message that is not whole yet, and of a
/// server what came before the request that it answers. As long as it goes on, nothing is kept of
/// a message that was passed on.
#[derive(Drop)]
pub struct Proxy {
    context: Context,
    client: BytesMut,
    server: BytesMut,
    // a fault was answered
    over: bool,
}

impl Proxy {
    /// A connection of which nothing came yet.
    pub fn new(alloc: Global) -> Proxy
        ensures going { ProxyGoesOn result }
        // It stands for no pieces, with nothing passed on and nothing recorded.
        ensures stands { RelayStands result [] [] [] [] }
    {
        Proxy {
            context: Context::new(),
            client: BytesMut::new(alloc),
            server: BytesMut::new(alloc),
            over: false,
        }
    }

    /// Takes a piece that came from the client, and appends what goes to the server, and its
    /// record.
    ///
    /// What is whole before a fault is passed on, want of memory among them. After a fault it
    /// takes nothing more.
    pub fn from_client(
        &mut self,
        alloc: Global,
        piece: &[u8],
        to_server: &mut BytesMut,
        tape: &mut BytesMut,
    ) -> Result<(), ProxyFault>
        // From where it is the piece leads to where it is then, and the answer says so.
        ensures forwards { ProxyGoesOn self.old → Forwards Client self.old self.new piece.now
            to_server.old.items to_server.new.items tape.old.items tape.new.items result }
        // For all pieces that it stood for, with what was passed on and recorded, it stands for
        // them with this piece behind them, and what is appended; the answer is what the place
        // tells to which they lead.
        ensures stands { (events : List SideEvent) (sent got record_so_far : List ℕ) →
            RelayStands self.old events sent got record_so_far → (more part : List ℕ)
            × (to_server.new.items ≡ to_server.old.items ++ more)
            × (tape.new.items ≡ tape.old.items ++ part)
            × ProxyArrives self.old self.new (events ++ (Client, piece.now) ∷ []) (sent ++ more) got
            (record_so_far ++ part) result }
        // Behind a fault nothing changes.
        ensures stopped { IsRelayOver self.old → (self.new ≡ self.old)
            × (to_server.new.items ≡ to_server.old.items) × (tape.new.items ≡ tape.old.items)
            × (result ≡ Err ProxyFault.Stopped) }
    {
        if self.over {
            return Err(ProxyFault::Stopped);
        }
        let (context, client) = (&mut self.context, &mut self.client);
        let answer = take_piece(alloc, Side::Client, context, client, piece, to_server, tape);
        self.over = answer.is_err();
        answer
    }

    /// As `from_client`, of a piece that came from the server, whose messages go to the client.
    pub fn from_server(
        &mut self,
        alloc: Global,
        piece: &[u8],
        to_client: &mut BytesMut,
        tape: &mut BytesMut,
    ) -> Result<(), ProxyFault>
        ensures forwards { ProxyGoesOn self.old → Forwards Server self.old self.new piece.now
            to_client.old.items to_client.new.items tape.old.items tape.new.items result }
        ensures stands { (events : List SideEvent) (sent got record_so_far : List ℕ) →
            RelayStands self.old events sent got record_so_far → (more part : List ℕ)
            × (to_client.new.items ≡ to_client.old.items ++ more)
            × (tape.new.items ≡ tape.old.items ++ part)
            × ProxyArrives self.old self.new (events ++ (Server, piece.now) ∷ []) sent (got ++ more)
            (record_so_far ++ part) result }
        ensures stopped { IsRelayOver self.old → (self.new ≡ self.old)
            × (to_client.new.items ≡ to_client.old.items) × (tape.new.items ≡ tape.old.items)
            × (result ≡ Err ProxyFault.Stopped) }
    {
        if self.over {
            return Err(ProxyFault::Stopped);
        }
        let (context, server) = (&mut self.context, &mut self.server);
        let answer = take_piece(alloc, Side::Server, context, server, piece, to_client, tape);
        self.over = answer.is_err();
        answer
    }
}
