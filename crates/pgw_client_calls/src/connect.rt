//! Connecting.
ghost use Rattle.std.specs.Prelude.{◌≡◌, ◌≤◌, ◌<◌, ◌+◌, ℕ, List, Option, [], length, true, false, Ok, Err, IfOk, IfErr, OnOk};
ghost use Rattle.pgw_backend.specs.declared.client_error.PgWireClientError.TheVariants as client;
ghost use Rattle.pgw_config.specs.Address.{address_of};
ghost use Rattle.pgw_session.specs.Demands.{refused_config};
ghost use Rattle.pgw_handlers.specs.Handling.{HasCause};
ghost use Rattle.pgw_handlers.specs.Startup.{startup, HeardAtStartup};
ghost use Rattle.pgw_client_calls.specs.Talk.{end};
ghost use Rattle.pgw_client_calls.specs.Desk.{client_of, first_client};
ghost use Rattle.pgw_client_calls.specs.Line.{Foretold};
ghost use Rattle.pgw_client_calls.specs.Connection.{line_in};
ghost use Rattle.pgw_client_calls.specs.Calls.{IsUsableAfter, HeardNext, LineCall};
ghost use Rattle.pgw_client_calls.specs.Connecting.{goes_on_never, LeadsTo, LacksAddress, IsRefusedBy, NoLink, LogsIn, ConnectedAt, NotConnectedAt, Connected, NotConnected, Connects};
ghost use Rattle.pgw_link.specs.Tape.{new_tape};
ghost use Rattle.pgw_link.specs.Dials.{Dialled, Shut, CountsClose, MakesNext};

use crate::client::PgWireClient;
use crate::connection::Connection;
use crate::desk::Desk;
use crate::hearing::Hearer;
use crate::reading::{Piece, new_piece};
use bytes::BytesMut;
use pgw_backend::client_error::{PgWireClientError, PgWireClientResult};
use pgw_config::config::Config;
use pgw_dialogue::demands::check_config;
use pgw_dialogue::inbox::Inbox;
use pgw_dialogue::table::is_ready;
use pgw_handlers::{ReadyState, ServerInformation, StartupHandler};
use pgw_link::dialer::{DialError, Dialer};
use pgw_link::link::Link;
use pgw_link::sending::send;
use pgw_types::address::Address;
use std::alloc::Global;
use std::marker::Model;

impl<L: Link> Connection<L> {
    // Takes a message and has the handler hear it.
    fn hear_at_startup<S: StartupHandler>(
        &mut self,
        alloc: Global,
        handler: &mut S,
    ) -> PgWireClientResult<ReadyState<ServerInformation>>
        requires { self.old.desk.broken ≡ false }
        ensures limit { self.new.limit ≡ self.old.limit }
        ensures config { self.new.desk.config ≡ self.old.desk.config }
        ensures shrinks { OnOk result
            (length self.new.inbox + self.old.read < length self.old.inbox + self.new.read) }
        ensures cause { HasCause (L.faults self.old.link) (L.faults self.new.link) false result }
        ensures foretold { L.foretells → Foretold (L.left self.old.link) (L.left self.new.link)
            (L.tape self.old.link) (L.tape self.new.link) }
        ensures usable { IsUsableAfter goes_on_never result self.new.desk.broken }
        ensures heard { HeardNext (HeardAtStartup S.exchanges S.means) goes_on_never handler.old
            (client_of self.old.desk)
            (line_in L.tape L.faults self.old) (line_in L.tape L.faults self.new)
            handler.new (client_of self.new.desk) self.new.desk.broken result }
    {
        let message = match self.next_message(alloc) {
            Ok(message) => message,
            Err(error) => {
                self.desk.broken = true;
                return Err(error);
            }
        };
        let closing = is_ready(&message);
        self.desk.clear();
        let answer = handler.on_message(alloc, &mut self.desk, message);
        self.follow(alloc, false, closing, answer)
    }

    // Begins the connection, and hears the messages up to the first ReadyForQuery.
    fn start<S: StartupHandler + Drop>(
        &mut self,
        alloc: Global,
        mut handler: S,
    ) -> PgWireClientResult<ServerInformation>
        requires { self.old.desk.broken ≡ false }
        ensures limit { self.new.limit ≡ self.old.limit }
        ensures config { self.new.desk.config ≡ self.old.desk.config }
        ensures cause { HasCause (L.faults self.old.link) (L.faults self.new.link) false result }
        ensures foretold { L.foretells → Foretold (L.left self.old.link) (L.left self.new.link)
            (L.tape self.old.link) (L.tape self.new.link) }
        ensures usable { OnOk result (self.new.desk.broken ≡ false) }
        ensures asked { LineCall (λ before after answer. S.means before startup after answer)
            (HeardAtStartup S.exchanges S.means) goes_on_never handler (client_of self.old.desk)
            (line_in L.tape L.faults self.old) (line_in L.tape L.faults self.new)
            (end result (client_of self.new.desk) self.new.desk.broken self.new.inbox) }
    {
        self.desk.clear();
        let opened = handler.startup(alloc, &mut self.desk);
        match self.begin(opened) {
            Ok(()) => self.talk(alloc, &mut AtStartup { handler }),
            Err(error) => Err(error),
        }
    }

    // Logs in, and takes in what the server told of itself.
    fn log_in<S: StartupHandler + Drop>(
        &mut self,
        alloc: Global,
        handler: S,
    ) -> PgWireClientResult<()>
        requires { self.old.desk.broken ≡ false }
        ensures limit { self.new.limit ≡ self.old.limit }
        ensures config { self.new.desk.config ≡ self.old.desk.config }
        ensures cause { HasCause (L.faults self.old.link) (L.faults self.new.link) false result }
        ensures foretold { L.foretells → Foretold (L.left self.old.link) (L.left self.new.link)
            (L.tape self.old.link) (L.tape self.new.link) }
        ensures usable { OnOk result (self.new.desk.broken ≡ false) }
        ensures logs_in { LogsIn (λ before after answer. S.means before startup after answer)
            (HeardAtStartup S.exchanges S.means) handler (client_of self.old.desk)
            (line_in L.tape L.faults self.old) (line_in L.tape L.faults self.new)
            (client_of self.new.desk) result }
    {
        let information = match self.start(alloc, handler) {
            Ok(information) => information,
            Err(error) => return Err(error),
        };
        match self.desk.take_in(information) {
            Ok(()) => Ok(()),
            Err(_) => Err(PgWireClientError::OutOfMemory),
        }
    }
}

// A handler that logs in.
#[derive(Drop)]
struct AtStartup<S> {
    handler: S,
}

impl<S> Model for AtStartup<S> {
    ghost Value = { S };

    ghost view = { λ a. a.handler };
}

impl<S: StartupHandler> Hearer for AtStartup<S> {
    type Outcome = ServerInformation;

    ghost hears = { HeardAtStartup S.exchanges S.means };

    ghost goes_on = { goes_on_never };

    fn hear<L: Link>(
        &mut self,
        alloc: Global,
        connection: &mut Connection<L>,
    ) -> PgWireClientResult<ReadyState<ServerInformation>> {
        connection.hear_at_startup(alloc, &mut self.handler)
    }
}

// Where a configuration leads.
pub(crate) fn address_in(alloc: Global, config: &Config) -> PgWireClientResult<Address>
    ensures leads { IfOk result (λ address. address_of config.now ≡ Ok address) }
    ensures lacks { IfErr result (LacksAddress config.now) }
{
    match config.address(alloc) {
        Ok(address) => Ok(address),
        Err(why) => Err(PgWireClientError::from(why)),
    }
}

// Where a configuration leads, if it demands nothing that is refused.
fn address_for(alloc: Global, config: &Config) -> PgWireClientResult<Address>
    ensures leads { IfOk result (λ address. LeadsTo config.now address) }
    ensures refused { IfErr result (IsRefusedBy (refused_config config.now) config.now) }
{
    match check_config(alloc, config) {
        Ok(()) => address_in(alloc, config),
        Err(error) => Err(error),
    }
}

// As `address_for`, and a piece to read by.
fn place_for(alloc: Global, config: &Config) -> PgWireClientResult<(Address, Piece)>
    ensures leads { IfOk result (λ place. LeadsTo config.now place.0) }
    ensures refused { IfErr result (IsRefusedBy (refused_config config.now) config.now) }
{
    let address = match address_for(alloc, config) {
        Ok(address) => address,
        Err(error) => return Err(error),
    };
    match new_piece(alloc) {
        Ok(piece) => Ok((address, piece)),
        Err(_) => Err(PgWireClientError::OutOfMemory),
    }
}

// A client over a link of its own, before a server told anything.
fn client_over<L: Link>(
    alloc: Global,
    config: Config,
    link: L,
    piece: Piece,
    limit: u64,
) -> Connection<L>
    requires { (L.tape link).flushed ≡ length (L.tape link).wrote }
    ensures client { client_of result.desk ≡ first_client config }
    ensures broken { result.desk.broken ≡ false }
    ensures link { result.link ≡ link }
    ensures inbox { result.inbox ≡ [] }
    ensures read { result.read ≡ 0 }
    ensures limit { result.limit ≡ limit }
{
    Connection {
        desk: Desk::new(alloc, config),
        link,
        inbox: Inbox::new(alloc),
        piece,
        read: 0,
        limit,
    }
}

// A link to the address.
pub(crate) fn dial_to<D: Dialer>(address: &Address, dialer: &mut D) -> PgWireClientResult<D::Link>
    ensures faultless { IfOk result (λ link. D.Link.faults link ≡ 0) }
    ensures calm { OnOk result (D.faults dialer.new ≡ D.faults dialer.old) }
    ensures dialled { IfOk result
        (λ link. Dialled address.now (D.tape dialer.old) (D.tape dialer.new) (D.Link.tape link)) }
    ensures offered { D.foretells → IfOk result (λ link.
        MakesNext (D.offers dialer.old) (D.offers dialer.new) (D.Link.left link)) }
    ensures later { D.faults dialer.old ≤ D.faults dialer.new }
    ensures failed { IfErr result
        (NoLink D.foretells address.now (D.offers dialer.old) (D.offers dialer.new)
        (D.tape dialer.old) (D.tape dialer.new) (D.faults dialer.old) (D.faults dialer.new)) }
{
    match dialer.dial(address) {
        Ok(link) => Ok(link),
        Err(DialError::Fault) => Err(PgWireClientError::IoError),
        Err(DialError::OutOfMemory) => Err(PgWireClientError::OutOfMemory),
    }
}

// Gives a client's link up.
fn hang_up<D: Dialer>(client: Connection<D::Link>, dialer: &mut D)
    ensures counts { CountsClose (D.faults dialer.old) (D.faults dialer.new)
        (D.Link.faults client.link) }
    ensures shut { Shut (D.tape dialer.old) (D.tape dialer.new) (D.Link.tape client.link) }
    ensures kept { D.foretells → D.offers dialer.new ≡ D.offers dialer.old }
{
    dialer.close(client.into_link());
}

// Logs in over a link to the address, and closes the link where that fails.
fn connect_at<D: Dialer, S: StartupHandler + Drop>(
    alloc: Global,
    config: Config,
    address: &Address,
    piece: Piece,
    handler: S,
    dialer: &mut D,
    limit: u64,
) -> PgWireClientResult<Connection<D::Link>>
    ensures connected { IfOk result
        (λ client. ConnectedAt (λ before after answer. S.means before startup after answer)
        (HeardAtStartup S.exchanges S.means) handler config limit address.now
        (D.tape dialer.old) (D.tape dialer.new) (client_of client.desk)
        (line_in D.Link.tape D.Link.faults client)) }
    ensures failed { IfErr result
        (NotConnectedAt D.foretells (λ before after answer. S.means before startup after answer)
        (HeardAtStartup S.exchanges S.means) handler config limit address.now
        (D.offers dialer.old) (D.offers dialer.new) (D.tape dialer.old) (D.tape dialer.new)
        (D.faults dialer.old) (D.faults dialer.new)) }
    ensures foretold { D.foretells → IfOk result (λ client. (offer : Option (List ℕ))
        × MakesNext (D.offers dialer.old) (D.offers dialer.new) offer
        × Foretold offer (D.Link.left client.link) new_tape (D.Link.tape client.link)) }
    ensures cause { HasCause (D.faults dialer.old) (D.faults dialer.new) false result }
    ensures usable { IfOk result (λ client. client.desk.broken ≡ false) }
    ensures calm { OnOk result (D.faults dialer.new ≡ D.faults dialer.old) }
    ensures within { IfOk result (λ client. client.read ≤ client.limit) }
    ensures config { IfOk result (λ client. client.desk.config ≡ config) }
    ensures limit { IfOk result (λ client. client.limit ≡ limit) }
{
    let link = match dial_to(address, dialer) {
        Ok(link) => link,
        Err(error) => {
            drop(config);
            return Err(error);
        }
    };
    let mut client = client_over(alloc, config, link, piece, limit);
    match client.log_in(alloc, handler) {
        Ok(()) => Ok(client),
        Err(error) => {
            hang_up(client, dialer);
            Err(error)
        }
    }
}

impl<L: Link> Connection<L> {
    // Connects to the server at the address of a configuration, and logs in as the handler does.
    fn connect<D: Dialer<Link = L>, S: StartupHandler + Drop>(
        alloc: Global,
        config: Config,
        startup_handler: S,
        dialer: &mut D,
        limit: u64,
    ) -> PgWireClientResult<Connection<L>>
        ensures connected { IfOk result
            (λ client. Connected (λ before after answer. S.means before startup after answer)
            (HeardAtStartup S.exchanges S.means) startup_handler config limit
            (D.tape dialer.old) (D.tape dialer.new) (client_of client.desk)
            (line_in L.tape L.faults client)) }
        ensures refused { IfErr result
            (NotConnected (dialer.new ≡ dialer.old) D.foretells
            (λ before after answer. S.means before startup after answer)
            (HeardAtStartup S.exchanges S.means) startup_handler config limit
            (D.offers dialer.old) (D.offers dialer.new) (D.tape dialer.old) (D.tape dialer.new)
            (D.faults dialer.old) (D.faults dialer.new)) }
        ensures foretold { D.foretells → IfOk result (λ client. (offer : Option (List ℕ))
            × MakesNext (D.offers dialer.old) (D.offers dialer.new) offer
            × Foretold offer (L.left client.link) new_tape (L.tape client.link)) }
        ensures cause { HasCause (D.faults dialer.old) (D.faults dialer.new) false result }
        ensures usable { IfOk result (λ client. client.desk.broken ≡ false) }
        ensures calm { OnOk result (D.faults dialer.new ≡ D.faults dialer.old) }
        ensures within { IfOk result (λ client. client.read ≤ client.limit) }
        ensures config { IfOk result (λ client. client.desk.config ≡ config) }
        ensures limit { IfOk result (λ client. client.limit ≡ limit) }
    {
        match place_for(alloc, &config) {
            Ok((address, piece)) => {
                connect_at(
                    alloc,
                    config,
                    &address,
                    piece,
                    startup_handler,
                    dialer,
                    limit,
                )
            }
            Err(error) => {
                drop(config);
                Err(error)
            }
        }
    }
}

impl<L: Link> PgWireClient<L> {
    /// Connects to the server at the address of a configuration, and logs in as the handler does. At most `limit` bytes
    /// are read over the link. It dials once at most, and the link is closed where the login fails.
    pub fn connect<D: Dialer<Link = L>, S: StartupHandler + Drop>(
        alloc: Global,
        config: Config,
        startup_handler: S,
        dialer: &mut D,
        limit: u64,
    ) -> PgWireClientResult<PgWireClient<L>>
        ensures { Connects D.foretells D.offers D.tape D.faults L.left L.tape L.faults
            S.exchanges S.means startup_handler config limit dialer.old dialer.new result }
    {
        match Connection::connect(alloc, config, startup_handler, dialer, limit) {
            Ok(connection) => Ok(PgWireClient { connection }),
            Err(error) => Err(error),
        }
    }
}
