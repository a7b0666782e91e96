//! A client over a link.
ghost use Rattle.std.specs.Prelude.{◌≡◌, false, length};
ghost use Rattle.pgw_client_calls.specs.Calls.{CallFrame, KeptRest, sight_in, faults_in, own_in, rest_in};

use crate::connection::Connection;
use pgw_config::config::Config;
use pgw_handlers::{ClientInfo, Seen};
use pgw_link::link::Link;
use pgw_query::response::TransactionStatus;
use pgw_types::context::ProtocolVersion;
use pgw_types::memory::OutOfMemory;
use pgw_types::text::Text;
use pgw_wire::params::Params;
use pgw_wire::secret_key::SecretKey;
use std::alloc::Global;
use std::marker::Model;

/// A client over a link. It reads at most `limit` bytes. Its contracts see its link, what it knows of
/// its connection, whether it can be used, and the bytes that were read and not taken yet.
#[derive(Drop)]
pub struct PgWireClient<L: Link> {
    pub(crate) connection: Connection<L>,
}

impl<L: Link> Model for PgWireClient<L> {
    ghost use Rattle.std.specs.Coded.{codes, coded_list, coded_ℕ};
    ghost use Rattle.std.specs.FinMap as map;
    ghost use Rattle.std.specs.Ordering.{nat_cmp};
    ghost use Rattle.std.specs.Cmp.Lexicographic.{slice_cmp};
    ghost use Rattle.pgw_client_calls.specs.State.{ClientState};

    ghost Value = { ClientState L };

    ghost coded = { Prim.hlevel (
      codes,
      map.code {R = slice_cmp nat_cmp} (coded_list coded_ℕ) (coded_list coded_ℕ),
    ) };

    ghost use Rattle.pgw_client_calls.specs.Connection.{state_of};

    ghost view = { λ client. state_of client.connection };
}

impl<L: Link> PgWireClient<L> {
    /// Whether an earlier error left the client unusable. It takes no memory.
    pub fn is_broken(&self) -> bool
        ensures broken { result ≡ self.now.broken }
        // A client that can be used has flushed all that it wrote.
        ensures flushed { result ≡ false →
            (L.tape self.now.link).flushed ≡ length (L.tape self.now.link).wrote }
    {
        self.connection.desk.broken
    }

    pub fn link(&self) -> &L
        ensures { result.now ≡ self.now.link }
    {
        &self.connection.link
    }

    /// The allocator that it was made with, by which its calls take memory.
    pub fn alloc(&self) -> Global {
        self.connection.desk.alloc
    }

    /// How many bytes were read and not taken yet. It takes no memory.
    pub fn buffered(&self) -> usize
        ensures { result ≡ length self.now.buffer }
    {
        self.connection.inbox.len()
    }
}

impl<L: Link> Seen for PgWireClient<L> {
    ghost sight = { sight_in L.tape };

    ghost faults = { faults_in L.faults };

    ghost Own = { CallFrame };

    ghost own = { own_in };

    ghost Rest = { KeptRest };

    ghost rest = { rest_in L.tape };
}

impl<L: Link> ClientInfo for PgWireClient<L> {
    ghost use Rattle.std.specs.Prelude.{OnOk, OnErr};
    ghost use Rattle.pgw_handlers.specs.Client.{with_parameter, with_sight_version, with_sight_status};

    fn config(&self) -> &Config {
        &self.connection.desk.config
    }

    fn server_parameters(&self) -> &Params {
        &self.connection.desk.parameters
    }

    fn set_server_parameter(&mut self, name: Text, value: Text) -> Result<(), OutOfMemory>
        ensures set { OnOk result (sight_in L.tape self.new
            ≡ with_parameter name value (sight_in L.tape self.old)) }
        ensures kept { OnErr result (sight_in L.tape self.new ≡ sight_in L.tape self.old) }
        ensures own { own_in self.new ≡ own_in self.old }
        ensures rest { rest_in L.tape self.new ≡ rest_in L.tape self.old }
        ensures calm { L.faults self.new.link ≡ L.faults self.old.link }
        ensures link { self.new.link ≡ self.old.link }
    {
        self.connection.desk.parameters.insert(name, value)
    }

    fn process_id(&self) -> i32 {
        self.connection.desk.process_id
    }

    fn secret_key(&self) -> &SecretKey {
        &self.connection.desk.secret_key
    }

    fn protocol_version(&self) -> ProtocolVersion {
        self.connection.desk.protocol_version
    }

    fn set_protocol_version(&mut self, version: ProtocolVersion)
        ensures set { sight_in L.tape self.new ≡ with_sight_version version
            (sight_in L.tape self.old) }
        ensures own { own_in self.new ≡ own_in self.old }
        ensures rest { rest_in L.tape self.new ≡ rest_in L.tape self.old }
        ensures calm { L.faults self.new.link ≡ L.faults self.old.link }
        ensures link { self.new.link ≡ self.old.link }
    {
        self.connection.desk.protocol_version = version;
    }

    fn transaction_status(&self) -> TransactionStatus {
        self.connection.desk.transaction_status
    }

    fn set_transaction_status(&mut self, status: TransactionStatus)
        ensures set { sight_in L.tape self.new ≡ with_sight_status status
            (sight_in L.tape self.old) }
        ensures own { own_in self.new ≡ own_in self.old }
        ensures rest { rest_in L.tape self.new ≡ rest_in L.tape self.old }
        ensures calm { L.faults self.new.link ≡ L.faults self.old.link }
        ensures link { self.new.link ≡ self.old.link }
    {
        self.connection.desk.transaction_status = status;
    }
}
