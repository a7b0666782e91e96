//! What was told of the connection.
ghost use Rattle.std.specs.Prelude.{◌≡◌, IfOk, OnOk};
ghost use Rattle.pgw_session.specs.Standings.{first_standing, standing_by};

use pgw_backend::backend::PgWireBackendMessage;
use pgw_config::config::Config;
use pgw_query::response::TransactionStatus;
use pgw_session::standing::Standing;
use pgw_startup::backend_key_data::BackendKeyData;
use pgw_startup::negotiate::{NegotiateProtocolVersion, negotiated_version};
use pgw_types::listed::Duplicate;
use pgw_types::memory::OutOfMemory;
use pgw_types::octets::Octets;
use pgw_wire::params::Params;
use pgw_wire::secret_key::SecretKey;
use std::alloc::Global;

/// Before any message.
pub fn first_standing(alloc: Global, config: &Config) -> Standing
    ensures { result ≡ first_standing config.now }
{
    Standing {
        version: config.get_protocol_version(),
        settled: false,
        parameters: Params::new(alloc),
        process_id: -1,
        secret_key: SecretKey::I32(0),
        status: TransactionStatus::Idle,
    }
}

fn note_version(standing: &mut Standing, message: &NegotiateProtocolVersion)
    ensures { standing.new ≡ standing_by standing.old
        (PgWireBackendMessage.NegotiateProtocolVersion message.now) }
{
    if !standing.settled {
        if let Some(version) = negotiated_version(message) {
            standing.version = version;
        }
    }
}

/// A copy of a key, of bytes of its own: the block that the key was read in may go.
pub fn own_key(alloc: Global, key: &SecretKey) -> Result<SecretKey, OutOfMemory>
    ensures { IfOk result (λ own. own ≡ key.now) }
{
    match key {
        SecretKey::I32(number) => Ok(SecretKey::I32(*number)),
        SecretKey::Bytes(bytes) => {
            let own = Octets::from_slice(alloc, bytes.as_slice())?;
            Ok(SecretKey::Bytes(own))
        }
    }
}

fn note_key(
    alloc: Global,
    standing: &mut Standing,
    message: &BackendKeyData,
) -> Result<(), OutOfMemory>
    ensures { OnOk result (standing.new ≡ standing_by standing.old
        (PgWireBackendMessage.BackendKeyData message.now)) }
{
    if !standing.settled {
        standing.secret_key = own_key(alloc, &message.secret_key)?;
        standing.process_id = message.pid;
    }
    Ok(())
}

/// Notes what a message tells.
pub fn note(
    alloc: Global,
    standing: &mut Standing,
    message: &PgWireBackendMessage,
) -> Result<(), OutOfMemory>
    ensures { OnOk result (standing.new ≡ standing_by standing.old message.now) }
{
    match message {
        PgWireBackendMessage::NegotiateProtocolVersion(m) => note_version(standing, m),
        PgWireBackendMessage::BackendKeyData(m) => note_key(alloc, standing, m)?,
        PgWireBackendMessage::ParameterStatus(m) => {
            let name = m.name.duplicate()?;
            let value = m.value.duplicate()?;
            standing.parameters.insert(name, value)?;
        }
        PgWireBackendMessage::ReadyForQuery(m) => {
            standing.settled = true;
            standing.status = m.status;
        }
        _ => {}
    }
    Ok(())
}
