//! Channel binding (RFC 5802, section 6; RFC 5929, section 4).
ghost use Rattle.std.specs.Prelude.{◌≡◌, IfOk};
ghost use Rattle.pgw_scram.specs.Binding.{gs2_header, channel_data, binding_text};

use crate::encoding::encode_joined;
use pgw_types::listed::Duplicate;
use pgw_types::memory::OutOfMemory;
use pgw_types::octets::Octets;
use pgw_types::text::Text;
use std::alloc::Global;

/// What a client binds its login to.
#[derive(Drop)]
pub enum ClientBinding {
    /// To nothing: it knows no certificate of the server.
    None,
    /// To nothing, since the server offers no binding; a server that does refuses such a login.
    NotOffered,
    /// To this hash of the server's certificate (`tls-server-end-point`).
    EndPoint(Octets),
}

impl ClientBinding {
    /// What a client's first message begins with.
    pub fn header(&self) -> &str
        ensures { result.now ≡ gs2_header self.now }
    {
        match self {
            ClientBinding::None => "n,,",
            ClientBinding::NotOffered => "y,,",
            ClientBinding::EndPoint(_) => "p=tls-server-end-point,,",
        }
    }

    // What is bound behind the header.
    fn data(&self) -> &[u8]
        ensures { result.now ≡ channel_data self.now }
    {
        match self {
            ClientBinding::EndPoint(hash) => hash.as_slice(),
            _ => &[],
        }
    }

    /// What a client's last message begins with, behind `c=`.
    pub fn text(&self, alloc: Global) -> Result<Text, OutOfMemory>
        ensures { IfOk result (λ text. text ≡ binding_text self.now) }
    {
        encode_joined(alloc, self.header().as_bytes(), self.data())
    }
}

impl Duplicate for ClientBinding {
    fn duplicate(&self) -> Result<ClientBinding, OutOfMemory> {
        match self {
            ClientBinding::None => Ok(ClientBinding::None),
            ClientBinding::NotOffered => Ok(ClientBinding::NotOffered),
            ClientBinding::EndPoint(hash) => Ok(ClientBinding::EndPoint(hash.duplicate()?)),
        }
    }
}
