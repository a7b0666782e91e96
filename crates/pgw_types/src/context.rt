//! What a decoder knows of the connection.
ghost use Rattle.std.specs.Prelude.{◌≡◌};
ghost use Rattle.pgw_types.specs.Versions.{version_number as number_of, version_from, version_code, first_context};
ghost use Rattle.pgw_types.specs.declared.context.ProtocolVersion.TheVariants.{PROTOCOL3_2};

/// A version of the protocol.
#[derive(Clone, Copy, Debug, PartialEq, Eq)]
pub enum ProtocolVersion {
    PROTOCOL3_0,
    PROTOCOL3_2,
    PROTOCOL3_9999,
}

impl ProtocolVersion {
    /// The major and the minor number.
    pub fn version_number(&self) -> (u16, u16)
        ensures { result ≡ number_of self.now }
    {
        match self {
            ProtocolVersion::PROTOCOL3_0 => (3, 0),
            ProtocolVersion::PROTOCOL3_2 => (3, 2),
            ProtocolVersion::PROTOCOL3_9999 => (3, 9999),
        }
    }

    /// The version of these numbers, if it is 3.0 or 3.2.
    pub fn from_version_number(major: u16, minor: u16) -> Option<ProtocolVersion>
        ensures { result ≡ version_from major minor }
    {
        if major != 3 {
            return None;
        }
        match minor {
            0 => Some(ProtocolVersion::PROTOCOL3_0),
            2 => Some(ProtocolVersion::PROTOCOL3_2),
            _ => None,
        }
    }
}

impl Default for ProtocolVersion {
    ghost is_default = { λ v. v ≡ PROTOCOL3_2 };

    fn default() -> ProtocolVersion {
        ProtocolVersion::PROTOCOL3_2
    }
}

impl From<ProtocolVersion> for i32 {
    ghost from_gives = { λ v n. n ≡ version_code v };

    fn from(version: ProtocolVersion) -> i32 {
        match version {
            ProtocolVersion::PROTOCOL3_0 => 196608,
            ProtocolVersion::PROTOCOL3_2 => 196610,
            ProtocolVersion::PROTOCOL3_9999 => 206607,
        }
    }
}

/// The version in force, and which message comes next where its first byte does not tell.
#[derive(Clone, Copy, Debug, PartialEq, Eq)]
pub struct DecodeContext {
    pub protocol_version: ProtocolVersion,
    pub awaiting_frontend_ssl: bool,
    pub awaiting_frontend_startup: bool,
    pub awaiting_backend_ssl_response: bool,
    pub awaiting_backend_gss_response: bool,
}

impl DecodeContext {
    /// As a connection begins.
    pub fn new(version: ProtocolVersion) -> DecodeContext
        ensures { result ≡ first_context version }
    {
        DecodeContext {
            protocol_version: version,
            awaiting_frontend_ssl: true,
            awaiting_frontend_startup: true,
            awaiting_backend_ssl_response: false,
            awaiting_backend_gss_response: false,
        }
    }
}

impl Default for DecodeContext {
    ghost is_default = { λ ctx. ctx ≡ first_context PROTOCOL3_2 };

    fn default() -> DecodeContext {
        DecodeContext::new(ProtocolVersion::PROTOCOL3_2)
    }
}
