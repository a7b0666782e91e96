//! The words of a report.
ghost use Rattle.std.specs.Prelude.{◌≡◌, ◌++◌, codes, decimal, string_bytes, IfOk};
ghost use Rattle.pgw_prog_commands.specs.Report.{ip_text as ip_shown, kind_text, login_text, server_text as server_shown, truth_text, version_text};

use crate::notes::LoginKind;
use pgw_types::address::{Address, HostAddr};
use pgw_types::context::ProtocolVersion;
use pgw_types::memory::OutOfMemory;
use std::alloc::Global;
use std::net::{Ipv4Addr, Ipv6Addr};

fn kind_name(kind: LoginKind) -> &'static str
    ensures { result.now ≡ kind_text kind }
{
    match kind {
        LoginKind::Trust => "none",
        LoginKind::CleartextPassword => "password",
        LoginKind::Md5Password => "md5",
        LoginKind::ScramSha256 => "SCRAM-SHA-256",
        LoginKind::ScramSha256Plus => "SCRAM-SHA-256-PLUS",
        LoginKind::Other => "other",
    }
}

/// The name of a login.
pub fn login_name(login: Option<LoginKind>) -> &'static str
    ensures { result.now ≡ login_text login }
{
    match login {
        Some(kind) => kind_name(kind),
        None => "-",
    }
}

/// Yes or no.
pub fn truth_word(truth: bool) -> &'static str
    ensures { result.now ≡ truth_text truth }
{
    if truth { "yes" } else { "no" }
}

/// The number of a version.
pub fn version_word(version: ProtocolVersion) -> &'static str
    ensures { result.now ≡ version_text version }
{
    match version {
        ProtocolVersion::PROTOCOL3_0 => "3.0",
        ProtocolVersion::PROTOCOL3_2 => "3.2",
        ProtocolVersion::PROTOCOL3_9999 => "3.9999",
    }
}

fn ip_text(alloc: Global, addr: HostAddr, port: u16) -> Result<String, OutOfMemory>
    ensures { IfOk result (λ text. string_bytes text ≡ ip_shown addr port) }
{
    match addr {
        HostAddr::V4(octets) => {
            let ip = Ipv4Addr::from(octets);
            Ok(format!(in alloc; "{ip}:{port}")?)
        }
        HostAddr::V6(segments) => {
            let ip = Ipv6Addr::from(segments);
            Ok(format!(in alloc; "[{ip}]:{port}")?)
        }
    }
}

fn named_text(alloc: Global, name: &str, port: u16) -> Result<String, OutOfMemory>
    ensures { IfOk result (λ text. string_bytes text
        ≡ name.now ++ (codes ":" ++ decimal port)) }
{
    Ok(format!(in alloc; "{name}:{port}")?)
}

/// An address as people write it.
pub fn server_text(alloc: Global, server: &Address) -> Result<String, OutOfMemory>
    ensures { IfOk result (λ text. string_bytes text ≡ server_shown server.now) }
{
    match server {
        Address::Ip(addr, port) => ip_text(alloc, *addr, *port),
        Address::Host(name, port) => named_text(alloc, name.as_str(), *port),
        Address::Unix(path) => Ok(String::from_str(alloc, path.as_str())?),
    }
}
