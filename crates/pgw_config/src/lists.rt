//! The keys whose value is a list with commas.
ghost use Rattle.std.specs.Prelude.{◌≡◌, ◌++◌, ◌<◌, ◌+◌, ◌==◌, IfOk, OnOk, Some, None, if◌then◌else◌};
ghost use Rattle.pgw_config.specs.Lists.{port_of, with_list, hosts_of};
ghost use Rattle.pgw_config.specs.Config.{host_named};
ghost use Rattle.pgw_config.specs.HostAddr.{addr_of};
ghost use Rattle.pgw_config.specs.Pieces.{pushed, read_onto};
ghost use Rattle.pgw_types.specs.Marks.{pieces_at};

use crate::choices::put;
use crate::config::{Config, Host, HostAddr};
use crate::host_addr::read_addr;
use crate::keys::ListKey;
use crate::numbers::read_u16;
use pgw_types::listed::{Duplicate, Listed};
use pgw_types::memory::OutOfMemory;
use pgw_types::text::Text;
use std::alloc::Global;
use std::mem::replace;

/// The pieces of a text between the marks in it.
pub(crate) fn pieces(alloc: Global, text: &str, mark: char) -> Result<Listed<Text>, OutOfMemory>
    requires { mark < 128 }
    ensures { IfOk result (λ all. all ≡ pieces_at mark text.now) }
{
    let mut all = Listed::new(alloc);
    let mut rest = text;
    while let Some((piece, after)) = rest.split_once(mark) {
        all.push(Text::from_str(alloc, piece)?)?;
        rest = after;
    }
    all.push(Text::from_str(alloc, rest)?)?;
    Ok(all)
}

/// A list with one element more, if there are both.
pub(crate) fn with_next<T: Drop>(
    all: Option<Listed<T>>,
    next: Option<T>,
) -> Result<Option<Listed<T>>, OutOfMemory>
    ensures { IfOk result (λ r. r ≡ pushed all next) }
{
    match (all, next) {
        (Some(mut all), Some(next)) => {
            all.push(next)?;
            Ok(Some(all))
        }
        _ => Ok(None),
    }
}

/// A host's name; one that begins with a slash is the directory of a socket.
pub(crate) fn named_host(name: Text) -> Host
    ensures { result ≡ host_named name }
{
    if name.as_str().as_bytes().first() == Some(&b'/') {
        Host::Unix(name)
    } else {
        Host::Tcp(name)
    }
}

fn add_hosts(alloc: Global, hosts: &mut Listed<Host>, value: &str) -> Result<(), OutOfMemory>
    ensures { OnOk result (hosts.new ≡ hosts.old ++ hosts_of (pieces_at 44 value.now)) }
{
    let names = pieces(alloc, value, ',')?;
    for name in names.as_slice() {
        hosts.push(named_host(name.duplicate()?))?;
    }
    Ok(())
}

#[tactic(auto, unfolding(crate::specs::Lists::port_of))]
fn read_port(text: &str) -> Option<u16>
    ensures { result ≡ port_of text.now }
{
    if text.is_empty() {
        Some(5432)
    } else {
        read_u16(text)
    }
}

fn read_ports(
    alloc: Global,
    ports: Listed<u16>,
    value: &str,
) -> Result<Option<Listed<u16>>, OutOfMemory>
    ensures { IfOk result (λ all. all ≡ read_onto port_of ports (pieces_at 44 value.now)) }
{
    let texts = pieces(alloc, value, ',')?;
    let mut all = Some(ports);
    for text in texts.as_slice() {
        all = with_next(all, read_port(text.as_str()))?;
    }
    Ok(all)
}

fn read_addrs(
    alloc: Global,
    addrs: Listed<HostAddr>,
    value: &str,
) -> Result<Option<Listed<HostAddr>>, OutOfMemory>
    ensures { IfOk result (λ all. all ≡ read_onto addr_of addrs (pieces_at 44 value.now)) }
{
    let texts = pieces(alloc, value, ',')?;
    let mut all = Some(addrs);
    for text in texts.as_slice() {
        all = with_next(all, read_addr(alloc, text.as_str())?)?;
    }
    Ok(all)
}

/// Appends the elements of a list, where each is one that the key takes. Whether each is.
pub(crate) fn extend(
    alloc: Global,
    config: &mut Config,
    key: ListKey,
    value: &str,
) -> Result<bool, OutOfMemory>
    ensures { IfOk result (λ taken. with_list config.old key value.now
        ≡ (if taken then Some config.new else None)) }
{
    match key {
        ListKey::Host => {
            add_hosts(alloc, &mut config.host, value)?;
            Ok(true)
        }
        ListKey::HostAddr => {
            let earlier = replace(&mut config.hostaddr, Listed::new(alloc));
            Ok(put(&mut config.hostaddr, read_addrs(alloc, earlier, value)?))
        }
        ListKey::Port => {
            let earlier = replace(&mut config.port, Listed::new(alloc));
            Ok(put(&mut config.port, read_ports(alloc, earlier, value)?))
        }
    }
}
