//! The file of passwords.

use crate::surroundings::{NoPlaces, variable};
use pgw_config::config::Config;
use pgw_secrets::password_file::{PasswordFile, is_open_to_others};
use pgw_types::address::{Host, HostAddr};
use pgw_types::listed::{Duplicate, Listed};
use pgw_types::memory::OutOfMemory;
use pgw_types::text::Text;
use std::fs::Metadata;
use std::net::{IpAddr, Ipv4Addr, Ipv6Addr};
use std::os::unix::fs::PermissionsExt;
use std::{fs, io};

// The folder of a server's socket, where none is named.
const SOCKETS: &str = "/var/run/postgresql";

const OPEN_TO_OTHERS: &str = "the file of passwords is not read, since others may read it\n";

// The file of passwords of the home folder.
fn home_file(rt: &HostRuntime) -> Result<Option<Text>, NoPlaces> {
    let Some(home) = variable(rt, "HOME")? else {
        return Ok(None);
    };
    let mut path = home.into_string();
    match path.push_str("/.pgpass") {
        Ok(()) => Ok(Some(Text::from_string(path))),
        Err(_) => Err(NoPlaces::Memory),
    }
}

// The file of passwords: that of the option, else of the variable, else of the home folder.
fn password_path(rt: &HostRuntime, option: Option<&Text>) -> Result<Option<Text>, NoPlaces> {
    if let Some(path) = option {
        return Ok(Some(path.duplicate()?));
    }
    match variable(rt, "PGPASSFILE")? {
        Some(path) => Ok(Some(path)),
        None => home_file(rt),
    }
}

// Whether only its owner may read a file.
fn is_private(data: &Metadata) -> bool {
    !is_open_to_others(data.permissions().mode())
}

// The file of passwords, where it can be read, and only its owner may read it.
fn password_file(rt: &HostRuntime, path: &str) -> Result<Option<PasswordFile>, OutOfMemory> {
    let Ok(data) = fs::metadata(rt, path) else {
        return Ok(None);
    };
    if !is_private(&data) {
        let _ = rt.eprint(OPEN_TO_OTHERS);
        return Ok(None);
    }
    match fs::read(rt, path) {
        Ok(text) => Ok(Some(PasswordFile::read(rt.alloc(), &text)?)),
        Err(error) if error.kind() == io::ErrorKind::OutOfMemory => Err(OutOfMemory),
        Err(_) => Ok(None),
    }
}

// An address as a file of passwords spells it.
fn spelled(rt: &HostRuntime, address: HostAddr) -> Result<Text, OutOfMemory> {
    let address = match address {
        HostAddr::V4(octets) => IpAddr::V4(Ipv4Addr::from(octets)),
        HostAddr::V6(segments) => IpAddr::V6(Ipv6Addr::from(segments)),
    };
    Ok(Text::from_string(format!(in rt.alloc(); "{address}")?))
}

// The name of a host: the default folder of sockets is localhost.
fn name_of(rt: &HostRuntime, host: &Host) -> Result<Text, OutOfMemory> {
    match host {
        Host::Tcp(name) => name.duplicate(),
        Host::Unix(path) if path.as_str() == SOCKETS => Text::from_str(rt.alloc(), "localhost"),
        Host::Unix(path) => path.duplicate(),
    }
}

// The name by which a place is looked up: its host, else its address (libpq, The Password File).
fn place_name(rt: &HostRuntime, place: &Config) -> Result<Text, OutOfMemory> {
    if let [host, ..] = place.get_hosts() {
        return name_of(rt, host);
    }
    match place.get_hostaddrs() {
        [address, ..] => spelled(rt, *address),
        [] => Text::from_str(rt.alloc(), "localhost"),
    }
}

// The password of the file for a place.
fn set_password(
    rt: &HostRuntime,
    file: &PasswordFile,
    place: &mut Config,
) -> Result<(), OutOfMemory> {
    let host = place_name(rt, place)?;
    let port = place.get_ports().first().copied().unwrap_or(5432);
    let user = place.get_user().unwrap_or("");
    let database = place.get_dbname().unwrap_or(user);
    let found = match file.lookup(host.as_str(), port, database, user) {
        Some(password) => Some(password.duplicate()?),
        None => None,
    };
    match found {
        Some(password) => place.set_password(rt.alloc(), password.as_slice()),
        None => Ok(()),
    }
}

// The places, each with the password of the file for it.
fn with_passwords(
    rt: &HostRuntime,
    file: &PasswordFile,
    configs: Listed<Config>,
) -> Result<Listed<Config>, OutOfMemory> {
    let mut places = Listed::new(rt.alloc());
    for mut place in configs.into_vec() {
        set_password(rt, file, &mut place)?;
        places.push(place)?;
    }
    Ok(places)
}

/// The places, each with its password of the file of the option, of a variable or of the home folder, where there is one.
pub fn look_up(
    rt: &HostRuntime,
    option: Option<&Text>,
    configs: Listed<Config>,
) -> Result<Listed<Config>, NoPlaces> {
    let Some(path) = password_path(rt, option)? else {
        return Ok(configs);
    };
    match password_file(rt, path.as_str())? {
        Some(file) => Ok(with_passwords(rt, &file, configs)?),
        None => Ok(configs),
    }
}
