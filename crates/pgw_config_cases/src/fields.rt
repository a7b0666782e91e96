//! The fields of a configuration.

use anyhow::Result;
use pgw_config::config::{Config, Host};
use std::alloc::Global;
use std::fmt::Debug;

// Adds a field, if it is given.
fn add<T: Debug>(alloc: Global, out: &mut String, name: &str, value: Option<&T>) -> Result<()> {
    if let Some(value) = value {
        let field = format!(in alloc; " {name}={value:?}")?;
        out.push_str(field.as_str())?;
    }
    Ok(())
}

// Adds a list, if it has an element.
fn add_list<T: Debug>(alloc: Global, out: &mut String, name: &str, list: &[T]) -> Result<()> {
    if !list.is_empty() {
        let field = format!(in alloc; " {name}={list:?}")?;
        out.push_str(field.as_str())?;
    }
    Ok(())
}

// Adds each host, or the directory of its socket.
fn add_hosts(alloc: Global, out: &mut String, hosts: &[Host]) -> Result<()> {
    for host in hosts {
        let field = match host {
            Host::Tcp(name) => format!(in alloc; " host={:?}", name.as_str())?,
            Host::Unix(path) => format!(in alloc; " directory={:?}", path.as_str())?,
        };
        out.push_str(field.as_str())?;
    }
    Ok(())
}

/// The fields that are given, each with its value.
pub fn fields_shown(alloc: Global, config: &Config) -> Result<String> {
    let mut out = String::new(alloc);
    if *config == Config::new(alloc) {
        out.push_str("the defaults")?;
        return Ok(out);
    }
    out.push_str("given:")?;
    add(alloc, &mut out, "user", config.get_user().as_ref())?;
    add(alloc, &mut out, "password", config.get_password().as_ref())?;
    add(alloc, &mut out, "dbname", config.get_dbname().as_ref())?;
    add_hosts(alloc, &mut out, config.get_hosts())?;
    add_list(alloc, &mut out, "hostaddr", config.get_hostaddrs())?;
    add_list(alloc, &mut out, "port", config.get_ports())?;
    let timeout = config.get_connect_timeout();
    add(alloc, &mut out, "connect_timeout", timeout.as_ref())?;
    Ok(out)
}
