//! What each setter keeps.

use pgw_config::config::{
    ChannelBinding, Config, Host, HostAddr, LoadBalanceHosts, SslMode, SslNegotiation,
    TargetSessionAttrs,
};
use pgw_types::context::ProtocolVersion;
use pgw_types::listed::Duplicate;
use pgw_types::memory::OutOfMemory;
use std::alloc::Global;
use std::test::Fail;

fn set_texts(alloc: Global, config: &mut Config) -> Result<(), OutOfMemory> {
    config.user(alloc, "bob")?.password(alloc, b"secret")?;
    config.dbname(alloc, "shop")?.options(alloc, "-c x=1")?;
    config.application_name(alloc, "till")?;
    config.certificate_hash(alloc, &[0, 1, 2])?;
    Ok(())
}

fn keeps_texts(config: &Config) -> bool {
    config.get_user() == Some("bob")
        && config.get_password() == Some(b"secret".as_slice())
        && config.get_dbname() == Some("shop")
        && config.get_options() == Some("-c x=1")
        && config.get_application_name() == Some("till")
        && config.get_certificate_hash() == Some([0, 1, 2].as_slice())
}

fn set_places(alloc: Global, config: &mut Config) -> Result<(), OutOfMemory> {
    config.host(alloc, "db")?.host(alloc, "/run")?;
    config.host_path(alloc, "run")?;
    config.hostaddr(HostAddr::V4([127, 0, 0, 1]))?;
    config.port(5433)?.port(5434)?;
    Ok(())
}

fn keeps_hosts(config: &Config) -> bool {
    match config.get_hosts() {
        [Host::Tcp(name), Host::Unix(path), Host::Unix(relative)] => {
            name.as_str() == "db" && path.as_str() == "/run" && relative.as_str() == "run"
        }
        _ => false,
    }
}

fn keeps_places(config: &Config) -> bool {
    keeps_hosts(config)
        && config.get_hostaddrs() == [HostAddr::V4([127, 0, 0, 1])].as_slice()
        && config.get_ports() == [5433, 5434].as_slice()
}

fn set_choices(config: &mut Config) {
    config
        .ssl_mode(SslMode::Disable)
        .ssl_negotiation(SslNegotiation::Direct)
        .target_session_attrs(TargetSessionAttrs::ReadOnly)
        .channel_binding(ChannelBinding::Disable)
        .load_balance_hosts(LoadBalanceHosts::Random)
        .protocol_version(ProtocolVersion::PROTOCOL3_2);
}

fn keeps_choices(config: &Config) -> bool {
    config.get_ssl_mode() == SslMode::Disable
        && config.get_ssl_negotiation() == SslNegotiation::Direct
        && config.get_target_session_attrs() == TargetSessionAttrs::ReadOnly
        && config.get_channel_binding() == ChannelBinding::Disable
        && config.get_load_balance_hosts() == LoadBalanceHosts::Random
        && config.get_protocol_version() == ProtocolVersion::PROTOCOL3_2
}

fn set_numbers(config: &mut Config) {
    config
        .connect_timeout(5)
        .tcp_user_timeout(6)
        .keepalives(false)
        .keepalives_idle(7)
        .keepalives_interval(8)
        .keepalives_retries(9);
}

fn keeps_numbers(config: &Config) -> bool {
    config.get_connect_timeout() == Some(5)
        && config.get_tcp_user_timeout() == Some(6)
        && !config.get_keepalives()
        && config.get_keepalives_idle() == 7
        && config.get_keepalives_interval() == Some(8)
        && config.get_keepalives_retries() == Some(9)
}

fn set_all(alloc: Global, config: &mut Config) -> Result<(), OutOfMemory> {
    set_texts(alloc, config)?;
    set_places(alloc, config)?;
    set_choices(config);
    set_numbers(config);
    Ok(())
}

// Whether no user is set at first, and a copy of what is then set is the same and keeps each kind of it: the texts, the
// places, the choices and the numbers.
fn keeps_all(alloc: Global, config: &mut Config) -> Result<[bool; 6], OutOfMemory> {
    let is_unset = config.get_user().is_none();
    set_all(alloc, config)?;
    let copy = config.duplicate()?;
    let told = [
        is_unset,
        copy == *config,
        keeps_texts(&copy),
        keeps_places(&copy),
        keeps_choices(&copy),
        keeps_numbers(&copy),
    ];
    drop(copy);
    Ok(told)
}

fn kept(alloc: Global) -> Result<[bool; 6], OutOfMemory> {
    let mut config = Config::new(alloc);
    let told = keeps_all(alloc, &mut config);
    drop(config);
    told
}

#[test]
fn setters_keep(rt: HostRuntime) -> Result<(), Fail> {
    assert_eq!(rt; kept(rt.alloc())?, [true; 6]);
    Ok(())
}
