//! The configuration of a client.
ghost use Rattle.std.specs.Prelude.{◌≡◌, Option, Some, None, IfOk};
ghost use Rattle.std.specs.Option.{option_copied};
ghost use Rattle.std.specs.Cmp.Rules.{comparing};
ghost use Rattle.std.proofs.Common.{rules};
ghost use Rattle.pgw_config.specs.Config.{no_config};

pub use pgw_types::address::{Host, HostAddr};
use pgw_types::context::ProtocolVersion;
use pgw_types::listed::{Duplicate, Listed};
use pgw_types::memory::OutOfMemory;
use pgw_types::octets::Octets;
use pgw_types::text::Text;
use std::alloc::Global;
use std::fmt;

/// Which servers will do.
#[derive(Clone, Copy, Debug, PartialEq, Eq)]
pub enum TargetSessionAttrs {
    Any,
    ReadWrite,
    ReadOnly,
}

/// Whether the connection is encrypted.
#[derive(Clone, Copy, Debug, PartialEq, Eq)]
pub enum SslMode {
    Disable,
    Prefer,
    Require,
}

/// How encryption begins.
#[derive(Clone, Copy, Debug, PartialEq, Eq)]
pub enum SslNegotiation {
    /// Behind a request of the protocol.
    Postgres,
    /// At once.
    Direct,
}

/// Whether a login is bound to the encrypted channel.
#[derive(Clone, Copy, Debug, PartialEq, Eq)]
pub enum ChannelBinding {
    Disable,
    Prefer,
    Require,
}

/// In which order hosts are tried.
#[derive(Clone, Copy, Debug, PartialEq, Eq)]
pub enum LoadBalanceHosts {
    Disable,
    Random,
}

/// Who logs in, where, and how. Times are whole seconds.
#[derive(Drop, PartialEq, Eq)]
pub struct Config {
    pub user: Option<Text>,
    pub password: Option<Octets>,
    pub dbname: Option<Text>,
    pub options: Option<Text>,
    pub application_name: Option<Text>,
    pub ssl_mode: SslMode,
    pub ssl_negotiation: SslNegotiation,
    pub host: Listed<Host>,
    pub hostaddr: Listed<HostAddr>,
    pub port: Listed<u16>,
    pub connect_timeout: Option<u64>,
    pub tcp_user_timeout: Option<u64>,
    pub keepalives: bool,
    pub keepalives_idle: u64,
    pub keepalives_interval: Option<u64>,
    pub keepalives_retries: Option<u32>,
    pub target_session_attrs: TargetSessionAttrs,
    pub channel_binding: ChannelBinding,
    /// The hash of the server's certificate (`tls-server-end-point`); no text sets it.
    pub certificate_hash: Option<Octets>,
    pub load_balance_hosts: LoadBalanceHosts,
    pub protocol_version: ProtocolVersion,
}

impl Config {
    /// Nothing is set, and the version is 3.0.
    pub fn new(alloc: Global) -> Config
        ensures { result ≡ no_config }
    {
        Config {
            user: None,
            password: None,
            dbname: None,
            options: None,
            application_name: None,
            ssl_mode: SslMode::Prefer,
            ssl_negotiation: SslNegotiation::Postgres,
            host: Listed::new(alloc),
            hostaddr: Listed::new(alloc),
            port: Listed::new(alloc),
            connect_timeout: None,
            tcp_user_timeout: None,
            keepalives: true,
            keepalives_idle: 7200,
            keepalives_interval: None,
            keepalives_retries: None,
            target_session_attrs: TargetSessionAttrs::Any,
            channel_binding: ChannelBinding::Prefer,
            certificate_hash: None,
            load_balance_hosts: LoadBalanceHosts::Disable,
            protocol_version: ProtocolVersion::PROTOCOL3_0,
        }
    }

    pub fn get_user(&self) -> Option<&str>
        ensures { option_copied result ≡ self.now.user }
    {
        self.user.as_ref().map(|user| user.as_str())
    }

    pub fn get_password(&self) -> Option<&[u8]>
        ensures { option_copied result ≡ self.now.password }
    {
        self.password.as_ref().map(|password| password.as_slice())
    }

    pub fn get_certificate_hash(&self) -> Option<&[u8]>
        ensures { option_copied result ≡ self.now.certificate_hash }
    {
        self.certificate_hash.as_ref().map(|hash| hash.as_slice())
    }

    pub fn get_dbname(&self) -> Option<&str>
        ensures { option_copied result ≡ self.now.dbname }
    {
        self.dbname.as_ref().map(|dbname| dbname.as_str())
    }

    pub fn get_options(&self) -> Option<&str>
        ensures { option_copied result ≡ self.now.options }
    {
        self.options.as_ref().map(|options| options.as_str())
    }

    pub fn get_application_name(&self) -> Option<&str>
        ensures { option_copied result ≡ self.now.application_name }
    {
        self.application_name.as_ref().map(|name| name.as_str())
    }

    pub fn get_hosts(&self) -> &[Host]
        ensures { result.now ≡ self.now.host }
    {
        self.host.as_slice()
    }

    pub fn get_hostaddrs(&self) -> &[HostAddr]
        ensures { result.now ≡ self.now.hostaddr }
    {
        self.hostaddr.as_slice()
    }

    pub fn get_ports(&self) -> &[u16]
        ensures { result.now ≡ self.now.port }
    {
        self.port.as_slice()
    }

    pub fn get_ssl_mode(&self) -> SslMode
        ensures { result ≡ self.now.ssl_mode }
    {
        self.ssl_mode
    }

    pub fn get_ssl_negotiation(&self) -> SslNegotiation
        ensures { result ≡ self.now.ssl_negotiation }
    {
        self.ssl_negotiation
    }

    /// Seconds.
    pub fn get_connect_timeout(&self) -> Option<u64>
        ensures { result ≡ self.now.connect_timeout }
    {
        self.connect_timeout
    }

    /// Seconds.
    pub fn get_tcp_user_timeout(&self) -> Option<u64>
        ensures { result ≡ self.now.tcp_user_timeout }
    {
        self.tcp_user_timeout
    }

    pub fn get_keepalives(&self) -> bool
        ensures { result ≡ self.now.keepalives }
    {
        self.keepalives
    }

    /// Seconds.
    pub fn get_keepalives_idle(&self) -> u64
        ensures { result ≡ self.now.keepalives_idle }
    {
        self.keepalives_idle
    }

    /// Seconds.
    pub fn get_keepalives_interval(&self) -> Option<u64>
        ensures { result ≡ self.now.keepalives_interval }
    {
        self.keepalives_interval
    }

    pub fn get_keepalives_retries(&self) -> Option<u32>
        ensures { result ≡ self.now.keepalives_retries }
    {
        self.keepalives_retries
    }

    pub fn get_target_session_attrs(&self) -> TargetSessionAttrs
        ensures { result ≡ self.now.target_session_attrs }
    {
        self.target_session_attrs
    }

    pub fn get_channel_binding(&self) -> ChannelBinding
        ensures { result ≡ self.now.channel_binding }
    {
        self.channel_binding
    }

    pub fn get_load_balance_hosts(&self) -> LoadBalanceHosts
        ensures { result ≡ self.now.load_balance_hosts }
    {
        self.load_balance_hosts
    }

    pub fn get_protocol_version(&self) -> ProtocolVersion
        ensures { result ≡ self.now.protocol_version }
    {
        self.protocol_version
    }
}

// The texts and the lists of a configuration, each copied.
impl Config {
    fn duplicate_login(&self) -> Result<(Option<Text>, Option<Octets>, Option<Octets>), OutOfMemory>
        ensures { IfOk result (λ r. r ≡ (
          self.now.user,
          self.now.password,
          self.now.certificate_hash,
        )) }
    {
        let user = self.user.duplicate()?;
        let password = self.password.duplicate()?;
        Ok((user, password, self.certificate_hash.duplicate()?))
    }

    fn duplicate_texts(&self) -> Result<(Option<Text>, Option<Text>, Option<Text>), OutOfMemory>
        ensures { IfOk result (λ r. r ≡ (
          self.now.dbname,
          self.now.options,
          self.now.application_name,
        )) }
    {
        let dbname = self.dbname.duplicate()?;
        let options = self.options.duplicate()?;
        Ok((dbname, options, self.application_name.duplicate()?))
    }

    fn duplicate_lists(&self) -> Result<(Listed<Host>, Listed<HostAddr>, Listed<u16>), OutOfMemory>
        ensures { IfOk result (λ r. r ≡ (self.now.host, self.now.hostaddr, self.now.port)) }
    {
        let host = self.host.duplicate()?;
        let hostaddr = self.hostaddr.duplicate()?;
        Ok((host, hostaddr, self.port.duplicate()?))
    }
}

impl Duplicate for Config {
    fn duplicate(&self) -> Result<Config, OutOfMemory> {
        let (user, password, certificate_hash) = self.duplicate_login()?;
        let (dbname, options, application_name) = self.duplicate_texts()?;
        let (host, hostaddr, port) = self.duplicate_lists()?;
        Ok(Config {
            user,
            password,
            dbname,
            options,
            application_name,
            ssl_mode: self.ssl_mode,
            ssl_negotiation: self.ssl_negotiation,
            host,
            hostaddr,
            port,
            connect_timeout: self.connect_timeout,
            tcp_user_timeout: self.tcp_user_timeout,
            keepalives: self.keepalives,
            keepalives_idle: self.keepalives_idle,
            keepalives_interval: self.keepalives_interval,
            keepalives_retries: self.keepalives_retries,
            target_session_attrs: self.target_session_attrs,
            channel_binding: self.channel_binding,
            certificate_hash,
            load_balance_hosts: self.load_balance_hosts,
            protocol_version: self.protocol_version,
        })
    }
}

// Stands for a password that is set.
#[derive(Drop)]
struct Hidden;

impl fmt::Debug for Hidden {
    fn fmt<W: fmt::Write>(&self, f: &mut fmt::Formatter<W>) -> fmt::Result {
        f.write_str("_")
    }
}

/// A set password is shown as `_`.
impl fmt::Debug for Config {
    fn fmt<W: fmt::Write>(&self, f: &mut fmt::Formatter<W>) -> fmt::Result {
        let password = match self.password {
            Some(_) => Some(Hidden),
            None => None,
        };
        f.debug_struct("Config")
            .field("user", &self.user)
            .field("password", &password)
            .field("dbname", &self.dbname)
            .field("options", &self.options)
            .field("application_name", &self.application_name)
            .field("ssl_mode", &self.ssl_mode)
            .field("ssl_negotiation", &self.ssl_negotiation)
            .field("host", &self.host)
            .field("hostaddr", &self.hostaddr)
            .field("port", &self.port)
            .field("connect_timeout", &self.connect_timeout)
            .field("tcp_user_timeout", &self.tcp_user_timeout)
            .field("keepalives", &self.keepalives)
            .field("keepalives_idle", &self.keepalives_idle)
            .field("keepalives_interval", &self.keepalives_interval)
            .field("keepalives_retries", &self.keepalives_retries)
            .field("target_session_attrs", &self.target_session_attrs)
            .field("channel_binding", &self.channel_binding)
            .field("certificate_hash", &self.certificate_hash)
            .field("load_balance_hosts", &self.load_balance_hosts)
            .field("protocol_version", &self.protocol_version)
            .finish()
    }
}
