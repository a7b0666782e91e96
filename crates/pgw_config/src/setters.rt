//! What sets the fields of a configuration. A `set_` or `add_` that is refused changes nothing.
ghost use Rattle.std.specs.Prelude.{◌≡◌, ◌∷◌, ◌++◌, [], Some, IfOk, OnOk, OnErr};
ghost use Rattle.pgw_config.specs.Config.{host_named};
ghost use Rattle.pgw_types.specs.declared.address.Host.TheVariants as host;

use crate::config::{
    ChannelBinding, Config, Host, HostAddr, LoadBalanceHosts, SslMode, SslNegotiation,
    TargetSessionAttrs,
};
use crate::lists::named_host;
use pgw_types::context::ProtocolVersion;
use pgw_types::memory::OutOfMemory;
use pgw_types::octets::Octets;
use pgw_types::text::Text;
use std::alloc::Global;

// A refused text leaves what was there.
fn store(field: &mut Option<Text>, alloc: Global, text: &str) -> Result<(), OutOfMemory>
    ensures ok { OnOk result (field.new ≡ Some text.now) }
    ensures err { OnErr result (field.new ≡ field.old) }
{
    *field = Some(Text::from_str(alloc, text)?);
    Ok(())
}

/// What may find no memory. A refusal leaves the whole configuration as it was.
impl Config {
    pub fn set_user(&mut self, alloc: Global, user: &str) -> Result<(), OutOfMemory>
        ensures set { OnOk result (self.new ≡ record self.old { user = Some user.now }) }
        ensures refused { OnErr result (self.new ≡ self.old) }
    {
        store(&mut self.user, alloc, user)?;
        Ok(())
    }

    pub fn set_dbname(&mut self, alloc: Global, dbname: &str) -> Result<(), OutOfMemory>
        ensures set { OnOk result (self.new ≡ record self.old { dbname = Some dbname.now }) }
        ensures refused { OnErr result (self.new ≡ self.old) }
    {
        store(&mut self.dbname, alloc, dbname)?;
        Ok(())
    }

    /// They are kept, and have no effect.
    pub fn set_options(&mut self, alloc: Global, options: &str) -> Result<(), OutOfMemory>
        ensures set { OnOk result (self.new ≡ record self.old { options = Some options.now }) }
        ensures refused { OnErr result (self.new ≡ self.old) }
    {
        store(&mut self.options, alloc, options)?;
        Ok(())
    }

    pub fn set_application_name(
        &mut self,
        alloc: Global,
        application_name: &str,
    ) -> Result<(), OutOfMemory>
        ensures set { OnOk result (self.new ≡ record self.old
            { application_name = Some application_name.now }) }
        ensures refused { OnErr result (self.new ≡ self.old) }
    {
        store(&mut self.application_name, alloc, application_name)?;
        Ok(())
    }

    /// A password in clear text is sent as its lossy reading as UTF-8.
    pub fn set_password(&mut self, alloc: Global, password: &[u8]) -> Result<(), OutOfMemory>
        ensures set { OnOk result (self.new ≡ record self.old { password = Some password.now }) }
        ensures refused { OnErr result (self.new ≡ self.old) }
    {
        self.password = Some(Octets::from_slice(alloc, password)?);
        Ok(())
    }

    /// Sets the hash of the server's certificate, as the channel binding `tls-server-end-point` has it
    /// (RFC 5929, section 4).
    pub fn set_certificate_hash(&mut self, alloc: Global, hash: &[u8]) -> Result<(), OutOfMemory>
        ensures set { OnOk result (self.new ≡ record self.old
            { certificate_hash = Some hash.now }) }
        ensures refused { OnErr result (self.new ≡ self.old) }
    {
        self.certificate_hash = Some(Octets::from_slice(alloc, hash)?);
        Ok(())
    }

    /// Appends a host; one that begins with a slash is the directory of a Unix socket.
    pub fn add_host(&mut self, alloc: Global, host: &str) -> Result<(), OutOfMemory>
        ensures set { OnOk result (self.new ≡ record self.old
            { host = self.old.host ++ host_named host.now ∷ [] }) }
        ensures refused { OnErr result (self.new ≡ self.old) }
    {
        let name = Text::from_str(alloc, host)?;
        self.host.push(named_host(name))?;
        Ok(())
    }

    /// Appends the directory of a Unix socket.
    pub fn add_host_path(&mut self, alloc: Global, path: &str) -> Result<(), OutOfMemory>
        ensures set { OnOk result (self.new ≡ record self.old
            { host = self.old.host ++ host.Unix path.now ∷ [] }) }
        ensures refused { OnErr result (self.new ≡ self.old) }
    {
        let directory = Text::from_str(alloc, path)?;
        self.host.push(Host::Unix(directory))?;
        Ok(())
    }

    /// Appends an address.
    pub fn add_hostaddr(&mut self, addr: HostAddr) -> Result<(), OutOfMemory>
        ensures set { OnOk result (self.new ≡ record self.old
            { hostaddr = self.old.hostaddr ++ addr ∷ [] }) }
        ensures refused { OnErr result (self.new ≡ self.old) }
    {
        self.hostaddr.push(addr)?;
        Ok(())
    }

    /// Appends a port.
    pub fn add_port(&mut self, port: u16) -> Result<(), OutOfMemory>
        ensures set { OnOk result (self.new ≡ record self.old
            { port = self.old.port ++ port ∷ [] }) }
        ensures refused { OnErr result (self.new ≡ self.old) }
    {
        self.port.push(port)?;
        Ok(())
    }
}

impl Config {
    /// `set_user`, which hands the configuration on.
    pub fn user(&mut self, alloc: Global, user: &str) -> Result<&mut Config, OutOfMemory>
        ensures same { IfOk result (λ r. r.ghost_name ≡ self.entry.ghost_name) }
        ensures set { IfOk result (λ r. r.now ≡ record self.old { user = Some user.now }) }
    {
        self.set_user(alloc, user)?;
        Ok(self)
    }

    /// `set_dbname`, which hands the configuration on.
    pub fn dbname(&mut self, alloc: Global, dbname: &str) -> Result<&mut Config, OutOfMemory>
        ensures same { IfOk result (λ r. r.ghost_name ≡ self.entry.ghost_name) }
        ensures set { IfOk result (λ r. r.now ≡ record self.old { dbname = Some dbname.now }) }
    {
        self.set_dbname(alloc, dbname)?;
        Ok(self)
    }

    /// `set_options`, which hands the configuration on.
    pub fn options(&mut self, alloc: Global, options: &str) -> Result<&mut Config, OutOfMemory>
        ensures same { IfOk result (λ r. r.ghost_name ≡ self.entry.ghost_name) }
        ensures set { IfOk result (λ r. r.now ≡ record self.old { options = Some options.now }) }
    {
        self.set_options(alloc, options)?;
        Ok(self)
    }

    /// `set_application_name`, which hands the configuration on.
    pub fn application_name(
        &mut self,
        alloc: Global,
        application_name: &str,
    ) -> Result<&mut Config, OutOfMemory>
        ensures same { IfOk result (λ r. r.ghost_name ≡ self.entry.ghost_name) }
        ensures set { IfOk result (λ r. r.now
            ≡ record self.old { application_name = Some application_name.now }) }
    {
        self.set_application_name(alloc, application_name)?;
        Ok(self)
    }

    /// `set_password`, which hands the configuration on.
    pub fn password(&mut self, alloc: Global, password: &[u8]) -> Result<&mut Config, OutOfMemory>
        ensures same { IfOk result (λ r. r.ghost_name ≡ self.entry.ghost_name) }
        ensures set { IfOk result (λ r. r.now ≡ record self.old { password = Some password.now }) }
    {
        self.set_password(alloc, password)?;
        Ok(self)
    }

    /// `set_certificate_hash`, which hands the configuration on.
    pub fn certificate_hash(
        &mut self,
        alloc: Global,
        hash: &[u8],
    ) -> Result<&mut Config, OutOfMemory>
        ensures same { IfOk result (λ r. r.ghost_name ≡ self.entry.ghost_name) }
        ensures set { IfOk result (λ r. r.now
            ≡ record self.old { certificate_hash = Some hash.now }) }
    {
        self.set_certificate_hash(alloc, hash)?;
        Ok(self)
    }

    /// `add_host`, which hands the configuration on.
    pub fn host(&mut self, alloc: Global, host: &str) -> Result<&mut Config, OutOfMemory>
        ensures same { IfOk result (λ r. r.ghost_name ≡ self.entry.ghost_name) }
        ensures set { IfOk result (λ r. r.now
            ≡ record self.old { host = self.old.host ++ host_named host.now ∷ [] }) }
    {
        self.add_host(alloc, host)?;
        Ok(self)
    }

    /// `add_host_path`, which hands the configuration on.
    pub fn host_path(&mut self, alloc: Global, path: &str) -> Result<&mut Config, OutOfMemory>
        ensures same { IfOk result (λ r. r.ghost_name ≡ self.entry.ghost_name) }
        ensures set { IfOk result (λ r. r.now
            ≡ record self.old { host = self.old.host ++ host.Unix path.now ∷ [] }) }
    {
        self.add_host_path(alloc, path)?;
        Ok(self)
    }

    /// `add_hostaddr`, which hands the configuration on.
    pub fn hostaddr(&mut self, addr: HostAddr) -> Result<&mut Config, OutOfMemory>
        ensures same { IfOk result (λ r. r.ghost_name ≡ self.entry.ghost_name) }
        ensures set { IfOk result (λ r. r.now
            ≡ record self.old { hostaddr = self.old.hostaddr ++ addr ∷ [] }) }
    {
        self.add_hostaddr(addr)?;
        Ok(self)
    }

    /// `add_port`, which hands the configuration on.
    pub fn port(&mut self, port: u16) -> Result<&mut Config, OutOfMemory>
        ensures same { IfOk result (λ r. r.ghost_name ≡ self.entry.ghost_name) }
        ensures set { IfOk result (λ r. r.now
            ≡ record self.old { port = self.old.port ++ port ∷ [] }) }
    {
        self.add_port(port)?;
        Ok(self)
    }

    /// `Require` is refused by a session, since no connection is encrypted; the others have no effect.
    pub fn ssl_mode(&mut self, mode: SslMode) -> &mut Config
        ensures same { result.ghost_name ≡ self.entry.ghost_name }
        ensures set { result.now ≡ record self.old { ssl_mode = mode } }
    {
        self.ssl_mode = mode;
        self
    }

    /// It is kept, and has no effect.
    pub fn ssl_negotiation(&mut self, negotiation: SslNegotiation) -> &mut Config
        ensures same { result.ghost_name ≡ self.entry.ghost_name }
        ensures set { result.now ≡ record self.old { ssl_negotiation = negotiation } }
    {
        self.ssl_negotiation = negotiation;
        self
    }

    /// Seconds. It limits `pgw_tokio::connect` and the commands `query` and `check`; a `SocketDialer` has timeouts of its own.
    pub fn connect_timeout(&mut self, seconds: u64) -> &mut Config
        ensures same { result.ghost_name ≡ self.entry.ghost_name }
        ensures set { result.now ≡ record self.old { connect_timeout = Some seconds } }
    {
        self.connect_timeout = Some(seconds);
        self
    }

    /// Seconds. It is kept, and has no effect.
    pub fn tcp_user_timeout(&mut self, seconds: u64) -> &mut Config
        ensures same { result.ghost_name ≡ self.entry.ghost_name }
        ensures set { result.now ≡ record self.old { tcp_user_timeout = Some seconds } }
    {
        self.tcp_user_timeout = Some(seconds);
        self
    }

    /// It is kept, and has no effect.
    pub fn keepalives(&mut self, on: bool) -> &mut Config
        ensures same { result.ghost_name ≡ self.entry.ghost_name }
        ensures set { result.now ≡ record self.old { keepalives = on } }
    {
        self.keepalives = on;
        self
    }

    /// Seconds. It is kept, and has no effect.
    pub fn keepalives_idle(&mut self, seconds: u64) -> &mut Config
        ensures same { result.ghost_name ≡ self.entry.ghost_name }
        ensures set { result.now ≡ record self.old { keepalives_idle = seconds } }
    {
        self.keepalives_idle = seconds;
        self
    }

    /// Seconds. It is kept, and has no effect.
    pub fn keepalives_interval(&mut self, seconds: u64) -> &mut Config
        ensures same { result.ghost_name ≡ self.entry.ghost_name }
        ensures set { result.now ≡ record self.old { keepalives_interval = Some seconds } }
    {
        self.keepalives_interval = Some(seconds);
        self
    }

    /// It is kept, and has no effect.
    pub fn keepalives_retries(&mut self, retries: u32) -> &mut Config
        ensures same { result.ghost_name ≡ self.entry.ghost_name }
        ensures set { result.now ≡ record self.old { keepalives_retries = Some retries } }
    {
        self.keepalives_retries = Some(retries);
        self
    }

    /// It has effect in the commands `query` and `check` alone.
    pub fn target_session_attrs(&mut self, attrs: TargetSessionAttrs) -> &mut Config
        ensures same { result.ghost_name ≡ self.entry.ghost_name }
        ensures set { result.now ≡ record self.old { target_session_attrs = attrs } }
    {
        self.target_session_attrs = attrs;
        self
    }

    /// `Require` is refused by a session where no certificate's hash is given. Without a hash the others
    /// have no effect.
    pub fn channel_binding(&mut self, binding: ChannelBinding) -> &mut Config
        ensures same { result.ghost_name ≡ self.entry.ghost_name }
        ensures set { result.now ≡ record self.old { channel_binding = binding } }
    {
        self.channel_binding = binding;
        self
    }

    /// It is kept, and has no effect.
    pub fn load_balance_hosts(&mut self, balance: LoadBalanceHosts) -> &mut Config
        ensures same { result.ghost_name ≡ self.entry.ghost_name }
        ensures set { result.now ≡ record self.old { load_balance_hosts = balance } }
    {
        self.load_balance_hosts = balance;
        self
    }

    /// The version that the startup message asks for.
    pub fn protocol_version(&mut self, version: ProtocolVersion) -> &mut Config
        ensures same { result.ghost_name ≡ self.entry.ghost_name }
        ensures set { result.now ≡ record self.old { protocol_version = version } }
    {
        self.protocol_version = version;
        self
    }
}
