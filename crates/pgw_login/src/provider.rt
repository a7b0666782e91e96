//! The parameters that a server tells its clients.
ghost use Rattle.std.specs.Prelude.{◌≡◌, OnOk, IfOk, Option};
ghost use Rattle.std.specs.FinMap as map;
ghost use Rattle.std.specs.Option.{option_copied};
ghost use Rattle.pgw_wire.specs.Pairs.{Held};
ghost use Rattle.pgw_login.specs.Client.{LoginClient};
ghost use Rattle.pgw_login.specs.Parameters.{with_switch, with_given, parameter_or_own};

use crate::client_info::ClientInfo;
use pgw_types::listed::Duplicate;
use pgw_types::memory::OutOfMemory;
use pgw_types::text::Text;
use pgw_wire::params::Params;
use std::alloc::Global;

/// Which parameters a client is told as its login ends.
pub trait ServerParameterProvider {
    /// What may be told a client.
    ghost provides: { Self → LoginClient → Option Held → Type 0 };

    /// The parameters for a client, or none.
    fn server_parameters<C: ClientInfo>(
        &self,
        alloc: Global,
        client: &C,
    ) -> Result<Option<Params>, OutOfMemory>
        ensures { IfOk result (λ o. provides self.now (C.sight client.now) o) };
}

/// Parameters as a PostgreSQL server of version 16 tells them.
#[derive(Debug, Drop)]
pub struct DefaultServerParameterProvider {
    pub server_version: Text,
    pub server_encoding: Text,
    pub integer_datetimes: bool,
    pub in_hot_standby: bool,
    pub search_path: Text,
    pub is_superuser: bool,
    pub default_transaction_read_only: bool,
    pub scram_iterations: usize,
    pub time_zone: Text,
    pub date_style: Text,
    pub interval_style: Text,
    pub standard_conforming_strings: bool,
    /// If it is none, it is the client's own.
    pub client_encoding: Option<Text>,
    /// If it is none, it is the client's own.
    pub application_name: Option<Text>,
    /// If it is none, it is the client's user.
    pub session_authorization: Option<Text>,
}

// Three texts, each a copy.
fn three_texts(
    alloc: Global,
    first: &str,
    second: &str,
    third: &str,
) -> Result<(Text, Text, Text), OutOfMemory>
    ensures { IfOk result (λ r. r ≡ (first.now, second.now, third.now)) }
{
    let first = Text::from_str(alloc, first)?;
    let second = Text::from_str(alloc, second)?;
    Ok((first, second, Text::from_str(alloc, third)?))
}

impl DefaultServerParameterProvider {
    ghost use Rattle.pgw_login.specs.Provider.{default_provider};

    pub fn new(alloc: Global) -> Result<DefaultServerParameterProvider, OutOfMemory>
        ensures { IfOk result (λ p. p ≡ default_provider) }
    {
        let search_path = Text::from_str(alloc, "public")?;
        let (server_version, server_encoding, client_encoding) = three_texts(
            alloc,
            "16.6-pgwire-0.41.0",
            "UTF8",
            "UTF8",
        )?;
        let (time_zone, date_style, interval_style) = three_texts(
            alloc, "Etc/UTC", "ISO, YMD", "postgres",
        )?;
        Ok(DefaultServerParameterProvider {
            server_version,
            server_encoding,
            integer_datetimes: true,
            in_hot_standby: false,
            search_path,
            is_superuser: true,
            default_transaction_read_only: false,
            scram_iterations: 4096,
            time_zone,
            date_style,
            interval_style,
            standard_conforming_strings: true,
            client_encoding: Some(client_encoding),
            application_name: None,
            session_authorization: None,
        })
    }
}

// Sets a parameter.
fn put(alloc: Global, held: &mut Params, name: &str, value: &str) -> Result<(), OutOfMemory>
    ensures { OnOk result (held.new ≡ map.insert held.old name.now value.now) }
{
    held.insert(Text::from_str(alloc, name)?, Text::from_str(alloc, value)?)
}

// Sets a parameter that is on or off.
fn put_switch(alloc: Global, held: &mut Params, name: &str, value: bool) -> Result<(), OutOfMemory>
    ensures { OnOk result (held.new ≡ with_switch name.now value held.old) }
{
    if value {
        put(alloc, held, name, "on")
    } else {
        put(alloc, held, name, "off")
    }
}

// The value that is set, or else the client's own.
fn given<'a>(set: &'a Option<Text>, metadata: &'a Params, key: &str) -> Option<&'a Text>
    ensures { option_copied result ≡ parameter_or_own set.now (map.get metadata.now key.now) }
{
    match set {
        Some(value) => Some(value),
        None => metadata.get(key),
    }
}

// Sets a parameter where there is a value.
fn put_given(
    alloc: Global,
    held: &mut Params,
    name: &str,
    set: &Option<Text>,
    metadata: &Params,
    key: &str,
) -> Result<(), OutOfMemory>
    ensures { OnOk result (held.new ≡ with_given name.now
        (parameter_or_own set.now (map.get metadata.now key.now)) held.old) }
{
    match given(set, metadata, key) {
        Some(value) => put(alloc, held, name, value.as_str()),
        None => Ok(()),
    }
}

impl DefaultServerParameterProvider {
    ghost use Rattle.pgw_login.specs.Provider.{with_server, with_session, with_client};

    // What the server is.
    fn put_server(&self, alloc: Global, held: &mut Params) -> Result<(), OutOfMemory>
        ensures { OnOk result (held.new ≡ with_server self.now held.old) }
    {
        put(alloc, held, "server_version", self.server_version.as_str())?;
        put(
            alloc,
            held,
            "server_encoding",
            self.server_encoding.as_str(),
        )?;
        put_switch(alloc, held, "integer_datetimes", self.integer_datetimes)?;
        put_switch(alloc, held, "in_hot_standby", self.in_hot_standby)?;
        let iterations = format!(in alloc; "{}", self.scram_iterations)?;
        put(alloc, held, "scram_iterations", iterations.as_str())
    }

    // What holds in a session.
    fn put_session(&self, alloc: Global, held: &mut Params) -> Result<(), OutOfMemory>
        ensures { OnOk result (held.new ≡ with_session self.now held.old) }
    {
        put(alloc, held, "search_path", self.search_path.as_str())?;
        put_switch(alloc, held, "is_superuser", self.is_superuser)?;
        let read_only = self.default_transaction_read_only;
        put_switch(alloc, held, "default_transaction_read_only", read_only)?;
        put(alloc, held, "TimeZone", self.time_zone.as_str())?;
        put(alloc, held, "DateStyle", self.date_style.as_str())?;
        put(alloc, held, "IntervalStyle", self.interval_style.as_str())?;
        let standard = self.standard_conforming_strings;
        put_switch(alloc, held, "standard_conforming_strings", standard)
    }

    // What the client may choose.
    fn put_client(
        &self,
        alloc: Global,
        metadata: &Params,
        held: &mut Params,
    ) -> Result<(), OutOfMemory>
        ensures { OnOk result (held.new ≡ with_client self.now metadata.now held.old) }
    {
        let encoding = &self.client_encoding;
        put_given(
            alloc,
            held,
            "client_encoding",
            encoding,
            metadata,
            "client_encoding",
        )?;
        let name = &self.application_name;
        put_given(
            alloc,
            held,
            "application_name",
            name,
            metadata,
            "application_name",
        )?;
        let user = &self.session_authorization;
        put_given(alloc, held, "session_authorization", user, metadata, "user")
    }
}

impl ServerParameterProvider for DefaultServerParameterProvider {
    ghost use Rattle.std.specs.Prelude.{Some};
    ghost use Rattle.pgw_login.specs.Provider.{default_parameters};

    ghost provides = { λ p c o. o ≡ Some (default_parameters p c) };

    fn server_parameters<C: ClientInfo>(
        &self,
        alloc: Global,
        client: &C,
    ) -> Result<Option<Params>, OutOfMemory> {
        let mut held = Params::new(alloc);
        self.put_server(alloc, &mut held)?;
        self.put_session(alloc, &mut held)?;
        self.put_client(alloc, client.metadata(), &mut held)?;
        Ok(Some(held))
    }
}
