//! What a client is at first, what it is told of the server, and what an outbox writes.

use crate::support::standing_of;
use pgw_backend::backend::PgWireBackendMessage;
use pgw_login::client_info::{
    ClientInfo, DEFAULT_NAME, DefaultClient, METADATA_APPLICATION_NAME, METADATA_CLIENT_ENCODING,
    METADATA_DATABASE, METADATA_USER, PgWireConnectionState,
};
use pgw_login::outbox::{ByteOutbox, Outbox};
use pgw_login::provider::{DefaultServerParameterProvider, ServerParameterProvider};
use pgw_login::source::LoginInfo;
use pgw_query::response::{ReadyForQuery, TransactionStatus};
use pgw_startup::authentication::Authentication;
use pgw_startup::parameter_status::ParameterStatus;
use pgw_types::context::ProtocolVersion;
use pgw_types::memory::OutOfMemory;
use pgw_types::text::Text;
use pgw_wire::params::Params;
use pgw_wire::secret_key::SecretKey;
use std::alloc::Global;
use std::process::Abort;
use std::test::Fail;

type Given = &'static [(&'static str, &'static str)];

fn put(alloc: Global, parameters: &mut Params, name: &str, value: &str) -> Result<(), OutOfMemory> {
    let name = Text::from_str(alloc, name)?;
    let value = Text::from_str(alloc, value)?;
    parameters.insert(name, value)
}

fn parameters_of(alloc: Global, given: Given) -> Result<Params, OutOfMemory> {
    let mut parameters = Params::new(alloc);
    for (name, value) in given {
        put(alloc, &mut parameters, name, value)?;
    }
    Ok(parameters)
}

fn client_of(alloc: Global, given: Given) -> Result<DefaultClient<()>, OutOfMemory> {
    let host = Text::from_str(alloc, "10.0.0.1")?;
    let metadata = parameters_of(alloc, given)?;
    let mut client = DefaultClient::new(alloc, host, true, ());
    client.set_metadata(metadata);
    Ok(client)
}

fn add_line(lines: &mut String, name: &str, value: &str) -> Result<(), OutOfMemory> {
    lines.push_str(name)?;
    lines.push_str("=")?;
    lines.push_str(value)?;
    lines.push_str("\n")?;
    Ok(())
}

// A line for each parameter.
fn lines_of(alloc: Global, parameters: &Params) -> Result<String, OutOfMemory> {
    let mut lines = String::new(alloc);
    for (name, value) in parameters.iter() {
        add_line(&mut lines, name.as_str(), value.as_str())?;
    }
    Ok(lines)
}

fn lines_or_none(alloc: Global, parameters: &Option<Params>) -> Result<String, OutOfMemory> {
    match parameters {
        Some(parameters) => lines_of(alloc, parameters),
        None => Ok(String::from_str(alloc, "none")?),
    }
}

// What a client is told that gave parameters.
fn provided<P: ServerParameterProvider>(
    alloc: Global,
    provider: &P,
    given: Given,
) -> Result<String, OutOfMemory> {
    let client = client_of(alloc, given)?;
    let parameters = provider.server_parameters(alloc, &client)?;
    drop(client);
    lines_or_none(alloc, &parameters)
}

fn by_default(alloc: Global, given: Given) -> Result<String, OutOfMemory> {
    let provider = DefaultServerParameterProvider::new(alloc)?;
    provided(alloc, &provider, given)
}

// What clients give, and what they are told: the parameters in the order of their names; those that are not set are the
// client's own.
const BY_DEFAULT: &[(Given, &str)] = &[
    (
        &[],
        "DateStyle=ISO, YMD\nIntervalStyle=postgres\nTimeZone=Etc/UTC\nclient_encoding=UTF8\ndefault_transaction_read_only=off\nin_hot_standby=off\ninteger_datetimes=on\nis_superuser=on\nscram_iterations=4096\nsearch_path=public\nserver_encoding=UTF8\nserver_version=16.6-pgwire-0.41.0\nstandard_conforming_strings=on\n",
    ),
    (
        &[
            (METADATA_USER, "bob"),
            (METADATA_APPLICATION_NAME, "psql"),
            (METADATA_CLIENT_ENCODING, "LATIN1"),
        ],
        "DateStyle=ISO, YMD\nIntervalStyle=postgres\nTimeZone=Etc/UTC\napplication_name=psql\nclient_encoding=UTF8\ndefault_transaction_read_only=off\nin_hot_standby=off\ninteger_datetimes=on\nis_superuser=on\nscram_iterations=4096\nsearch_path=public\nserver_encoding=UTF8\nserver_version=16.6-pgwire-0.41.0\nsession_authorization=bob\nstandard_conforming_strings=on\n",
    ),
];

#[test]
fn default_provider(rt: HostRuntime) -> Result<(), Fail> {
    for (given, lines) in BY_DEFAULT {
        assert_eq!(rt; by_default(rt.alloc(), given)?.as_str(), *lines);
    }
    Ok(())
}

fn set(provider: &mut DefaultServerParameterProvider, name: Text) {
    provider.in_hot_standby = true;
    provider.is_superuser = false;
    provider.scram_iterations = 10;
    provider.client_encoding = None;
    provider.session_authorization = Some(name);
}

fn by_fields(alloc: Global, given: Given) -> Result<String, OutOfMemory> {
    let name = Text::from_str(alloc, "admin")?;
    let mut provider = DefaultServerParameterProvider::new(alloc)?;
    set(&mut provider, name);
    provided(alloc, &provider, given)
}

const NAMED: Given = &[(METADATA_USER, "bob"), (METADATA_CLIENT_ENCODING, "LATIN1")];

const BY_FIELDS: &str =
    "DateStyle=ISO, YMD\nIntervalStyle=postgres\nTimeZone=Etc/UTC\nclient_encoding=LATIN1\ndefault_transaction_read_only=off\nin_hot_standby=on\ninteger_datetimes=on\nis_superuser=off\nscram_iterations=10\nsearch_path=public\nserver_encoding=UTF8\nserver_version=16.6-pgwire-0.41.0\nsession_authorization=admin\nstandard_conforming_strings=on\n";

// A field that is set goes before the client's own, and one that is none gives way to it.
#[test]
fn provider_fields(rt: HostRuntime) -> Result<(), Fail> {
    assert_eq!(rt; by_fields(rt.alloc(), NAMED)?.as_str(), BY_FIELDS);
    Ok(())
}

const ACCEPTED: &[u8] = b"R\0\0\0\x08\0\0\0\0";

const ENDED: &[u8] = b"R\0\0\0\x08\0\0\0\0Z\0\0\0\x05I";

fn accept(out: &mut ByteOutbox) -> bool {
    out.feed(PgWireBackendMessage::Authentication(Authentication::Ok))
        .is_ok()
}

// Whether a name with a zero byte is taken.
fn tell_zero(alloc: Global, out: &mut ByteOutbox) -> Result<bool, OutOfMemory> {
    let status = ParameterStatus::new(Text::from_str(alloc, "a\0b")?, Text::new(alloc));
    Ok(
        out.feed(PgWireBackendMessage::ParameterStatus(status))
            .is_ok(),
    )
}

fn end(out: &mut ByteOutbox) -> bool {
    let ready = ReadyForQuery::new(TransactionStatus::Idle);
    out.send(PgWireBackendMessage::ReadyForQuery(ready)).is_ok()
}

// Messages that are handed on and ones that are sent stand in the buffer in their order. One that has no encoding is
// refused and leaves it.
fn check_outbox<R: Abort>(rt: &R, alloc: Global, out: &mut ByteOutbox) -> Result<(), OutOfMemory> {
    let is_taken = accept(out);
    assert_eq!(rt; (is_taken, out.buffer.as_slice()), (true, ACCEPTED));
    let is_taken = tell_zero(alloc, out)?;
    assert_eq!(rt; (is_taken, out.buffer.as_slice()), (false, ACCEPTED));
    let is_taken = end(out);
    assert_eq!(rt; (is_taken, out.buffer.as_slice()), (true, ENDED));
    Ok(())
}

#[test]
fn outbox_bytes(rt: HostRuntime) -> Result<(), Fail> {
    let mut out = ByteOutbox::new(rt.alloc());
    check_outbox(&rt, rt.alloc(), &mut out)?;
    Ok(())
}

// Whether a client's key is 0.
fn has_no_key<C: ClientInfo>(client: &C) -> bool {
    let (_number, key) = client.pid_and_secret_key();
    *key == SecretKey::I32(0)
}

// Where a client calls from, whether it is encrypted, how its transaction stands, how many parameters it gave, and
// whether its key is 0.
fn secured<C: ClientInfo>(client: &C) -> (&str, bool, TransactionStatus, usize, bool) {
    (
        client.host().as_str(),
        client.is_secure(),
        client.transaction_status(),
        client.metadata().len(),
        has_no_key(client),
    )
}

fn check_new<R: Abort>(rt: &R, client: &DefaultClient<i32>) {
    assert_eq!(rt;
        (client.session_extensions, DEFAULT_NAME),
        (5, "POSTGRESQL_DEFAULT_NAME")
    );
    let awaiting = PgWireConnectionState::AwaitingSslRequest;
    assert_eq!(rt;
        standing_of(client),
        (awaiting, ProtocolVersion::PROTOCOL3_2, false, 0)
    );
    assert_eq!(rt;
        secured(client),
        ("10.0.0.1", true, TransactionStatus::Idle, 0, true)
    );
}

#[test]
fn new_client(rt: HostRuntime) -> Result<(), Fail> {
    let host = Text::from_str(rt.alloc(), "10.0.0.1")?;
    check_new(&rt, &DefaultClient::new(rt.alloc(), host, true, 5));
    Ok(())
}

// A user, a database, and where the client calls from.
type Told = (Option<&'static str>, Option<&'static str>, &'static str);

fn check_login<R: Abort>(rt: &R, login: &LoginInfo<'_>, told: &Told) {
    assert_eq!(rt; (login.user(), login.database(), login.host()), *told);
}

// What clients give, and who logs in.
const LOGINS: &[(Given, Told)] = &[
    (&[], (None, None, "10.0.0.1")),
    (
        &[(METADATA_USER, "bob"), (METADATA_DATABASE, "test")],
        (Some("bob"), Some("test"), "10.0.0.1"),
    ),
];

// Who logs in, as the client told it.
#[test]
fn login_info(rt: HostRuntime) -> Result<(), Fail> {
    for (given, told) in LOGINS {
        let client = client_of(rt.alloc(), given)?;
        check_login(&rt, &LoginInfo::from_client_info(&client), told);
    }
    Ok(())
}

#[test]
fn made_login_info(rt: HostRuntime) {
    let login = LoginInfo::new(None, Some("test"), "::1");
    check_login(&rt, &login, &(None, Some("test"), "::1"));
}
