//! Connection texts that are URLs.
ghost use Rattle.std.specs.Prelude.{◌≡◌, [], IfOk};
ghost use Rattle.std.specs.Option.{option_copied};
ghost use Rattle.pgw_config_text.specs.declared.part.Part.TheVariants as kind;
ghost use Rattle.pgw_types.specs.Marks.{or_empty as empty_or};
ghost use Rattle.pgw_config_text.specs.Part.{up_to_fault, next_cut, adds};
ghost use Rattle.pgw_config_text.specs.UrlReader.{AddsPairs};
ghost use Rattle.pgw_config_text.specs.Url.{url_text, url_part, password_in, login_in, credentials_in, behind_credentials, host_and_port, closed_host, host_in, hosts_in, database_in, address_in, pair_of, IsUrl};

use crate::part::{Cut, Fault, Part};
use percent_encoding::percent_decode;
use pgw_types::marks::{cut_at, pieces_at};
use pgw_types::memory::OutOfMemory;
use pgw_types::octets::Octets;
use pgw_types::text::Text;
use std::alloc::Global;
use std::str;

fn or_empty(text: Option<&[u8]>) -> &[u8]
    ensures { result.now ≡ empty_or (option_copied text.entry) }
{
    text.unwrap_or(b"")
}

// The text that one with escapes stands for, or the fault.
#[tactic(auto, unfolding(crate::specs::Url::url_text))]
fn read_text(alloc: Global, written: &[u8]) -> Result<Result<Text, Fault>, OutOfMemory>
    ensures { IfOk result (λ r. r ≡ url_text written.now) }
{
    let mut bytes = Vec::new(alloc);
    percent_decode(written).append_to(&mut bytes)?;
    match str::from_utf8(&bytes) {
        Ok(text) => Ok(Ok(Text::from_str(alloc, text)?)),
        Err(_) => Ok(Err(Fault::NotUtf8(Octets::from_slice(alloc, &bytes)?))),
    }
}

// Adds a pair of this key and what the text stands for.
fn add_value(alloc: Global, cut: Cut, key: &str, written: &[u8]) -> Result<Cut, OutOfMemory>
    ensures { IfOk result (λ r. r ≡ next_cut cut
        (url_part (kind.Pair key.now) (url_text written.now))) }
{
    let key = Text::from_str(alloc, key)?;
    match read_text(alloc, written)? {
        Ok(value) => cut.next(Ok(Part::Pair(key, value))),
        Err(fault) => cut.next(Err(fault)),
    }
}

fn add_password(alloc: Global, cut: Cut, written: Option<&[u8]>) -> Result<Cut, OutOfMemory>
    ensures { IfOk result (λ r. r ≡ adds cut (password_in (option_copied written.entry))) }
{
    let Some(written) = written else {
        return Ok(cut);
    };
    let mut bytes = Vec::new(alloc);
    percent_decode(written).append_to(&mut bytes)?;
    cut.next(Ok(Part::Password(Octets::from_slice(alloc, &bytes)?)))
}

fn add_login(alloc: Global, cut: Cut, text: &[u8]) -> Result<Cut, OutOfMemory>
    ensures { IfOk result (λ r. r ≡ adds cut (login_in text.now)) }
{
    let (user, password) = cut_at(text, b':');
    let cut = add_value(alloc, cut, "user", user)?;
    add_password(alloc, cut, password)
}

// The user and the password in front, and what stands behind them.
fn read_login(alloc: Global, text: &[u8]) -> Result<(Cut, &[u8]), OutOfMemory>
    ensures login { IfOk result (λ r. r.0 ≡ adds (up_to_fault []) (credentials_in text.now)) }
    ensures behind { IfOk result (λ r. r.1.now ≡ behind_credentials text.now) }
{
    let cut = Cut::new(alloc);
    match cut_at(text, b'@') {
        (login, Some(rest)) => Ok((add_login(alloc, cut, login)?, rest)),
        (_, None) => Ok((cut, text)),
    }
}

fn add_name(alloc: Global, cut: Cut, host: &[u8]) -> Result<Cut, OutOfMemory>
    ensures { IfOk result (λ r. r ≡ next_cut cut (url_part kind.Host (url_text host.now))) }
{
    match read_text(alloc, host)? {
        Ok(host) => cut.next(Ok(Part::Host(host))),
        Err(fault) => cut.next(Err(fault)),
    }
}

fn add_host_and_port(alloc: Global, cut: Cut, host: &[u8], port: &[u8]) -> Result<Cut, OutOfMemory>
    ensures { IfOk result (λ r. r ≡ adds cut (host_and_port host.now port.now)) }
{
    let cut = add_name(alloc, cut, host)?;
    add_value(alloc, cut, "port", port)
}

// Adds a host that stood in brackets, with what stands behind the bracket that closes it.
fn add_closed(
    alloc: Global,
    cut: Cut,
    host: &[u8],
    after: Option<&[u8]>,
) -> Result<Cut, OutOfMemory>
    ensures { IfOk result (λ r. r ≡ adds cut (closed_host host.now (option_copied after.entry))) }
{
    match after {
        Some([]) => add_host_and_port(alloc, cut, host, b""),
        Some([b':', port @ ..]) => add_host_and_port(alloc, cut, host, port),
        Some(_) => add_name(alloc, cut, host)?.next(Err(Fault::Host)),
        None => cut.next(Err(Fault::Host)),
    }
}

fn add_host(alloc: Global, cut: Cut, text: &[u8]) -> Result<Cut, OutOfMemory>
    ensures { IfOk result (λ r. r ≡ adds cut (host_in text.now)) }
{
    match text {
        [b'[', inner @ ..] => {
            let (host, after) = cut_at(inner, b']');
            add_closed(alloc, cut, host, after)
        }
        _ => {
            let (host, port) = cut_at(text, b':');
            add_host_and_port(alloc, cut, host, or_empty(port))
        }
    }
}

#[tactic(auto, unfolding(crate::specs::Url::hosts_in))]
fn add_hosts(alloc: Global, cut: Cut, text: &[u8]) -> Result<Cut, OutOfMemory>
    ensures { IfOk result (λ r. r ≡ adds cut (hosts_in text.now)) }
{
    if text.is_empty() {
        return Ok(cut);
    }
    let hosts = pieces_at(alloc, text, b',')?;
    let mut cut = cut;
    for host in &hosts {
        cut = add_host(alloc, cut, host)?;
    }
    Ok(cut)
}

fn add_database(alloc: Global, cut: Cut, text: &[u8]) -> Result<Cut, OutOfMemory>
    ensures { IfOk result (λ r. r ≡ adds cut (database_in text.now)) }
{
    if text.is_empty() {
        return Ok(cut);
    }
    add_value(alloc, cut, "dbname", text)
}

// Adds the hosts and the database.
#[tactic(auto, using(crate::proofs::UrlLaws::adds_append))]
fn add_address(alloc: Global, cut: Cut, text: &[u8]) -> Result<Cut, OutOfMemory>
    ensures { IfOk result (λ r. r ≡ adds cut (address_in text.now)) }
{
    let (hosts, database) = cut_at(text, b'/');
    let cut = add_hosts(alloc, cut, hosts)?;
    add_database(alloc, cut, or_empty(database))
}

// What a pair of a key and a value makes, or the first fault.
fn pair(key: Result<Text, Fault>, value: Result<Text, Fault>) -> Result<Part, Fault>
    ensures { result ≡ pair_of key value }
{
    let key = key?;
    let value = value?;
    if key.as_str() == "host" {
        Ok(Part::Host(value))
    } else {
        Ok(Part::Pair(key, value))
    }
}

fn add_pair(alloc: Global, cut: Cut, key: &[u8], value: &[u8]) -> Result<Cut, OutOfMemory>
    ensures { IfOk result (λ r. r ≡ next_cut cut
        (pair_of (url_text key.now) (url_text value.now))) }
{
    let key = read_text(alloc, key)?;
    let value = read_text(alloc, value)?;
    cut.next(pair(key, value))
}

// Adds the pairs behind the question mark.
fn add_pairs(alloc: Global, cut: Cut, text: &[u8]) -> Result<Cut, OutOfMemory>
    ensures { IfOk result (AddsPairs cut text.now) }
{
    let mut cut = cut;
    let mut rest = text;
    while !rest.is_empty() {
        let (key, behind) = cut_at(rest, b'=');
        match behind {
            None => return cut.next(Err(Fault::Syntax)),
            Some(behind) => {
                let (value, more) = cut_at(behind, b'&');
                cut = add_pair(alloc, cut, key, value)?;
                rest = or_empty(more);
            }
        }
    }
    Ok(cut)
}

/// The parts of a URL behind its scheme.
pub(crate) fn read_url(alloc: Global, text: &[u8]) -> Result<Cut, OutOfMemory>
    ensures { IfOk result (IsUrl text.now) }
{
    let (cut, rest) = read_login(alloc, text)?;
    let (address, pairs) = cut_at(rest, b'?');
    let cut = add_address(alloc, cut, address)?;
    add_pairs(alloc, cut, or_empty(pairs))
}
