//! Calls of extended queries.

use crate::link::CaseLink;
use crate::shown::{said, told};
use anyhow::{Context, Result, bail};
use pgw_client::{Listed, Octets};
use pgw_client_calls::{DescribeTarget, ExtendedQueryClient, PgWireClient};
use pgw_handlers_default::DefaultExtendedQueryHandler;
use std::alloc::Global;

type Lent<'a> = ExtendedQueryClient<'a, CaseLink, DefaultExtendedQueryHandler>;

// The name of a portal or a statement; `-` is none.
fn name_of(word: &str) -> Option<&str> {
    if word == "-" { None } else { Some(word) }
}

fn target_of<'a>(kind: &str, name: &'a str) -> Result<DescribeTarget<'a>> {
    match kind {
        "statement" => Ok(DescribeTarget::Statement(name_of(name))),
        "portal" => Ok(DescribeTarget::Portal(name_of(name))),
        _ => bail!("neither a statement nor a portal"),
    }
}

fn prepare(alloc: Global, lent: &mut Lent<'_>, text: &str) -> Result<String> {
    let (name, sql) = text.split_once(' ').context("a name and SQL")?;
    told(alloc, lent.prepare(name_of(name), sql, &[23]))
}

// One parameter, as text.
fn parameters(alloc: Global, value: &str) -> Result<Listed<Option<Octets>>> {
    let mut parameters = Listed::new(alloc);
    parameters.push(Some(Octets::from_slice(alloc, value.as_bytes())?))?;
    Ok(parameters)
}

fn bind(alloc: Global, lent: &mut Lent<'_>, text: &str) -> Result<String> {
    let (portal, rest) = text
        .split_once(' ')
        .context("a portal, a statement and a value")?;
    let (statement, value) = rest.split_once(' ').context("a statement and a value")?;
    let bound = lent.bind(
        name_of(portal),
        name_of(statement),
        parameters(alloc, value)?,
        Listed::new(alloc),
    );
    said(alloc, bound, "bound")
}

fn execute(alloc: Global, lent: &mut Lent<'_>, text: &str) -> Result<String> {
    let (portal, most) = text.split_once(' ').context("a portal and a number")?;
    let most = most.parse::<i32>()?;
    told(alloc, lent.execute(name_of(portal), most))
}

fn describe(alloc: Global, lent: &mut Lent<'_>, text: &str) -> Result<String> {
    let (kind, name) = text.split_once(' ').context("a kind and a name")?;
    let target = target_of(kind, name)?;
    told(alloc, lent.describe(target))
}

fn close(alloc: Global, lent: &mut Lent<'_>, text: &str) -> Result<String> {
    let (kind, name) = text.split_once(' ').context("a kind and a name")?;
    let target = target_of(kind, name)?;
    said(alloc, lent.close(target), "closed")
}

fn query(alloc: Global, lent: &mut Lent<'_>, sql: &str) -> Result<String> {
    let parameters = parameters(alloc, "1")?;
    told(alloc, lent.query(sql, &[23], parameters))
}

/// An extended call on a client, and what came of it.
pub fn extended(
    alloc: Global,
    client: &mut PgWireClient<CaseLink>,
    word: &str,
    text: &str,
) -> Result<String> {
    let mut handler = DefaultExtendedQueryHandler::new();
    let mut lent = client.extended_query(&mut handler);
    match word {
        "prepare" => prepare(alloc, &mut lent, text),
        "bind" => bind(alloc, &mut lent, text),
        "execute" => execute(alloc, &mut lent, text),
        "describe" => describe(alloc, &mut lent, text),
        "close" => close(alloc, &mut lent, text),
        "query" => query(alloc, &mut lent, text),
        _ => bail!("no call {word}"),
    }
}
