//! The requests of extended queries.
ghost use Rattle.std.specs.Prelude.{◌≡◌, IfOk};
ghost use Rattle.std.specs.Option.{option_copied};
ghost use Rattle.pgw_session.specs.declared.types.Request.TheVariants as request;
ghost use Rattle.pgw_client_calls.specs.Targets.{target_of};

use pgw_session::types::{Request, Target};
use pgw_types::listed::Listed;
use pgw_types::memory::OutOfMemory;
use pgw_types::octets::Octets;
use pgw_types::text::Text;
use std::alloc::Global;

/// What is described or closed, by its name.
#[derive(Clone, Copy, Debug)]
pub enum DescribeTarget<'a> {
    Statement(Option<&'a str>),
    Portal(Option<&'a str>),
}

pub(crate) fn named(alloc: Global, name: Option<&str>) -> Result<Option<Text>, OutOfMemory>
    ensures { IfOk result (λ o. o ≡ option_copied name.entry) }
{
    match name {
        Some(name) => Ok(Some(Text::from_str(alloc, name)?)),
        None => Ok(None),
    }
}

fn types(alloc: Global, oids: &[u32]) -> Result<Listed<u32>, OutOfMemory>
    ensures { IfOk result (λ types. types ≡ oids.now) }
{
    let mut types = Listed::new(alloc);
    for oid in oids {
        types.push(*oid)?;
    }
    Ok(types)
}

fn target(alloc: Global, target: DescribeTarget<'_>) -> Result<Target, OutOfMemory>
    ensures { IfOk result (λ t. t ≡ target_of target.entry) }
{
    match target {
        DescribeTarget::Statement(name) => Ok(Target::Statement(named(alloc, name)?)),
        DescribeTarget::Portal(name) => Ok(Target::Portal(named(alloc, name)?)),
    }
}

pub(crate) fn prepare(
    alloc: Global,
    name: Option<&str>,
    query: &str,
    param_types: &[u32],
) -> Result<Request, OutOfMemory>
    ensures { IfOk result (λ r. r ≡ request.Prepare (option_copied name.entry) query.now
        param_types.now) }
{
    let name = named(alloc, name)?;
    let query = Text::from_str(alloc, query)?;
    Ok(Request::Prepare(name, query, types(alloc, param_types)?))
}

pub(crate) fn bind(
    alloc: Global,
    portal: Option<&str>,
    statement: Option<&str>,
    params: Listed<Option<Octets>>,
    result_formats: Listed<i16>,
) -> Result<Request, OutOfMemory>
    ensures { IfOk result (λ r. r ≡ request.Bind (option_copied portal.entry)
        (option_copied statement.entry) params result_formats) }
{
    let portal = named(alloc, portal)?;
    let statement = named(alloc, statement)?;
    Ok(Request::Bind(portal, statement, params, result_formats))
}

pub(crate) fn execute(
    alloc: Global,
    portal: Option<&str>,
    max_rows: i32,
) -> Result<Request, OutOfMemory>
    ensures { IfOk result (λ r. r ≡ request.Execute (option_copied portal.entry) max_rows) }
{
    Ok(Request::Execute(named(alloc, portal)?, max_rows))
}

pub(crate) fn describe(alloc: Global, described: DescribeTarget<'_>) -> Result<Request, OutOfMemory>
    ensures { IfOk result (λ r. r ≡ request.Describe (target_of described.entry)) }
{
    Ok(Request::Describe(target(alloc, described)?))
}

pub(crate) fn close(alloc: Global, closed: DescribeTarget<'_>) -> Result<Request, OutOfMemory>
    ensures { IfOk result (λ r. r ≡ request.Close (target_of closed.entry)) }
{
    Ok(Request::Close(target(alloc, closed)?))
}

pub(crate) fn query(
    alloc: Global,
    sql: &str,
    param_types: &[u32],
    params: Listed<Option<Octets>>,
) -> Result<Request, OutOfMemory>
    ensures { IfOk result (λ r. r ≡ request.Query sql.now param_types.now params) }
{
    let sql = Text::from_str(alloc, sql)?;
    Ok(Request::Query(sql, types(alloc, param_types)?, params))
}
