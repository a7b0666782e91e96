//! One query over a link.
ghost use Rattle.std.specs.Prelude.{IfOk};
ghost use Rattle.pgw_link.specs.Tape.{MovedBy};
ghost use Rattle.pgw_client.specs.Session.{IoHasCause};
ghost use Rattle.example_dialogue.specs.Ask.{CompletesExample};

use pgw_client::{Config, Link, PgWireClientResult, Request, SessionReport, run_session};
use std::alloc::Global;

/// Logs in by a connection text, asks for what the query gives, and reports. An error that the server answers the
/// query with is the report's one answer; one that refuses the login or ends the session is an error of this call.
pub fn ask<L: Link>(
    alloc: Global,
    link: &mut L,
    text: &str,
    sql: &str,
    nonce: &[u8; 18],
    limit: u64,
) -> PgWireClientResult<SessionReport>
    // IoError comes only where a call of the link failed.
    ensures cause { IoHasCause (L.faults link.old) (L.faults link.new) result }
    // The report is that of a completed session with this query, under the configuration that the text gives.
    ensures asked { IfOk result (λ report. MovedBy (L.tape link.old) (L.tape link.new)
        (λ taken sent. CompletesExample text.now sql.now nonce.now taken sent report)) }
{
    let config = Config::parse(alloc, text)?;
    let requests = [Request::simple(alloc, sql)?];
    run_session(alloc, link, &config, &requests, nonce, limit)
}
