//! A session of any size over a link, its rows told shortly.
ghost use Rattle.std.specs.Prelude.{◌≡◌, ◌<◌, ◌^◌, length, IfOk};
ghost use Rattle.pgw_prog_sessions.specs.Summary.{gen_config, gen_query, report_rows};
ghost use Rattle.pgw_prog.specs.GenSession.{OverLinkShortly, TellsSummary};
ghost use Rattle.pgw_client.specs.OverLink.{link_span};

use pgw_backend::client_error::PgWireClientResult;
use pgw_client::session::run_session;
use pgw_config::config::Config;
use pgw_link::link::Link;
use pgw_prog_sessions::summary::{GenSummary, summary_of};
use pgw_session::types::{Request, SessionReport};
use pgw_types::memory::OutOfMemory;
use std::alloc::Global;

fn config(alloc: Global) -> Result<Config, OutOfMemory>
    ensures { IfOk result (λ config. config ≡ gen_config) }
{
    let mut config = Config::new(alloc);
    config.set_user(alloc, "gen")?;
    Ok(config)
}

fn request(alloc: Global) -> Result<Request, OutOfMemory>
    ensures { IfOk result (λ request. request ≡ gen_query) }
{
    Request::simple(alloc, "SELECT n")
}

// The answer, with the report told shortly. A session has fewer rows than 64 bits can count, as it
// reads no more bytes than its limit.
fn summed(outcome: PgWireClientResult<SessionReport>) -> PgWireClientResult<GenSummary>
    requires { IfOk outcome (λ report. length (report_rows report) < 2 ^ 64) }
    ensures { TellsSummary outcome result }
{
    match outcome {
        Ok(report) => {
            let Ok(summary) = summary_of(&report) else {
                unreachable!()
            };
            Ok(summary)
        }
        Err(error) => Err(error),
    }
}

/// Holds the session of the user `gen` with its one query, `SELECT n`, as `run_session` does, and tells the rows of its
/// report shortly. A server's error instead of rows has none.
pub fn gen_session<L: Link>(
    alloc: Global,
    link: &mut L,
    nonce: &[u8; 18],
    limit: u64,
) -> PgWireClientResult<GenSummary>
    ensures session { OverLinkShortly nonce.now limit L.foretells
        (link_span L.tape L.left L.faults link.old link.new) result }
    // What the link was made with stays.
    ensures kept { L.plan link.new ≡ L.plan link.old }
{
    let config = config(alloc)?;
    let requests = [request(alloc)?];
    let outcome = run_session(alloc, link, &config, &requests, nonce, limit);
    drop(requests);
    drop(config);
    summed(outcome)
}
