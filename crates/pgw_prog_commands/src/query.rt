//! The session of the command `query`.
ghost use Rattle.std.specs.Prelude.{◌≡◌};
ghost use Rattle.pgw_prog_commands.specs.Query.{RanQuery, query_status as status_for, status_without as status_lacking};
ghost use Rattle.pgw_prog_commands.specs.Places.{IsClosed};
ghost use Rattle.pgw_prog_commands.specs.Telling.{telling};

use crate::notes::{LoginNotes, NoClock};
use crate::places::{NoSession, Place, connect_first};
use crate::talking::Talking;
use pgw_link::dialer::Dialer;
use pgw_link::stream::Sink;
use pgw_prog_output::asking::{AnswerEnd, ask_all};
use pgw_prog_output::printer::RowFormat;
use pgw_types::text::Text;
use std::alloc::Global;

fn status_of(end: AnswerEnd) -> u8
    ensures { result ≡ status_for end }
{
    match end {
        AnswerEnd::Well => 0,
        AnswerEnd::Failed | AnswerEnd::Misplaced | AnswerEnd::Lost => 1,
        AnswerEnd::NoOutput => 3,
        AnswerEnd::NoMemory => 4,
    }
}

fn status_without(why: NoSession) -> u8
    ensures { result ≡ status_lacking why }
{
    match why {
        NoSession::Refused => 1,
        NoSession::Memory => 4,
    }
}

// Takes leave of the server, and has the link closed.
fn hang_up<D: Dialer>(talking: Talking<D::Link>, dialer: &mut D)
    ensures { IsClosed (telling D.foretells D.offers D.tape D.faults
        D.Link.foretells D.Link.left D.Link.tape D.Link.faults)
        talking.client dialer.old dialer.new }
{
    let Talking { client } = talking;
    let _ = client.close(dialer);
}

/// Asks queries in turn at the first place that lets the client in, prints the rows of their answers as they come, takes
/// leave, and says with which status to end: 0 all went well, 1 the server answered an error, or there is no connection, or it
/// failed, 3 standard output failed, 4 memory ran out. An error of the server ends it: no further query is asked.
pub fn run_query<D: Dialer, O: Sink, E: Sink>(
    alloc: Global,
    format: RowFormat,
    places: &[Place],
    queries: &[Text],
    output: &mut O,
    errors: &mut E,
    dialer: &mut D,
) -> u8
    ensures { RanQuery (telling D.foretells D.offers D.tape D.faults
        D.Link.foretells D.Link.left D.Link.tape D.Link.faults)
        format places.now queries.now dialer.old dialer.new
        (O.tape output.old).wrote (O.tape output.new).wrote
        (O.faults output.old) (O.faults output.new) result }
{
    let mut notes = LoginNotes::new();
    match connect_first(alloc, places, dialer, errors, &mut NoClock, &mut notes) {
        Ok(client) => {
            let mut talking = Talking { client };
            let end = ask_all(alloc, &mut talking, format, queries, output, errors);
            hang_up(talking, dialer);
            status_of(end)
        }
        Err(why) => status_without(why),
    }
}
