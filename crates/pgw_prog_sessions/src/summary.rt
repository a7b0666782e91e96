//! The rows of a session, told shortly.
ghost use Rattle.std.specs.Prelude.{◌≡◌, ◌≤◌, ◌^◌, length, IfOk, OnOk, OnErr};
ghost use Rattle.std.specs.List.{flat_map};
ghost use Rattle.pgw_prog_sessions.specs.Summary.{AddsRowsToSum, AreTooMany, answer_rows, report_rows, response_rows, summary_of as summary_for};

use pgw_query::data_rows::DataRows;
use pgw_session::types::{Answer, Response, SessionReport};
use sha2::{Digest, Sha256};
use std::error::Error;
use std::fmt;

/// The rows of a session, told shortly.
#[derive(Clone, Copy, Debug, PartialEq, Eq)]
pub struct GenSummary {
    /// How many rows its answers gave.
    pub rows: u64,
    /// SHA-256 of their payloads, one behind the other.
    pub digest: [u8; 32],
}

/// There are more rows than 64 bits can count, which no memory holds.
#[derive(Clone, Copy, Debug)]
pub struct TooManyRows;

impl fmt::Display for TooManyRows {
    fn fmt<W: fmt::Write>(&self, f: &mut fmt::Formatter<W>) -> fmt::Result {
        f.write_str("more rows than can be counted")
    }
}

impl Error for TooManyRows {}

// The rows that were added so far.
#[derive(Drop)]
struct Sum {
    rows: u64,
    hasher: Sha256,
}

impl Sum {
    // Adds the rows of a result.
    fn add_rows(&mut self, rows: &DataRows) -> Result<(), TooManyRows>
        ensures adds { OnOk result (AddsRowsToSum rows.now self.old self.new) }
        ensures too_many { OnErr result (AreTooMany rows.now self.old) }
    {
        let Some(count) = self.rows.checked_add(rows.len() as u64) else {
            return Err(TooManyRows);
        };
        self.rows = count;
        for row in rows {
            self.hasher.update(row.payload);
        }
        Ok(())
    }

    fn add_responses(&mut self, responses: &[Response]) -> Result<(), TooManyRows>
        ensures adds { OnOk result (AddsRowsToSum (flat_map response_rows responses.now) self.old
            self.new) }
        ensures too_many { OnErr result (AreTooMany (flat_map response_rows responses.now)
            self.old) }
    {
        for response in responses {
            if let Response::Query(_tag, _fields, rows) = response {
                self.add_rows(rows)?;
            }
        }
        Ok(())
    }

    fn add_answers(&mut self, answers: &[Answer]) -> Result<(), TooManyRows>
        ensures adds { OnOk result (AddsRowsToSum (flat_map answer_rows answers.now) self.old
            self.new) }
        ensures too_many { OnErr result (AreTooMany (flat_map answer_rows answers.now) self.old) }
    {
        for answer in answers {
            if let Answer::Responses(responses) = answer {
                self.add_responses(responses.as_slice())?;
            }
        }
        Ok(())
    }
}

/// The rows of a report, told shortly. A server's error instead of rows has none. It takes no memory.
pub fn summary_of(report: &SessionReport) -> Result<GenSummary, TooManyRows>
    ensures value { IfOk result (λ summary. summary ≡ summary_for report.now) }
    ensures too_many { OnErr result (2 ^ 64 ≤ length (report_rows report.now)) }
{
    let mut sum = Sum {
        rows: 0,
        hasher: Sha256::new(),
    };
    sum.add_answers(report.answers.as_slice())?;
    Ok(GenSummary {
        rows: sum.rows,
        digest: sum.hasher.finalize(),
    })
}
