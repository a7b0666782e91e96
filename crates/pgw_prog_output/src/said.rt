//! What a server's message is in the answer of a query.
ghost use Rattle.std.specs.Prelude.{◌≡◌, IfOk};
ghost use Rattle.std.specs.List.{list_all};
ghost use Rattle.pgw_prog_output.specs.Said.{columns_of, columns_said as columns_mean, is_failed as fails, is_text_field, placed as place_of, said_row, row_said as row_means, said_by, said_turn, values_of};

use crate::answer_columns::{are_text, columns};
use crate::columns::Column;
use crate::layout::Row;
use crate::values::read_values;
use pgw_backend::backend::PgWireBackendMessage;
use pgw_query::data::{DataRow, FieldDescription};
use pgw_types::error::PgWireError;
use pgw_types::listed::Listed;
use pgw_types::memory::OutOfMemory;
use std::alloc::Global;

/// What a server's message is in the answer of a query.
#[derive(Debug, Drop)]
pub enum Said {
    /// A result begins, which has these columns.
    Columns(Listed<Column>),
    Row(Row),
    /// A command was done.
    Done,
    /// The server answers an error.
    Failed,
    /// It stands beside the answer, as a notice does.
    Beside,
    /// The answer is over.
    Ready,
    /// It has no place in an answer.
    Misplaced,
}

/// How an answer goes on behind a message.
#[derive(Clone, Copy, Debug, PartialEq, Eq)]
pub enum Turn {
    GoesOn,
    Ready,
    Misplaced,
}

impl Said {
    pub fn turn(&self) -> Turn
        ensures { result ≡ said_turn self.now }
    {
        match self {
            Said::Ready => Turn::Ready,
            Said::Misplaced => Turn::Misplaced,
            _ => Turn::GoesOn,
        }
    }

    /// What it is where a result with so many columns is open, or none is.
    pub fn placed(self, opened: Option<usize>) -> Said
        ensures { result ≡ place_of opened self }
    {
        match self {
            Said::Row(row) => row_placed(row, opened),
            said => said,
        }
    }

    /// Whether the server answers an error.
    pub fn is_failed(&self) -> bool
        ensures { result ≡ fails self.now }
    {
        match self {
            Said::Failed => true,
            _ => false,
        }
    }
}

// A row is of the result that is open, and has a value for each of its columns.
fn row_placed(row: Row, opened: Option<usize>) -> Said
    ensures { result ≡ said_row opened row }
{
    match opened {
        Some(count) if row.len() == count => Said::Row(row),
        _ => {
            drop(row);
            Said::Misplaced
        }
    }
}

fn columns_said(alloc: Global, fields: &[FieldDescription]) -> Result<Said, OutOfMemory>
    ensures { IfOk result (λ said. said
        ≡ columns_mean (list_all is_text_field fields.now) (columns_of fields.now)) }
{
    if are_text(fields) {
        Ok(Said::Columns(columns(alloc, fields)?))
    } else {
        Ok(Said::Misplaced)
    }
}

fn row_said(alloc: Global, row: &DataRow) -> Result<Said, OutOfMemory>
    ensures { IfOk result (λ said. said ≡ row_means (values_of row.now)) }
{
    match read_values(alloc, row) {
        Ok(values) => Ok(Said::Row(values)),
        Err(PgWireError::OutOfMemory) => Err(OutOfMemory),
        Err(error) => {
            drop(error);
            Ok(Said::Misplaced)
        }
    }
}

/// What a message is in an answer, wherever it stands.
pub fn said_of(alloc: Global, message: &PgWireBackendMessage) -> Result<Said, OutOfMemory>
    ensures { IfOk result (λ said. said ≡ said_by message.now) }
{
    match message {
        PgWireBackendMessage::RowDescription(m) => columns_said(alloc, m.fields.as_slice()),
        PgWireBackendMessage::DataRow(m) => row_said(alloc, m),
        PgWireBackendMessage::CommandComplete(_) | PgWireBackendMessage::EmptyQueryResponse(_) => {
            Ok(Said::Done)
        }
        PgWireBackendMessage::ErrorResponse(_) => Ok(Said::Failed),
        PgWireBackendMessage::NoticeResponse(_)
        | PgWireBackendMessage::ParameterStatus(_)
        | PgWireBackendMessage::NotificationResponse(_) => Ok(Said::Beside),
        PgWireBackendMessage::ReadyForQuery(_) => Ok(Said::Ready),
        _ => Ok(Said::Misplaced),
    }
}
