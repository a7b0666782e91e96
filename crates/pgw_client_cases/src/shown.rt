//! What is printed of answers and errors.

use crate::link::CaseLink;
use anyhow::Result;
use pgw_client::{
    DataRows, DescribeResponse, ExecuteResult, Listed, PgWireBackendMessage, PgWireClientError,
    PgWireClientResult, PgWireError, PrepareResponse, Response, Text, TransactionStatus,
};
use pgw_client_calls::PgWireClient;
use pgw_handlers::{ClientInfo, ReadyState};
use std::alloc::Global;

fn refusal_name(error: &PgWireError) -> &'static str {
    match error {
        PgWireError::InvalidMessageType(_) => "InvalidMessageType",
        PgWireError::MessageTooLarge(..) => "MessageTooLarge",
        PgWireError::InvalidMessageBody => "InvalidMessageBody",
        PgWireError::InvalidTransactionStatus(_) => "InvalidTransactionStatus",
        PgWireError::InvalidElementCount(..) => "InvalidElementCount",
        _ => "another refusal",
    }
}

/// The name of an error; of a refusal of the codec the name of that.
pub fn error_name(error: &PgWireClientError) -> &'static str {
    match error {
        PgWireClientError::InvalidConfig(_) => "InvalidConfig",
        PgWireClientError::UnexpectedEOF => "UnexpectedEOF",
        PgWireClientError::UnexpectedMessage(_) => "UnexpectedMessage",
        PgWireClientError::RemoteError(_) => "RemoteError",
        PgWireClientError::PgWireError(why) => refusal_name(why),
        PgWireClientError::IoError => "IoError",
        PgWireClientError::ReadLimit => "ReadLimit",
        PgWireClientError::Broken => "Broken",
        PgWireClientError::ScramError(_) => "ScramError",
        PgWireClientError::UnsupportedSASLAuthMethods(_) => "UnsupportedSASLAuthMethods",
        PgWireClientError::OutOfMemory => "OutOfMemory",
        _ => "another error",
    }
}

/// An answer of a call, as it is printed.
pub trait Shown: Drop {
    fn shown(&self, alloc: Global) -> Result<String>;
}

/// What came of a call: its answer, or the name of its error.
pub fn told<T: Shown>(alloc: Global, came: PgWireClientResult<T>) -> Result<String> {
    match came {
        Ok(answer) => answer.shown(alloc),
        Err(error) => Ok(String::from_str(alloc, error_name(&error))?),
    }
}

/// What came of a call whose answer is printed as this.
pub fn said<T: Drop>(alloc: Global, came: PgWireClientResult<T>, shown: &str) -> Result<String> {
    match came {
        Ok(_) => Ok(String::from_str(alloc, shown)?),
        Err(error) => Ok(String::from_str(alloc, error_name(&error))?),
    }
}

pub fn status_shown(client: &PgWireClient<CaseLink>) -> &'static str {
    match client.transaction_status() {
        TransactionStatus::Idle => "I",
        TransactionStatus::Transaction => "T",
        TransactionStatus::Error => "E",
    }
}

fn response_shown(alloc: Global, response: &Response) -> Result<String> {
    match response {
        Response::EmptyQuery => Ok(String::from_str(alloc, "empty")?),
        Response::Execution(tag) => Ok(format!(in alloc; "done {}", tag.command.as_str())?),
        Response::Query(tag, fields, rows) => Ok(format!(in alloc;
            "{} {} by {}",
            tag.command.as_str(),
            rows.len(),
            fields.as_slice().len()
        )?),
    }
}

/// Of each response its command, and of a result how many rows of how many columns it has.
impl Shown for Listed<Response> {
    fn shown(&self, alloc: Global) -> Result<String> {
        let mut shown = String::from_str(alloc, "[")?;
        for response in self.as_slice() {
            if shown.len() > 1 {
                shown.push_str(", ")?;
            }
            shown.push_str(response_shown(alloc, response)?.as_str())?;
        }
        shown.push_str("]")?;
        Ok(shown)
    }
}

/// The counts of a handler that counts rows.
impl Shown for Listed<u64> {
    fn shown(&self, alloc: Global) -> Result<String> {
        Ok(format!(in alloc; "counted {:?}", self.as_slice())?)
    }
}

/// What a handler heard that listens.
impl Shown for Listed<Text> {
    fn shown(&self, alloc: Global) -> Result<String> {
        let mut shown = String::from_str(alloc, "heard")?;
        for text in self.as_slice() {
            shown.push_str(" ")?;
            shown.push_str(text.as_str())?;
        }
        Ok(shown)
    }
}

/// The payloads of some rows.
impl Shown for DataRows {
    fn shown(&self, alloc: Global) -> Result<String> {
        let mut shown = String::from_str(alloc, "rows")?;
        for row in self {
            shown.push_str(" ")?;
            shown.push_str(hex::encode(alloc, row.payload)?.as_str())?;
        }
        Ok(shown)
    }
}

impl Shown for ExecuteResult<DataRows> {
    fn shown(&self, alloc: Global) -> Result<String> {
        match self {
            ExecuteResult::Complete(rows) => {
                Ok(format!(in alloc; "complete {}", rows.shown(alloc)?)?)
            }
            ExecuteResult::Suspended(rows) => {
                Ok(format!(in alloc; "suspended {}", rows.shown(alloc)?)?)
            }
        }
    }
}

impl Shown for PrepareResponse {
    fn shown(&self, alloc: Global) -> Result<String> {
        let types = self.param_types.as_slice().len();
        Ok(format!(in alloc; "prepared, {types} types")?)
    }
}

/// How many types and how many columns are described.
impl Shown for DescribeResponse {
    fn shown(&self, alloc: Global) -> Result<String> {
        let types = self.param_types.as_slice().len();
        let fields = self.fields.as_slice().len();
        Ok(format!(in alloc; "{types} types, {fields} columns")?)
    }
}

/// Whether bytes came.
impl Shown for bool {
    fn shown(&self, alloc: Global) -> Result<String> {
        Ok(format!(in alloc; "{self}")?)
    }
}

impl Shown for ReadyState<PgWireBackendMessage> {
    fn shown(&self, alloc: Global) -> Result<String> {
        let shown = match self {
            ReadyState::Pending => "pending",
            ReadyState::Ready(_message) => "a message",
        };
        Ok(String::from_str(alloc, shown)?)
    }
}
