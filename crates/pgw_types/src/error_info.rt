//! The parts of an error or a notice.
ghost use Rattle.std.specs.Prelude.{◌≡◌, ◌↔◌, IsTrue, IfOk, option_map};
ghost use Rattle.std.specs.List.{filter_map};
ghost use Rattle.std.specs.Fmt.{decimal};
ghost use Rattle.pgw_types.specs.Infos.{plain_info, FATAL as FATAL_BYTES, grade_of, info_of, info_field, fields_of, source_line, info_from, with_field};

use crate::error::PgWireError;
use crate::listed::{Duplicate, Listed};
use crate::memory::OutOfMemory;
use crate::text::Text;
use std::alloc::Global;
use std::fmt;

/// An error or a notice with its parts (Error and Notice Message Fields).
#[derive(Debug, Drop, PartialEq, Eq)]
pub struct ErrorInfo {
    pub severity: Text,
    pub code: Text,
    pub message: Text,
    pub detail: Option<Text>,
    pub hint: Option<Text>,
    pub position: Option<Text>,
    pub internal_position: Option<Text>,
    pub internal_query: Option<Text>,
    pub where_context: Option<Text>,
    pub file_name: Option<Text>,
    pub line: Option<usize>,
    pub routine: Option<Text>,
    pub severity_nonlocalized: Option<Text>,
    pub schema: Option<Text>,
    pub table: Option<Text>,
    pub column: Option<Text>,
    pub datatype: Option<Text>,
    pub constraint: Option<Text>,
}

impl ErrorInfo {
    /// Nothing else is said of it.
    pub fn new(severity: Text, code: Text, message: Text) -> ErrorInfo
        ensures { result ≡ plain_info severity code message }
    {
        ErrorInfo {
            severity,
            code,
            message,
            detail: None,
            hint: None,
            position: None,
            internal_position: None,
            internal_query: None,
            where_context: None,
            file_name: None,
            line: None,
            routine: None,
            severity_nonlocalized: None,
            schema: None,
            table: None,
            column: None,
            datatype: None,
            constraint: None,
        }
    }

    /// What a refusal is to the other end. Its message is the refusal's printed text.
    #[tactic(auto, unfolding(crate::specs::Infos::info_of, crate::specs::Infos::grade_of))]
    pub fn from_error(alloc: Global, error: PgWireError) -> Result<ErrorInfo, OutOfMemory>
        ensures { IfOk result (λ info. info ≡ info_of error info.message) }
    {
        match error {
            PgWireError::UserError(held) => Ok(held.into_inner()),
            error => plain_error(alloc, &error),
        }
    }

    /// The parts that are set, as fields with their codes (Error and Notice Message Fields).
    #[tactic(auto, using(crate::proofs::InfoLaws::info_from_fields), unfolding(crate::specs::Infos::parts_of))]
    pub fn into_fields(self, alloc: Global) -> Result<Listed<(u8, Text)>, OutOfMemory>
        ensures fields { IfOk result (λ fields. fields ≡ fields_of self) }
        ensures back { IfOk result (λ fields. info_from fields ≡ self) }
    {
        let line = line_text(alloc, self.line)?;
        let parts = Vec::from_array(
            alloc,
            [
                (b'S', Some(self.severity)),
                (b'V', self.severity_nonlocalized),
                (b'C', Some(self.code)),
                (b'M', Some(self.message)),
                (b'D', self.detail),
                (b'H', self.hint),
                (b'P', self.position),
                (b'p', self.internal_position),
                (b'q', self.internal_query),
                (b'W', self.where_context),
                (b'F', self.file_name),
                (b'L', line),
                (b'R', self.routine),
                (b's', self.schema),
                (b't', self.table),
                (b'c', self.column),
                (b'd', self.datatype),
                (b'n', self.constraint),
            ],
        )?;
        set_fields(alloc, parts)
    }

    /// What fields say; an empty text where severity, code or message lacks. A later field replaces an earlier one of its code, and other codes say nothing.
    #[tactic(auto, using(crate::proofs::InfoLaws::info_from_push), unfolding(crate::specs::Infos::last_field_text, crate::specs::Infos::info_from))]
    pub fn from_fields(fields: Listed<(u8, Text)>) -> ErrorInfo
        ensures { result ≡ info_from fields }
    {
        let fields = fields.into_vec();
        let alloc = *fields.allocator();
        let mut info = ErrorInfo::new(Text::new(alloc), Text::new(alloc), Text::new(alloc));
        for (code, text) in fields {
            info.set_field(code, text);
        }
        info
    }

    // Takes one more field.
    #[tactic(auto, unfolding(crate::specs::Infos::with_field))]
    fn set_field(&mut self, code: u8, text: Text)
        ensures { self.new ≡ with_field self.old code text }
    {
        match code {
            b'S' => self.severity = text,
            b'V' => self.severity_nonlocalized = Some(text),
            b'C' => self.code = text,
            b'M' => self.message = text,
            b'D' => self.detail = Some(text),
            b'H' => self.hint = Some(text),
            b'P' => self.position = Some(text),
            b'p' => self.internal_position = Some(text),
            b'q' => self.internal_query = Some(text),
            b'W' => self.where_context = Some(text),
            b'F' => self.file_name = Some(text),
            b'L' => self.line = Some(line_in(&text)),
            b'R' => self.routine = Some(text),
            b's' => self.schema = Some(text),
            b't' => self.table = Some(text),
            b'c' => self.column = Some(text),
            b'd' => self.datatype = Some(text),
            b'n' => self.constraint = Some(text),
            _ => {}
        }
    }

    /// Whether the server ends the session after it.
    pub fn is_fatal(&self) -> bool
        ensures { IsTrue result ↔ (self.now.severity ≡ FATAL_BYTES) }
    {
        self.severity.as_str() == "FATAL"
    }
}

// The severity and the SQLSTATE.
#[tactic(auto, unfolding(crate::specs::Infos::grade_of))]
fn grade(error: &PgWireError) -> (&str, &str)
    ensures severity { result.0.now ≡ (grade_of error.now).0 }
    ensures code { result.1.now ≡ (grade_of error.now).1 }
{
    match error {
        PgWireError::UnsupportedProtocolVersion(..)
        | PgWireError::InvalidCancelRequest
        | PgWireError::InvalidSecretKey
        | PgWireError::InvalidMessageType(..)
        | PgWireError::MessageTooLarge(..)
        | PgWireError::InvalidElementCount(..)
        | PgWireError::InvalidTargetType(..)
        | PgWireError::InvalidTransactionStatus(..)
        | PgWireError::InvalidSSLRequestMessage
        | PgWireError::InvalidGssEncRequestMessage
        | PgWireError::InvalidStartupMessage
        | PgWireError::InvalidAuthenticationMessageCode(..)
        | PgWireError::UnsupportedSASLAuthMethod(..)
        | PgWireError::InvalidScramMessage(..)
        | PgWireError::NotReadyForQuery
        | PgWireError::InvalidOauthMessage(..)
        | PgWireError::OAuthAuthenticationFailed(..)
        | PgWireError::OAuthValidationError(..)
        | PgWireError::InvalidMessageBody => ("FATAL", "08P01"),
        PgWireError::FailedToCoercePasswordMessage
        | PgWireError::InvalidSASLState
        | PgWireError::SaltRequired
        | PgWireError::PidsExhausted
        | PgWireError::RegistryExhausted => ("FATAL", "XX000"),
        PgWireError::IoError => ("FATAL", "58030"),
        PgWireError::InvalidPassword(..) => ("FATAL", "28P01"),
        PgWireError::UserNameRequired => ("FATAL", "28000"),
        PgWireError::OauthAuthzIdError(..) => ("FATAL", "0A000"),
        PgWireError::OutOfMemory => ("FATAL", "53200"),
        PgWireError::PortalNotFound(..) | PgWireError::StatementNotFound(..) => ("ERROR", "26000"),
        PgWireError::PortalNotStarted | PgWireError::ApiError(..) => ("ERROR", "XX000"),
        PgWireError::ParameterIndexOutOfBound(..)
        | PgWireError::InvalidRustTypeForParameter(..)
        | PgWireError::InvalidOptionValue(..) => ("ERROR", "22023"),
        PgWireError::FailedToParseParameter(..) => ("ERROR", "22P02"),
        PgWireError::QueryCanceled => ("ERROR", "57014"),
        PgWireError::UserError(held) => {
            let info = held.as_ref();
            (info.severity.as_str(), info.code.as_str())
        }
    }
}

// What is said of an error that no user made.
fn plain_error(alloc: Global, error: &PgWireError) -> Result<ErrorInfo, OutOfMemory>
    ensures { IfOk result (λ info. info ≡ plain_info (grade_of error.now).0 (grade_of error.now).1
        info.message) }
{
    let (severity, code) = grade(error);
    let message = Text::from_string(format!(in alloc; "{error}")?);
    Ok(ErrorInfo::new(
        Text::from_str(alloc, severity)?,
        Text::from_str(alloc, code)?,
        message,
    ))
}

// A line in decimal.
fn line_text(alloc: Global, line: Option<usize>) -> Result<Option<Text>, OutOfMemory>
    ensures { IfOk result (λ text. text ≡ option_map decimal line) }
{
    match line {
        Some(number) => Ok(Some(Text::from_string(format!(in alloc; "{number}")?))),
        None => Ok(None),
    }
}

fn line_in(text: &Text) -> usize
    ensures { result ≡ source_line text.now }
{
    text.as_str().parse::<usize>().unwrap_or(0)
}

// The parts that are set.
#[tactic(auto, using(crate::proofs::InfoLaws::filter_map_push))]
fn set_fields(
    alloc: Global,
    parts: Vec<(u8, Option<Text>)>,
) -> Result<Listed<(u8, Text)>, OutOfMemory>
    ensures { IfOk result (λ fields. fields ≡ filter_map info_field parts.items) }
{
    let mut fields = Listed::new(alloc);
    for (code, text) in parts {
        match text {
            Some(text) => fields.push((code, text))?,
            None => {}
        }
    }
    Ok(fields)
}

impl fmt::Display for ErrorInfo {
    fn fmt<W: fmt::Write>(&self, f: &mut fmt::Formatter<W>) -> Result<(), fmt::Error> {
        write!(
            f,
            "ErrorInfo: {}, {}, {}",
            self.severity.as_str(),
            self.code.as_str(),
            self.message.as_str()
        )
    }
}

impl Duplicate for ErrorInfo {
    fn duplicate(&self) -> Result<ErrorInfo, OutOfMemory> {
        let mut copy = ErrorInfo::new(
            self.severity.duplicate()?,
            self.code.duplicate()?,
            self.message.duplicate()?,
        );
        copy.line = self.line;
        copy.detail = self.detail.duplicate()?;
        copy.hint = self.hint.duplicate()?;
        copy.position = self.position.duplicate()?;
        copy.internal_position = self.internal_position.duplicate()?;
        copy.internal_query = self.internal_query.duplicate()?;
        copy.where_context = self.where_context.duplicate()?;
        copy.file_name = self.file_name.duplicate()?;
        copy.routine = self.routine.duplicate()?;
        copy.severity_nonlocalized = self.severity_nonlocalized.duplicate()?;
        copy.schema = self.schema.duplicate()?;
        copy.table = self.table.duplicate()?;
        copy.column = self.column.duplicate()?;
        copy.datatype = self.datatype.duplicate()?;
        copy.constraint = self.constraint.duplicate()?;
        Ok(copy)
    }
}
