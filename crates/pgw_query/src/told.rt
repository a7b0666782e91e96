//! Errors and notices as people read them: severity, SQLSTATE and message, and a line each for a
//! detail and a hint.

use crate::response::{ErrorResponse, NoticeResponse};
use pgw_types::text::Text;
use std::fmt;

// The text of the first field with this code, or an empty one.
fn text_of<'a>(fields: &'a [(u8, Text)], code: u8) -> &'a str {
    for field in fields {
        if field.0 == code {
            return field.1.as_str();
        }
    }
    ""
}

fn write_line<W: fmt::Write>(
    f: &mut fmt::Formatter<W>,
    word: &str,
    fields: &[(u8, Text)],
    code: u8,
) -> fmt::Result {
    let text = text_of(fields, code);
    if text.is_empty() {
        return Ok(());
    }
    f.write_str("\n")?;
    f.write_str(word)?;
    f.write_str(text)
}

fn write_fields<W: fmt::Write>(f: &mut fmt::Formatter<W>, fields: &[(u8, Text)]) -> fmt::Result {
    let severity = text_of(fields, b'S');
    let code = text_of(fields, b'C');
    let message = text_of(fields, b'M');
    if severity.is_empty() && code.is_empty() && message.is_empty() {
        return f.write_str("the server gave no reason");
    }
    write!(f, "{severity} {code}: {message}")?;
    write_line(f, "DETAIL: ", fields, b'D')?;
    write_line(f, "HINT: ", fields, b'H')
}

impl fmt::Display for ErrorResponse {
    fn fmt<W: fmt::Write>(&self, f: &mut fmt::Formatter<W>) -> fmt::Result {
        write_fields(f, self.fields.as_slice())
    }
}

impl fmt::Display for NoticeResponse {
    fn fmt<W: fmt::Write>(&self, f: &mut fmt::Formatter<W>) -> fmt::Result {
        write_fields(f, self.fields.as_slice())
    }
}
