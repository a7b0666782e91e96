//! What people are told of an error of a client. No clause speaks of these texts.

use pgw_backend::client_error::PgWireClientError;
use std::alloc::{AllocError, Global};
use std::fmt::Write;

fn text_of(alloc: Global, error: &PgWireClientError) -> Result<String, AllocError> {
    let text = format!(in alloc; "{error}\n")?;
    let mut plain = String::new(alloc);
    for c in text.as_str().chars() {
        if c.is_control() && c != '\n' {
            write!(plain, "{}", c.escape_default())?;
        } else {
            plain.push(c)?;
        }
    }
    Ok(plain)
}

/// What people are told of an error.
pub fn told_of_error(alloc: Global, error: &PgWireClientError) -> String {
    match text_of(alloc, error) {
        Ok(text) => text,
        Err(_) => String::new(alloc),
    }
}
