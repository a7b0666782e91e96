//! What faults are called for people.
ghost use Rattle.std.specs.Prelude.{Some, codes};

use crate::dialer::DialError;
use crate::link::LinkFault;
use crate::stream::{SinkFault, SourceFault};
use std::error::Error;
use std::fmt;

impl fmt::Display for LinkFault {
    ghost output = { λ _. Some (codes "a call of the connection failed") };

    fn fmt<W: fmt::Write>(&self, f: &mut fmt::Formatter<W>) -> fmt::Result {
        f.write_str("a call of the connection failed")
    }
}

impl Error for LinkFault {}

impl fmt::Display for SourceFault {
    ghost output = { λ _. Some (codes "a read failed") };

    fn fmt<W: fmt::Write>(&self, f: &mut fmt::Formatter<W>) -> fmt::Result {
        f.write_str("a read failed")
    }
}

impl Error for SourceFault {}

impl fmt::Display for SinkFault {
    ghost output = { λ _. Some (codes "a write failed") };

    fn fmt<W: fmt::Write>(&self, f: &mut fmt::Formatter<W>) -> fmt::Result {
        f.write_str("a write failed")
    }
}

impl Error for SinkFault {}

impl fmt::Display for DialError {
    fn fmt<W: fmt::Write>(&self, f: &mut fmt::Formatter<W>) -> fmt::Result {
        match self {
            DialError::Fault => f.write_str("no connection was made"),
            DialError::OutOfMemory => f.write_str("out of memory"),
        }
    }
}

impl Error for DialError {}
