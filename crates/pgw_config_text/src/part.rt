//! The parts of a connection text.
ghost use Rattle.std.specs.Prelude.{◌≡◌, [], IfOk};
ghost use Rattle.pgw_config_text.specs.Part.{up_to_fault, next_cut};

use pgw_types::listed::Listed;
use pgw_types::memory::OutOfMemory;
use pgw_types::octets::Octets;
use pgw_types::text::Text;
use std::alloc::Global;

/// A part of a connection text.
#[derive(Drop)]
pub enum Part {
    /// A key and its value.
    Pair(Text, Text),
    /// One host, whatever commas it has.
    Host(Text),
    /// A password in any bytes.
    Password(Octets),
}

/// A fault of form in a connection text.
#[derive(Drop)]
pub enum Fault {
    /// Something that is no pair.
    Syntax,
    /// A host in brackets that no bracket closes, or that something other than a port follows.
    Host,
    /// Escapes that stand for these bytes, which are not UTF-8.
    NotUtf8(Octets),
}

/// The parts of a connection text up to its end, or up to the first fault of form.
#[derive(Drop)]
pub struct Cut {
    pub parts: Listed<Part>,
    pub fault: Option<Fault>,
}

impl Cut {
    pub(crate) fn new(alloc: Global) -> Cut
        ensures { result ≡ up_to_fault [] }
    {
        Cut {
            parts: Listed::new(alloc),
            fault: None,
        }
    }

    /// Goes on with a part, or ends at a fault. Behind a fault nothing is added.
    pub(crate) fn next(mut self, part: Result<Part, Fault>) -> Result<Cut, OutOfMemory>
        ensures { IfOk result (λ cut. cut ≡ next_cut self part) }
    {
        if self.fault.is_some() {
            return Ok(self);
        }
        match part {
            Ok(part) => self.parts.push(part)?,
            Err(fault) => self.fault = Some(fault),
        }
        Ok(self)
    }
}
