//! The registry on the heap.

use crate::registry::Registry;
use pgw_types::memory::OutOfMemory;
use std::alloc::Global;
use std::marker::Model;

/// The registry on the heap, so that who takes the turn moves a pointer. A contract sees the registry.
#[derive(Drop)]
pub(crate) struct Held {
    pub(crate) registry: Box<Registry>,
}

impl Model for Held {
    ghost use Rattle.pgw_registry.specs.Sequential.{Book};
    ghost use Rattle.pgw_registry.specs.BookCode.{book_code};

    ghost Value = { Book };

    ghost coded = { book_code };

    ghost view = { λ h. h.registry.value };
}

impl Held {
    ghost use Rattle.std.specs.Prelude.{◌≡◌, IfOk};
    ghost use Rattle.pgw_registry.specs.Sequential.{nothing};

    pub(crate) fn new(alloc: Global) -> Result<Held, OutOfMemory>
        ensures { IfOk result (λ h. h ≡ nothing) }
    {
        let registry = Box::new(alloc, Registry::new(alloc))?;
        Ok(Held { registry })
    }
}
