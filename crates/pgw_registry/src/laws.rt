//! What holds of every legal history.
ghost use Rattle.pgw_registry.specs.Laws.{FiredLaw};

/// A look answers fired only after a cancel on the query's handle, or by its number and key, with
/// no start on that handle between the query's start and that cancel.
pub fn fired_after_cancel()
    ensures { FiredLaw }
{}
