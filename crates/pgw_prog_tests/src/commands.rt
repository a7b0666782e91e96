//! Tests of the commands `check` and `query`.

mod check;
mod query;
mod report;
mod servers;
