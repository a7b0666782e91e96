//! Tests of asking one request, and of looking up columns.

mod asking;
mod columns;
