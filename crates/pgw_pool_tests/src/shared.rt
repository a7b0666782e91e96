//! Tests of a pool that threads share.

mod many;
mod order;
mod places;
mod servers;
