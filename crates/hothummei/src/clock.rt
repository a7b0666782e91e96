//! The system's clock.

use pgw_prog_commands::notes::Clock;
use std::time::{Duration, Instant};

/// The time since a moment that the system's clock told; no time where it tells none.
#[derive(Drop)]
pub struct SystemClock<'a> {
    rt: &'a HostRuntime,
    began: Option<Instant>,
}

impl<'a> SystemClock<'a> {
    pub fn new(rt: &'a HostRuntime) -> SystemClock<'a> {
        SystemClock {
            rt,
            began: Instant::now(rt).ok(),
        }
    }
}

impl<'a> Clock for SystemClock<'a> {
    fn now(&mut self) -> Duration {
        match self.began {
            Some(began) => began.elapsed(self.rt).unwrap_or(Duration::ZERO),
            None => Duration::ZERO,
        }
    }
}
