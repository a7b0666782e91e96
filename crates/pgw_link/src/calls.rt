//! Calls that are to fail.
ghost use Rattle.std.specs.Prelude.{◌≡◌, ◌≤◌, ◌==◌, nat_lt, if◌then◌else◌};
ghost use Rattle.std.specs.List.{list_any};
ghost use Rattle.pgw_types.specs.Counts.{next_count};
ghost use Rattle.pgw_link.specs.Calls.{is_reached};

use pgw_types::listed::Listed;

/// Calls of one kind. Those with the listed numbers, counted from 1, are to fail.
#[derive(Drop)]
pub struct Calls {
    numbers: Listed<u64>,
    made: u64,
    failed: u64,
    ghost account: { nat_lt 0 failed ≡ is_reached numbers made },
}

impl Calls {
    pub fn new(numbers: Listed<u64>) -> Calls
        ensures numbers { result.numbers ≡ numbers }
        ensures made { result.made ≡ 0 }
        ensures failed { result.failed ≡ 0 }
    {
        Calls {
            numbers,
            made: 0,
            failed: 0,
        }
    }

    /// Counts a call, and says whether it is to fail.
    pub fn is_failing(&mut self) -> bool
        ensures fails { result ≡ list_any (λ n. n == self.new.made) self.old.numbers }
        ensures made { self.new.made ≡ next_count self.old.made }
        ensures failed { self.new.failed ≡ (if result then next_count self.old.failed
            else self.old.failed) }
        ensures later { self.old.failed ≤ self.new.failed }
        ensures kept { self.new.numbers ≡ self.old.numbers }
    {
        self.made = self.made.saturating_add(1);
        let fails = self.numbers.as_slice().contains(&self.made);
        if fails {
            self.failed = self.failed.saturating_add(1);
        }
        fails
    }

    /// Whether a call has failed.
    pub fn have_failed(&self) -> bool
        ensures { result ≡ nat_lt 0 self.now.failed }
    {
        self.failed > 0
    }
}
