//! Calls that are to fail, by their numbers.

ghost use Rattle.std.specs.{Prelude.{◌≡◌, ◌==◌}, List.{list_any}};
ghost use Rattle.outer_edge.specs.{Counts.{next_count}, Device.{next_fails}};

/// Calls with the numbers from 1 on, up to `2^64 - 1`, of which those in a list are to fail.
#[derive(Drop)]
pub(crate) struct Calls {
    pub(crate) fail: Vec<u64>,
    pub(crate) made: u64,
}

impl Calls {
    /// Numbers a call, and answers whether it is to fail.
    pub(crate) fn next_fails(&mut self) -> bool
        ensures fails { result ≡ next_fails self.old.fail.items self.old.made }
        ensures made { self.new.made ≡ next_count self.old.made }
        ensures fail { self.new.fail ≡ self.old.fail }
    {
        self.made = self.made.saturating_add(1);
        stands_in(self.fail.as_slice(), self.made)
    }
}

/// Whether a call of this number is among those that are to fail.
fn stands_in(numbers: &[u64], number: u64) -> bool
    ensures { result ≡ list_any (λ each. each == number) numbers.now }
{
    numbers.iter().any(|each| *each == number)
}
