//! The meter.

ghost use Rattle.std.specs.Prelude.{◌≡◌, ◌+◌, true, false};
ghost use Rattle.work_meter.specs.Work.{is_out, capped, HasWork, IsSpent, IsWithin};

/// The units of work that were spent, and how many may be. A count stays at `2^64 - 1` once it is there.
#[derive(Clone, Copy, PartialEq, Eq)]
pub struct Meter {
    pub spent: u64,
    pub limit: Option<u64>,
}

impl Meter {
    /// Whether all units are spent.
    pub fn is_out(&self) -> bool
        ensures value { result ≡ is_out self.now }
        ensures yes { result ≡ true → IsSpent self.now }
        ensures work { result ≡ false → IsWithin self.now.spent self.now.limit → HasWork self.now }
    {
        match self.limit {
            Some(limit) => self.spent == limit,
            None => false,
        }
    }

    /// Spends a unit.
    pub fn spend(&mut self)
        ensures spent { self.new.spent ≡ capped (self.old.spent + 1) }
        ensures limit { self.new.limit ≡ self.old.limit }
        ensures within { HasWork self.old → IsWithin self.new.spent self.new.limit }
    {
        self.spent = self.spent.saturating_add(1);
    }
}
