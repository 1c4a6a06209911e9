//! `Budget`: how many steps a search may make.
ghost use Rattle.std.specs.Prelude.{◌≡◌, ◌+◌, false, if◌then◌else◌};

use std::marker::Model;

/// Steps that a search may make, one for each packing that it enters. Contracts see a budget as the number of steps
/// that are left.
#[derive(Debug, Drop)]
pub struct Budget {
    left: u64,
}

impl Model for Budget {
    ghost use Rattle.std.specs.Prelude.{ℕ};

    ghost Value = { ℕ };

    ghost view = { λ budget. budget.left };
}

impl Budget {
    /// A budget of `limit` steps.
    pub fn new(limit: u64) -> Budget
        ensures { result ≡ limit }
    {
        Budget { left: limit }
    }

    /// How many steps are left.
    pub fn left(&self) -> u64
        ensures { result ≡ self.now }
    {
        self.left
    }

    /// Uses a step and answers true, if one is left.
    pub fn spend(&mut self) -> bool
        ensures left { self.old ≡ (if result then self.new + 1 else self.new) }
        ensures none { result ≡ false → self.old ≡ 0 }
    {
        if self.left == 0 {
            return false;
        }
        self.left -= 1;
        true
    }
}
