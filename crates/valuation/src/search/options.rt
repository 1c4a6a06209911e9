//! How the searches of a file go, and how many steps they may take.
ghost use Rattle.std.specs.Prelude.{◌≡◌, ◌-◌, ◌≤◌};
ghost use Rattle.valuation.specs.SearchLimits.{bounded_options, next_steps, options_after, plain_options};

use crate::search::budget::Budget;
use crate::search::kind::SearchKind;

/// How the searches of a file go, and how many steps they may take.
#[derive(Clone, Copy, PartialEq, Eq, Debug, Drop)]
pub struct SearchOptions {
    /// How each search goes.
    pub kind: SearchKind,
    /// How many steps one search may take.
    pub each: u64,
    /// How many steps all searches may take together, if that has a limit.
    pub total: Option<u64>,
}

impl SearchOptions {
    /// Plain searches, each of so many steps.
    pub fn plain(limit: u64) -> SearchOptions
        ensures { result ≡ plain_options limit }
    {
        SearchOptions {
            kind: SearchKind::Plain,
            each: limit,
            total: None,
        }
    }

    /// Bounded searches, each of so many steps, and all together of so many, if that has a limit.
    pub fn bounded(each: u64, total: Option<u64>) -> SearchOptions
        ensures { result ≡ bounded_options each total }
    {
        SearchOptions {
            kind: SearchKind::Bounded,
            each,
            total,
        }
    }

    /// The steps that the next search may take.
    pub(crate) fn next_budget(&self) -> Budget
        ensures { result ≡ next_steps self.now }
    {
        match self.total {
            Some(total) => Budget::new(total.min(self.each)),
            None => Budget::new(self.each),
        }
    }

    /// What is left for later searches once one has left so many steps of its budget.
    pub(crate) fn after(&self, budget: &Budget) -> SearchOptions
        requires { budget.now ≤ next_steps self.now }
        ensures { result ≡ options_after self.now (next_steps self.now - budget.now) }
    {
        let total = match self.total {
            Some(total) => Some(total - (total.min(self.each) - budget.left())),
            None => None,
        };
        SearchOptions {
            kind: self.kind,
            each: self.each,
            total,
        }
    }
}
