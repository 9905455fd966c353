//! The count of runs.
ghost use Rattle.std.specs.Prelude.{◌≡◌, ◌+◌, ◌-◌, ◌^◌};
ghost use Rattle.sieve_run.specs.Meter.{next_run};

use std::marker::Model;

/// Counts runs of scripts. Only a run adds to it. At the greatest `u64` it stays.
#[derive(Drop)]
pub struct Meter {
    runs: u64,
}

impl Model for Meter {
    ghost use Rattle.std.specs.Prelude.{ℕ};

    ghost Value = { ℕ };

    ghost view = { λ a. a.runs };
}

impl Meter {
    /// Makes a meter that has counted no runs.
    pub fn new() -> Meter
        ensures { result ≡ 0 }
    {
        Meter { runs: 0 }
    }

    /// The number of runs that were counted.
    pub fn runs(&self) -> u64
        ensures { result ≡ self.now }
    {
        self.runs
    }

    /// Counts one run.
    pub(crate) fn count(&mut self)
        ensures { self.new ≡ next_run self.old }
    {
        let Meter { runs } = self;
        *runs = runs.saturating_add(1);
    }
}
