ghost use Rattle.std.specs.Prelude.{◌≡◌, ℕ, ◌<◌, ◌≤◌, ◌^◌, ◌||◌, slice_index};
ghost use Rattle.outside.specs.Memory.{Counts, no_calls, is_planned, after_call};

use std::marker::Model;

/// Which calls are to fail, by their numbers from 1, with the number of calls and of faults so far.
#[derive(Drop)]
pub(crate) struct Plan {
    failing: Vec<u64>,
    calls: u64,
    faults: u64,
}

impl Model for Plan {
    ghost Value = { Counts };

    ghost view = { λ p. record { failing = p.failing.items; calls = p.calls; faults = p.faults } };

    ghost invariant = { λ p. (k : ℕ) → slice_index p.failing.items k < 2 ^ 64 };
}

impl Plan {
    /// A plan before the first call.
    pub(crate) fn new(failing: Vec<u64>) -> Self
        ensures { result ≡ no_calls failing.items }
    {
        Plan {
            failing,
            calls: 0,
            faults: 0,
        }
    }

    /// Whether the next call is one that is to fail.
    fn is_next(&self) -> bool
        ensures { result ≡ is_planned self.now }
    {
        match self.calls.checked_add(1) {
            Some(number) => self.failing.contains(&number),
            None => false,
        }
    }

    /// Counts a call, which is a fault where the plan or `refused` says so, and gives whether it is
    /// one.
    pub(crate) fn fails(&mut self, refused: bool) -> bool
        ensures fault { result ≡ (is_planned self.old || refused) }
        ensures counts { self.new ≡ after_call self.old result }
        ensures later { self.old.faults ≤ self.new.faults }
    {
        let fault = self.is_next() || refused;
        self.calls = self.calls.saturating_add(1);
        if fault {
            self.faults = self.faults.saturating_add(1);
        }
        fault
    }
}
