// Which calls of an object in memory fail.
ghost use Rattle.std.specs.Prelude.{◌≡◌};
ghost use Rattle.eh_outer.specs.Schedule.{next_fails, one_more};

/// The numbers of the calls that fail, counted from 1, and how many calls were made.
#[derive(Drop)]
pub struct Schedule {
    pub fails: Vec<u64>,
    pub calls: u64,
}

impl Schedule {
    pub fn new(fails: Vec<u64>) -> Self
        ensures { result ≡ record { fails = fails; calls = 0 } }
    {
        Schedule { fails, calls: 0 }
    }

    /// Counts a call, and says whether it fails.
    pub fn next_fails(&mut self) -> bool
        ensures fails { result ≡ next_fails self.old.fails.items self.old.calls }
        ensures counted { self.new ≡ record self.old { calls = one_more self.old.calls } }
    {
        self.calls = self.calls.saturating_add(1);
        let number = self.calls;
        self.fails.iter().any(|n| *n == number)
    }
}
