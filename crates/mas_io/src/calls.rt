//! Calls that fail by number.

ghost use Rattle.std.specs.Prelude.{◌≡◌, ◌≤◌};
ghost use Rattle.mas_io.specs.Calls.{called, is_refused, no_calls};

use asl_term::syntax::Numbers;

/// The numbers of the calls that are refused, how many calls were made, and how many of them failed.
#[derive(Drop)]
pub struct Calls {
    fail: Numbers,
    made: u64,
    faults: u64,
}

impl Calls {
    /// No call was made yet. Those are to be refused whose numbers, from 1, stand in `fail`.
    pub fn new(fail: Numbers) -> Calls
        ensures { result ≡ no_calls fail }
    {
        Calls {
            fail,
            made: 0,
            faults: 0,
        }
    }

    /// Whether the next call is to be refused. Asking is no call.
    pub fn is_refused(&self) -> bool
        ensures { result ≡ is_refused self.now }
    {
        self.fail.as_slice().contains(&self.made.saturating_add(1))
    }

    /// Counts one more call, and where it failed one more fault. A call that ends for want of
    /// memory is not counted.
    pub fn call(&mut self, failed: bool)
        ensures after { self.new ≡ called self.old failed }
        ensures later { self.old.faults ≤ self.new.faults }
    {
        self.made = self.made.saturating_add(1);
        if failed {
            self.faults = self.faults.saturating_add(1);
        }
    }
}
