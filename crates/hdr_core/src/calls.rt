/// Counts the calls of an object in memory, and knows which of them fail.
#[derive(Drop)]
pub struct Calls {
    failing: Vec<u32>,
    made: u32,
    failed: u64,
}

impl Calls {
    ghost use Rattle.std.specs.Prelude.{◌≡◌, ◌≤◌, ◌<◌, ◌^◌, true, false, IsTrue, ◌↔◌};
    ghost use Rattle.hdr_core.specs.Causes.{Rose};
    ghost use Rattle.hdr_core.specs.Calls.{calls_made, failing_calls, calls_failed, FailsNext};
    ghost use Rattle.hdr_core.specs.Calls.{CountsCall};

    /// No call was made yet. Takes no memory.
    pub fn of(failing: Vec<u32>) -> Calls
        ensures made { calls_made result ≡ 0 }
        ensures failing { failing_calls result ≡ failing.items }
        ensures failed { calls_failed result ≡ 0 }
    {
        Calls {
            failing,
            made: 0,
            failed: 0,
        }
    }

    /// How many calls were made.
    pub fn made(&self) -> u32
        ensures { result ≡ calls_made self.now }
    {
        self.made
    }

    /// Counts one more call, and says whether it fails.
    pub(crate) fn fails_next(&mut self) -> bool
        ensures fails { IsTrue result ↔ FailsNext self.old }
        ensures counted { CountsCall self.old self.new }
        ensures rose { result ≡ true → Rose (calls_failed self.old) (calls_failed self.new) }
        ensures kept { result ≡ false → calls_failed self.new ≡ calls_failed self.old }
        ensures later { calls_failed self.old ≤ calls_failed self.new }
        ensures bounded { calls_failed self.new < 2 ^ 64 }
    {
        let fails = self.failing.contains(&self.made);
        self.made = self.made.saturating_add(1);
        let failed = self.failed;
        if fails {
            self.failed = failed.saturating_add(1);
        }
        fails
    }
}
