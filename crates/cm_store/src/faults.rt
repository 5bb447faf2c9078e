//! Failures at listed calls.

ghost use Rattle.std.specs.Prelude.{◌≡◌, ◌+◌, ◌-◌, ◌^◌, ◌≤◌, ◌↔◌, IsTrue, Contains, min, if◌then◌else◌};

use crate::lists::Calls;

/// Which calls fail, how many there were, and how many of those failed.
#[derive(Debug, Drop)]
pub struct Failures {
    pub fail: Calls,
    pub calls: u64,
    pub faults: u64,
}

impl Failures {
    pub fn new(fail: Calls) -> Failures
        ensures fail { result.fail ≡ fail }
        ensures calls { result.calls ≡ 0 }
        ensures faults { result.faults ≡ 0 }
    {
        Failures {
            fail,
            calls: 0,
            faults: 0,
        }
    }

    /// Counts a call, and tells whether it fails.
    pub fn next_fails(&mut self) -> bool
        ensures listed { IsTrue result ↔ Contains self.old.fail self.old.calls }
        ensures later { self.old.faults ≤ self.new.faults }
        ensures calls { self.new.calls ≡ min (self.old.calls + 1) (2 ^ 64 - 1) }
        ensures same_list { self.new.fail ≡ self.old.fail }
        ensures faults { self.new.faults ≡ (if result then min (self.old.faults + 1) (2 ^ 64 - 1) else self.old.faults) }
    {
        let fails = self.fail.as_slice().contains(&self.calls);
        self.calls = self.calls.saturating_add(1);
        if fails {
            self.faults = self.faults.saturating_add(1);
        }
        fails
    }
}
