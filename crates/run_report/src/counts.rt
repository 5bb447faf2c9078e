//! How many rows of each kind there were.

ghost use Rattle.std.specs.Prelude.{◌≡◌, []};
ghost use Rattle.run_report.specs.Counting.{no_counts, counted};

use crate::answer::RowAnswer;

/// How many rows of each kind there were. A count has 64 bits: at its end it stays.
#[derive(Clone, Copy, Debug, PartialEq, Eq)]
pub struct Counts {
    pub errors: u64,
    pub unmodified: u64,
    pub skipped: u64,
    pub ok: u64,
}

impl Counts {
    /// The counts of no rows.
    pub fn new() -> Counts
        ensures { result ≡ no_counts }
    {
        Counts {
            errors: 0,
            unmodified: 0,
            skipped: 0,
            ok: 0,
        }
    }

    /// Counts one row more.
    pub fn add(&mut self, answer: &RowAnswer)
        ensures { self.new ≡ counted self.old answer.now }
    {
        match answer {
            RowAnswer::Ok => self.ok = self.ok.saturating_add(1),
            RowAnswer::Unmodified => self.unmodified = self.unmodified.saturating_add(1),
            RowAnswer::Skipped => self.skipped = self.skipped.saturating_add(1),
            RowAnswer::Error(_) => self.errors = self.errors.saturating_add(1),
        }
    }
}
