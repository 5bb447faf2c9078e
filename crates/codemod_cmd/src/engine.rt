//! What makes a row of the bytes of a file.

ghost use Rattle.std.specs.Prelude.{◌≡◌, ℕ, List, IfOk};
ghost use Rattle.run_report.specs.declared.answer.RowAnswer.{RowAnswer};

use run_report::{RowAnswer, RowError};
use std::alloc::{AllocError, Global};

/// What a script comes to over the bytes of a file, and the text that it makes of them.
#[derive(Debug, Drop)]
pub struct Outcome {
    pub answer: RowAnswer,
    pub text: Vec<u8>,
}

impl Outcome {
    /// No text is made, for this reason.
    pub fn error(alloc: Global, error: RowError) -> Outcome
        ensures { result.answer ≡ RowAnswer.Error error }
    {
        Outcome {
            answer: RowAnswer::Error(error),
            text: Vec::new(alloc),
        }
    }
}

/// A script that can be run over files.
pub trait Engine {
    /// Of these bytes it may say this, with this text.
    ghost says: { Self → List ℕ → RowAnswer → List ℕ → Type 0 };

    /// Runs the script over the bytes of the file of this name.
    fn answer(&self, alloc: Global, name: &str, bytes: Vec<u8>) -> Result<Outcome, AllocError>
        ensures { IfOk result (λ o. says self.now bytes.items o.answer o.text.items) };
}
