//! What a run over files has in hand from its start to its end.

use crate::engine::Engine;
use command_words::Invocation;

/// The script that is run, and what the words ask for beside it.
#[derive(Drop)]
pub struct Job<'a, E: Engine> {
    pub engine: &'a E,
    pub command: &'a Invocation,
}
