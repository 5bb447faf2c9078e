//! The words of the command line, read as one simple command of `clap`, and those of sample mode.
//!
//! This is where the way of the data begins: words in, a request out. The top call reads the
//! script and the files that it names.
#![tactic(auto)]

mod invocation;
mod options;
mod reading;
mod sample;
mod shape;
mod values;

pub use invocation::{Invocation, Request};
pub use reading::read_words;

/// What is printed where the words are not those of the command.
pub const USAGE: &str =
    "usage: codemod -t SCRIPT [-d] [-p] [--fuel N] [--extensions LIST] [--fail-on-error] [--tab-width N] [--use-tabs] [--quote Q] [--trailing-comma] [--no-curly-spacing] [--arrow-parens] FILE...\n";
