//! What the words of a command line ask for: a run over files, or a sample.

use cm_text::Layout;
use tree_core::{Name, Names};

/// What the words of a command line ask for.
#[derive(Drop)]
pub struct Invocation {
    /// The file of the script.
    pub script: Name,
    /// The files and folders, one or more, in the order of the words.
    pub files: Names,
    /// No file is replaced.
    pub dry: bool,
    /// The new texts are printed.
    pub print: bool,
    /// The steps that the script may take for each file, from 1 to 1,000,000,000,000.
    pub fuel: u64,
    /// The extensions of the files that are taken from folders, without their dots; none is empty.
    pub extensions: Names,
    /// A file with an error shows in the status of the program.
    pub fail_on_error: bool,
    /// The layout of made text. Its tabs are 1 to 16 columns wide.
    pub layout: Layout,
}

/// What the words of a command line are.
#[derive(Drop)]
pub enum Request {
    /// A script is run over files and folders.
    Run(Invocation),
    /// A sample of so many functions is run, 1 to 20,000.
    Sample { count: u32 },
}
