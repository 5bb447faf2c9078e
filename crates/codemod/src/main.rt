//! The program: runs the command of its words over the files below the folder that it is run in,
//! and ends with the status of that run.
#![tactic(auto)]

use cm_store::{FileStore, OutSink};
use codemod_cmd::{Status, run};
use std::alloc::AllocError;
use std::env;
use std::io::{self, ErrorKind};
use std::process::ExitCode;

// The words behind the program's name. Where one is not UTF-8 there are none, which are the words
// of no command.
fn words(rt: &HostRuntime) -> Result<Vec<String>, AllocError> {
    match env::args(rt) {
        Ok(args) => args.skip(1).collect(rt.alloc()),
        Err(error) if error.kind() == ErrorKind::OutOfMemory => Err(AllocError),
        Err(_) => Ok(Vec::new(rt.alloc())),
    }
}

fn main(rt: HostRuntime) -> ExitCode {
    let Ok(words) = words(&rt) else {
        return ExitCode::from(Status::NoMemory.number());
    };
    let mut store = FileStore::new(&rt);
    let mut out = OutSink::new(io::writer(&rt));
    let status = run(rt.alloc(), &words, &mut store, &mut out);
    ExitCode::from(status.number())
}
