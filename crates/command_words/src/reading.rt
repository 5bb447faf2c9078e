//! The words as a request.

ghost use Rattle.std.specs.Prelude.{◌≡◌, ◌≢◌, IfOk, IfSome, None, map, string_bytes};
ghost use Rattle.clap.specs.Words.{found_of, kind_of, rows_of};
ghost use Rattle.command_words.specs.Invocations as spec;
ghost use Rattle.command_words.specs.Requests.{request_of, HasRanges};

use crate::invocation::{Invocation, Request};
use crate::options::{all, extensions, first, fuel, is_set, layout};
use crate::sample::{is_sample, sample};
use crate::shape::command;
use crate::values::{name, names};
use clap::error::ErrorKind;
use clap::{ArgMatches, Error};
use std::alloc::{AllocError, Global};

#[tactic(auto, unfolding(crate::specs::Invocations::invocation_in))]
fn invocation_in(alloc: Global, matches: &ArgMatches) -> Result<Option<Invocation>, AllocError>
    ensures { IfOk result (λ made. made ≡ spec.invocation_in (rows_of (found_of matches.now))) }
{
    let Some(script) = first(matches, "transform") else {
        return Ok(None);
    };
    let Some(files) = all(matches, "files") else {
        return Ok(None);
    };
    let Some(fuel) = fuel(matches) else {
        return Ok(None);
    };
    let Some(extensions) = extensions(alloc, matches)? else {
        return Ok(None);
    };
    let Some(layout) = layout(matches) else {
        return Ok(None);
    };
    let script = name(alloc, script)?;
    let files = names(alloc, files)?;
    Ok(Some(Invocation {
        script,
        files,
        dry: is_set(matches, "dry"),
        print: is_set(matches, "print"),
        fuel,
        extensions,
        fail_on_error: is_set(matches, "fail-on-error"),
        layout,
    }))
}

fn refused(error: Error) -> Result<Option<Invocation>, AllocError>
    ensures { IfOk result (λ made. (made ≡ None) × (kind_of error ≢ ErrorKind.OutOfMemory)) }
{
    match error.kind() {
        ErrorKind::OutOfMemory => Err(AllocError),
        _ => Ok(None),
    }
}

// What the words ask for, as `clap` reads them.
fn read_invocation(alloc: Global, words: &[String]) -> Result<Option<Invocation>, AllocError>
    ensures value { IfOk result (λ made. made ≡ spec.invocation_of (map string_bytes words.now)) }
    ensures ranges { IfOk result (λ made. IfSome made spec.IsInRanges) }
{
    let command = command(alloc)?;
    match command.try_get_matches_from(words) {
        Ok(matches) => invocation_in(alloc, &matches),
        Err(error) => refused(error),
    }
}

/// What the words after the program's name ask for. `None` says that they are not those of the
/// command.
pub fn read_words(alloc: Global, words: &[String]) -> Result<Option<Request>, AllocError>
    ensures value { IfOk result (λ made. made ≡ request_of (map string_bytes words.now)) }
    ensures ranges { IfOk result (λ made. IfSome made HasRanges) }
{
    if is_sample(words) {
        return Ok(sample(words));
    }
    match read_invocation(alloc, words)? {
        Some(invocation) => Ok(Some(Request::Run(invocation))),
        None => Ok(None),
    }
}
