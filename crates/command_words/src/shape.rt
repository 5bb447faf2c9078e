//! The command as `clap` sees it.

ghost use Rattle.std.specs.Prelude.{◌≡◌, IfOk, codes, false};
ghost use Rattle.clap.specs.Words.{app_of, rule_of};
ghost use Rattle.command_words.specs.Shape as spec;

use clap::{Arg, ArgAction, Command};
use std::alloc::{AllocError, Global};

#[tactic(auto, unfolding(crate::specs::Shape::bare))]
fn bare<'a>(alloc: Global) -> Command<'a>
    ensures { app_of result ≡ spec.bare }
{
    Command::new(alloc, "codemod")
        .no_binary_name(true)
        .disable_help_flag(true)
}

fn script_option<'a>(alloc: Global) -> Arg<'a>
    ensures rule { rule_of result ≡ spec.script_rule (codes "transform") 116 }
    ensures local { result.global ≡ false }
{
    Arg::new(alloc, "transform")
        .long("transform")
        .action(ArgAction::Set)
        .short('t')
        .required(true)
}

#[tactic(auto, unfolding(crate::specs::Shape::with_script))]
fn with_script<'a>(alloc: Global, command: Command<'a>) -> Result<Command<'a>, AllocError>
    ensures { IfOk result (λ c. app_of c ≡ spec.with_script (app_of command.entry)) }
{
    let script = script_option(alloc);
    let command = command.arg(script)?;
    Ok(command)
}

#[tactic(auto, unfolding(crate::specs::Shape::with_files))]
fn with_files<'a>(alloc: Global, command: Command<'a>) -> Result<Command<'a>, AllocError>
    ensures { IfOk result (λ c. app_of c ≡ spec.with_files (app_of command.entry)) }
{
    let files = Arg::new(alloc, "files")
        .action(ArgAction::Append)
        .required(true);
    command.arg(files)
}

#[tactic(auto, unfolding(crate::specs::Shape::with_option))]
fn with_option<'a>(
    alloc: Global,
    word: &'a str,
    command: Command<'a>,
) -> Result<Command<'a>, AllocError>
    ensures { IfOk result (λ c. app_of c ≡ spec.with_option word.entry.now (app_of command.entry)) }
{
    let option = Arg::new(alloc, word).long(word).action(ArgAction::Set);
    command.arg(option)
}

#[tactic(auto, unfolding(crate::specs::Shape::with_flag))]
fn with_flag<'a>(
    alloc: Global,
    word: &'a str,
    command: Command<'a>,
) -> Result<Command<'a>, AllocError>
    ensures { IfOk result (λ c. app_of c ≡ spec.with_flag word.entry.now (app_of command.entry)) }
{
    let flag = Arg::new(alloc, word).long(word).action(ArgAction::SetTrue);
    command.arg(flag)
}

#[tactic(auto, unfolding(crate::specs::Shape::with_letter))]
fn with_letter<'a>(
    alloc: Global,
    word: &'a str,
    letter: char,
    command: Command<'a>,
) -> Result<Command<'a>, AllocError>
    ensures { IfOk result (λ c. app_of c ≡ spec.with_letter word.entry.now letter (app_of command.entry)) }
{
    let flag = Arg::new(alloc, word)
        .long(word)
        .action(ArgAction::SetTrue)
        .short(letter);
    command.arg(flag)
}

#[tactic(auto, unfolding(crate::specs::Shape::with_run_words))]
fn with_run_words<'a>(alloc: Global, command: Command<'a>) -> Result<Command<'a>, AllocError>
    ensures { IfOk result (λ c. app_of c ≡ spec.with_run_words (app_of command.entry)) }
{
    let command = with_script(alloc, command)?;
    let command = with_letter(alloc, "dry", 'd', command)?;
    let command = with_letter(alloc, "print", 'p', command)?;
    let command = with_option(alloc, "fuel", command)?;
    let command = with_option(alloc, "extensions", command)?;
    let command = with_flag(alloc, "fail-on-error", command)?;
    Ok(command)
}

#[tactic(auto, unfolding(crate::specs::Shape::with_layout_words))]
fn with_layout_words<'a>(alloc: Global, command: Command<'a>) -> Result<Command<'a>, AllocError>
    ensures { IfOk result (λ c. app_of c ≡ spec.with_layout_words (app_of command.entry)) }
{
    let command = with_option(alloc, "tab-width", command)?;
    let command = with_flag(alloc, "use-tabs", command)?;
    let command = with_option(alloc, "quote", command)?;
    let command = with_flag(alloc, "trailing-comma", command)?;
    let command = with_flag(alloc, "no-curly-spacing", command)?;
    let command = with_flag(alloc, "arrow-parens", command)?;
    Ok(command)
}

/// The command: its flags, its options and its files.
#[tactic(auto, unfolding(crate::specs::Shape::command))]
pub(crate) fn command<'a>(alloc: Global) -> Result<Command<'a>, AllocError>
    ensures { IfOk result (λ c. app_of c ≡ spec.command) }
{
    let command = with_run_words(alloc, bare(alloc))?;
    let command = with_layout_words(alloc, command)?;
    let command = with_files(alloc, command)?;
    Ok(command)
}
