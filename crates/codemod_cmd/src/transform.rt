//! The forms of script that are understood: one renames, and one prints what it read.

ghost use Rattle.std.specs.Prelude.{◌↔◌, IsTrue, MatchOption};
ghost use Rattle.codemod_cmd.specs.Script.{IsPrinting, IsScript, IsNoScript};
ghost use Rattle.codemod_cmd.specs.Changes.{change_of};

use crate::script::{Renaming, after, is_end};

const PRINTING: &[u8] = b"module.exports = (file, api) => api.jscodeshift(file.source).toSource();";

/// What a script does to a source.
#[derive(Clone, Copy, Debug)]
pub enum Transform<'a> {
    /// The source is read and printed as it is.
    Print,
    Rename(Renaming<'a>),
}

#[tactic(auto, unfolding(crate::specs::Script::printing))]
// Whether the script prints what it read.
fn is_printing(script: &[u8]) -> bool
    ensures { IsTrue result ↔ IsPrinting script.now }
{
    match after(script, PRINTING) {
        Some(end) => is_end(end),
        None => false,
    }
}

impl<'a> Transform<'a> {
    /// What the script does, where it is of a form that is understood.
    pub fn from_script(script: &'a [u8]) -> Option<Transform<'a>>
        ensures { MatchOption result (IsNoScript script.now) (λ t. IsScript (change_of t) script.now) }
    {
        if is_printing(script) {
            return Some(Transform::Print);
        }
        match Renaming::from_script(script) {
            Some(renaming) => Some(Transform::Rename(renaming)),
            None => None,
        }
    }
}
