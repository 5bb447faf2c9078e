//! The script that gives each identifier of one name another name.

ghost use Rattle.std.specs.Prelude.{◌≡◌, ◌≢◌, ◌++◌, ◌↔◌, ℕ, List, length, IsTrue, MatchOption, take_while};
ghost use Rattle.first_grammar.specs.Words.{is_part};
ghost use Rattle.first_rename.specs.Names.{IsPlainName};
ghost use Rattle.codemod_cmd.specs.Script.{IsEnd, IsRenaming, IsNoRenaming};

use first_grammar::words::is_part;
use first_rename::is_plain_name;

const FRONT: &[u8] =
    b"module.exports = (file, api) => api.jscodeshift(file.source).find(api.jscodeshift.Identifier, { name: \"";

const MIDDLE: &[u8] = b"\" }).replaceWith(api.jscodeshift.identifier(\"";

const BACK: &[u8] = b"\")).toSource();";

/// What a script asks for: each identifier `old` gets the name `new`.
#[derive(Clone, Copy, Debug)]
pub struct Renaming<'a> {
    pub old: &'a [u8],
    pub new: &'a [u8],
    ghost lawful: { IsPlainName new.now },
}

/// What stands behind this front.
pub(crate) fn after<'a>(bytes: &'a [u8], front: &[u8]) -> Option<&'a [u8]>
    ensures { MatchOption result ((rest : List ℕ) → bytes.now ≢ front.now ++ rest) (λ rest. bytes.now ≡ front.now ++ rest.now) }
{
    bytes.strip_prefix(front)
}

// How many bytes stand before the first that no name has.
fn name_len(bytes: &[u8]) -> usize
    ensures { result ≡ length (take_while is_part bytes.now) }
{
    bytes.iter().take_while(|byte| is_part(**byte)).count()
}

// The bytes before the first that no name has, and the rest.
fn split_name(bytes: &[u8]) -> (&[u8], &[u8])
    ensures name { result.0.now ≡ take_while is_part bytes.now }
    ensures whole { bytes.now ≡ result.0.now ++ result.1.now }
{
    bytes.split_at(name_len(bytes))
}

/// Whether a script may end so.
pub(crate) fn is_end(bytes: &[u8]) -> bool
    ensures { IsTrue result ↔ IsEnd bytes.now }
{
    bytes.is_empty() || bytes == b"\n".as_slice()
}

// Whether the script has names and an end that it may have.
fn is_lawful(old: &[u8], new: &[u8], end: &[u8]) -> bool
    ensures { IsTrue result ↔ (IsPlainName old.now × IsPlainName new.now × IsEnd end.now) }
{
    is_plain_name(old) && is_plain_name(new) && is_end(end)
}

impl<'a> Renaming<'a> {
    /// What the script asks for, where it is of this form.
    pub fn from_script(script: &'a [u8]) -> Option<Renaming<'a>>
        ensures { MatchOption result (IsNoRenaming script.now) (λ r. IsRenaming r.old.now r.new.now script.now) }
    {
        let (old, rest) = split_name(after(script, FRONT)?);
        let (new, rest) = split_name(after(rest, MIDDLE)?);
        let end = after(rest, BACK)?;
        if is_lawful(old, new, end) {
            Some(Renaming { old, new })
        } else {
            None
        }
    }
}
