//! The rename of a whole source.

ghost use Rattle.std.specs.Prelude.{◌≡◌, ◌<◌, ◌↔◌, ℕ, List, IfOk, IsErrOf};
ghost use Rattle.js_tokens.specs.Words.{word_of};
ghost use Rattle.tree_core.specs.View.{syntax};
ghost use Rattle.first_rename.specs.Names.{count_of};
ghost use Rattle.source_rename.specs.Edits.{patched};
ghost use Rattle.source_rename.specs.Whole.{all_edits};
ghost use Rattle.source_rename.specs.Whole as spec;
ghost use Rattle.source_rename.specs.Methods.{bad_method};

use crate::edits::{Search, edits};
use crate::exports::end_exports;
use crate::fault::RenameError;
use crate::methods::{Names, bad_method};
use crate::patch::patch;
use cm_text::Source;
use first_rename::count;
use js_tokens::Word;
use sqlite_items::Items;
use std::alloc::{AllocError, Global};
use tree_core::{Address, Parsed, Tree};

/// The most identifiers that are renamed in one source.
pub const MAX_NAMES: u64 = 1_000_000;

/// The source's text with each identifier named `old` named `new`: property names, labels and the
/// names of imports and exports among them, and a name that is spelled once for two nodes once.
///
/// What stands between them is taken from the source by its stretches. `new` is to be a plain name.
pub fn rename(
    alloc: Global,
    source: &Source,
    parsed: &Parsed,
    old: &[u8],
    new: &[u8],
) -> Result<Vec<u8>, RenameError>
    // Exactly where more than 1,000,000 identifiers have the name.
    ensures list_long { IsErrOf result RenameError.ListLong ↔ (MAX_NAMES < count_of old.now (syntax parsed.now.tree)) }

    // Only at the first method that the rename makes a constructor, or no longer one.
    ensures bad_method { (address : List ℕ) → IsErrOf result (RenameError.BadMethod address) → bad_method old.now new.now (syntax parsed.now.tree) ≡ Some address }

    // A text comes only where there is no such method.
    ensures no_bad_method { IfOk result (λ _. bad_method old.now new.now (syntax parsed.now.tree) ≡ None) }

    // It is the source, with `new` in the place of each identifier named `old`: in parentheses or
    // before a `;` where `new` is a word that would be read as something else there.
    ensures text { IfOk result (λ out. out.items ≡ patched source.now new.now 0 (all_edits source.now parsed.now.spans old.now (word_of new.now) (syntax parsed.now.tree))) }
{
    if count(&parsed.tree, old) > MAX_NAMES {
        return Err(RenameError::ListLong);
    }
    if let Some(steps) = bad_method(alloc, &Names { old, new }, &parsed.tree)? {
        return Err(RenameError::BadMethod(Address::new(Items::from_slice(alloc, &steps)?)));
    }
    let search = Search {
        source,
        spans: parsed.spans.as_slice(),
        old,
        word: Word::of(new),
    };
    Ok(text(alloc, &search, &parsed.tree, new)?)
}

// Whether it is `from`, which alone is told from other names behind an export.
fn is_from(word: Word) -> bool
    ensures { result ≡ spec.is_from word }
{
    match word {
        Word::From => true,
        _ => false,
    }
}

// The text with the edits made.
fn text(alloc: Global, search: &Search<'_>, tree: &Tree, new: &[u8]) -> Result<Vec<u8>, AllocError>
    ensures { IfOk result (λ out. out.items ≡ patched search.now.source.now new.now 0 (all_edits search.now.source.now search.now.spans.now search.now.old.now search.now.word (syntax tree.now))) }
{
    let found = edits(alloc, search, tree)?;
    if is_from(search.word) {
        let ended = end_exports(alloc, search, tree.slots.as_slice(), &found)?;
        return patch(alloc, search.source.bytes(), new, &ended);
    }
    patch(alloc, search.source.bytes(), new, &found)
}
