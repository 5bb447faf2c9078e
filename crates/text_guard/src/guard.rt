//! Whether a text reads back.

ghost use Rattle.std.specs.Prelude.{◌≡◌, ◌↔◌, IfOk, IsTrue};
ghost use Rattle.text_guard.specs.Plain.{plain};
ghost use Rattle.text_guard.specs.Readings.{ReadsBack, SameComments};
ghost use Rattle.tree_core.specs.View.{syntax};

use crate::nodes::same_nodes;
use crate::places::same_seats;
use cm_text::Source;
use comment_places::seats;
use js_lexer::Refusal;
use std::alloc::{AllocError, Global};
use tree_core::{Tree, same};
use tree_freeing::free_parsed;

// Whether the trees have the same nodes, and the same comments in the same order at the same places.
// Most trees share their comments out alike, so that no place needs to be looked for.
#[tactic(auto, using(crate::proofs::Bares::same_nodes_of_same))]
fn says_the_same(alloc: Global, read: &Tree, tree: &Tree) -> Result<bool, AllocError>
    ensures { IfOk result (λ yes. IsTrue yes ↔ ((plain (syntax read.now) ≡ plain (syntax tree.now)) × SameComments (syntax read.now) (syntax tree.now))) }
{
    if same(read, tree) {
        return Ok(true);
    }
    if !same_nodes(read, tree) {
        return Ok(false);
    }
    let found = seats(alloc, read)?;
    let wanted = seats(alloc, tree)?;
    Ok(same_seats(found.as_slice(), wanted.as_slice()))
}

/// Whether the text is read as the tree: the same nodes, but for the numbers of nodes and the names
/// of places, and the same comments in the same order at the same places.
///
/// A text that the reader refuses, as one that nests more than 1,000 nodes, does not read back. It takes
/// time by the text, the nodes and the addresses of comments.
pub fn reads_back(alloc: Global, text: &Source, tree: &Tree) -> Result<bool, AllocError>
    ensures { IfOk result (λ yes. IsTrue yes → ReadsBack text.now (syntax tree.now)) }
{
    let parsed = match js_source::parse(alloc, text) {
        Ok(parsed) => parsed,
        Err(Refusal::Syntax(_)) => return Ok(false),
        Err(Refusal::NoMemory) => return Err(AllocError),
    };
    let same = says_the_same(alloc, &parsed.tree, tree)?;
    free_parsed(alloc, parsed);
    Ok(same)
}
