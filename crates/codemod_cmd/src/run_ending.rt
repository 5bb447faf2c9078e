//! How the run of a script over a source ended, and the tree that it left.

ghost use Rattle.std.specs.Prelude.{◌≡◌, IfOk};
ghost use Rattle.codemod_cmd.specs.RunEndings.{EndsSo, IsJudged, left_of};

use arena_trees::{UnloadFault, unload};
use node_arena::Arena;
use run_report::RowError;
use script_eval::{Outcome, Ran};
use sqlite_items::Items;
use std::alloc::{AllocError, Global};
use tree_check::{CheckFault, Rule, check};
use tree_core::{Address, Tree};

/// How the run of a script over a source ended.
#[derive(Drop)]
pub enum RunEnding {
    /// It answered the source, or printed with no node changed.
    Unchanged,
    /// It printed this tree, in which something was changed. The tree passed the check.
    Changed(Tree),
    /// It answered nothing.
    Nothing,
    /// There is no text, for this reason.
    Refused(RowError),
}

fn bad_node(address: Address, rule: Rule) -> RunEnding
    ensures { result ≡ RunEnding.Refused (RowError.BadNode address rule) }
{
    RunEnding::Refused(RowError::BadNode { address, rule })
}

// The tree in the root place, if it passes the check.
fn judged_tree(alloc: Global, arena: &Arena) -> Result<RunEnding, AllocError>
    ensures { IfOk result (IsJudged arena.now) }
{
    let tree = match unload(alloc, arena, arena.root()) {
        Ok(tree) => tree,
        Err(UnloadFault::Deep { address }) => return Ok(bad_node(address, Rule::Depth)),
        Err(UnloadFault::Empty) => {
            let address = Address::new(Items::new(alloc));
            return Ok(bad_node(address, Rule::Missing));
        }
        Err(UnloadFault::NoMemory) => return Err(AllocError),
    };
    match check(alloc, &tree) {
        Ok(()) => Ok(RunEnding::Changed(tree)),
        Err(CheckFault::BadNode { address, rule }) => Ok(bad_node(address, rule)),
        Err(CheckFault::NoMemory) => Err(AllocError),
    }
}

/// How the run ended that left this arena, and in so many of whose prints something was new. A run
/// in which no node was changed is not unloaded.
pub fn ending_of(
    alloc: Global,
    ran: &Ran,
    prints: u32,
    arena: &Arena,
) -> Result<RunEnding, AllocError>
    ensures { IfOk result (EndsSo (left_of ran.now prints arena.now)) }
{
    match ran.outcome {
        Outcome::Same => Ok(RunEnding::Unchanged),
        Outcome::Printed => {
            if prints == 0 {
                return Ok(RunEnding::Unchanged);
            }
            judged_tree(alloc, arena)
        }
        Outcome::Nothing => Ok(RunEnding::Nothing),
        Outcome::Spent => Ok(RunEnding::Refused(RowError::Spent)),
        Outcome::Fault(fault) => Ok(RunEnding::Refused(RowError::Script {
            at: fault.at,
            kind: fault.kind,
        })),
    }
}
