//! Measures the forest: how long loading a tree, finding in it, replacing and unloading take.
//!
//!     forest_speed STAGE FILE
//!
//! The file's tree is read, and then what the stage names is done; each stage but `read` loads the
//! tree first. One line tells how much was done. `bench/forest` takes its times.
//!
//! | stage | what is done |
//! |---|---|
//! | `read` | nothing more |
//! | `load` | nothing more |
//! | `find` | all expressions are found |
//! | `names` | all identifiers are found |
//! | `replace` | so too, and the first 100,000 of them are replaced by new ones |
//! | `unload` | so too, and then the tree is unloaded |
//! | `finds` | all expression statements are found, ten times |
//! | `statements` | they are found once, and each is replaced by a new one |
//! | `all` | all expressions are found, ten times |
//! | `walks` | the places below the program are walked over by links, ten times |
//! | `bindings` | the bindings of the program's scope are told, ten times |
//! | `lookups` | a name that nothing declares is looked up from the program's scope, ten times |
//!
//! It ends with 0 where all went well, with 1 where the file cannot be read or the forest refuses,
//! and with 2 where the words are others.
#![tactic(auto)]

ghost use Rattle.std.specs.Prelude.{◌<◌, length};

use arena_trees::{load, unload};
use ast_paths::replace;
use cm_store::{FileStore, Store};
use cm_text::{MAX_LENGTH, Source};
use collections::{Below, Paths, Pattern, find};
use js_source::parse;
use node_arena::{Arena, NodeId, PlaceId};
use node_builders::{BuildArg, build};
use scope_lookup::{Scope, bindings, lookup};
use std::alloc::Global;
use std::env;
use std::process::ExitCode;
use tree_core::{Parsed, Units};
use type_defs::{Group, Kind, NodeType};

// The most identifiers that are replaced.
const MAX_REPLACED: usize = 100_000;

// How many times a look over the whole program is taken.
const TIMES: usize = 10;

// What is done.
#[derive(Clone, Copy, Debug, PartialEq, Eq)]
enum Stage {
    Read,
    Load,
    Find,
    Names,
    Replace,
    Unload,
    Finds,
    Statements,
    All,
    Walks,
    Bindings,
    Lookups,
}

// What went wrong.
#[derive(Drop)]
enum Wrong {
    Source,
    Forest,
}

// How many nodes the arena has at the end, how many places were found last, and how many of them
// got new nodes.
#[derive(Clone, Copy, Debug)]
struct Done {
    nodes: u32,
    found: usize,
    replaced: usize,
}

fn stage_named(name: &str) -> Option<Stage> {
    match name {
        "read" => Some(Stage::Read),
        "load" => Some(Stage::Load),
        "find" => Some(Stage::Find),
        "names" => Some(Stage::Names),
        "replace" => Some(Stage::Replace),
        "unload" => Some(Stage::Unload),
        "finds" => Some(Stage::Finds),
        "statements" => Some(Stage::Statements),
        "all" => Some(Stage::All),
        "walks" => Some(Stage::Walks),
        "bindings" => Some(Stage::Bindings),
        "lookups" => Some(Stage::Lookups),
        _ => None,
    }
}

// The stage and the name of the file, of the words behind the program's name.
fn command(rt: &HostRuntime) -> Option<(Stage, String)> {
    let mut words = env::args(rt).ok()?.skip(1);
    let stage = words.next()?;
    let name = words.next()?;
    Some((stage_named(stage.as_str())?, name))
}

// The tree of the file.
fn read<S: Store>(alloc: Global, store: &mut S, name: &str) -> Result<Parsed, Wrong> {
    let Ok(bytes) = store.read(alloc, name, MAX_LENGTH as u64) else {
        return Err(Wrong::Source);
    };
    let Ok(source) = Source::new(bytes) else {
        return Err(Wrong::Source);
    };
    match parse(alloc, &source) {
        Ok(parsed) => Ok(parsed),
        Err(_) => Err(Wrong::Source),
    }
}

// A new node of one argument.
fn built(alloc: Global, arena: &mut Arena, kind: Kind, arg: BuildArg) -> Result<NodeId, Wrong> {
    match build(alloc, arena, kind, &[arg]) {
        Ok(node) => Ok(node),
        Err(_) => Err(Wrong::Forest),
    }
}

// A new identifier `b`, or a statement of it.
fn new_node(alloc: Global, arena: &mut Arena, kind: Kind) -> Result<NodeId, Wrong> {
    let Ok(letter) = Vec::from_elem(alloc, 98u16, 1) else {
        return Err(Wrong::Forest);
    };
    let text = BuildArg::Text(Units::new(letter));
    let name = built(alloc, arena, Kind::Identifier, text)?;
    if kind == Kind::Identifier {
        return Ok(name);
    }
    built(alloc, arena, kind, BuildArg::Node(name))
}

// A new node in the place of what stands there.
fn replace_at(alloc: Global, arena: &mut Arena, place: PlaceId, kind: Kind) -> Result<(), Wrong> {
    let node = new_node(alloc, arena, kind)?;
    if place.number() >= arena.places() {
        return Err(Wrong::Forest);
    }
    match replace(alloc, arena, place, &[node]) {
        Ok(()) => Ok(()),
        Err(_) => Err(Wrong::Forest),
    }
}

// The first places get new nodes of the kind.
fn replace_all(
    alloc: Global,
    arena: &mut Arena,
    places: &[PlaceId],
    kind: Kind,
    most: usize,
) -> Result<usize, Wrong> {
    let count = places.len().min(most);
    for at in 0..count {
        replace_at(alloc, arena, places[at], kind)?;
    }
    Ok(count)
}

// The places below the root with nodes of the type.
fn below_root(alloc: Global, arena: &Arena, of: NodeType) -> Result<Paths, Wrong> {
    let Ok(root) = Paths::from_slice(alloc, &[arena.root()]) else {
        return Err(Wrong::Forest);
    };
    match find(alloc, arena, &root, of, &Pattern::Any) {
        Ok(found) => Ok(found),
        Err(_) => Err(Wrong::Forest),
    }
}

// Nodes of the kind are found so often, and then as many as are said get new nodes.
fn find_and_replace(
    alloc: Global,
    arena: &mut Arena,
    kind: Kind,
    times: usize,
    most: usize,
) -> Result<Done, Wrong> {
    for _time in 1..times {
        let _found = below_root(alloc, arena, NodeType::Kind(kind))?;
    }
    let found = below_root(alloc, arena, NodeType::Kind(kind))?;
    let replaced = replace_all(alloc, arena, found.as_slice(), kind, most)?;
    Ok(Done {
        nodes: arena.nodes(),
        found: found.len(),
        replaced,
    })
}

fn find_expressions(alloc: Global, arena: &Arena, times: usize) -> Result<Done, Wrong> {
    let mut found = 0;
    for _time in 0..times {
        found = below_root(alloc, arena, NodeType::Group(Group::Expression))?.len();
    }
    Ok(Done {
        nodes: arena.nodes(),
        found,
        replaced: 0,
    })
}

// How many places stand below the node.
fn count_places(arena: &Arena, node: NodeId) -> usize
    requires { node < length arena.now.forest.nodes }
{
    let mut walk = Below::new(arena, node);
    let mut count: usize = 0;
    for _turn in 0..arena.places() {
        if walk.step(arena).is_none() {
            return count;
        }
        count = count.saturating_add(1);
    }
    count
}

// How many names the scope declares, or how many scopes declare one that none does.
fn look(alloc: Global, arena: &Arena, scope: &Scope, stage: Stage) -> Result<usize, Wrong>
    requires { scope.now.owner < length arena.now.forest.nodes }
{
    match stage {
        Stage::Bindings => match bindings(alloc, arena, scope) {
            Ok(names) => Ok(names.len()),
            Err(_) => Err(Wrong::Forest),
        },
        Stage::Lookups => match lookup(alloc, arena, scope, &Units::new(Vec::new(alloc))) {
            Ok(found) => Ok(usize::from(found.is_some())),
            Err(_) => Err(Wrong::Forest),
        },
        _ => Ok(count_places(arena, scope.owner)),
    }
}

// Looks over the whole program, again and again.
fn look_over(alloc: Global, arena: &Arena, stage: Stage) -> Result<Done, Wrong> {
    let Some(owner) = arena.node_at(arena.root()) else {
        return Err(Wrong::Forest);
    };
    let scope = Scope { owner, name: false };
    let mut found = 0;
    for _time in 0..TIMES {
        found = look(alloc, arena, &scope, stage)?;
    }
    Ok(Done {
        nodes: arena.nodes(),
        found,
        replaced: 0,
    })
}

// The tree at the root place is unloaded.
fn unload_all(alloc: Global, arena: &Arena) -> Result<(), Wrong> {
    match unload(alloc, arena, arena.root()) {
        Ok(_) => Ok(()),
        Err(_) => Err(Wrong::Forest),
    }
}

// What the stage asks of a loaded tree.
fn ask(alloc: Global, arena: &mut Arena, stage: Stage) -> Result<Done, Wrong> {
    match stage {
        Stage::Read | Stage::Load => Ok(Done {
            nodes: arena.nodes(),
            found: 0,
            replaced: 0,
        }),
        Stage::Find => find_expressions(alloc, arena, 1),
        Stage::All => find_expressions(alloc, arena, TIMES),
        Stage::Names => find_and_replace(alloc, arena, Kind::Identifier, 1, 0),
        Stage::Replace | Stage::Unload => {
            find_and_replace(alloc, arena, Kind::Identifier, 1, MAX_REPLACED)
        }
        Stage::Finds => find_and_replace(alloc, arena, Kind::ExpressionStatement, TIMES, 0),
        Stage::Statements => {
            find_and_replace(alloc, arena, Kind::ExpressionStatement, 1, usize::MAX)
        }
        Stage::Walks | Stage::Bindings | Stage::Lookups => look_over(alloc, arena, stage),
    }
}

// The whole stage over a tree that was read.
fn measure(alloc: Global, parsed: &Parsed, stage: Stage) -> Result<Done, Wrong> {
    let Ok(mut arena) = Arena::new(alloc) else {
        return Err(Wrong::Forest);
    };
    if stage != Stage::Read && load(alloc, &mut arena, parsed).is_err() {
        return Err(Wrong::Forest);
    }
    let done = ask(alloc, &mut arena, stage)?;
    if stage == Stage::Unload {
        unload_all(alloc, &arena)?;
    }
    Ok(done)
}

fn main(rt: HostRuntime) -> ExitCode {
    let Some((stage, name)) = command(&rt) else {
        return ExitCode::from(2);
    };
    let mut store = FileStore::new(&rt);
    let Ok(parsed) = read(rt.alloc(), &mut store, &name) else {
        return ExitCode::from(1);
    };
    let Ok(done) = measure(rt.alloc(), &parsed, stage) else {
        return ExitCode::from(1);
    };
    let (nodes, found, replaced) = (done.nodes, done.found, done.replaced);
    match println!(rt; "nodes {nodes} found {found} replaced {replaced}") {
        Ok(()) => ExitCode::from(0),
        Err(_) => ExitCode::from(1),
    }
}
