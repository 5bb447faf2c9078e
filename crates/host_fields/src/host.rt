//! The host of a run: the forest, the heap, and what is remembered of both.

use crate::lists::ListMemos;
use crate::walk::Walk;
use indexmap::IndexMap;
use node_arena::{Arena, PlaceId};
use script_values::{CollectionId, Heap, ListId, Stop, TextId, Value, Word};
use std::alloc::Global;

/// A scalar of a node that was read as a text, and that text.
#[derive(Clone, Copy, Debug)]
pub struct KnownScalar {
    pub index: u8,
    pub text: TextId,
}

/// The words of the fields of the kinds that were asked for: where those of a kind begin.
#[derive(Drop)]
pub struct FieldWords {
    pub starts: Vec<Option<usize>>,
    pub words: Vec<Word>,
}

/// What is remembered, so that nothing is made or sought twice: by kind its name and the words of
/// its fields, by word what `j` has under it, by node its last text and its comments' texts, by node
/// list a place in it, and by collection the first one from which it comes.
#[derive(Drop)]
pub struct Known {
    pub kinds: Vec<Option<TextId>>,
    pub fields: FieldWords,
    pub natives: IndexMap<u32, Value>,
    pub scalars: Vec<Option<KnownScalar>>,
    pub comments: IndexMap<u32, ListId>,
    pub lists: ListMemos,
    pub firsts: IndexMap<u32, CollectionId>,
}

/// The host of a run. `text` is the file's text. `changed` tells that a node changed since the last
/// print, and `prints` counts the prints that had something new to show. The last of `walks` is the
/// method with a function that is under way.
#[derive(Drop)]
pub struct Host {
    pub alloc: Global,
    pub arena: Arena,
    pub heap: Heap,
    pub root: PlaceId,
    pub text: TextId,
    pub prints: u32,
    pub changed: bool,
    pub walks: Vec<Walk>,
    pub known: Known,
}

/// One item more at the end.
pub fn push<T: Drop>(list: &mut Vec<T>, item: T) -> Result<(), Stop> {
    match list.push(item) {
        Ok(()) => Ok(()),
        Err(_) => Err(Stop::NoMemory),
    }
}

impl Known {
    fn new(alloc: Global) -> Known {
        Known {
            kinds: Vec::new(alloc),
            fields: FieldWords {
                starts: Vec::new(alloc),
                words: Vec::new(alloc),
            },
            natives: IndexMap::new(alloc),
            scalars: Vec::new(alloc),
            comments: IndexMap::new(alloc),
            lists: IndexMap::new(alloc),
            firsts: IndexMap::new(alloc),
        }
    }
}

impl Host {
    /// The host of a new run: nothing was changed or printed.
    pub fn new(alloc: Global, arena: Arena, root: PlaceId, heap: Heap, text: TextId) -> Host {
        Host {
            alloc,
            arena,
            heap,
            root,
            text,
            prints: 0,
            changed: false,
            walks: Vec::new(alloc),
            known: Known::new(alloc),
        }
    }
}
