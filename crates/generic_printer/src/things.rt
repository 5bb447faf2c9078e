//! What stands in a piece between the children of a node, in order: words, comments, and the child
//! or the end behind them, each with the blanks before it.

use crate::comments::Note;
use crate::fronts::Front;
use crate::parts::{Part, Token};
use crate::sink::Sink;
use crate::words::{write_comment, write_token};
use std::alloc::{AllocError, Global};
use tree_core::Tree;

/// The blanks before a thing.
#[derive(Clone, Copy, Debug, PartialEq, Eq)]
pub enum Blanks {
    None,
    Space,
    /// So many line ends, and a front behind them.
    Lines(usize, Front),
    /// These of the bytes of the things.
    Bytes(usize, usize),
}

/// A thing of a piece.
#[derive(Clone, Copy)]
pub enum Thing<'a> {
    Token(Token),
    /// A comment; a line that it ends is followed by one with this front.
    Note(Note<'a>, Front),
    /// The right child, or the end of the node.
    Right,
}

/// A thing, and the blanks before it.
#[derive(Clone, Copy)]
pub struct Laid<'a> {
    pub blanks: Blanks,
    pub thing: Thing<'a>,
}

/// The things of a piece, and the blanks that are to stand before the next one.
#[derive(Drop)]
pub struct Things<'a> {
    pub laid: Vec<Laid<'a>>,
    /// Blanks that are told byte by byte.
    pub bytes: Vec<u8>,
    /// Whether the piece leaves out the `;` that ends it.
    pub open: bool,
    blanks: Blanks,
}

/// The fronts of the lines that a piece makes: the node's own, its list's, and that behind a
/// comment.
#[derive(Clone, Copy, Debug, PartialEq, Eq)]
pub struct Fronts {
    pub own: Front,
    pub list: Front,
    pub behind: Front,
}

impl<'a> Things<'a> {
    pub fn new(alloc: Global) -> Things<'a> {
        Things {
            laid: Vec::new(alloc),
            bytes: Vec::new(alloc),
            open: false,
            blanks: Blanks::None,
        }
    }

    pub fn clear(&mut self) {
        self.laid.clear();
        self.bytes.clear();
        self.open = false;
        self.blanks = Blanks::None;
    }

    /// The blanks before the next thing.
    pub fn blanks(&mut self, blanks: Blanks) {
        self.blanks = blanks;
    }

    /// The next thing.
    pub fn put(&mut self, thing: Thing<'a>) -> Result<(), AllocError> {
        self.laid.push(Laid {
            blanks: self.blanks,
            thing,
        })?;
        self.blanks = Blanks::None;
        Ok(())
    }

    pub fn token(&mut self, token: Token) -> Result<(), AllocError> {
        self.put(Thing::Token(token))
    }

    /// A part of the node's made text.
    pub fn part(&mut self, part: Part, fronts: Fronts) -> Result<(), AllocError> {
        match part {
            Part::Token(token) => self.token(token),
            Part::Space => {
                self.blanks = Blanks::Space;
                Ok(())
            }
            Part::Items => {
                self.blanks = Blanks::Lines(1, fronts.list);
                Ok(())
            }
            Part::Line => {
                self.blanks = Blanks::Lines(1, fronts.own);
                Ok(())
            }
            Part::Child(_) => Ok(()),
        }
    }

    pub fn parts(&mut self, parts: &[Part], fronts: Fronts) -> Result<(), AllocError> {
        for part in parts {
            self.part(*part, fronts)?;
        }
        Ok(())
    }

    /// Comments before a word or a child: each has a space behind it, or ends its line.
    pub fn before(&mut self, notes: &[Note<'a>], front: Front) -> Result<(), AllocError> {
        for note in notes {
            self.put(Thing::Note(*note, front))?;
            self.blanks = if note.comment.block {
                Blanks::Space
            } else {
                Blanks::Lines(1, front)
            };
        }
        Ok(())
    }

    /// Comments behind a word or a child: each has a space before it.
    pub fn behind(&mut self, notes: &[Note<'a>], front: Front) -> Result<(), AllocError> {
        for note in notes {
            self.blanks = Blanks::Space;
            self.put(Thing::Note(*note, front))?;
        }
        Ok(())
    }
}

fn write_blanks(sink: &mut Sink, bytes: &[u8], blanks: Blanks) -> Result<(), AllocError> {
    match blanks {
        Blanks::Bytes(start, end) => {
            if start > end || end > bytes.len() {
                return Ok(());
            }
            sink.blanks(&bytes[start..end])
        }
        Blanks::None => Ok(()),
        Blanks::Space => sink.space(),
        Blanks::Lines(count, front) => sink.lines(count, front),
    }
}

fn write_thing(
    sink: &mut Sink,
    node: &Tree,
    bytes: &[u8],
    laid: Laid<'_>,
) -> Result<(), AllocError> {
    write_blanks(sink, bytes, laid.blanks)?;
    match laid.thing {
        Thing::Token(token) => write_token(sink, node, token),
        Thing::Note(note, front) => {
            write_comment(sink, note.comment)?;
            if !note.comment.block {
                sink.open(front);
            }
            Ok(())
        }
        Thing::Right => Ok(()),
    }
}

/// Writes the things of a piece of the node.
pub fn write_things(sink: &mut Sink, node: &Tree, things: &Things<'_>) -> Result<(), AllocError> {
    for laid in things.laid.as_slice() {
        write_thing(sink, node, things.bytes.as_slice(), *laid)?;
    }
    Ok(())
}
