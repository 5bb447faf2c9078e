//! What stands between two neighbouring children of a node of the source: words and comments, and the
//! blanks between them.

use crate::lists::outer_span;
use js_tokens::{Punctuator, Token, TokenKind};
use piece_plan::{SourceTree, offset, tokens_in};
use std::alloc::{AllocError, Global};
use tree_core::{Comment, Span};

/// The name of a gap: its node, and the children beside it.
#[derive(Clone, Copy, Debug, PartialEq, Eq)]
pub struct GapName {
    pub owner: usize,
    pub left: Option<usize>,
    pub right: Option<usize>,
}

/// A word or a comment of a gap.
#[derive(Clone, Copy, Debug, PartialEq, Eq)]
pub struct Atom {
    pub span: Span,
    /// The word, or none of a comment.
    pub word: Option<TokenKind>,
    /// The number of the comment among those of the gap, and whether it belongs to the child before.
    pub comment: usize,
    pub after: bool,
}

/// Blanks: the bytes from `start` up to `end`.
pub type Run = Span;

/// A gap with its words and comments in order. It reaches from the child before it, with its
/// grouping parentheses, to that behind it.
#[derive(Drop)]
pub struct SourceGap<'s> {
    pub name: GapName,
    pub span: Span,
    pub atoms: Vec<Atom>,
    pub comments: Vec<&'s Comment>,
}

/// How many bytes the line end takes that begins there, 0 where none does.
fn line_end_len(text: &[u8], at: usize) -> usize {
    if at >= text.len() {
        return 0;
    }
    match &text[at..] {
        [b'\r', b'\n', ..] => 2,
        [b'\n', ..] | [b'\r', ..] => 1,
        [0xE2, 0x80, last, ..] => if *last == 0xA8 || *last == 0xA9 { 3 } else { 0 },
        _ => 0,
    }
}

/// How many line ends stand in the span.
pub fn line_count(text: &[u8], span: Span) -> usize {
    let mut count = 0usize;
    let mut at = span.start as usize;
    for _turn in 0..text.len() {
        if at >= span.end as usize || at >= text.len() {
            return count;
        }
        let len = line_end_len(text, at);
        if len > 0 {
            count = count.saturating_add(1);
        }
        at = at.saturating_add(len.max(1));
    }
    count
}

/// Whether a line ends in the span.
pub fn is_line_broken(text: &[u8], span: Span) -> bool {
    for at in span.start as usize..(span.end as usize).min(text.len()) {
        if line_end_len(text, at) > 0 {
            return true;
        }
    }
    false
}

impl<'s> SourceGap<'s> {
    /// The run before the atom of this number, or behind the last.
    pub fn run(&self, at: usize) -> Run {
        let start = match at.checked_sub(1) {
            Some(before) => match self.atoms.get(before) {
                Some(atom) => atom.span.end,
                None => self.span.end,
            },
            None => self.span.start,
        };
        let end = match self.atoms.get(at) {
            Some(atom) => atom.span.start,
            None => self.span.end,
        };
        Span {
            start,
            end: end.max(start),
        }
    }

    /// How many line ends the run has.
    pub fn lines(&self, text: &[u8], at: usize) -> usize {
        line_count(text, self.run(at))
    }

    pub fn word_at(&self, at: usize) -> Option<TokenKind> {
        self.atoms.get(at)?.word
    }

    /// How many words it has.
    pub fn word_count(&self) -> usize {
        let mut count = 0usize;
        for atom in self.atoms.as_slice() {
            if atom.word.is_some() {
                count = count.saturating_add(1);
            }
        }
        count
    }

    /// The numbers of the atoms that are words, from the rank on: the first.
    pub fn first_word(&self, from: usize) -> Option<usize> {
        for at in from..self.atoms.len() {
            if self.atoms[at].word.is_some() {
                return Some(at);
            }
        }
        None
    }

    /// The last atom before the rank that is a word.
    pub fn last_word(&self, until: usize) -> Option<usize> {
        let until = until.min(self.atoms.len());
        for behind in 0..until {
            let at = until - 1 - behind;
            if self.atoms[at].word.is_some() {
                return Some(at);
            }
        }
        None
    }

    /// Whether the atom is a comma.
    pub fn is_comma(&self, at: usize) -> bool {
        self.word_at(at) == Some(TokenKind::Punctuator(Punctuator::Comma))
    }
}

// The first comment of the source that begins at the offset or behind it.
fn first_comment(comments: &[Span], offset: u32) -> usize {
    let (mut low, mut high) = (0usize, comments.len());
    for _turn in 0..64 {
        if low >= high {
            return low;
        }
        let middle = low.saturating_add((high - low) / 2);
        if middle < comments.len() && comments[middle].start < offset {
            low = middle.saturating_add(1);
        } else {
            high = middle;
        }
    }
    low
}

fn add_all<'s>(found: &mut Vec<&'s Comment>, comments: &'s [Comment]) -> Result<(), AllocError> {
    for comment in comments {
        found.push(comment)?;
    }
    Ok(())
}

// The comments beside and between the children, and how many of them belong to the child before.
fn comments_of<'s>(
    found: &mut Vec<&'s Comment>,
    source: &SourceTree<'s>,
    name: GapName,
) -> Result<usize, AllocError> {
    if let Some(left) = name.left {
        if let Some(child) = source.node(left) {
            add_all(found, child.node.notes.trail())?;
        }
    }
    let after = found.len();
    if let Some(right) = name.right {
        if let Some(child) = source.node(right) {
            add_all(found, child.node.notes.lead())?;
        }
    } else if let Some(owner) = source.node(name.owner) {
        add_all(found, owner.node.notes.inner())?;
    }
    Ok(after)
}

// Adds the comments of the source that stand in the span; `from` is where the child before ends.
fn add_comments(
    atoms: &mut Vec<Atom>,
    source: &SourceTree<'_>,
    from: u32,
    span: Span,
    after: usize,
) -> Result<(), AllocError> {
    let first = first_comment(source.comments, from);
    for at in first..source.comments.len() {
        let comment = source.comments[at];
        if comment.start >= span.end {
            return Ok(());
        }
        if comment.start >= span.start {
            atoms.push(Atom {
                span: comment,
                word: None,
                comment: at - first,
                after: at - first < after,
            })?;
        }
    }
    Ok(())
}

// Adds the words, which stand in order, among the comments, which do too.
fn merged(atoms: &mut Vec<Atom>, words: &[Token], alloc: Global) -> Result<Vec<Atom>, AllocError> {
    let mut all = Vec::with_capacity(alloc, atoms.len().saturating_add(words.len()))?;
    let mut at = 0;
    for word in words {
        at = move_before(&mut all, atoms.as_slice(), at, word.start)?;
        all.push(Atom {
            span: Span {
                start: word.start,
                end: word.end,
            },
            word: Some(word.kind),
            comment: 0,
            after: false,
        })?;
    }
    let _last = move_before(&mut all, atoms.as_slice(), at, u32::MAX)?;
    Ok(all)
}

// Adds the atoms that begin before the offset, from the rank on; the rank of the next one.
fn move_before(
    all: &mut Vec<Atom>,
    atoms: &[Atom],
    from: usize,
    offset: u32,
) -> Result<usize, AllocError> {
    for at in from..atoms.len() {
        if atoms[at].span.start >= offset {
            return Ok(at);
        }
        all.push(atoms[at])?;
    }
    Ok(atoms.len())
}

// Where the text of a program begins: behind U+FEFF and the first line that names an interpreter.
fn program_start(text: &[u8]) -> u32 {
    let mark = match text {
        [0xEF, 0xBB, 0xBF, ..] => 3,
        _ => 0,
    };
    let rest = if mark <= text.len() {
        &text[mark..]
    } else {
        text
    };
    match rest {
        [b'#', b'!', ..] => {}
        _ => return offset(mark),
    }
    for at in mark..text.len() {
        let len = line_end_len(text, at);
        if len > 0 {
            return offset(at.saturating_add(len));
        }
    }
    offset(text.len())
}

// The span of the gap, and where the child before it ends without its parentheses.
fn gap_span(
    found: &mut Vec<Token>,
    source: &SourceTree<'_>,
    name: GapName,
) -> Result<(Span, u32), AllocError> {
    let whole = source.span(name.owner);
    let (start, from) = match name.left {
        Some(left) => (outer_span(found, source, left)?.end, source.span(left).end),
        None => {
            let start = if name.owner == 0 {
                program_start(source.text.bytes())
            } else {
                whole.start
            };
            (start, start)
        }
    };
    let end = match name.right {
        Some(right) => outer_span(found, source, right)?.start,
        None => whole.end,
    };
    Ok((
        Span {
            start,
            end: end.max(start),
        },
        from,
    ))
}

/// The gap of this name.
pub fn gap_of<'s>(
    alloc: Global,
    source: &SourceTree<'s>,
    name: GapName,
) -> Result<SourceGap<'s>, AllocError> {
    let mut found = Vec::new(alloc);
    let (span, from) = gap_span(&mut found, source, name)?;
    let mut comments = Vec::new(alloc);
    let after = comments_of(&mut comments, source, name)?;
    let mut atoms = Vec::new(alloc);
    if !comments.is_empty() {
        add_comments(&mut atoms, source, from, span, after)?;
    }
    tokens_in(&mut found, source.text, span)?;
    let atoms = merged(&mut atoms, found.as_slice(), alloc)?;
    Ok(SourceGap {
        name,
        span,
        atoms,
        comments,
    })
}
