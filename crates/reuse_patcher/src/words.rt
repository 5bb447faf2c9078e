//! The words of a made piece against those of the source's gaps, and the comments among them.

use crate::edges::Edge;
use crate::laying::{Gaps, Item, Laying, Side, What};
use generic_printer::{Gap, Part, Token, spell};
use source_layout::SourceGap;
use std::alloc::{AllocError, Global};
use type_defs::Kind;

/// The words and comments of a piece, each with what it stands for.
#[derive(Drop)]
pub struct Matching<'a> {
    pub words: Vec<Item<'a>>,
    /// The comments behind the left child, and those before the right one.
    pub behind: Vec<Item<'a>>,
    pub before: Vec<Item<'a>>,
    /// Whether the last word, a `;`, is left out.
    pub omits: bool,
}

/// The words of the parts, but for a comma that the layout asks for.
pub fn words_of<'a>(alloc: Global, parts: &[Part]) -> Result<Vec<Item<'a>>, AllocError> {
    let mut words = Vec::new(alloc);
    for part in parts {
        if let Part::Token(token) = *part {
            if token != Token::LastComma {
                words.push(Item::new(What::Word(token)))?;
            }
        }
    }
    Ok(words)
}

// The atoms of the gap that are words, but for a first comma that is a trailing one.
fn source_words(
    laying: Laying<'_, '_, '_>,
    gap: Option<&SourceGap<'_>>,
    drops_comma: bool,
) -> Result<Vec<usize>, AllocError> {
    let mut found = Vec::new(laying.alloc);
    let Some(gap) = gap else {
        return Ok(found);
    };
    for at in 0..gap.atoms.len() {
        let trailing = found.is_empty()
            && drops_comma
            && gap.is_comma(at)
            && gap.first_word(0) == Some(at);
        if gap.atoms[at].word.is_some() && !trailing {
            found.push(at)?;
        }
    }
    Ok(found)
}

// Whether the words of the piece may be any words of the source.
fn are_any(edge: Edge<'_>) -> bool {
    match edge.row.node.kind {
        Kind::BinaryExpression | Kind::LogicalExpression | Kind::AssignmentExpression => true,
        Kind::VariableDeclaration => edge.left == 0,
        _ => false,
    }
}

fn is_equal(
    laying: Laying<'_, '_, '_>,
    edge: Edge<'_>,
    gap: &SourceGap<'_>,
    at: usize,
    word: Item<'_>,
) -> Result<bool, AllocError> {
    if are_any(edge) {
        return Ok(true);
    }
    let What::Word(token) = word.what else {
        return Ok(false);
    };
    let Some(atom) = gap.atoms.get(at) else {
        return Ok(false);
    };
    let mut bytes = Vec::new(laying.alloc);
    spell(&mut bytes, edge.row.node, token)?;
    let (start, end) = (atom.span.start as usize, atom.span.end as usize);
    let text = laying.text();
    Ok(start <= end && end <= text.len() && bytes.as_slice() == &text[start..end])
}

fn number_at(numbers: &[usize], at: usize) -> usize {
    match numbers.get(at) {
        Some(number) => *number,
        None => usize::MAX,
    }
}

fn word_at<'a>(words: &[Item<'a>], at: usize) -> Item<'a> {
    match words.get(at) {
        Some(word) => *word,
        None => Item::new(What::Right),
    }
}

fn pair(
    words: &mut Vec<Item<'_>>,
    at: usize,
    gap: &SourceGap<'_>,
    number: Option<usize>,
    atom: usize,
    edge: Edge<'_>,
) {
    let start = match gap.atoms.get(atom) {
        Some(atom) => Some(atom.span.start),
        None => None,
    };
    if at < words.len() {
        words[at].gap = number;
        words[at].rank = atom.saturating_add(1);
        words[at].at = start;
        words[at].shift = edge.shift;
    }
}

// Pairs the words from the first on; how many are.
fn pair_first(
    laying: Laying<'_, '_, '_>,
    gaps: &Gaps<'_>,
    edge: Edge<'_>,
    there: &[usize],
    words: &mut Vec<Item<'_>>,
) -> Result<usize, AllocError> {
    let Some(gap) = gaps.get(edge.behind) else {
        return Ok(0);
    };
    for at in 0..words.len().min(there.len()) {
        let atom = number_at(there, at);
        if !is_equal(laying, edge, gap, atom, word_at(words.as_slice(), at))? {
            return Ok(at);
        }
        pair(words, at, gap, edge.behind, atom, edge);
    }
    Ok(words.len().min(there.len()))
}

// Pairs the words from the last back to those that are paired.
fn pair_last(
    laying: Laying<'_, '_, '_>,
    gaps: &Gaps<'_>,
    edge: Edge<'_>,
    there: &[usize],
    words: &mut Vec<Item<'_>>,
    paired: usize,
) -> Result<(), AllocError> {
    let Some(gap) = gaps.get(edge.before) else {
        return Ok(());
    };
    let low = if edge.behind == edge.before {
        paired
    } else {
        0
    };
    let count = words
        .len()
        .saturating_sub(paired)
        .min(there.len().saturating_sub(low));
    for behind in 0..count {
        let at = words.len().saturating_sub(behind).saturating_sub(1);
        let atom = number_at(there, there.len().saturating_sub(behind).saturating_sub(1));
        if !is_equal(laying, edge, gap, atom, word_at(words.as_slice(), at))? {
            return Ok(());
        }
        pair(words, at, gap, edge.before, atom, edge);
    }
    Ok(())
}

fn is_semicolon(word: Item<'_>) -> bool {
    match word.what {
        What::Word(token) => token == Token::Semicolon,
        _ => false,
    }
}

fn ends_with_semicolon(words: &[Item<'_>]) -> bool {
    match words.len().checked_sub(1) {
        Some(last) => is_semicolon(word_at(words, last)),
        None => false,
    }
}

// Whether the source's gap is the piece without its `;`.
fn lacks_there(
    laying: Laying<'_, '_, '_>,
    gaps: &Gaps<'_>,
    gap: Gap<'_, '_>,
    edge: Edge<'_>,
    there: &[usize],
    words: usize,
) -> bool {
    let Some(found) = gaps.get(edge.behind) else {
        return false;
    };
    if edge.behind != edge.before
        || matches!(edge.row.node.kind, Kind::ExportDefaultDeclaration)
        || !found.comments.is_empty()
        || !gap.behind.is_empty()
        || there.len().saturating_add(1) != words
    {
        return false;
    }
    !ends_in_semicolon(laying, found, there)
}

fn ends_in_semicolon(laying: Laying<'_, '_, '_>, gap: &SourceGap<'_>, there: &[usize]) -> bool {
    let Some(last) = there.len().checked_sub(1) else {
        return false;
    };
    match gap.atoms.get(number_at(there, last)) {
        Some(atom) => {
            let at = atom.span.start as usize;
            let text = laying.text();
            at < text.len() && text[at] == b';'
        }
        None => false,
    }
}

// Whether a new statement is made without its `;`, as the file's are.
fn lacks_as_file(laying: Laying<'_, '_, '_>, gap: Gap<'_, '_>, edge: Edge<'_>) -> bool {
    laying.reuse.source.source_of(edge.row.node).is_none()
        && laying.models.facts.no_semicolons
        && gap.behind.is_empty()
        && !matches!(
            edge.row.node.kind,
            Kind::DoWhileStatement | Kind::ImportDeclaration | Kind::PropertyDefinition
        )
}

/// Pairs the words of the piece with those of the source; the last one is left out where it is a `;`
/// that the source leaves out.
pub fn pair_words(
    laying: Laying<'_, '_, '_>,
    gaps: &Gaps<'_>,
    gap: Gap<'_, '_>,
    edge: Edge<'_>,
    matching: &mut Matching<'_>,
) -> Result<(), AllocError> {
    let drops = edge.commas && !begins_with_comma(matching.words.as_slice());
    let behind = source_words(laying, gaps.get(edge.behind), drops)?;
    let before = source_words(laying, gaps.get(edge.before), drops)?;
    let count = matching.words.len();
    if edge.right == 0 && ends_with_semicolon(matching.words.as_slice()) {
        let there = lacks_there(laying, gaps, gap, edge, behind.as_slice(), count);
        if there || lacks_as_file(laying, gap, edge) {
            matching.words.truncate(count.saturating_sub(1));
            matching.omits = true;
        }
    }
    let paired = pair_first(laying, gaps, edge, behind.as_slice(), &mut matching.words)?;
    pair_last(
        laying,
        gaps,
        edge,
        before.as_slice(),
        &mut matching.words,
        paired,
    )
}

fn begins_with_comma(words: &[Item<'_>]) -> bool {
    match word_at(words, 0).what {
        What::Word(Token::Punctuator(mark)) => mark == js_tokens::Punctuator::Comma,
        _ => false,
    }
}

fn all_stand(items: &[Item<'_>]) -> bool {
    for item in items {
        if item.gap.is_none() {
            return false;
        }
    }
    true
}

fn comment_count(gap: &SourceGap<'_>, after: bool) -> usize {
    let mut count = 0usize;
    for atom in gap.atoms.as_slice() {
        if atom.word.is_none() && atom.after == after {
            count = count.saturating_add(1);
        }
    }
    count
}

impl<'a> Matching<'a> {
    // Whether comments of this side stand among the words as in the source.
    fn stand_among(
        &self,
        laying: Laying<'_, '_, '_>,
        gaps: &Gaps<'_>,
        edge: Edge<'_>,
        side: Side,
        after: bool,
    ) -> Result<bool, AllocError> {
        let items = if after {
            self.behind.as_slice()
        } else {
            self.before.as_slice()
        };
        let Some(gap) = gaps.get(edge.behind) else {
            return Ok(false);
        };
        let drops = edge.commas && !begins_with_comma(self.words.as_slice());
        let there = source_words(laying, Some(gap), drops)?;
        Ok(
            side.gap == edge.behind
                && edge.behind == edge.before
                && there.len() == self.words.len()
                && all_stand(self.words.as_slice())
                && all_stand(items)
                && items.len() == comment_count(gap, after),
        )
    }

    // Before which word the comment stands.
    fn rank_among(&self, item: Item<'a>) -> usize {
        for at in 0..self.words.len() {
            if self.words[at].rank >= item.rank {
                return at;
            }
        }
        self.words.len()
    }

    /// Adds the comments behind the left child that stand before all words.
    pub fn push_before_words(
        &self,
        laying: Laying<'_, '_, '_>,
        gaps: &Gaps<'_>,
        edge: Edge<'a>,
        side: Side,
        items: &mut Vec<Item<'a>>,
    ) -> Result<(), AllocError> {
        let among = self.stand_among(laying, gaps, edge, side, true)?;
        for item in self.behind.as_slice() {
            if !among || self.rank_among(*item) == 0 {
                items.push(*item)?;
            }
        }
        Ok(())
    }

    // Adds the comments of the list that stand before the word of this number.
    fn push_ranked(
        &self,
        found: &[Item<'a>],
        rank: usize,
        items: &mut Vec<Item<'a>>,
    ) -> Result<(), AllocError> {
        for item in found {
            if self.rank_among(*item) == rank {
                items.push(*item)?;
            }
        }
        Ok(())
    }

    /// Adds the words, with the comments that stand among them.
    pub fn push_words(
        &self,
        laying: Laying<'_, '_, '_>,
        gaps: &Gaps<'_>,
        edge: &mut Edge<'a>,
        left: Side,
        right: Side,
        items: &mut Vec<Item<'a>>,
    ) -> Result<(), AllocError> {
        let after = self.stand_among(laying, gaps, *edge, left, true)?;
        let before = self.stand_among(laying, gaps, *edge, right, false)?;
        let count = self.words.len();
        for at in 0..count.saturating_add(1) {
            if after && at > 0 {
                self.push_ranked(self.behind.as_slice(), at, items)?;
            }
            if before && at < count {
                self.push_ranked(self.before.as_slice(), at, items)?;
            }
            if at < count {
                if at == 0 {
                    edge.first_word = Some(items.len());
                }
                edge.last_word = Some(items.len());
                items.push(self.words[at])?;
            }
        }
        Ok(())
    }

    /// Adds the comments before the right child that stand behind all words.
    pub fn push_behind_words(
        &self,
        laying: Laying<'_, '_, '_>,
        gaps: &Gaps<'_>,
        edge: Edge<'a>,
        side: Side,
        items: &mut Vec<Item<'a>>,
    ) -> Result<(), AllocError> {
        let among = self.stand_among(laying, gaps, edge, side, false)?;
        for item in self.before.as_slice() {
            if !among || self.rank_among(*item) == self.words.len() {
                items.push(*item)?;
            }
        }
        Ok(())
    }
}
