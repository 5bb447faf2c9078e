//! Whether the words that the source has between two children are those that the node's form has
//! there now, in one of the spellings that the form allows.

use generic_printer::{Part, Row, Token as Word, spell};
use js_tokens::{Punctuator, Token};
use std::alloc::AllocError;
use tree_core::{Slot, Tree};
use type_defs::Kind;

/// A piece of a node that is to be compared: the node's row, the child before the piece (none at
/// its start) and that behind it (none at its end), and the parts of its made text.
#[derive(Clone, Copy)]
pub struct Piece<'p, 'a> {
    pub row: Row<'a>,
    pub left: Option<Row<'a>>,
    pub right: Option<Row<'a>>,
    pub parts: &'p [Part],
    /// Whether it lies between the first child and the node's start.
    pub first: bool,
}

// The made words of the parts, but for a comma that the layout asks for.
fn made_words(found: &mut Vec<Word>, parts: &[Part]) -> Result<(), AllocError> {
    found.clear();
    for part in parts {
        if let Part::Token(token) = *part {
            if token != Word::LastComma {
                found.push(token)?;
            }
        }
    }
    Ok(())
}

fn slice_of(text: &[u8], token: Token) -> &[u8] {
    let (start, end) = (token.start as usize, token.end as usize);
    if start > end || end > text.len() {
        return &[];
    }
    &text[start..end]
}

/// What comparing needs: the text of the source, the words of its piece without grouping
/// parentheses, and room for the made words and for one word's bytes.
#[derive(Drop)]
pub struct Words<'s> {
    pub text: &'s [u8],
    pub found: Vec<Token>,
    pub made: Vec<Word>,
    pub bytes: Vec<u8>,
}

// Whether the word of the source is the made one.
fn is_word(
    bytes: &mut Vec<u8>,
    text: &[u8],
    node: &Tree,
    token: Token,
    word: Word,
) -> Result<bool, AllocError> {
    bytes.clear();
    spell(bytes, node, word)?;
    Ok(bytes.as_slice() == slice_of(text, token))
}

// Whether the words of the source, from there on, are these.
fn are_words(
    words: &mut Words<'_>,
    node: &Tree,
    from: usize,
    made: usize,
    until: usize,
) -> Result<bool, AllocError> {
    let count = words.found.len().saturating_sub(from);
    if until < made || until - made != count {
        return Ok(false);
    }
    for at in 0..count {
        let (token, word) = match (
            words.found.get(from.saturating_add(at)),
            words.made.get(made.saturating_add(at)),
        ) {
            (Some(token), Some(word)) => (*token, *word),
            _ => return Ok(false),
        };
        if !is_word(&mut words.bytes, words.text, node, token, word)? {
            return Ok(false);
        }
    }
    Ok(true)
}

fn is_mark(text: &[u8], token: Option<&Token>, mark: &[u8]) -> bool {
    match token {
        Some(token) => slice_of(text, *token) == mark,
        None => false,
    }
}

fn made_mark(word: Option<&Word>) -> Option<Punctuator> {
    match word {
        Some(Word::Punctuator(mark)) => Some(*mark),
        _ => None,
    }
}

fn list_len(node: &Tree, slot: usize) -> usize {
    match node.slots.get(slot) {
        Some(Slot::List(places)) => places.len(),
        _ => 0,
    }
}

// Whether a comma may stand behind the last item of the list before the word.
fn takes_comma(kind: Kind, slot: usize, next: Option<Punctuator>) -> bool {
    match next {
        Some(Punctuator::CloseParen) => matches!(
            kind,
            Kind::CallExpression
                | Kind::NewExpression
                | Kind::FunctionExpression
                | Kind::FunctionDeclaration
                | Kind::ArrowFunctionExpression
        ) && slot != 0
            || (matches!(kind, Kind::ArrowFunctionExpression) && slot == 0),
        Some(Punctuator::CloseBracket) => {
            matches!(kind, Kind::ArrayExpression | Kind::ArrayPattern)
        }
        Some(Punctuator::CloseBrace) => matches!(
            kind,
            Kind::ObjectExpression
                | Kind::ObjectPattern
                | Kind::ImportDeclaration
                | Kind::ExportNamedDeclaration
        ),
        _ => false,
    }
}

// Whether the source may have a comma before these made words: behind the last item of a list.
fn may_begin_with_comma(piece: Piece<'_, '_>, words: &Words<'_>) -> bool {
    let Some(left) = piece.left else {
        return false;
    };
    if !left.listed || matches!(left.node.kind, Kind::RestElement) {
        return false;
    }
    if let Some(right) = piece.right {
        if right.slot == left.slot {
            return false;
        }
    }
    takes_comma(piece.row.node.kind, left.slot, made_mark(words.made.get(0)))
}

// The same words, or these behind the comma of a list.
fn are_words_with_comma(
    piece: Piece<'_, '_>,
    words: &mut Words<'_>,
    until: usize,
) -> Result<bool, AllocError> {
    let node = piece.row.node;
    if are_words(words, node, 0, 0, until)? {
        return Ok(true);
    }
    let comma = is_mark(words.text, words.found.get(0), b",");
    if comma && may_begin_with_comma(piece, words) {
        return are_words(words, node, 1, 0, until);
    }
    Ok(false)
}

// Whether the row is one of an arrow that has one parameter, a name.
fn has_lone_name(row: Row<'_>) -> bool {
    if !matches!(row.node.kind, Kind::ArrowFunctionExpression) {
        return false;
    }
    match row.node.slots.get(0) {
        Some(Slot::List(places)) => {
            if places.len() != 1 {
                return false;
            }
            match places.get(0) {
                Some(place) => match &place.node {
                    Some(node) => matches!(node.kind, Kind::Identifier),
                    None => false,
                },
                None => false,
            }
        }
        _ => false,
    }
}

// The words of a piece beside the one parameter of an arrow, but for its parentheses.
fn strip_parens(words: &mut Words<'_>, first: bool) {
    if first {
        strip_last_opener(words);
    } else {
        strip_first_closer(words);
    }
}

fn strip_last_opener(words: &mut Words<'_>) {
    let count = words.found.len();
    if count > 0 && is_mark(words.text, words.found.get(count - 1), b"(") {
        words.found.truncate(count - 1);
    }
    let count = words.made.len();
    if count > 0 && made_mark(words.made.get(count - 1)) == Some(Punctuator::OpenParen) {
        words.made.truncate(count - 1);
    }
}

fn drop_first_token(found: &mut Vec<Token>) {
    if found.len() > 0 {
        let _first = found.remove(0);
    }
}

fn strip_first_closer(words: &mut Words<'_>) {
    if is_mark(words.text, words.found.get(0), b",") {
        drop_first_token(&mut words.found);
    }
    if is_mark(words.text, words.found.get(0), b")") {
        drop_first_token(&mut words.found);
    }
    if made_mark(words.made.get(0)) == Some(Punctuator::CloseParen) && words.made.len() > 0 {
        let _first = words.made.remove(0);
    }
}

// The words of a class body, where `;` stand between the members, without these.
fn strip_semicolons(words: &mut Words<'_>) {
    let mut at = 0;
    for _turn in 0..words.found.len() {
        if is_mark(words.text, words.found.get(at), b";") && at < words.found.len() {
            let _semicolon = words.found.remove(at);
        } else {
            at = at.saturating_add(1);
        }
    }
}

// An import without names may have empty braces.
fn strip_empty_braces(words: &mut Words<'_>, from: usize) {
    let behind = from.saturating_add(1);
    if is_mark(words.text, words.found.get(from), b"{")
        && is_mark(words.text, words.found.get(behind), b"}")
        && from < words.found.len()
        && behind < words.found.len()
    {
        let _close = words.found.remove(behind);
        let _open = words.found.remove(from);
    }
}

fn is_import_of_nothing(piece: Piece<'_, '_>) -> bool {
    matches!(piece.row.node.kind, Kind::ImportDeclaration)
        && list_len(piece.row.node, 0) == 0
        && piece.first
}

fn is_import_of_default(piece: Piece<'_, '_>) -> bool {
    if !matches!(piece.row.node.kind, Kind::ImportDeclaration) || list_len(piece.row.node, 0) != 1 {
        return false;
    }
    match piece.left {
        Some(left) => matches!(left.node.kind, Kind::ImportDefaultSpecifier),
        None => false,
    }
}

// An import of nothing: `import {} from "a"` for `import "a"`.
fn is_bare_import(words: &mut Words<'_>, node: &Tree) -> Result<bool, AllocError> {
    let count = words.found.len();
    if count == 4
        && is_mark(words.text, words.found.get(1), b"{")
        && is_mark(words.text, words.found.get(2), b"}")
        && is_mark(words.text, words.found.get(3), b"from")
    {
        words.found.truncate(1);
    }
    let count = words.made.len();
    are_words(words, node, 0, 0, count)
}

// `import a, {} from "b"` for `import a from "b"`.
fn is_import_with_braces(words: &mut Words<'_>, node: &Tree) -> Result<bool, AllocError> {
    if is_mark(words.text, words.found.get(0), b",") {
        drop_first_token(&mut words.found);
        strip_empty_braces(words, 0);
    }
    let count = words.made.len();
    are_words(words, node, 0, 0, count)
}

// Whether the words are those of the form, a `;` that may be missing and a comma behind a list
// counted as they come.
fn are_usual(piece: Piece<'_, '_>, words: &mut Words<'_>) -> Result<bool, AllocError> {
    let count = words.made.len();
    if are_words_with_comma(piece, words, count)? {
        return Ok(true);
    }
    if count > 0 && words.made.get(count - 1) == Some(&Word::Semicolon) && piece.right.is_none() {
        return are_words_with_comma(piece, words, count - 1);
    }
    Ok(false)
}

fn is_without_arguments(piece: Piece<'_, '_>, words: &Words<'_>) -> bool {
    matches!(piece.row.node.kind, Kind::NewExpression)
        && piece.right.is_none()
        && list_len(piece.row.node, 1) == 0
        && words.found.is_empty()
}

// Kinds whose pieces are told by the places beside them.
fn is_told_by_places(kind: Kind) -> bool {
    matches!(
        kind,
        Kind::TemplateLiteral
            | Kind::TemplateElement
            | Kind::Literal
            | Kind::Identifier
            | Kind::PrivateIdentifier
            | Kind::Directive
            | Kind::Program
    )
}

/// Whether the words found in the source are words of the piece.
pub fn are_allowed(piece: Piece<'_, '_>, words: &mut Words<'_>) -> Result<bool, AllocError> {
    let node = piece.row.node;
    if is_told_by_places(node.kind) {
        return Ok(true);
    }
    made_words(&mut words.made, piece.parts)?;
    if matches!(node.kind, Kind::ClassBody) {
        strip_semicolons(words);
    }
    if is_without_arguments(piece, words) {
        return Ok(true);
    }
    if is_import_of_nothing(piece) {
        return is_bare_import(words, node);
    }
    if is_import_of_default(piece) {
        return is_import_with_braces(words, node);
    }
    if has_lone_name(piece.row) && (piece.first || is_parameter(piece.left)) {
        strip_parens(words, piece.first);
    }
    are_usual(piece, words)
}

fn is_parameter(left: Option<Row<'_>>) -> bool {
    match left {
        Some(left) => left.slot == 0,
        None => false,
    }
}
