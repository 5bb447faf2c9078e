//! The places where a new name that is a word of the grammar would be read as something else.

ghost use Rattle.std.specs.Prelude.{◌≡◌, slice_get};
ghost use Rattle.source_rename.specs.Exports as exports;
ghost use Rattle.source_rename.specs.Seats as spec;

use cm_text::Source;
use js_lexer::next;
use js_tokens::{Goal, Punctuator, TokenKind, Word};
use tree_core::{Scalar, Span, Tree};
use type_defs::Kind;

/// Where an identifier stands.
#[derive(Clone, Copy, Debug, PartialEq, Eq)]
pub enum Seat {
    /// Where the new name is an identifier.
    Free,
    /// What a `for of` assigns to: `async of` opens no such loop (ECMA-262, clause 14.7.5).
    Head,
    /// The key of a field that is to be `get` or `set`, which would take the key behind it for its own
    /// (clause 15.7).
    Accessor,
    /// The same of `static`, which would take any member for its own.
    Modifier,
}

/// What is written in the place of a stretch.
#[derive(Clone, Copy, Debug, PartialEq, Eq)]
pub enum Spelling {
    /// The new name.
    Name,
    /// The new name in parentheses.
    Grouped,
    /// The new name and a `;`.
    Ended,
    /// A `;` alone.
    End,
}

fn truth_at(tree: &Tree, at: usize) -> bool
    ensures { result ≡ spec.truth_at (slice_get tree.now.scalars at) }
{
    match tree.scalars.get(at) {
        Some(Scalar::Truth(truth)) => *truth,
        _ => false,
    }
}

// The seat of what a `for of` assigns to. Behind `for await` every name may stand bare.
fn head_seat(word: Word, is_await: bool) -> Seat
    ensures { result ≡ spec.head_seat word is_await }
{
    match word {
        Word::Async => { if is_await { Seat::Free } else { Seat::Head } }
        _ => Seat::Free,
    }
}

// The seat of a key that is not computed.
fn plain_key_seat(word: Word, is_static: bool) -> Seat
    ensures { result ≡ spec.plain_key_seat word is_static }
{
    match word {
        Word::Get => Seat::Accessor,
        Word::Set => Seat::Accessor,
        Word::Static => {
            if is_static {
                Seat::Free
            } else {
                Seat::Modifier
            }
        }
        _ => Seat::Free,
    }
}

// The seat of the key of a field, whose scalars are `computed` and `static`.
fn key_seat(word: Word, field: &Tree) -> Seat
    ensures { result ≡ spec.key_seat word field.now.scalars }
{
    if truth_at(field, 0) {
        return Seat::Free;
    }
    plain_key_seat(word, truth_at(field, 1))
}

/// The seat of a node in the first slot of the tree, where this is the new name.
pub fn first_seat(word: Word, tree: &Tree) -> Seat
    ensures { result ≡ spec.first_seat word tree.now.kind tree.now.scalars }
{
    match tree.kind {
        Kind::ForOfStatement => head_seat(word, truth_at(tree, 0)),
        Kind::PropertyDefinition => key_seat(word, tree),
        _ => Seat::Free,
    }
}

// The sort of the token behind the offset; the end where it is broken.
fn kind_behind(source: &Source, at: u32) -> TokenKind
    ensures { result ≡ spec.kind_behind source.now at }
{
    if at as usize > source.bytes().len() {
        return TokenKind::End;
    }
    match next(source, at, Goal::Div) {
        Ok(token) => token.kind,
        Err(_) => TokenKind::End,
    }
}

/// Where the token behind the offset begins, if it is a whole one.
pub fn start_behind(source: &Source, at: u32) -> Option<u32>
    ensures { result ≡ exports.start_behind source.now at }
{
    if at as usize > source.bytes().len() {
        return None;
    }
    match next(source, at, Goal::Div) {
        Ok(token) => Some(token.start),
        Err(_) => None,
    }
}

// Whether a key begins with the token.
fn begins_key(kind: TokenKind) -> bool
    ensures { result ≡ spec.begins_key kind }
{
    match kind {
        TokenKind::Name(_) => true,
        TokenKind::Quoted => true,
        TokenKind::Number => true,
        TokenKind::BigInt => true,
        TokenKind::Private => true,
        TokenKind::Punctuator(_) => kind.is_punctuator(Punctuator::OpenBracket),
        _ => false,
    }
}

// Whether a key ends before the token, whatever its name.
fn ends_key(kind: TokenKind) -> bool
    ensures { result ≡ spec.ends_key kind }
{
    kind.is_punctuator(Punctuator::Semicolon)
        || kind.is_punctuator(Punctuator::CloseBrace)
        || kind.is_punctuator(Punctuator::Assign)
}

/// How the new name is spelled at the stretch of an identifier in this seat.
pub fn spelling_at(source: &Source, span: Span, seat: Seat) -> Spelling
    ensures { result ≡ spec.spelling_at source.now span seat }
{
    match seat {
        Seat::Free => Spelling::Name,
        Seat::Head => {
            if kind_behind(source, span.end).is_punctuator(Punctuator::CloseParen) {
                Spelling::Name
            } else {
                Spelling::Grouped
            }
        }
        Seat::Accessor => {
            if begins_key(kind_behind(source, span.end)) {
                Spelling::Ended
            } else {
                Spelling::Name
            }
        }
        Seat::Modifier => {
            if ends_key(kind_behind(source, span.end)) {
                Spelling::Name
            } else {
                Spelling::Ended
            }
        }
    }
}
