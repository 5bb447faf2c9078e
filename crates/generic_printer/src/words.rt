//! The texts of tokens.

use crate::characters::{push_directive, push_string, push_units};
use crate::fronts::end_bytes;
use crate::parts::Token;
use crate::sink::Sink;
use cm_text::LineEnd;
use js_forms::Lexeme;
use js_tokens::Goal;
use std::alloc::AllocError;
use tree_core::{Comment, Scalar, Tree};

// The text that is the scalar of this number; empty where it is none.
fn units_at(node: &Tree, at: usize) -> &[u16] {
    match node.scalars.get(at) {
        Some(Scalar::Text(units)) => units.get(),
        _ => &[],
    }
}

fn push_bytes(out: &mut Vec<u8>, bytes: &[u8]) -> Result<(), AllocError> {
    out.extend_from_slice(bytes)?;
    Ok(())
}

fn push_regex(out: &mut Vec<u8>, node: &Tree) -> Result<(), AllocError> {
    out.push(b'/')?;
    push_units(out, units_at(node, 1))?;
    out.push(b'/')?;
    push_units(out, units_at(node, 2))
}

fn push_lexeme(
    out: &mut Vec<u8>,
    single: bool,
    node: &Tree,
    lexeme: Lexeme,
) -> Result<(), AllocError> {
    match lexeme {
        Lexeme::FreeName | Lexeme::AnyName => push_units(out, units_at(node, 0)),
        Lexeme::PrivateName => {
            out.push(b'#')?;
            push_units(out, units_at(node, 0))
        }
        Lexeme::Quoted => { push_string(out, if single { b'\'' } else { b'"' }, units_at(node, 1)) }
        Lexeme::Number | Lexeme::BigInt => push_units(out, units_at(node, 1)),
        Lexeme::Regex => push_regex(out, node),
        Lexeme::Directive => push_directive(out, single, units_at(node, 0)),
    }
}

fn push_interpreter(out: &mut Vec<u8>, end: LineEnd, node: &Tree) -> Result<(), AllocError> {
    match node.scalars.get(0) {
        Some(Scalar::Text(units)) => {
            push_bytes(out, b"#!")?;
            push_units(out, units.get())?;
            push_bytes(out, end_bytes(end))
        }
        _ => Ok(()),
    }
}

fn push_token(
    out: &mut Vec<u8>,
    single: bool,
    end: LineEnd,
    node: &Tree,
    token: Token,
) -> Result<(), AllocError> {
    match token {
        Token::Punctuator(mark) => push_bytes(out, mark.spelling().as_bytes()),
        Token::Word(word) => push_bytes(out, word.spelling().as_bytes()),
        Token::Meta(word) => push_bytes(out, word.spelling().as_bytes()),
        Token::Text(lexeme) => push_lexeme(out, single, node, lexeme),
        Token::Interpreter => push_interpreter(out, end, node),
        Token::Characters => push_units(out, units_at(node, 0)),
        Token::OpenTemplate | Token::CloseTemplate => push_bytes(out, b"`"),
        Token::OpenHole => push_bytes(out, b"${"),
        Token::CloseHole => push_bytes(out, b"}"),
        Token::LastComma => push_bytes(out, b","),
        Token::Semicolon => push_bytes(out, b";"),
    }
}

/// Writes a token of the node.
pub fn write_token(sink: &mut Sink, node: &Tree, token: Token) -> Result<(), AllocError> {
    let single = sink.single;
    let end = sink.end;
    match token {
        Token::Characters | Token::CloseTemplate | Token::OpenHole => {
            let from = sink.out.len();
            push_token(&mut sink.out, single, end, node, token)?;
            sink.raw(from);
            Ok(())
        }
        Token::OpenTemplate | Token::CloseHole | Token::Interpreter => {
            let from = sink.begin()?;
            push_token(&mut sink.out, single, end, node, token)?;
            sink.other(from)
        }
        Token::Text(Lexeme::Regex) => {
            let from = sink.begin()?;
            push_token(&mut sink.out, single, end, node, token)?;
            sink.token(from, Goal::RegExp)
        }
        _ => {
            let from = sink.begin()?;
            push_token(&mut sink.out, single, end, node, token)?;
            sink.token(from, Goal::Div)
        }
    }
}

/// Writes a comment without blanks.
pub fn write_comment(sink: &mut Sink, comment: &Comment) -> Result<(), AllocError> {
    let from = sink.begin()?;
    let opening: &[u8] = if comment.block { b"/*" } else { b"//" };
    push_bytes(&mut sink.out, opening)?;
    push_units(&mut sink.out, comment.text.get())?;
    if comment.block {
        push_bytes(&mut sink.out, b"*/")?;
    }
    sink.other(from)
}

/// Adds the bytes of a word or a punctuator.
pub fn spell(out: &mut Vec<u8>, node: &Tree, token: Token) -> Result<(), AllocError> {
    push_token(out, false, LineEnd::Lf, node, token)
}
