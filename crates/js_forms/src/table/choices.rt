//! The choices within spellings.

use crate::category::Category;
use crate::context::Scope;
use crate::levels::{ASSIGNMENT, CHAIN, SEQUENCE};
use crate::piece::{Blank, Choice, MetaWord, Piece, Place, Test};
use js_tokens::{Punctuator, Word};

const SPACE: Piece = Piece::Blank(Blank::Space);

const ABSENT: Piece = Piece::Hole;

const BLOCK: Piece = child!(Block, 0, Same);

const PARAMETERS: Piece = Piece::Commas(
    place!(BindingElement, ASSIGNMENT, Parameters),
    false,
    true,
);

/// The two rows of each choice. Where the first begins with a test of the next token, that tells a
/// reader which it is. Of two that fit a tree, made text has the first.
pub const CHOICES: &[(Choice, &[Piece], &[Piece])] = choices! {
    Name: [Piece::Ahead(Test::FreeName), SPACE, child!(Name, 0, Same)] [ABSENT];
    Heritage:
        [SPACE, word!(Extends), SPACE, child!(Expression, CHAIN, Same)]
        [Piece::Ahead(Test::NotWord(Word::Extends)), ABSENT];
    ArrowParameters:
        [mark!(OpenParen), PARAMETERS, mark!(CloseParen)]
        [Piece::Into(place!(Name, 0, Parameters)), Piece::NoList(None)];
    ArrowBody:
        [Piece::Ahead(Test::NotPunctuator(Punctuator::OpenBrace)),
            child!(ArrowBody, ASSIGNMENT, ArrowBody)]
        [child!(FunctionBody, 0, Body)];
    LastComma: [Piece::Ahead(Test::NotPunctuator(Punctuator::Comma))] [mark!(Comma)];
    Argument: [Piece::Ahead(Test::GoesOn), SPACE, child!(Expression, SEQUENCE, Same)] [ABSENT];
    Label: [Piece::Ahead(Test::GoesOn), SPACE, child!(Name, 0, Same)] [ABSENT];
    Else:
        [SPACE, word!(Else), SPACE, child!(Statement, 0, Same)]
        [Piece::Ahead(Test::NotWord(Word::Else)), ABSENT];
    CatchParameter:
        [mark!(OpenParen), child!(Binding, 0, Free), mark!(CloseParen), SPACE]
        [Piece::Ahead(Test::NotPunctuator(Punctuator::OpenParen)), ABSENT];
    Handler:
        [Piece::Ahead(Test::Word(Word::Catch)), SPACE, child!(Catch, 0, Same)]
        [Piece::Ahead(Test::NotWord(Word::Catch)), ABSENT];
    Finalizer:
        [SPACE, word!(Finally), SPACE, BLOCK]
        [Piece::Ahead(Test::NotWord(Word::Finally)), ABSENT];
    Semicolon: [mark!(Semicolon)] [Piece::Ahead(Test::NotPunctuator(Punctuator::Semicolon))];
    ForInit:
        [Piece::Ahead(Test::NotPunctuator(Punctuator::Semicolon)),
            child!(ForInit, SEQUENCE, WithoutIn)]
        [ABSENT];
    ForTest:
        [Piece::Ahead(Test::NotPunctuator(Punctuator::Semicolon)),
            child!(Expression, SEQUENCE, Same)]
        [ABSENT];
    ForUpdate:
        [Piece::Ahead(Test::NotPunctuator(Punctuator::CloseParen)),
            child!(Expression, SEQUENCE, Same)]
        [ABSENT];
    ExportedAs:
        [SPACE, Piece::Token(Test::Spelled(MetaWord::As)), SPACE, child!(AnyName, 0, Same)]
        [Piece::Ahead(Test::NotSpelled(MetaWord::As)), ABSENT];
};
