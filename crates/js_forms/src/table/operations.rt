//! Expressions with operands, and patterns (ECMA-262, clauses 13.3 to 13.16, 14.3.3 and 15).

use crate::category::Category;
use crate::context::Scope;
use crate::form::{Form, Key, Link};
use crate::levels::{
    ADDITIVE, ASSIGNMENT, CALL, CHAIN, COALESCE, CONDITIONAL, MEMBER, PRIMARY, SEQUENCE, UNARY,
    UPDATE,
};
use crate::operator::Operator;
use crate::piece::{Blank, Fixed, MetaWord, Own, Piece, Place, Spelling, Test};
use crate::table::Row;
use js_tokens::{Punctuator, Word};
use type_defs::Kind;

const SPACE: Piece = Piece::Blank(Blank::Space);

const INSIDE: Piece = Piece::Blank(Blank::Inside);

const SEQUENCE_IN: Piece = child!(Expression, SEQUENCE, Free);

const VALUE: Piece = child!(Expression, ASSIGNMENT, Same);

const ARGUMENTS: Piece = Piece::Commas(place!(Argument, ASSIGNMENT, Free), false, true);

const OPERAND: Place = place!(Operand, 0, Same);

const FIRST: Piece = Piece::First(OPERAND);

const PLUS: Operator = Operator::Mark(Punctuator::Plus);

/// Clauses 13.3 to 13.16, 14.3.3, 15.5 and 15.8.
pub const OPERATIONS: &[Row] = rows! {
    // 13.3.11
    Form::Tagged, TaggedTemplateExpression, MEMBER:
        Usual [FIRST, child!(Template, 0, Same)];
    // 13.3.2, 13.3.9
    Form::Dot(Link::Plain), MemberExpression, MEMBER:
        Usual [fixed!(False), fixed!(Optional), FIRST, own!(Dot), child!(Member, 0, Same)];
    Form::Index(Link::Plain), MemberExpression, MEMBER:
        Usual [fixed!(True), fixed!(Optional), FIRST, own!(Link), mark!(OpenBracket),
            SEQUENCE_IN, mark!(CloseBracket)];
    // 13.3.6
    Form::Call(Link::Plain), CallExpression, CALL:
        Usual [fixed!(Optional), FIRST, own!(Link), mark!(OpenParen), ARGUMENTS,
            mark!(CloseParen)];
    // 13.3.5
    Form::New, NewExpression, MEMBER:
        Usual [word!(New), SPACE, child!(Expression, MEMBER, Same), mark!(OpenParen), ARGUMENTS,
            mark!(CloseParen)]
        WithoutArguments [word!(New), SPACE, child!(Callee, MEMBER, Same),
            Piece::NoList(Some(place!(Argument, ASSIGNMENT, Free)))];
    // 13.3.10
    Form::ImportCall, ImportExpression, CALL:
        Usual [word!(Import), mark!(OpenParen), child!(Expression, ASSIGNMENT, Free),
            mark!(CloseParen)];
    // 13.3.9
    Form::Chain, ChainExpression, CHAIN:
        Usual [Piece::First(OPERAND)];
    // 13.3.12
    Form::NewTarget, MetaProperty, MEMBER:
        Usual [fixed!(NewTarget), word!(New), mark!(Dot),
            Piece::Token(Test::Spelled(MetaWord::Target))];
    Form::ImportMeta, MetaProperty, MEMBER:
        Usual [fixed!(ImportMeta), word!(Import), mark!(Dot),
            Piece::Token(Test::Spelled(MetaWord::Meta))];
    // 13.4
    Form::Prefix(PLUS), UpdateExpression, UPDATE:
        Usual [fixed!(Operator), fixed!(True), own!(Operator), child!(Target, UPDATE, Same)];
    Form::Postfix(PLUS), UpdateExpression, UPDATE:
        Usual [fixed!(Operator), fixed!(False), FIRST, Piece::Ahead(Test::SameLine),
            own!(Operator)];
    // 13.5
    Form::Unary(PLUS), UnaryExpression, UNARY:
        Usual [fixed!(Operator), own!(Operator), own!(OperatorSpace),
            child!(Expression, UNARY, Same)];
    // 15.8
    Form::Await, AwaitExpression, UNARY:
        Usual [word!(Await), SPACE, child!(Expression, UNARY, Same)];
    // 15.5
    Form::Yield, YieldExpression, ASSIGNMENT:
        Usual [fixed!(False), word!(Yield), Piece::Hole];
    Form::YieldValue, YieldExpression, ASSIGNMENT:
        Usual [fixed!(False), word!(Yield), Piece::Ahead(Test::SameLine), SPACE, VALUE];
    Form::YieldStar, YieldExpression, ASSIGNMENT:
        Usual [fixed!(True), word!(Yield), Piece::Ahead(Test::SameLine), mark!(Star), SPACE,
            VALUE];
    // 13.6 to 13.12
    Form::Binary(PLUS), BinaryExpression, ADDITIVE:
        Usual [fixed!(Operator), FIRST, SPACE, own!(Operator), SPACE, own!(Right)];
    // 13.13
    Form::Logical(PLUS), LogicalExpression, COALESCE:
        Usual [fixed!(Operator), FIRST, SPACE, own!(Operator), SPACE, own!(Right)];
    // 13.14
    Form::Conditional, ConditionalExpression, CONDITIONAL:
        Usual [FIRST, SPACE, mark!(Question), SPACE, child!(Expression, ASSIGNMENT, Free), SPACE,
            mark!(Colon), SPACE, VALUE];
    // 13.15
    Form::Assignment(PLUS), AssignmentExpression, ASSIGNMENT:
        Usual [fixed!(Operator), FIRST, SPACE, own!(Operator), SPACE, VALUE];
    // 13.16
    Form::Sequence, SequenceExpression, SEQUENCE:
        Usual [Piece::Into(place!(Expression, ASSIGNMENT, Same)), mark!(Comma), SPACE,
            Piece::Commas(place!(Expression, ASSIGNMENT, Same), false, false)];
    // 13.2.4, 13.2.5, 13.3
    Form::Spread, SpreadElement, PRIMARY:
        Usual [mark!(Ellipsis), child!(Cover, ASSIGNMENT, Free)];
    // 14.3.3, 13.15.5
    Form::ArrayPattern, ArrayPattern, PRIMARY:
        Declares [mark!(OpenBracket),
            Piece::Commas(place!(BindingElement, ASSIGNMENT, Free), true, true),
            mark!(CloseBracket)]
        Assigns [mark!(OpenBracket),
            Piece::Commas(place!(AssignedElement, ASSIGNMENT, Free), true, true),
            mark!(CloseBracket)];
    Form::ObjectPattern, ObjectPattern, PRIMARY:
        Declares [mark!(OpenBrace), INSIDE,
            Piece::Commas(place!(BindingProperty, ASSIGNMENT, Free), false, true), INSIDE,
            mark!(CloseBrace)]
        Assigns [mark!(OpenBrace), INSIDE,
            Piece::Commas(place!(AssignedProperty, ASSIGNMENT, Free), false, true), INSIDE,
            mark!(CloseBrace)];
    Form::PatternProperty(Key::Plain), AssignmentProperty, PRIMARY:
        Declares [fixed!(False), fixed!(Computed), own!(KeyOpen), own!(Key), own!(KeyClose),
            mark!(Colon), SPACE, child!(BindingValue, ASSIGNMENT, Free)]
        Assigns [fixed!(False), fixed!(Computed), own!(KeyOpen), own!(Key), own!(KeyClose),
            mark!(Colon), SPACE, child!(AssignedValue, ASSIGNMENT, Free)];
    Form::PatternShorthand, AssignmentProperty, PRIMARY:
        Usual [fixed!(True), fixed!(False), Piece::Twins(true, place!(ShortValue, 0, Same))];
    Form::Default, AssignmentPattern, PRIMARY:
        Declares [child!(Binding, 0, Same), SPACE, mark!(Assign), SPACE,
            child!(Expression, ASSIGNMENT, Free)]
        Assigns [child!(Assigned, 0, Same), SPACE, mark!(Assign), SPACE,
            child!(Expression, ASSIGNMENT, Free)]
        Short [child!(Name, 0, Same), SPACE, mark!(Assign), SPACE,
            child!(Expression, ASSIGNMENT, Free)];
    Form::Rest, RestElement, PRIMARY:
        Declares [mark!(Ellipsis), child!(Binding, 0, Free)]
        Assigns [mark!(Ellipsis), child!(Assigned, 0, Free)];
    Form::NameRest, RestElement, PRIMARY:
        Declares [mark!(Ellipsis), child!(Name, 0, Same)]
        Assigns [mark!(Ellipsis), child!(Target, UPDATE, Same)];
};
