//! Statements and declarations (ECMA-262, clauses 14 to 16.1).

use crate::category::Category;
use crate::context::Scope;
use crate::form::{Flow, Form, Variable};
use crate::levels::{ASSIGNMENT, PRIMARY, SEQUENCE};
use crate::piece::{Blank, Choice, Fixed, Lexeme, Own, Piece, Place, Spelling, Test};
use crate::table::Row;
use asi_rules::Ending;
use js_tokens::{Punctuator, Word};
use type_defs::Kind;

const SPACE: Piece = Piece::Blank(Blank::Space);

const ITEMS: Piece = Piece::Blank(Blank::Items);

const LINE: Piece = Piece::Blank(Blank::Line);

const OPEN: Piece = mark!(OpenParen);

const CLOSE: Piece = mark!(CloseParen);

const BODY: Piece = child!(Statement, 0, Same);

const BLOCK: Piece = child!(Block, 0, Same);

const NAME: Piece = child!(Name, 0, Same);

const SEQUENCE_IN: Piece = child!(Expression, SEQUENCE, Free);

const ITEM_ROW: Piece = Piece::Row(place!(Item, 0, Same), false);

const DECLARATORS: Piece = Piece::Commas(place!(Declarator, 0, Same), false, false);

const PARAMETERS: Piece = Piece::Commas(
    place!(BindingElement, ASSIGNMENT, Parameters),
    false,
    true,
);

const END: Piece = Piece::End(Ending::Statement, false);

/// Clauses 14, 15 and 16.1.
pub const STATEMENTS: &[Row] = rows! {
    // 16.1
    Form::Program, Program, PRIMARY:
        Usual [Piece::Interpreter, Piece::Row(place!(ModuleItem, 0, Directives), false),
            Piece::Token(Test::End)];
    // 11.2.1
    Form::Directive, Directive, PRIMARY:
        Usual [Piece::Text(Lexeme::Directive), END];
    // 14.5
    Form::ExpressionStatement, ExpressionStatement, PRIMARY:
        Usual [Piece::Ahead(Test::Expression), Piece::First(place!(Operand, 0, Stay)), END];
    // 14.2
    Form::Block, BlockStatement, PRIMARY:
        Usual [mark!(OpenBrace), ITEMS, ITEM_ROW, LINE, mark!(CloseBrace)];
    Form::FunctionBody, BlockStatement, PRIMARY:
        Usual [mark!(OpenBrace), ITEMS, Piece::Row(place!(Item, 0, Directives), false), LINE,
            mark!(CloseBrace)];
    // 14.4
    Form::Empty, EmptyStatement, PRIMARY:
        Usual [mark!(Semicolon)];
    // 14.16
    Form::Debugger, DebuggerStatement, PRIMARY:
        Usual [word!(Debugger), END];
    // 14.11
    Form::With, WithStatement, PRIMARY:
        Usual [word!(With), SPACE, OPEN, SEQUENCE_IN, CLOSE, SPACE, BODY];
    // 14.10
    Form::Return, ReturnStatement, PRIMARY:
        Usual [word!(Return), choice!(Argument), END];
    // 14.13
    Form::Labeled, LabeledStatement, PRIMARY:
        Usual [NAME, mark!(Colon), SPACE, BODY];
    // 14.9
    Form::Break, BreakStatement, PRIMARY:
        Usual [word!(Break), choice!(Label), END];
    // 14.8
    Form::Continue, ContinueStatement, PRIMARY:
        Usual [word!(Continue), choice!(Label), END];
    // 14.6
    Form::If, IfStatement, PRIMARY:
        Usual [word!(If), SPACE, OPEN, SEQUENCE_IN, CLOSE, SPACE, BODY, choice!(Else)];
    // 14.12
    Form::Switch, SwitchStatement, PRIMARY:
        Usual [word!(Switch), SPACE, OPEN, SEQUENCE_IN, CLOSE, SPACE, mark!(OpenBrace), ITEMS,
            Piece::Row(place!(Case, 0, Same), false), LINE, mark!(CloseBrace)];
    Form::Case, SwitchCase, PRIMARY:
        Usual [word!(Case), SPACE, SEQUENCE_IN, mark!(Colon), ITEMS, ITEM_ROW];
    Form::DefaultCase, SwitchCase, PRIMARY:
        Usual [word!(Default), Piece::Hole, mark!(Colon), ITEMS, ITEM_ROW];
    // 14.14
    Form::Throw, ThrowStatement, PRIMARY:
        Usual [word!(Throw), Piece::Ahead(Test::SameLine), SPACE, SEQUENCE_IN, END];
    // 14.15
    Form::Try, TryStatement, PRIMARY:
        Usual [word!(Try), SPACE, BLOCK, Piece::Ahead(Test::OneOf(Word::Catch, Word::Finally)),
            choice!(Handler), choice!(Finalizer)];
    Form::Catch, CatchClause, PRIMARY:
        Usual [word!(Catch), SPACE, choice!(CatchParameter), BLOCK];
    // 14.7.3
    Form::While, WhileStatement, PRIMARY:
        Usual [word!(While), SPACE, OPEN, SEQUENCE_IN, CLOSE, SPACE, BODY];
    // 14.7.2
    Form::DoWhile, DoWhileStatement, PRIMARY:
        Usual [word!(Do), SPACE, BODY, SPACE, word!(While), SPACE, OPEN, SEQUENCE_IN, CLOSE,
            choice!(Semicolon)];
    // 14.7.4
    Form::For, ForStatement, PRIMARY:
        Usual [word!(For), SPACE, OPEN, choice!(ForInit), mark!(Semicolon), SPACE,
            choice!(ForTest), mark!(Semicolon), SPACE, choice!(ForUpdate), CLOSE, SPACE, BODY];
    // 14.7.5
    Form::ForIn, ForInStatement, PRIMARY:
        Usual [word!(For), SPACE, OPEN, child!(ForLeft, 0, WithoutIn), SPACE, word!(In), SPACE,
            child!(Expression, SEQUENCE, Same), CLOSE, SPACE, BODY];
    Form::ForOf, ForOfStatement, PRIMARY:
        Usual [fixed!(False), word!(For), SPACE, OPEN, child!(ForLeft, 0, WithoutIn), SPACE,
            word!(Of), SPACE, child!(Expression, ASSIGNMENT, Same), CLOSE, SPACE, BODY];
    Form::ForAwait, ForOfStatement, PRIMARY:
        Usual [fixed!(True), word!(For), SPACE, word!(Await), SPACE, OPEN,
            child!(ForLeft, 0, WithoutIn), SPACE, word!(Of), SPACE,
            child!(Expression, ASSIGNMENT, Same), CLOSE, SPACE, BODY];
    // 14.3
    Form::Variables(Variable::Var), VariableDeclaration, PRIMARY:
        Usual [fixed!(DeclarationKind), own!(VariableWord), SPACE, DECLARATORS, END];
    Form::HeadVariables(Variable::Var), VariableDeclaration, PRIMARY:
        Usual [fixed!(DeclarationKind), own!(VariableWord), SPACE, DECLARATORS]
        BeforeLoop [fixed!(DeclarationKind), own!(VariableWord), SPACE,
            Piece::Into(place!(LoneDeclarator, 0, Same)),
            Piece::NoList(Some(place!(LoneDeclarator, 0, Same)))];
    Form::Declarator, VariableDeclarator, PRIMARY:
        NameAlone [NAME, Piece::Hole]
        PatternAlone [Piece::Ahead(Test::Pattern), child!(Binding, 0, Same), Piece::Hole]
        WithValue [child!(Binding, 0, Same), SPACE, mark!(Assign), SPACE,
            child!(Expression, ASSIGNMENT, Same)];
    // 15.2, 15.5, 15.6, 15.8
    Form::FunctionDeclaration(Flow::Plain), FunctionDeclaration, PRIMARY:
        Usual [fixed!(Async), fixed!(Generator), own!(Async), own!(AsyncLine), own!(AsyncSpace),
            word!(Function), own!(Star), SPACE, NAME, OPEN, PARAMETERS, CLOSE, SPACE,
            child!(FunctionBody, 0, Body)]
        Default [fixed!(Async), fixed!(Generator), own!(Async), own!(AsyncLine),
            own!(AsyncSpace), word!(Function), own!(Star), choice!(Name), OPEN, PARAMETERS,
            CLOSE, SPACE, child!(FunctionBody, 0, Body)];
    // 15.7
    Form::ClassDeclaration, ClassDeclaration, PRIMARY:
        Usual [word!(Class), SPACE, NAME, choice!(Heritage), SPACE, child!(ClassBody, 0, Class)]
        Default [word!(Class), choice!(Name), choice!(Heritage), SPACE,
            child!(ClassBody, 0, Class)];
};
