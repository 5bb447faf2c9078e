//! Names, literals, arrays, objects, functions, classes and templates (ECMA-262, clauses 13.1, 13.2
//! and 15).

use crate::category::Category;
use crate::context::Scope;
use crate::form::{Access, Flow, Form, Key, Sort, Standing};
use crate::levels::{ASSIGNMENT, PRIMARY};
use crate::piece::{Blank, Choice, Fixed, Lexeme, Own, Piece, Place, Spelling, Test};
use crate::table::Row;
use asi_rules::Ending;
use js_tokens::{Punctuator, Word};
use type_defs::Kind;

const SPACE: Piece = Piece::Blank(Blank::Space);

const INSIDE: Piece = Piece::Blank(Blank::Inside);

const ITEMS: Piece = Piece::Blank(Blank::Items);

const LINE: Piece = Piece::Blank(Blank::Line);

const PARAMETERS: Piece = Piece::Commas(
    place!(BindingElement, ASSIGNMENT, Parameters),
    false,
    true,
);

const FUNCTION_BODY: Piece = child!(FunctionBody, 0, Body);

const CLASS_BODY: Piece = child!(ClassBody, 0, Class);

/// Clauses 13.1 to 13.2, 15.2 to 15.8.
pub const PRIMARIES: &[Row] = rows! {
    Form::Name, Identifier, PRIMARY:
        Usual [Piece::Text(Lexeme::FreeName)];
    Form::AnyName, Identifier, PRIMARY:
        Usual [Piece::Text(Lexeme::AnyName)];
    Form::PrivateName, PrivateIdentifier, PRIMARY:
        Usual [Piece::Text(Lexeme::PrivateName)];
    // 13.2.3
    Form::Literal(Sort::Null), Literal, PRIMARY:
        Usual [fixed!(LiteralKind), fixed!(WordValue), fixed!(WordFlags), own!(Literal)];
    // 13.2.1
    Form::This, ThisExpression, PRIMARY:
        Usual [word!(This)];
    // 13.3.7
    Form::Super, Super, PRIMARY:
        Usual [word!(Super)];
    // 13.2.4
    Form::Array, ArrayExpression, PRIMARY:
        Usual [mark!(OpenBracket), Piece::Commas(place!(Element, ASSIGNMENT, Free), true, true),
            mark!(CloseBracket)];
    // 13.2.5
    Form::Object, ObjectExpression, PRIMARY:
        Usual [mark!(OpenBrace), INSIDE,
            Piece::Commas(place!(ObjectItem, ASSIGNMENT, Free), false, true), INSIDE,
            mark!(CloseBrace)];
    Form::Property(Key::Plain), Property, PRIMARY:
        Usual [fixed!(PropertyKind), fixed!(IsMethod), fixed!(False), fixed!(Computed),
            own!(KeyOpen), own!(Key), own!(KeyClose), mark!(Colon), SPACE,
            child!(Cover, ASSIGNMENT, Free)];
    Form::ShorthandProperty, Property, PRIMARY:
        Usual [fixed!(PropertyKind), fixed!(IsMethod), fixed!(True), fixed!(Computed),
            Piece::Twins(true, place!(Name, 0, Same))];
    // 15.4
    Form::PropertyMethod(Access::Method, Flow::Plain, Key::Plain), Property, PRIMARY:
        Usual [fixed!(PropertyKind), fixed!(IsMethod), fixed!(False), fixed!(Computed),
            own!(Access), own!(AccessSpace), own!(Async), own!(AsyncLine), own!(AsyncSpace),
            own!(Star), own!(KeyOpen), own!(Key), own!(KeyClose), own!(Method)];
    // 15.2
    Form::Function(Flow::Plain), FunctionExpression, PRIMARY:
        Usual [fixed!(Async), fixed!(Generator), own!(Async), own!(AsyncLine), own!(AsyncSpace),
            word!(Function), own!(Star), choice!(Name), mark!(OpenParen), PARAMETERS,
            mark!(CloseParen), SPACE, FUNCTION_BODY];
    // 15.4
    Form::MethodValue(Flow::Plain), FunctionExpression, PRIMARY:
        Usual [fixed!(Async), fixed!(Generator), Piece::Hole, mark!(OpenParen), PARAMETERS,
            mark!(CloseParen), SPACE, FUNCTION_BODY];
    Form::GetterValue, FunctionExpression, PRIMARY:
        Usual [fixed!(False), fixed!(False), Piece::Hole, mark!(OpenParen), Piece::NoList(None),
            mark!(CloseParen), SPACE, FUNCTION_BODY];
    Form::SetterValue, FunctionExpression, PRIMARY:
        Usual [fixed!(False), fixed!(False), Piece::Hole, mark!(OpenParen),
            Piece::Into(place!(BindingValue, ASSIGNMENT, Parameters)),
            Piece::NoList(Some(place!(BindingValue, ASSIGNMENT, Parameters))),
            choice!(LastComma), mark!(CloseParen), SPACE, FUNCTION_BODY];
    // 15.3, 15.9
    Form::Arrow(Flow::Plain), ArrowFunctionExpression, ASSIGNMENT:
        Usual [fixed!(Async), own!(Async), own!(AsyncLine), own!(AsyncSpace),
            choice!(ArrowParameters), Piece::Ahead(Test::SameLine), SPACE, mark!(Arrow), SPACE,
            choice!(ArrowBody)];
    // 15.7
    Form::Class, ClassExpression, PRIMARY:
        Usual [word!(Class), choice!(Name), choice!(Heritage), SPACE, CLASS_BODY];
    Form::ClassBody, ClassBody, PRIMARY:
        Usual [mark!(OpenBrace), ITEMS, Piece::Row(place!(ClassItem, 0, Same), true), LINE,
            mark!(CloseBrace)];
    Form::Method(Access::Method, Standing::Instance, Flow::Plain, Key::Plain), MethodDefinition, PRIMARY:
        Usual [fixed!(MethodKind), fixed!(Static), fixed!(Computed), own!(Static),
            own!(StaticSpace), own!(Access), own!(AccessSpace), own!(Async), own!(AsyncLine),
            own!(AsyncSpace), own!(Star), own!(KeyOpen), own!(Key), own!(KeyClose), own!(Method)];
    Form::Field(Standing::Instance, Key::Plain), PropertyDefinition, PRIMARY:
        Usual [fixed!(Computed), fixed!(Static), own!(Static), own!(StaticSpace),
            own!(FieldName), own!(KeyOpen), own!(Key), own!(KeyClose), Piece::Hole,
            Piece::End(Ending::Field, false)]
        WithValue [fixed!(Computed), fixed!(Static), own!(Static), own!(StaticSpace),
            own!(KeyOpen), own!(Key), own!(KeyClose), SPACE, mark!(Assign), SPACE,
            child!(Expression, ASSIGNMENT, Field), Piece::End(Ending::FieldValue, false)]
        AccessorName [fixed!(Computed), fixed!(Static), own!(Static), own!(StaticSpace),
            Piece::Ahead(Test::OneOf(Word::Get, Word::Set)), own!(KeyOpen), own!(Key),
            own!(KeyClose), Piece::Hole, Piece::End(Ending::AccessorName, false)]
        StaticName [fixed!(Computed), fixed!(Static), own!(StaticName), own!(KeyOpen), own!(Key),
            own!(KeyClose), Piece::Hole, Piece::End(Ending::StaticName, false)];
    Form::StaticBlock, StaticBlock, PRIMARY:
        Usual [word!(Static), SPACE, mark!(OpenBrace), ITEMS,
            Piece::Row(place!(Item, 0, Field), false), LINE, mark!(CloseBrace)];
    // 13.2.8
    Form::Template, TemplateLiteral, PRIMARY:
        Usual [Piece::Template(true)]
        Tagged [Piece::Template(false)];
    // the pieces of a template spell its characters
    Form::TemplateElement, TemplateElement, PRIMARY:;
};
