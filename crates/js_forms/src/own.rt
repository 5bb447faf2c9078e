//! The pieces that the fields of a form tell.

ghost use Rattle.std.specs.Prelude.{◌≡◌};
ghost use Rattle.js_forms.specs.Own as spec;

use crate::category::Category;
use crate::context::Scope;
use crate::fixed::{is_computed, is_optional, is_static};
use crate::form::{Access, Flow, Form, Key, Link, Sort, Standing, Variable};
use crate::levels::right_level;
use crate::operator::Operator;
use crate::piece::{Blank, Lexeme, Own, Piece, Place, Test};
use js_tokens::{Punctuator, Word};

const SPACE: Piece = Piece::Blank(Blank::Space);

/// Whether the key of a member is in brackets.
pub fn key_of(form: Form) -> Key
    ensures { result ≡ spec.key_of form }
{
    match form {
        Form::Property(key)
        | Form::PropertyMethod(_, _, key)
        | Form::Method(_, _, _, key)
        | Form::Field(_, key)
        | Form::PatternProperty(key) => key,
        _ => Key::Plain,
    }
}

/// What a method is to its object or class.
pub fn access_of(form: Form) -> Access
    ensures { result ≡ spec.access_of form }
{
    match form {
        Form::PropertyMethod(access, _, _) | Form::Method(access, _, _, _) => access,
        _ => Access::Method,
    }
}

/// Whether a member belongs to the class itself.
pub fn standing_of(form: Form) -> Standing
    ensures { result ≡ spec.standing_of form }
{
    match form {
        Form::Method(_, standing, _, _) | Form::Field(standing, _) => standing,
        _ => Standing::Instance,
    }
}

/// Whether a member or a call is written with `?.`.
pub fn link_of(form: Form) -> Link
    ensures { result ≡ spec.link_of form }
{
    match form {
        Form::Dot(link) | Form::Index(link) | Form::Call(link) => link,
        _ => Link::Plain,
    }
}

/// What a literal is.
pub fn sort_of(form: Form) -> Sort
    ensures { result ≡ spec.sort_of form }
{
    match form {
        Form::Literal(sort) => sort,
        _ => Sort::Null,
    }
}

/// The word of a declaration of variables.
pub fn variable_of(form: Form) -> Variable
    ensures { result ≡ spec.variable_of form }
{
    match form {
        Form::Variables(variable) | Form::HeadVariables(variable) => variable,
        _ => Variable::Var,
    }
}

fn when(told: bool, piece: Piece) -> Piece
    ensures { result ≡ spec.when told piece }
{
    if told { piece } else { Piece::Nothing }
}

fn word(name: Word) -> Piece
    ensures { result ≡ spec.word name }
{
    Piece::Token(Test::Word(name))
}

fn punctuator(mark: Punctuator) -> Piece
    ensures { result ≡ spec.punctuator mark }
{
    Piece::Token(Test::Punctuator(mark))
}

fn child(category: Category) -> Piece
    ensures { result ≡ spec.child category }
{
    Piece::Child(Place {
        category,
        least: 0,
        scope: Scope::Same,
    })
}

fn operator_token(operator: Option<Operator>) -> Piece
    ensures { result ≡ spec.operator_token operator }
{
    match operator {
        Some(Operator::Mark(mark)) => punctuator(mark),
        Some(Operator::Word(name)) => word(name),
        None => Piece::Nothing,
    }
}

fn operator_space(operator: Option<Operator>) -> Piece
    ensures { result ≡ spec.operator_space operator }
{
    match operator {
        Some(Operator::Word(_)) => SPACE,
        Some(Operator::Mark(_)) | None => Piece::Nothing,
    }
}

// How the function runs, where words before its key tell it.
fn told_flow(form: Form) -> Flow
    ensures { result ≡ spec.told_flow form }
{
    match access_of(form) {
        Access::Get | Access::Set => Flow::Plain,
        Access::Method | Access::Constructor => form.flow(),
    }
}

fn access_word(access: Access) -> Piece
    ensures { result ≡ spec.access_word access }
{
    match access {
        Access::Get => word(Word::Get),
        Access::Set => word(Word::Set),
        Access::Method | Access::Constructor => Piece::Nothing,
    }
}

fn access_space(access: Access) -> Piece
    ensures { result ≡ spec.access_space access }
{
    match access {
        Access::Get | Access::Set => SPACE,
        Access::Method | Access::Constructor => Piece::Nothing,
    }
}

fn key_category(form: Form) -> Category
    ensures { result ≡ spec.key_category form }
{
    match form {
        Form::Method(_, _, _, _) | Form::Field(_, _) => Category::ClassKey,
        _ => Category::ObjectKey,
    }
}

fn key_child(category: Category, key: Key) -> Piece
    ensures { result ≡ spec.key_child category key }
{
    match key {
        Key::Plain => Piece::Child(Place {
            category,
            least: 0,
            scope: Scope::Free,
        }),
        Key::Computed => Piece::Child(Place {
            category: Category::Expression,
            least: 1,
            scope: Scope::Free,
        }),
    }
}

fn method_child(access: Access, flow: Flow) -> Piece
    ensures { result ≡ spec.method_child access flow }
{
    match access {
        Access::Get => child(Category::Getter),
        Access::Set => child(Category::Setter),
        Access::Method | Access::Constructor => child(Category::Method(flow)),
    }
}

fn literal(sort: Sort) -> Piece
    ensures { result ≡ spec.literal sort }
{
    match sort {
        Sort::Quoted => Piece::Text(Lexeme::Quoted),
        Sort::Number => Piece::Text(Lexeme::Number),
        Sort::BigInt => Piece::Text(Lexeme::BigInt),
        Sort::Regex => Piece::Text(Lexeme::Regex),
        Sort::True => word(Word::True),
        Sort::False => word(Word::False),
        Sort::Null => word(Word::Null),
    }
}

fn variable_word(variable: Variable) -> Piece
    ensures { result ≡ spec.variable_word variable }
{
    match variable {
        Variable::Var => word(Word::Var),
        Variable::Let => word(Word::Let),
        Variable::Const => word(Word::Const),
    }
}

fn dot(link: Link) -> Piece
    ensures { result ≡ spec.dot link }
{
    match link {
        Link::Plain => punctuator(Punctuator::Dot),
        Link::Optional => punctuator(Punctuator::OptionalDot),
    }
}

fn static_name(standing: Standing, key: Key) -> Piece
    ensures { result ≡ spec.static_name standing key }
{
    match (standing, key) {
        (Standing::Instance, Key::Plain) => Piece::Ahead(Test::Word(Word::Static)),
        _ => Piece::Ahead(Test::Never),
    }
}

fn right(form: Form) -> Piece
    ensures { result ≡ spec.told form Own.Right }
{
    Piece::Child(Place {
        category: Category::Expression,
        least: right_level(form.operator()),
        scope: Scope::Same,
    })
}

// The piece that it is in this form.
fn told(form: Form, own: Own) -> Piece
    ensures { result ≡ spec.told form own }
{
    let flow = told_flow(form);
    let computed = is_computed(key_of(form));
    let fixed = is_static(standing_of(form));
    match own {
        Own::Operator => operator_token(form.operator()),
        Own::OperatorSpace => operator_space(form.operator()),
        Own::Right => right(form),
        Own::Async => when(flow.is_async(), word(Word::Async)),
        Own::AsyncLine => when(flow.is_async(), Piece::Ahead(Test::SameLine)),
        Own::AsyncSpace => when(flow.is_async(), SPACE),
        Own::Star => when(flow.is_generator(), punctuator(Punctuator::Star)),
        Own::Static => when(fixed, word(Word::Static)),
        Own::StaticSpace => when(fixed, SPACE),
        Own::Access => access_word(access_of(form)),
        Own::AccessSpace => access_space(access_of(form)),
        Own::KeyOpen => when(computed, punctuator(Punctuator::OpenBracket)),
        Own::Key => key_child(key_category(form), key_of(form)),
        Own::KeyClose => when(computed, punctuator(Punctuator::CloseBracket)),
        Own::Method => method_child(access_of(form), form.flow()),
        Own::Literal => literal(sort_of(form)),
        Own::VariableWord => variable_word(variable_of(form)),
        Own::Dot => dot(link_of(form)),
        Own::Link => when(
            is_optional(link_of(form)),
            punctuator(Punctuator::OptionalDot),
        ),
        Own::FieldName => Piece::Ahead(Test::FieldName(standing_of(form))),
        Own::StaticName => static_name(standing_of(form), key_of(form)),
    }
}

/// The piece, if need be as the form tells it. What comes out is no `Own`.
pub fn plain(form: Form, piece: Piece) -> Piece
    ensures { result ≡ spec.plain form piece }
{
    match piece {
        Piece::Own(own) => told(form, own),
        other => other,
    }
}
