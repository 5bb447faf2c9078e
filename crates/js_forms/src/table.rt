//! The table of forms: for each form its kind, its level, and the pieces of each of its spellings.

ghost use Rattle.std.specs.Prelude.{◌≡◌, ◌<◌, [], length, map, slice_index_or, IsTrue};
ghost use Rattle.js_forms.specs.Table as spec;

macro_rules! place {
    ($category:ident, $least:expr, $scope:ident) => {
        Place {
            category: Category::$category,
            least: $least,
            scope: Scope::$scope,
        }
    };
}

macro_rules! child {
    ($category:ident, $least:expr, $scope:ident) => {
        Piece::Child(place!($category, $least, $scope))
    };
}

macro_rules! word {
    ($word:ident) => {
        Piece::Token(Test::Word(Word::$word))
    };
}

macro_rules! mark {
    ($mark:ident) => {
        Piece::Token(Test::Punctuator(Punctuator::$mark))
    };
}

macro_rules! fixed {
    ($fixed:ident) => {
        Piece::Scalar(Fixed::$fixed)
    };
}

macro_rules! own {
    ($own:ident) => {
        Piece::Own(Own::$own)
    };
}

macro_rules! choice {
    ($choice:ident) => {
        Piece::Choice(Choice::$choice)
    };
}

// A row: a form, the kind of its nodes, its level, and the pieces of each spelling.
macro_rules! rows {
    ($($form:expr, $kind:ident, $level:ident: $($spelling:ident [$($piece:expr),*])*;)*) => {
        &[$(($form, Kind::$kind, $level, &[$((Spelling::$spelling, &[$($piece),*])),*])),*]
    };
}

macro_rules! choices {
    ($($choice:ident: [$($one:expr),*] [$($other:expr),*];)*) => {
        &[$((Choice::$choice, &[$($one),*], &[$($other),*])),*]
    };
}

mod choices;
mod modules;
mod operations;
mod primaries;
mod statements;

use crate::form::Form;
use crate::piece::{Choice, Piece, Spelling};
use choices::CHOICES;
use modules::MODULE_ITEMS;
use operations::OPERATIONS;
use primaries::PRIMARIES;
use statements::STATEMENTS;
use type_defs::Kind;

/// One of a form's spellings, and its pieces in order.
pub type Spelled = (Spelling, &'static [Piece]);

/// A form with any fields, the kind of its nodes, the level of such an expression, and its
/// spellings.
pub type Row = (Form, Kind, u8, &'static [Spelled]);

#[tactic(auto, unfolding(crate::specs::Table::primary_kinds, crate::specs::Table::primary_levels, crate::specs::Table::primary_spellings, crate::specs::Table::primary_forms))]
fn primary_rows() -> &'static [Row]
    ensures count { length result.now ≡ 23 }
    ensures order { IsTrue (spec.are_placed 0 spec.primary_forms) }
    ensures kinds { map (λ row. row.1) result.now ≡ spec.primary_kinds }
    ensures levels { map (λ row. row.2) result.now ≡ spec.primary_levels }
    ensures spellings { map (λ row. map (λ s. (s.0, s.1.now)) row.3.now) result.now ≡ spec.primary_spellings }
{
    PRIMARIES
}

#[tactic(auto, unfolding(crate::specs::Table::operation_kinds, crate::specs::Table::operation_levels, crate::specs::Table::operation_spellings, crate::specs::Table::operation_forms))]
fn operation_rows() -> &'static [Row]
    ensures count { length result.now ≡ 29 }
    ensures order { IsTrue (spec.are_placed 23 spec.operation_forms) }
    ensures kinds { map (λ row. row.1) result.now ≡ spec.operation_kinds }
    ensures levels { map (λ row. row.2) result.now ≡ spec.operation_levels }
    ensures spellings { map (λ row. map (λ s. (s.0, s.1.now)) row.3.now) result.now ≡ spec.operation_spellings }
{
    OPERATIONS
}

#[tactic(auto, unfolding(crate::specs::Table::statement_kinds, crate::specs::Table::statement_levels, crate::specs::Table::statement_spellings, crate::specs::Table::statement_forms))]
fn statement_rows() -> &'static [Row]
    ensures count { length result.now ≡ 30 }
    ensures order { IsTrue (spec.are_placed 52 spec.statement_forms) }
    ensures kinds { map (λ row. row.1) result.now ≡ spec.statement_kinds }
    ensures levels { map (λ row. row.2) result.now ≡ spec.statement_levels }
    ensures spellings { map (λ row. map (λ s. (s.0, s.1.now)) row.3.now) result.now ≡ spec.statement_spellings }
{
    STATEMENTS
}

#[tactic(auto, unfolding(crate::specs::Table::module_kinds, crate::specs::Table::module_levels, crate::specs::Table::module_spellings, crate::specs::Table::module_forms))]
fn module_rows() -> &'static [Row]
    ensures count { length result.now ≡ 12 }
    ensures order { IsTrue (spec.are_placed 82 spec.module_forms) }
    ensures kinds { map (λ row. row.1) result.now ≡ spec.module_kinds }
    ensures levels { map (λ row. row.2) result.now ≡ spec.module_levels }
    ensures spellings { map (λ row. map (λ s. (s.0, s.1.now)) row.3.now) result.now ≡ spec.module_spellings }
{
    MODULE_ITEMS
}

#[tactic(auto, unfolding(crate::specs::Table::first_rows, crate::specs::Table::second_rows, crate::specs::Table::all_choices))]
fn choice_rows() -> &'static [(Choice, &'static [Piece], &'static [Piece])]
    ensures count { length result.now ≡ 16 }
    ensures order { IsTrue (spec.are_choices_placed 0 spec.all_choices) }
    ensures first { map (λ row. row.1.now) result.now ≡ spec.first_rows }
    ensures second { map (λ row. row.2.now) result.now ≡ spec.second_rows }
{
    CHOICES
}

fn primary_row(at: usize) -> Row
    requires { at < 23 }
    ensures kind { result.1 ≡ slice_index_or spec.primary_kinds at Kind.Identifier }
    ensures level { result.2 ≡ slice_index_or spec.primary_levels at 0 }
    ensures spellings { map (λ s. (s.0, s.1.now)) result.3.now ≡ slice_index_or spec.primary_spellings at [] }
{
    primary_rows()[at]
}

fn operation_row(at: usize) -> Row
    requires { at < 29 }
    ensures kind { result.1 ≡ slice_index_or spec.operation_kinds at Kind.Identifier }
    ensures level { result.2 ≡ slice_index_or spec.operation_levels at 0 }
    ensures spellings { map (λ s. (s.0, s.1.now)) result.3.now ≡ slice_index_or spec.operation_spellings at [] }
{
    operation_rows()[at]
}

fn statement_row(at: usize) -> Row
    requires { at < 30 }
    ensures kind { result.1 ≡ slice_index_or spec.statement_kinds at Kind.Identifier }
    ensures level { result.2 ≡ slice_index_or spec.statement_levels at 0 }
    ensures spellings { map (λ s. (s.0, s.1.now)) result.3.now ≡ slice_index_or spec.statement_spellings at [] }
{
    statement_rows()[at]
}

fn module_row(at: usize) -> Row
    requires { at < 12 }
    ensures kind { result.1 ≡ slice_index_or spec.module_kinds at Kind.Identifier }
    ensures level { result.2 ≡ slice_index_or spec.module_levels at 0 }
    ensures spellings { map (λ s. (s.0, s.1.now)) result.3.now ≡ slice_index_or spec.module_spellings at [] }
{
    module_rows()[at]
}

// The row of the form.
fn row(form: Form) -> Row
    ensures kind { result.1 ≡ spec.kind_of form }
    ensures level { result.2 ≡ spec.table_level form }
    ensures spellings { map (λ s. (s.0, s.1.now)) result.3.now ≡ spec.spellings form }
{
    let at = form.place();
    if at < 23 {
        return primary_row(at);
    }
    if at < 52 {
        return operation_row(at - 23);
    }
    if at < 82 {
        return statement_row(at - 52);
    }
    module_row(at - 82)
}

/// The kind of the form's nodes.
pub fn kind(form: Form) -> Kind
    ensures { result ≡ spec.kind_of form }
{
    row(form).1
}

/// The level that the table gives the form; that of a binary or logical operation goes by its
/// operator.
pub fn table_level(form: Form) -> u8
    ensures { result ≡ spec.table_level form }
{
    row(form).2
}

/// The form's spellings.
pub fn spellings(form: Form) -> &'static [Spelled]
    ensures { map (λ s. (s.0, s.1.now)) result.now ≡ spec.spellings form }
{
    row(form).3
}

// The pieces of the spelling, none where there is no such.
fn pieces_in(spelling: Spelling, spellings: &'static [Spelled]) -> &'static [Piece]
    ensures { result.now ≡ spec.pieces_in spelling (map (λ s. (s.0, s.1.now)) spellings.now) }
{
    for one in spellings {
        if one.0 == spelling {
            return one.1;
        }
    }
    &[]
}

/// The pieces of the form in this spelling, none where the form has no such.
pub fn pieces(form: Form, spelling: Spelling) -> &'static [Piece]
    ensures { result.now ≡ spec.pieces form spelling }
{
    pieces_in(spelling, spellings(form))
}

// The pieces of the first spelling.
fn first_of(spellings: &'static [Spelled]) -> &'static [Piece]
    ensures { result.now ≡ spec.first_of (map (λ s. (s.0, s.1.now)) spellings.now) }
{
    if spellings.is_empty() {
        return &[];
    }
    spellings[0].1
}

/// The pieces of the form's first spelling, none where it has none.
pub fn first_pieces(form: Form) -> &'static [Piece]
    ensures { result.now ≡ spec.first_pieces form }
{
    first_of(spellings(form))
}

/// The row of pieces that the choice has first.
pub fn first_row(choice: Choice) -> &'static [Piece]
    ensures { result.now ≡ spec.first_row choice }
{
    choice_rows()[choice as usize].1
}

/// The other row of pieces.
pub fn second_row(choice: Choice) -> &'static [Piece]
    ensures { result.now ≡ spec.second_row choice }
{
    choice_rows()[choice as usize].2
}
