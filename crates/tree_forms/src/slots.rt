//! What the slots of each form take, and what a form is at its ends: told by its pieces.

ghost use Rattle.std.specs.Prelude.{◌≡◌, Some, true};
ghost use Rattle.std.specs.List.{list_all};
ghost use Rattle.tree_forms.specs.Slots as spec;

use crate::variant::Variant;
use js_forms::{
    CALL, Category, Form, Left, Piece, Place, Scope, first_child, first_row, pieces, plain,
    second_row,
};

// How many slots a piece fills that is no choice.
fn width(piece: Piece) -> usize
    ensures { result ≡ spec.width piece }
{
    match piece {
        Piece::Child(_)
        | Piece::First(_)
        | Piece::Hole
        | Piece::NoList(_)
        | Piece::Row(_, _)
        | Piece::Commas(_, _, _) => 1,
        Piece::Twins(_, _) | Piece::Template(_) => 2,
        _ => 0,
    }
}

fn filler(pieces: &[Piece]) -> Piece
    ensures { result ≡ spec.filler pieces.now }
{
    for piece in pieces {
        if width(*piece) != 0 {
            return *piece;
        }
    }
    Piece::Nothing
}

// The piece as the form tells it, and of a choice what fills a slot.
fn seen(form: Form, piece: Piece) -> Piece
    ensures { result ≡ spec.seen form piece }
{
    match plain(form, piece) {
        Piece::Choice(choice) => filler(first_row(choice)),
        other => other,
    }
}

fn left_level(left: Left) -> u8
    ensures { result ≡ spec.left_level left }
{
    match left {
        Left::Level(least) | Left::Coalescing(least) | Left::Other(least) => least,
        Left::Object => CALL,
        Left::Simple => 0,
    }
}

fn is_chain(form: Form) -> bool
    ensures { result ≡ spec.is_chain form }
{
    matches!(form, Form::Chain)
}

fn operand_level(form: Form) -> u8
    ensures { result ≡ spec.operand_level form }
{
    if is_chain(form) {
        return CALL;
    }
    left_level(first_child(form))
}

fn listed(category: Category) -> Category
    ensures { result ≡ spec.listed category }
{
    match category {
        Category::ImportSpecifier => Category::Imports,
        other => other,
    }
}

fn is_mirror_of(before: bool, number: usize) -> bool
    ensures { result ≡ spec.is_mirror_of before number }
{
    if before { number == 0 } else { number == 1 }
}

// What the slot of this number takes, among those that the piece fills.
fn place_in(form: Form, piece: Piece, number: usize) -> Option<Place>
    ensures { result ≡ spec.place_in form piece number }
{
    match piece {
        Piece::Child(place) | Piece::Row(place, _) => Some(place),
        Piece::First(place) => Some(Place {
            least: operand_level(form),
            ..place
        }),
        Piece::NoList(place) => place,
        Piece::Commas(place, _, _) => Some(Place {
            category: listed(place.category),
            ..place
        }),
        Piece::Twins(before, place) => Some(twin_place(before, place, number)),
        Piece::Template(_) => Some(template_place(number)),
        _ => None,
    }
}

fn twin_place(before: bool, place: Place, number: usize) -> Place
    ensures { spec.place_in Form.Chain (Piece.Twins before place) number ≡ Some result }
{
    if is_mirror_of(before, number) {
        Place {
            category: Category::AnyName,
            least: 0,
            scope: Scope::Same,
        }
    } else {
        place
    }
}

fn template_place(number: usize) -> Place
    ensures { spec.place_in Form.Chain (Piece.Template true) number ≡ Some result }
{
    if number == 0 {
        Place {
            category: Category::Characters,
            least: 0,
            scope: Scope::Same,
        }
    } else {
        Place {
            category: Category::Expression,
            least: 0,
            scope: Scope::Free,
        }
    }
}

fn slot_in(form: Form, pieces: &[Piece], number: usize) -> Option<Place>
    ensures { result ≡ spec.slot_in form pieces.now number }
{
    let mut left = number;
    for piece in pieces {
        let piece = seen(form, *piece);
        if left < width(piece) {
            return place_in(form, piece, left);
        }
        left -= width(piece);
    }
    None
}

/// What the slot of this number takes, of a form in its spelling: `None` where the form has no such
/// slot, or where nothing may stand in it. The slots are counted in the order of the kind's fields.
pub fn slot(variant: Variant, number: u8) -> Option<Place>
    ensures { result ≡ spec.slot variant number }
{
    slot_at(variant, number as usize)
}

/// The same of any number.
pub fn slot_at(variant: Variant, number: usize) -> Option<Place>
    ensures { result ≡ spec.slot variant number }
{
    slot_in(variant.form, pieces(variant.form, variant.spelling), number)
}

fn is_mirror_in(piece: Piece, number: usize) -> bool
    ensures { result ≡ spec.is_mirror_in piece number }
{
    match piece {
        Piece::Twins(before, _) => is_mirror_of(before, number),
        _ => false,
    }
}

fn has_mirror(form: Form, pieces: &[Piece], number: usize) -> bool
    ensures { result ≡ spec.has_mirror form pieces.now number }
{
    let mut left = number;
    for piece in pieces {
        let piece = seen(form, *piece);
        if left < width(piece) {
            return is_mirror_in(piece, left);
        }
        left -= width(piece);
    }
    false
}

/// Whether the slot holds a name that is spelled for another one.
pub fn is_mirror(variant: Variant, number: usize) -> bool
    ensures { result ≡ spec.is_mirror variant number }
{
    has_mirror(variant.form, pieces(variant.form, variant.spelling), number)
}

// Whether the piece spells no token where no child is there.
fn is_quiet(piece: Piece) -> bool
    ensures { result ≡ spec.is_quiet piece }
{
    match piece {
        Piece::Interpreter
        | Piece::Token(_)
        | Piece::Text(_)
        | Piece::End(_, _)
        | Piece::Template(_) => false,
        _ => true,
    }
}

fn are_quiet(pieces: &[Piece]) -> bool
    ensures { result ≡ list_all spec.is_quiet pieces.now }
{
    for piece in pieces {
        if !is_quiet(*piece) {
            return false;
        }
    }
    true
}

fn stays_quiet(piece: Piece) -> bool
    ensures { result ≡ spec.stays_quiet piece }
{
    match piece {
        Piece::Choice(choice) => are_quiet(second_row(choice)),
        other => is_quiet(other),
    }
}

fn all_quiet(form: Form, pieces: &[Piece]) -> bool
    ensures { result ≡ spec.all_quiet form pieces.now }
{
    for piece in pieces {
        if !stays_quiet(plain(form, *piece)) {
            return false;
        }
    }
    true
}

fn ends_in(form: Form, pieces: &[Piece], number: usize) -> bool
    ensures { result ≡ spec.ends_in form pieces.now number }
{
    let mut left = number;
    for at in 0..pieces.len() {
        let piece = seen(form, pieces[at]);
        if left < width(piece) {
            return !matches!(piece, Piece::Template(_)) && all_quiet(form, &pieces[at + 1..]);
        }
        left -= width(piece);
    }
    false
}

/// Whether the form ends with the child in the slot of this number, where none stands behind it,
/// and has no word there.
pub fn ends_bare(variant: Variant, number: usize) -> bool
    ensures { result ≡ spec.ends_bare variant number }
{
    ends_in(variant.form, pieces(variant.form, variant.spelling), number)
}

fn has_children(piece: Piece) -> bool
    ensures { result ≡ spec.has_children piece }
{
    match piece {
        Piece::Child(_)
        | Piece::First(_)
        | Piece::Into(_)
        | Piece::Row(_, _)
        | Piece::Commas(_, _, _)
        | Piece::Twins(_, _) => true,
        _ => false,
    }
}

fn begins_in(form: Form, pieces: &[Piece]) -> bool
    ensures { result ≡ spec.begins_in form pieces.now }
{
    for piece in pieces {
        let piece = plain(form, *piece);
        if has_children(piece) {
            return true;
        }
        if !stays_quiet(piece) {
            return false;
        }
    }
    false
}

/// Whether the form begins with its first child, with no word before it.
pub fn begins_bare(variant: Variant) -> bool
    ensures { result ≡ spec.begins_bare variant }
{
    begins_in(variant.form, pieces(variant.form, variant.spelling))
}

fn tokens_at(category: Category) -> u8
    ensures { result ≡ spec.tokens_at category }
{
    match category {
        Category::Name | Category::AnyName => 1,
        _ => 2,
    }
}

fn tokens_of(single: bool, piece: Piece) -> u8
    ensures { result ≡ spec.tokens_of single piece }
{
    match piece {
        Piece::Interpreter | Piece::Token(_) | Piece::Text(_) | Piece::End(_, _) => 1,
        Piece::Child(place) => tokens_at(place.category),
        Piece::First(_)
        | Piece::Into(_)
        | Piece::Row(_, _)
        | Piece::Commas(_, _, _)
        | Piece::Choice(_) => 2,
        Piece::Twins(_, _) | Piece::Template(_) => { if single { 1 } else { 2 } }
        _ => 0,
    }
}

/// Whether the pieces spell no more than this many tokens: `single` says that of two children with
/// one name the other is one token, or that a template has no expressions.
pub fn spells_at_most(single: bool, form: Form, pieces: &[Piece], most: u8) -> bool
    ensures { result ≡ spec.spells_at_most single form pieces.now most }
{
    let mut left = most;
    for piece in pieces {
        let tokens = tokens_of(single, plain(form, *piece));
        if tokens > left {
            return false;
        }
        left -= tokens;
    }
    true
}
