//! The first rule that a node breaks.

use crate::branches::{has_own_else, is_default_once};
use crate::categories::is_misplaced;
use crate::chains::is_chain_whole;
use crate::comments::{has_comment_places, has_comment_texts, has_unbroken_line};
use crate::contexts::{has_operator_context, is_private_in_class};
use crate::declarations::{has_initializers, is_rest_last};
use crate::directives::is_directive_in_place;
use crate::imports::has_ordered_specifiers;
use crate::literals::has_literal_text;
use crate::methods::is_method_whole;
use crate::missing::is_missing;
use crate::names::has_name;
use crate::position::Position;
use crate::rule::Rule;
use crate::scalars::has_scalars;
use crate::shorthands::is_shorthand_of_one_name;
use crate::slot_table::SlotTable;
use crate::templates::has_template_text;
use js_forms::Form;
use std::alloc::{AllocError, Global};
use tree_core::Tree;
use tree_forms::Variant;

// The first rule on texts that the node breaks.
fn broken_by_texts(
    alloc: Global,
    node: &Tree,
    form: Form,
    position: &Position<'_>,
) -> Result<Option<Rule>, AllocError> {
    if !has_scalars(node, form) {
        return Ok(Some(Rule::Scalar));
    }
    if !has_name(node, form) {
        return Ok(Some(Rule::Name));
    }
    if !has_literal_text(alloc, node, form)? {
        return Ok(Some(Rule::LiteralText));
    }
    if !has_template_text(alloc, node, form, position)? {
        return Ok(Some(Rule::TemplateText));
    }
    if !is_directive_in_place(alloc, node, form, position)? {
        return Ok(Some(Rule::Directive));
    }
    Ok(None)
}

// The first rule on children and surroundings that the node breaks.
fn broken_by_parts(node: &Tree, variant: Variant, position: &Position<'_>) -> Option<Rule> {
    if !is_shorthand_of_one_name(node, variant.form) {
        return Some(Rule::Shorthand);
    }
    if !has_initializers(node, variant, position) {
        return Some(Rule::Initializer);
    }
    if !is_rest_last(node, position) {
        return Some(Rule::RestLast);
    }
    if !is_method_whole(node, variant.form) {
        return Some(Rule::Method);
    }
    if !is_chain_whole(node, variant.form, position.on_spine) {
        return Some(Rule::Chain);
    }
    if !has_operator_context(variant.form, position.context) {
        return Some(Rule::Context);
    }
    if !has_own_else(node, variant.form) {
        return Some(Rule::DanglingElse);
    }
    if !is_default_once(variant.form, position) {
        return Some(Rule::DefaultTwice);
    }
    if !has_ordered_specifiers(node, variant.form) {
        return Some(Rule::Specifiers);
    }
    None
}

// The first rule on comments, or the one on private names, that the node breaks.
fn broken_by_comments(node: &Tree, variant: Variant, position: &Position<'_>) -> Option<Rule> {
    if !has_comment_places(node, variant, position) {
        return Some(Rule::CommentPlace);
    }
    if !has_comment_texts(node) {
        return Some(Rule::CommentText);
    }
    if !has_unbroken_line(node, position) {
        return Some(Rule::LineGap);
    }
    if !is_private_in_class(variant.form, position.context) {
        return Some(Rule::Private);
    }
    None
}

// The first rule that a node in this form breaks, those on its slots left aside.
fn broken_in_form(
    alloc: Global,
    node: &Tree,
    variant: Variant,
    position: &Position<'_>,
) -> Result<Option<Rule>, AllocError> {
    if let Some(rule) = broken_by_texts(alloc, node, variant.form, position)? {
        return Ok(Some(rule));
    }
    if let Some(rule) = broken_by_parts(node, variant, position) {
        return Ok(Some(rule));
    }
    Ok(broken_by_comments(node, variant, position))
}

/// The first rule that the node breaks at the position. `variant` is the form that made text gives
/// it there.
pub fn broken_rule(
    alloc: Global,
    table: &SlotTable,
    node: &Tree,
    variant: Option<Variant>,
    position: &Position<'_>,
) -> Result<Option<Rule>, AllocError> {
    if is_missing(node, position.place.category) {
        return Ok(Some(Rule::Missing));
    }
    if is_misplaced(table, node, variant, position) {
        return Ok(Some(Rule::Category));
    }
    match variant {
        Some(variant) => broken_in_form(alloc, node, variant, position),
        None => Ok(Some(Rule::Scalar)),
    }
}
