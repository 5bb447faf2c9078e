//! Which of a form's spellings a tree has: whether a pattern declares or assigns, and the like.

ghost use Rattle.std.specs.Prelude.{◌≡◌};
ghost use Rattle.std.specs.Option.{option_copied, option_map};
ghost use Rattle.tree_core.specs.View.{syntax};
ghost use Rattle.tree_forms.specs.Choice as spec;
ghost use Rattle.tree_forms.specs.Reading as reading;

use crate::reading::{child, is_pattern, second_child};
use js_forms::{Category, Form, Key, Spelling, Standing};
use tree_core::Tree;
use type_defs::Kind;

// Whether a place takes patterns that declare.
fn declares_at(category: Category) -> bool
    ensures { result ≡ spec.declares_at category }
{
    match category {
        Category::Binding
        | Category::BindingElement
        | Category::BindingValue
        | Category::BindingProperty => true,
        _ => false,
    }
}

// The spelling of a pattern or of a part of one.
fn pattern_spelling(category: Category) -> Spelling
    ensures { result ≡ spec.pattern_spelling category }
{
    if declares_at(category) {
        Spelling::Declares
    } else {
        Spelling::Assigns
    }
}

fn default_spelling(category: Category) -> Spelling
    ensures { result ≡ spec.default_spelling category }
{
    match category {
        Category::ShortValue => Spelling::Short,
        _ => pattern_spelling(category),
    }
}

fn template_spelling(category: Category) -> Spelling
    ensures { result ≡ spec.template_spelling category }
{
    match category {
        Category::Template => Spelling::Tagged,
        _ => Spelling::Usual,
    }
}

fn head_spelling(category: Category) -> Spelling
    ensures { result ≡ spec.head_spelling category }
{
    match category {
        Category::ForLeft => Spelling::BeforeLoop,
        _ => Spelling::Usual,
    }
}

fn declaration_spelling(category: Category) -> Spelling
    ensures { result ≡ spec.declaration_spelling category }
{
    match category {
        Category::DefaultDeclaration => Spelling::Default,
        _ => Spelling::Usual,
    }
}

fn export_spelling(category: Category) -> Spelling
    ensures { result ≡ spec.export_spelling category }
{
    match category {
        Category::OwnExport => Spelling::WithoutSource,
        _ => Spelling::Usual,
    }
}

// An export of names with a source, or without.
fn names_spelling(tree: &Tree) -> Spelling
    ensures { result ≡ spec.names_spelling (syntax tree.now) }
{
    match child(tree, 2) {
        Some(_) => Spelling::Usual,
        None => Spelling::WithoutSource,
    }
}

fn declared_spelling(tree: &Tree) -> Spelling
    ensures { result ≡ spec.declared_spelling (syntax tree.now) }
{
    match child(tree, 0) {
        Some(id) => {
            if is_pattern(id) {
                return Spelling::PatternAlone;
            }
            Spelling::NameAlone
        }
        None => Spelling::NameAlone,
    }
}

fn declarator_spelling(tree: &Tree) -> Spelling
    ensures { result ≡ spec.declarator_spelling (syntax tree.now) }
{
    match child(tree, 1) {
        Some(_) => Spelling::WithValue,
        None => declared_spelling(tree),
    }
}

fn is_name_spelled(key: Option<&Tree>, text: &str) -> bool
    ensures { result ≡ spec.is_name_spelled text.now (option_map syntax (option_copied key.entry)) }
{
    match key {
        Some(key) => matches!(key.kind, Kind::Identifier) && key.scalars.is_text_at(0, text),
        None => false,
    }
}

fn static_spelling(standing: Standing) -> Spelling
    ensures { result ≡ spec.static_spelling standing }
{
    match standing {
        Standing::Instance => Spelling::StaticName,
        Standing::Static => Spelling::Usual,
    }
}

// A field without a value, by its key, which is not computed.
fn named_spelling(standing: Standing, tree: &Tree) -> Spelling
    ensures { result ≡ spec.named_spelling standing (reading.child 0 (syntax tree.now)) }
{
    let key = child(tree, 0);
    if is_name_spelled(key, "get") || is_name_spelled(key, "set") {
        return Spelling::AccessorName;
    }
    if is_name_spelled(key, "static") {
        return static_spelling(standing);
    }
    Spelling::Usual
}

fn field_spelling(standing: Standing, key: Key, tree: &Tree) -> Spelling
    ensures { result ≡ spec.field_spelling standing key (syntax tree.now) }
{
    match child(tree, 1) {
        Some(_) => Spelling::WithValue,
        None => match key {
            Key::Computed => Spelling::Usual,
            Key::Plain => named_spelling(standing, tree),
        },
    }
}

// An import whose first specifier is the default, by the second.
fn behind_default(second: Option<&Tree>) -> Spelling
    ensures { result ≡ spec.behind_default (option_map syntax (option_copied second.entry)) }
{
    match second {
        None => Spelling::DefaultAlone,
        Some(second) => match second.kind {
            Kind::ImportNamespaceSpecifier => Spelling::DefaultAndNamespace,
            _ => Spelling::DefaultAndNames,
        },
    }
}

fn import_spelling(tree: &Tree) -> Spelling
    ensures { result ≡ spec.import_spelling (syntax tree.now) }
{
    match child(tree, 0) {
        None => Spelling::Usual,
        Some(first) => match first.kind {
            Kind::ImportDefaultSpecifier => behind_default(second_child(tree, 0)),
            Kind::ImportNamespaceSpecifier => Spelling::Namespace,
            _ => Spelling::Names,
        },
    }
}

/// The spelling of the form that the tree has at a place that takes this.
pub fn spelling(form: Form, category: Category, tree: &Tree) -> Spelling
    ensures { result ≡ spec.spelling form category (syntax tree.now) }
{
    match form {
        Form::ArrayPattern
        | Form::ObjectPattern
        | Form::PatternProperty(_)
        | Form::Rest
        | Form::NameRest => pattern_spelling(category),
        Form::Default => default_spelling(category),
        Form::Template => template_spelling(category),
        Form::Field(standing, key) => field_spelling(standing, key, tree),
        Form::Declarator => declarator_spelling(tree),
        Form::HeadVariables(_) => head_spelling(category),
        Form::FunctionDeclaration(_) | Form::ClassDeclaration => declaration_spelling(category),
        Form::ExportNames => names_spelling(tree),
        Form::ExportSpecifier | Form::ExportShorthand => export_spelling(category),
        Form::Import => import_spelling(tree),
        _ => Spelling::Usual,
    }
}
