//! What the places of a form take, by the kinds of nodes.
//!
//! A place is left to a rule of its own where that says what it takes: names of shorthands,
//! directives in lists, and `super` before an optional link.

ghost use Rattle.std.specs.Prelude.{◌≡◌};
ghost use Rattle.tree_core.specs.View.{syntax};
ghost use Rattle.tree_forms.specs.Reading.{child};
ghost use Rattle.tree_check.specs.Categories as spec;

use crate::kinds::{
    is_binding, is_block, is_case, is_catch, is_characters, is_class_body, is_class_item,
    is_declaration, is_declarator, is_default, is_directive, is_export_specifier, is_function,
    is_function_or_class, is_identifier, is_import_specifier, is_link, is_module_item, is_pattern,
    is_pattern_property, is_private, is_property, is_rest, is_simple, is_spread, is_statement,
    is_super, is_template, is_variables,
};
use crate::position::Position;
use crate::slot_table::{SlotTable, Taken};
use js_forms::{
    Access, Category, Flow, Form, Key, Link, Operator, Piece, Spelling, Standing, Variable, pieces,
};
use js_tokens::{Punctuator, Word};
use tree_core::{Place, Scalars, Slot, Tree};
use tree_forms::{Variant, child, is_expression};
use type_defs::Kind;

// Whether the node is a statement, or declares variables by `var`.
fn is_body(node: &Tree) -> bool
    ensures { result ≡ spec.is_body (syntax node.now) }
{
    match node.kind {
        Kind::VariableDeclaration => node.scalars.is_text_at(0, "var"),
        kind => is_statement(kind),
    }
}

fn is_item(kind: Kind) -> bool
    ensures { result ≡ spec.is_item kind }
{
    is_statement(kind) || is_declaration(kind)
}

fn takes_in(operator: Operator) -> bool
    ensures { result ≡ spec.takes_in operator }
{
    matches!(operator, Operator::Word(Word::In))
}

fn takes_patterns(operator: Operator) -> bool
    ensures { result ≡ spec.takes_patterns operator }
{
    matches!(operator, Operator::Mark(Punctuator::Assign))
}

// Whether the node may be assigned to.
fn is_target(kind: Kind) -> bool
    ensures { result ≡ spec.is_target kind }
{
    is_simple(kind) || is_pattern(kind)
}

// What the form begins with.
fn takes_operand(form: Form, kind: Kind) -> bool
    ensures { result ≡ spec.takes_operand form kind }
{
    match form {
        Form::Chain => is_link(kind),
        Form::Dot(_) | Form::Index(_) | Form::Call(_) => is_expression(kind) || is_super(kind),
        Form::Binary(operator) => {
            is_expression(kind) || (is_private(kind) && takes_in(operator))
        }
        Form::Postfix(_) => is_simple(kind),
        Form::Assignment(operator) => {
            is_simple(kind) || (is_pattern(kind) && takes_patterns(operator))
        }
        _ => is_expression(kind),
    }
}

// Whether it is the sort of a literal that may be a key. One that is no sort at all is left to the
// rule on scalars.
fn is_key_sort(scalars: &Scalars) -> bool
    ensures { result ≡ spec.is_key_sort scalars.now }
{
    !scalars.is_text_at(0, "boolean")
        && (!scalars.is_text_at(0, "null") && !scalars.is_text_at(0, "regexp"))
}

fn is_key(node: &Tree) -> bool
    ensures { result ≡ spec.is_key (syntax node.now) }
{
    match node.kind {
        Kind::Identifier => true,
        Kind::Literal => is_key_sort(&node.scalars),
        _ => false,
    }
}

fn is_private_key(node: &Tree) -> bool
    ensures { result ≡ spec.is_private_key (syntax node.now) }
{
    match node.kind {
        Kind::PrivateIdentifier => !node.scalars.is_text_at(0, "constructor"),
        _ => false,
    }
}

fn is_string(node: &Tree) -> bool
    ensures { result ≡ spec.is_string (syntax node.now) }
{
    match node.kind {
        Kind::Literal => node.scalars.is_text_at(0, "string"),
        _ => false,
    }
}

/// Whether the object of the member, or the callee of the call, is `super`.
pub fn belongs_to_super(owner: &Tree) -> bool
    ensures { result ≡ spec.holds_super (child 0 (syntax owner.now)) }
{
    match child(owner, 0) {
        Some(object) => is_super(object.kind),
        None => false,
    }
}

// The name of a member: a private one only where the object is not `super`.
fn is_member_name(owner: &Tree, kind: Kind) -> bool
    ensures { result ≡ spec.is_member_name (syntax owner.now) kind }
{
    match kind {
        Kind::Identifier => true,
        Kind::PrivateIdentifier => !belongs_to_super(owner),
        _ => false,
    }
}

// What a place for a statement takes, or for a part of a statement, an import or an export.
fn takes_statement(category: Category, node: &Tree) -> bool
    ensures { result ≡ spec.takes_statement category node.now.kind (syntax node.now) }
{
    let kind = node.kind;
    match category {
        Category::Item => is_item(kind),
        Category::ModuleItem => is_item(kind) || is_module_item(kind),
        Category::Statement => is_body(node),
        Category::Block | Category::FunctionBody => is_block(kind),
        Category::Case => is_case(kind),
        Category::Catch => is_catch(kind),
        Category::Declaration => is_declaration(kind),
        Category::DefaultDeclaration => is_function_or_class(kind),
        Category::Declarator | Category::LoneDeclarator => is_declarator(kind),
        Category::ImportDefault
        | Category::ImportNamespace
        | Category::ImportSpecifier
        | Category::Imports => is_import_specifier(kind),
        Category::ExportSpecifier | Category::OwnExport => is_export_specifier(kind),
        Category::Source => is_string(node),
        _ => false,
    }
}

// What a place for an expression takes, or for a part of one.
fn takes_expression(category: Category, kind: Kind) -> bool
    ensures { result ≡ spec.takes_expression category kind }
{
    match category {
        Category::Expression | Category::Cover | Category::Callee => is_expression(kind),
        Category::Argument | Category::Element => is_expression(kind) || is_spread(kind),
        Category::ObjectItem => is_property(kind) || is_spread(kind),
        Category::Template => is_template(kind),
        Category::Characters => is_characters(kind),
        Category::ClassBody => is_class_body(kind),
        Category::ClassItem => is_class_item(kind),
        Category::Method(_) | Category::Getter | Category::Setter => is_function(kind),
        Category::ArrowBody => is_expression(kind) || is_block(kind),
        Category::ForInit => is_expression(kind) || is_variables(kind),
        _ => false,
    }
}

// What a place for a pattern takes, or for a part of one.
fn takes_pattern(category: Category, kind: Kind) -> bool
    ensures { result ≡ spec.takes_pattern category kind }
{
    match category {
        Category::Target => is_simple(kind),
        Category::Binding => is_binding(kind),
        Category::BindingValue => is_binding(kind) || is_default(kind),
        Category::BindingElement => is_binding(kind) || (is_default(kind) || is_rest(kind)),
        Category::Assigned => is_target(kind),
        Category::AssignedValue => is_target(kind) || is_default(kind),
        Category::AssignedElement => is_target(kind) || (is_default(kind) || is_rest(kind)),
        Category::BindingProperty | Category::AssignedProperty => {
            is_pattern_property(kind) || is_rest(kind)
        }
        Category::ForLeft => is_target(kind) || is_variables(kind),
        _ => false,
    }
}

// What a place for a name takes. That of a shorthand is left to a rule of its own.
fn takes_name(category: Category, owner: &Tree, node: &Tree) -> bool
    ensures { result ≡ spec.takes_name category (syntax owner.now) node.now.kind (syntax node.now) }
{
    match category {
        Category::Name | Category::AnyName | Category::SuperMember => is_identifier(node.kind),
        Category::Member => is_member_name(owner, node.kind),
        Category::ObjectKey => is_key(node),
        Category::ClassKey => is_key(node) || is_private_key(node),
        Category::ShortValue => true,
        _ => false,
    }
}

fn takes_other(category: Category, owner: &Tree, node: &Tree) -> bool
    ensures { result ≡ spec.takes_other category (syntax owner.now) node.now.kind (syntax node.now) }
{
    takes_statement(category, node)
        || (takes_expression(category, node.kind)
            || (takes_pattern(category, node.kind) || takes_name(category, owner, node)))
}

// Whether a place of the category takes the child, in a slot of this node with this form.
fn takes(category: Category, form: Form, owner: &Tree, node: &Tree) -> bool
    ensures { result ≡ spec.takes category form (syntax owner.now) node.now.kind (syntax node.now) }
{
    match category {
        Category::Operand => takes_operand(form, node.kind),
        _ => takes_other(category, owner, node),
    }
}

// Whether the lists of the form may have empty places.
fn takes_holes(variant: Variant) -> bool {
    for piece in pieces(variant.form, variant.spelling) {
        if let Piece::Commas(_, true, _) = *piece {
            return true;
        }
    }
    false
}

// Whether each place of the list takes what stands there. Directives have a rule of their own.
fn takes_all(category: Category, variant: Variant, owner: &Tree, places: &[Place]) -> bool {
    for at in 0..places.len() {
        match &places[at].node {
            None => {
                if !takes_holes(variant) {
                    return false;
                }
            }
            Some(node) => {
                if !is_directive(node.kind) && !takes(category, variant.form, owner, node) {
                    return false;
                }
            }
        }
    }
    true
}

fn takes_one(category: Category, form: Form, owner: &Tree, place: &Place) -> bool {
    match &place.node {
        None => true,
        Some(node) => takes(category, form, owner, node),
    }
}

// Whether nothing stands in the slot.
fn is_vacant(slot: &Slot) -> bool {
    match slot {
        Slot::Single(place) => place.node.is_none(),
        Slot::List(places) => places.is_empty(),
    }
}

// Whether the rule on shorthands judges what stands in the slot: a mirror, or the value beside it.
fn is_shorthand_part(variant: Variant, taken: Taken) -> bool {
    matches!(variant.form, Form::ShorthandProperty) || taken.is_mirror
}

// Whether the slot, which takes this, takes what stands there.
fn takes_slot(variant: Variant, owner: &Tree, taken: Taken, slot: &Slot) -> bool {
    if is_shorthand_part(variant, taken) {
        return true;
    }
    let Some(place) = taken.place else {
        return is_vacant(slot);
    };
    match slot {
        Slot::Single(one) => takes_one(place.category, variant.form, owner, one),
        Slot::List(all) => takes_all(place.category, variant, owner, all.as_slice()),
    }
}

fn takes_slots(table: &SlotTable, variant: Variant, owner: &Tree) -> bool {
    let slots = owner.slots.as_slice();
    for number in 0..slots.len() {
        let taken = table.at(owner.kind, variant, number);
        if !takes_slot(variant, owner, taken, &slots[number]) {
            return false;
        }
    }
    true
}

// The form by which the slots of an expression are judged whose scalars no form has.
fn usual_expression(kind: Kind) -> Option<Form> {
    match kind {
        Kind::FunctionExpression => Some(Form::Function(Flow::Plain)),
        Kind::ArrowFunctionExpression => Some(Form::Arrow(Flow::Plain)),
        Kind::CallExpression => Some(Form::Call(Link::Plain)),
        Kind::UpdateExpression => Some(Form::Prefix(Operator::Mark(Punctuator::PlusPlus))),
        Kind::UnaryExpression => Some(Form::Unary(Operator::Mark(Punctuator::Plus))),
        Kind::BinaryExpression => Some(Form::Binary(Operator::Mark(Punctuator::Plus))),
        Kind::LogicalExpression => Some(Form::Logical(Operator::Mark(Punctuator::OrOr))),
        Kind::AssignmentExpression => {
            Some(Form::Assignment(Operator::Mark(Punctuator::PlusAssign)))
        }
        Kind::YieldExpression => Some(Form::YieldValue),
        _ => None,
    }
}

fn key_at(node: &Tree, scalar: usize) -> Key {
    if node.scalars.is_truth_at(scalar, true) {
        return Key::Computed;
    }
    Key::Plain
}

fn usual_member(node: &Tree) -> Form {
    if node.scalars.is_truth_at(0, true) {
        return Form::Index(Link::Plain);
    }
    Form::Dot(Link::Plain)
}

fn is_function_property(scalars: &Scalars) -> bool {
    scalars.is_text_at(0, "get") || scalars.is_text_at(0, "set") || scalars.is_truth_at(1, true)
}

fn usual_property(node: &Tree) -> Form {
    let key = key_at(node, 3);
    if is_function_property(&node.scalars) {
        return Form::PropertyMethod(Access::Method, Flow::Plain, key);
    }
    if node.scalars.is_truth_at(2, true) {
        return Form::ShorthandProperty;
    }
    Form::Property(key)
}

fn usual_pattern_property(node: &Tree) -> Form {
    if node.scalars.is_truth_at(0, true) {
        return Form::PatternShorthand;
    }
    Form::PatternProperty(key_at(node, 1))
}

// The same of any node.
fn usual(node: &Tree) -> Option<Form> {
    match node.kind {
        Kind::Property => Some(usual_property(node)),
        Kind::MethodDefinition => {
            let key = key_at(node, 2);
            Some(Form::Method(Access::Method, Standing::Instance, Flow::Plain, key))
        }
        Kind::PropertyDefinition => Some(Form::Field(Standing::Instance, key_at(node, 0))),
        Kind::MemberExpression => Some(usual_member(node)),
        Kind::AssignmentProperty => Some(usual_pattern_property(node)),
        Kind::ForOfStatement => Some(Form::ForOf),
        Kind::VariableDeclaration => Some(Form::Variables(Variable::Var)),
        Kind::FunctionDeclaration => Some(Form::FunctionDeclaration(Flow::Plain)),
        Kind::ImportSpecifier => Some(Form::ImportSpecifier),
        Kind::ExportSpecifier => Some(Form::ExportSpecifier),
        kind => usual_expression(kind),
    }
}

fn usual_spelling(form: Form) -> Spelling {
    match form {
        Form::PatternProperty(_) => Spelling::Assigns,
        Form::Field(_, _) => Spelling::WithValue,
        _ => Spelling::Usual,
    }
}

fn is_misplaced_in(table: &SlotTable, node: &Tree, form: Option<Form>) -> bool {
    match form {
        Some(form) => {
            let spelling = usual_spelling(form);
            !takes_slots(table, Variant { form, spelling }, node)
        }
        None => false,
    }
}

fn is_first(position: &Position<'_>) -> bool {
    position.parent.is_none()
}

/// Whether a slot of the node, in this form, does not take what stands there, or the node is the
/// tree's first and no program. Where the scalars are those of no form, the slots are judged by a
/// usual form of the kind.
pub fn is_misplaced(
    table: &SlotTable,
    node: &Tree,
    variant: Option<Variant>,
    position: &Position<'_>,
) -> bool {
    if is_first(position) && !matches!(node.kind, Kind::Program) {
        return true;
    }
    match variant {
        Some(variant) => !takes_slots(table, variant, node),
        None => is_misplaced_in(table, node, usual(node)),
    }
}
