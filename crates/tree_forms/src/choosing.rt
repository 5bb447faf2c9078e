//! Which form spells a tree.

ghost use Rattle.std.specs.Prelude.{◌≡◌, slice_get};
ghost use Rattle.tree_core.specs.View.{syntax};
ghost use Rattle.js_forms.specs.Operators.{operators};
ghost use Rattle.tree_forms.specs.Choice as spec;

use crate::fronts::has_scalars;
use crate::reading::{child, is_function_or_class};
use crate::spellings::spelling;
use crate::variant::Variant;
use js_forms::{
    Access, Category, Flow, Form, Key, Link, Operator, Place, Role, Sort, Standing, Variable,
    has_role, operators,
};
use spelling_rules::same_flow;
use tree_core::{Scalars, Tree};
use type_defs::Kind;

// The first operator of such expressions that the node's first scalar spells.
fn operator_in(role: Role, scalars: &Scalars) -> Option<Operator>
    ensures { result ≡ spec.operator_in operators role (slice_get scalars.now 0) }
{
    for row in operators() {
        if has_role(row.1, row.2, role) && scalars.is_text_at(0, row.0.spelling()) {
            return Some(row.0);
        }
    }
    None
}

fn key_at(scalars: &Scalars, number: usize) -> Key
    ensures { result ≡ spec.key_at (slice_get scalars.now number) }
{
    if scalars.is_truth_at(number, true) {
        Key::Computed
    } else {
        Key::Plain
    }
}

fn standing_at(scalars: &Scalars, number: usize) -> Standing
    ensures { result ≡ spec.standing_at (slice_get scalars.now number) }
{
    if scalars.is_truth_at(number, true) {
        Standing::Static
    } else {
        Standing::Instance
    }
}

fn link_at(scalars: &Scalars, number: usize) -> Link
    ensures { result ≡ spec.link_at (slice_get scalars.now number) }
{
    if scalars.is_truth_at(number, true) {
        Link::Optional
    } else {
        Link::Plain
    }
}

// `async` and `generator` of a function.
fn flow_in(scalars: &Scalars) -> Flow
    ensures { result ≡ spec.flow_in scalars.now }
{
    Flow::new(scalars.is_truth_at(0, true), scalars.is_truth_at(1, true))
}

// How the value of a method runs.
fn value_flow(tree: &Tree) -> Flow
    ensures { result ≡ spec.value_flow (syntax tree.now) }
{
    match child(tree, 1) {
        Some(value) => flow_in(&value.scalars),
        None => Flow::Plain,
    }
}

fn sort_in(scalars: &Scalars) -> Sort
    ensures { result ≡ spec.sort_in scalars.now }
{
    if scalars.is_text_at(0, "string") {
        return Sort::Quoted;
    }
    if scalars.is_text_at(0, "number") {
        return Sort::Number;
    }
    if scalars.is_text_at(0, "bigint") {
        return Sort::BigInt;
    }
    if scalars.is_text_at(0, "null") {
        return Sort::Null;
    }
    if scalars.is_text_at(0, "regexp") {
        return Sort::Regex;
    }
    if scalars.is_truth_at(1, true) {
        return Sort::True;
    }
    Sort::False
}

fn variable_in(scalars: &Scalars) -> Variable
    ensures { result ≡ spec.variable_in scalars.now }
{
    if scalars.is_text_at(0, "var") {
        return Variable::Var;
    }
    if scalars.is_text_at(0, "let") {
        return Variable::Let;
    }
    Variable::Const
}

fn property(tree: &Tree) -> Form
    ensures { result ≡ spec.property (syntax tree.now) }
{
    let scalars = &tree.scalars;
    let key = key_at(scalars, 3);
    if scalars.is_text_at(0, "get") {
        return Form::PropertyMethod(Access::Get, Flow::Plain, key);
    }
    if scalars.is_text_at(0, "set") {
        return Form::PropertyMethod(Access::Set, Flow::Plain, key);
    }
    if scalars.is_truth_at(1, true) {
        return Form::PropertyMethod(Access::Method, value_flow(tree), key);
    }
    if scalars.is_truth_at(2, true) {
        return Form::ShorthandProperty;
    }
    Form::Property(key)
}

fn method(tree: &Tree) -> Form
    ensures { result ≡ spec.method (syntax tree.now) }
{
    let scalars = &tree.scalars;
    let standing = standing_at(scalars, 1);
    let key = key_at(scalars, 2);
    if scalars.is_text_at(0, "get") {
        return Form::Method(Access::Get, standing, Flow::Plain, key);
    }
    if scalars.is_text_at(0, "set") {
        return Form::Method(Access::Set, standing, Flow::Plain, key);
    }
    if scalars.is_text_at(0, "constructor") {
        return Form::Method(Access::Constructor, standing, value_flow(tree), key);
    }
    Form::Method(Access::Method, standing, value_flow(tree), key)
}

fn pattern_property(scalars: &Scalars) -> Form
    ensures { result ≡ spec.pattern_property scalars.now }
{
    if scalars.is_truth_at(0, true) {
        return Form::PatternShorthand;
    }
    Form::PatternProperty(key_at(scalars, 1))
}

fn member(scalars: &Scalars) -> Form
    ensures { result ≡ spec.member scalars.now }
{
    if scalars.is_truth_at(0, true) {
        return Form::Index(link_at(scalars, 1));
    }
    Form::Dot(link_at(scalars, 1))
}

fn meta(scalars: &Scalars) -> Form
    ensures { result ≡ spec.meta scalars.now }
{
    if scalars.is_text_at(0, "new.target") {
        return Form::NewTarget;
    }
    Form::ImportMeta
}

fn arrow(scalars: &Scalars) -> Form
    ensures { result ≡ spec.arrow scalars.now }
{
    Form::Arrow(Flow::new(scalars.is_truth_at(0, true), false))
}

fn yielding(tree: &Tree) -> Form
    ensures { result ≡ spec.yielding (syntax tree.now) }
{
    if tree.scalars.is_truth_at(0, true) {
        return Form::YieldStar;
    }
    match child(tree, 0) {
        Some(_) => Form::YieldValue,
        None => Form::Yield,
    }
}

// Whether a place takes names that may be any word.
fn any_name_at(category: Category) -> bool
    ensures { result ≡ spec.any_name_at category }
{
    match category {
        Category::AnyName
        | Category::Member
        | Category::SuperMember
        | Category::ObjectKey
        | Category::ClassKey => true,
        _ => false,
    }
}

fn name(category: Category) -> Form
    ensures { result ≡ spec.name category }
{
    if any_name_at(category) {
        return Form::AnyName;
    }
    Form::Name
}

// A function that runs so, as the value of a method or by itself.
fn method_value(category: Category, flow: Flow) -> Form
    ensures { result ≡ spec.method_value category flow }
{
    match category {
        Category::Method(wanted) => {
            if same_flow(wanted, flow) {
                return Form::MethodValue(flow);
            }
            Form::Function(flow)
        }
        Category::Getter => accessor(Form::GetterValue, flow),
        Category::Setter => accessor(Form::SetterValue, flow),
        _ => Form::Function(flow),
    }
}

// The value of an accessor, which is a plain function.
fn accessor(value: Form, flow: Flow) -> Form
    ensures { result ≡ spec.accessor value flow }
{
    match flow {
        Flow::Plain => value,
        _ => Form::Function(flow),
    }
}

fn rest(category: Category) -> Form
    ensures { result ≡ spec.rest category }
{
    match category {
        Category::BindingProperty | Category::AssignedProperty => Form::NameRest,
        _ => Form::Rest,
    }
}

fn block(category: Category) -> Form
    ensures { result ≡ spec.block category }
{
    match category {
        Category::FunctionBody | Category::ArrowBody => Form::FunctionBody,
        _ => Form::Block,
    }
}

fn variables(category: Category, variable: Variable) -> Form
    ensures { result ≡ spec.variables category variable }
{
    match category {
        Category::ForInit | Category::ForLeft => Form::HeadVariables(variable),
        _ => Form::Variables(variable),
    }
}

fn case(tree: &Tree) -> Form
    ensures { result ≡ spec.case (syntax tree.now) }
{
    match child(tree, 0) {
        Some(_) => Form::Case,
        None => Form::DefaultCase,
    }
}

fn for_of(scalars: &Scalars) -> Form
    ensures { result ≡ spec.for_of scalars.now }
{
    if scalars.is_truth_at(0, true) {
        return Form::ForAwait;
    }
    Form::ForOf
}

fn import_specifier(scalars: &Scalars) -> Form
    ensures { result ≡ spec.import_specifier scalars.now }
{
    if scalars.is_truth_at(0, true) {
        return Form::ImportShorthand;
    }
    Form::ImportSpecifier
}

fn export_specifier(scalars: &Scalars) -> Form
    ensures { result ≡ spec.export_specifier scalars.now }
{
    if scalars.is_truth_at(0, true) {
        return Form::ExportShorthand;
    }
    Form::ExportSpecifier
}

fn export_named(tree: &Tree) -> Form
    ensures { result ≡ spec.export_named (syntax tree.now) }
{
    match child(tree, 0) {
        Some(_) => Form::ExportDeclaration,
        None => Form::ExportNames,
    }
}

fn export_default(tree: &Tree) -> Form
    ensures { result ≡ spec.export_default (syntax tree.now) }
{
    match child(tree, 0) {
        Some(declared) => {
            if is_function_or_class(declared) {
                return Form::ExportDefaultDeclaration;
            }
            Form::ExportDefault
        }
        None => Form::ExportDefault,
    }
}

// The form of an expression that has an operator.
fn operation(kind: Kind, scalars: &Scalars) -> Option<Form>
    ensures { result ≡ spec.operation kind scalars.now }
{
    match kind {
        Kind::UpdateExpression => {
            let operator = operator_in(Role::Update, scalars)?;
            if scalars.is_truth_at(1, true) {
                return Some(Form::Prefix(operator));
            }
            Some(Form::Postfix(operator))
        }
        Kind::UnaryExpression => Some(Form::Unary(operator_in(Role::Unary, scalars)?)),
        Kind::BinaryExpression => Some(Form::Binary(operator_in(Role::Binary, scalars)?)),
        Kind::LogicalExpression => Some(Form::Logical(operator_in(Role::Logical, scalars)?)),
        Kind::AssignmentExpression => Some(Form::Assignment(operator_in(
            Role::Assignment,
            scalars,
        )?)),
        _ => None,
    }
}

// The form of an expression, a pattern or a part of one.
fn expression(kind: Kind, category: Category, tree: &Tree) -> Option<Form>
    ensures { result ≡ spec.expression kind category (syntax tree.now) }
{
    let scalars = &tree.scalars;
    match kind {
        Kind::Identifier => Some(name(category)),
        Kind::Literal => Some(Form::Literal(sort_in(scalars))),
        Kind::ThisExpression => Some(Form::This),
        Kind::Super => Some(Form::Super),
        Kind::ArrayExpression => Some(Form::Array),
        Kind::ObjectExpression => Some(Form::Object),
        Kind::Property => Some(property(tree)),
        Kind::FunctionExpression => Some(method_value(category, flow_in(scalars))),
        Kind::ArrowFunctionExpression => Some(arrow(scalars)),
        Kind::ClassExpression => Some(Form::Class),
        Kind::ClassBody => Some(Form::ClassBody),
        Kind::MethodDefinition => Some(method(tree)),
        Kind::PropertyDefinition => {
            Some(Form::Field(standing_at(scalars, 1), key_at(scalars, 0)))
        }
        Kind::PrivateIdentifier => Some(Form::PrivateName),
        Kind::StaticBlock => Some(Form::StaticBlock),
        Kind::TemplateLiteral => Some(Form::Template),
        Kind::TemplateElement => Some(Form::TemplateElement),
        Kind::TaggedTemplateExpression => Some(Form::Tagged),
        Kind::MemberExpression => Some(member(scalars)),
        Kind::CallExpression => Some(Form::Call(link_at(scalars, 0))),
        Kind::NewExpression => Some(Form::New),
        Kind::ImportExpression => Some(Form::ImportCall),
        Kind::ChainExpression => Some(Form::Chain),
        Kind::MetaProperty => Some(meta(scalars)),
        Kind::AwaitExpression => Some(Form::Await),
        Kind::ConditionalExpression => Some(Form::Conditional),
        Kind::YieldExpression => Some(yielding(tree)),
        Kind::SequenceExpression => Some(Form::Sequence),
        Kind::SpreadElement => Some(Form::Spread),
        Kind::ArrayPattern => Some(Form::ArrayPattern),
        Kind::ObjectPattern => Some(Form::ObjectPattern),
        Kind::AssignmentProperty => Some(pattern_property(scalars)),
        Kind::AssignmentPattern => Some(Form::Default),
        Kind::RestElement => Some(rest(category)),
        _ => operation(kind, scalars),
    }
}

// The form of an import, an export or a part of one.
fn module_item(kind: Kind, tree: &Tree) -> Option<Form>
    ensures { result ≡ spec.module_item kind (syntax tree.now) }
{
    match kind {
        Kind::ImportDeclaration => Some(Form::Import),
        Kind::ImportSpecifier => Some(import_specifier(&tree.scalars)),
        Kind::ImportDefaultSpecifier => Some(Form::ImportDefault),
        Kind::ImportNamespaceSpecifier => Some(Form::ImportNamespace),
        Kind::ExportNamedDeclaration => Some(export_named(tree)),
        Kind::ExportSpecifier => Some(export_specifier(&tree.scalars)),
        Kind::ExportDefaultDeclaration => Some(export_default(tree)),
        Kind::ExportAllDeclaration => Some(Form::ExportAll),
        _ => None,
    }
}

// The form of the kind, by its scalars and children and by what the place takes.
fn chosen(kind: Kind, category: Category, tree: &Tree) -> Option<Form>
    ensures { result ≡ spec.chosen kind category (syntax tree.now) }
{
    match kind {
        Kind::Program => Some(Form::Program),
        Kind::Directive => Some(Form::Directive),
        Kind::ExpressionStatement => Some(Form::ExpressionStatement),
        Kind::BlockStatement => Some(block(category)),
        Kind::EmptyStatement => Some(Form::Empty),
        Kind::DebuggerStatement => Some(Form::Debugger),
        Kind::WithStatement => Some(Form::With),
        Kind::ReturnStatement => Some(Form::Return),
        Kind::LabeledStatement => Some(Form::Labeled),
        Kind::BreakStatement => Some(Form::Break),
        Kind::ContinueStatement => Some(Form::Continue),
        Kind::IfStatement => Some(Form::If),
        Kind::SwitchStatement => Some(Form::Switch),
        Kind::SwitchCase => Some(case(tree)),
        Kind::ThrowStatement => Some(Form::Throw),
        Kind::TryStatement => Some(Form::Try),
        Kind::CatchClause => Some(Form::Catch),
        Kind::WhileStatement => Some(Form::While),
        Kind::DoWhileStatement => Some(Form::DoWhile),
        Kind::ForStatement => Some(Form::For),
        Kind::ForInStatement => Some(Form::ForIn),
        Kind::ForOfStatement => Some(for_of(&tree.scalars)),
        Kind::VariableDeclaration => Some(variables(category, variable_in(&tree.scalars))),
        Kind::VariableDeclarator => Some(Form::Declarator),
        Kind::FunctionDeclaration => Some(Form::FunctionDeclaration(flow_in(&tree.scalars))),
        Kind::ClassDeclaration => Some(Form::ClassDeclaration),
        Kind::ImportDeclaration
        | Kind::ImportSpecifier
        | Kind::ImportDefaultSpecifier
        | Kind::ImportNamespaceSpecifier
        | Kind::ExportNamedDeclaration
        | Kind::ExportSpecifier
        | Kind::ExportDefaultDeclaration
        | Kind::ExportAllDeclaration => module_item(kind, tree),
        _ => expression(kind, category, tree),
    }
}

/// The form that made text gives the tree at the place, `None` where no form of its kind has its
/// scalars. A place that does not take the tree counts as one for what is assigned to, for a
/// function by itself, or for a declaration outside heads.
pub fn form(tree: &Tree, place: Place) -> Option<Variant>
    ensures { result ≡ spec.form place.category (syntax tree.now) }
{
    let form = chosen(tree.kind, place.category, tree)?;
    if has_scalars(form, &tree.scalars) {
        let spelling = spelling(form, place.category, tree);
        return Some(Variant { form, spelling });
    }
    None
}
