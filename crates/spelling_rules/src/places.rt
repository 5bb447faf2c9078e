//! What the places of a form take, by the forms that stand there.

ghost use Rattle.std.specs.Prelude.{◌≡◌};
ghost use Rattle.spelling_rules.specs.Shapes as spec;

use js_forms::{Category, Flow, Form, Sort, Spelling, Variable};

/// Whether it is the form of a statement that may be the body of another.
pub fn is_statement(form: Form) -> bool
    ensures { result ≡ spec.is_statement form }
{
    match form {
        Form::ExpressionStatement
        | Form::Block
        | Form::Empty
        | Form::Debugger
        | Form::With
        | Form::Return
        | Form::Labeled
        | Form::Break
        | Form::Continue
        | Form::If
        | Form::Switch
        | Form::Throw
        | Form::Try
        | Form::While
        | Form::DoWhile
        | Form::For
        | Form::ForIn
        | Form::ForOf
        | Form::ForAwait => true,
        Form::Variables(variable) => match variable {
            Variable::Var => true,
            _ => false,
        },
        _ => false,
    }
}

/// Whether it is the form of a declaration in this spelling.
pub fn is_declaration(form: Form, spelling: Spelling) -> bool
    ensures { result ≡ spec.is_declaration form spelling }
{
    match form {
        Form::Variables(_) => true,
        Form::FunctionDeclaration(_) | Form::ClassDeclaration => is_usual(spelling),
        _ => false,
    }
}

fn is_directive(form: Form) -> bool
    ensures { result ≡ spec.is_directive form }
{
    match form {
        Form::Directive => true,
        _ => false,
    }
}

fn is_item(form: Form, spelling: Spelling) -> bool
    ensures { result ≡ spec.is_item form spelling }
{
    is_statement(form) || is_declaration(form, spelling) || is_directive(form)
}

fn is_module_form(form: Form) -> bool
    ensures { result ≡ spec.is_module_form form }
{
    match form {
        Form::Import
        | Form::ExportDeclaration
        | Form::ExportNames
        | Form::ExportDefault
        | Form::ExportDefaultDeclaration
        | Form::ExportAll => true,
        _ => false,
    }
}

fn is_name(form: Form) -> bool
    ensures { result ≡ spec.is_name_form form }
{
    match form {
        Form::Name => true,
        _ => false,
    }
}

fn is_any_name(form: Form) -> bool
    ensures { result ≡ spec.is_any_name form }
{
    match form {
        Form::AnyName => true,
        _ => false,
    }
}

fn is_private(form: Form) -> bool
    ensures { result ≡ spec.is_private form }
{
    match form {
        Form::PrivateName => true,
        _ => false,
    }
}

fn is_string(form: Form) -> bool
    ensures { result ≡ spec.is_string form }
{
    match form {
        Form::Literal(sort) => match sort {
            Sort::Quoted => true,
            _ => false,
        },
        _ => false,
    }
}

fn is_key(form: Form) -> bool
    ensures { result ≡ spec.is_key form }
{
    match form {
        Form::AnyName => true,
        Form::Literal(sort) => match sort {
            Sort::Quoted | Sort::Number | Sort::BigInt => true,
            _ => false,
        },
        _ => false,
    }
}

fn is_usual(spelling: Spelling) -> bool
    ensures { result ≡ spec.is_usual spelling }
{
    matches!(spelling, Spelling::Usual)
}

// Whether it is a pattern or a part of one that declares.
fn declares(spelling: Spelling) -> bool
    ensures { result ≡ spec.declares spelling }
{
    matches!(spelling, Spelling::Declares)
}

// The same that assigns.
fn assigns(spelling: Spelling) -> bool
    ensures { result ≡ spec.assigns spelling }
{
    matches!(spelling, Spelling::Assigns)
}

// Whether it is a pattern, in a spelling of which this is true.
fn is_pattern(which: bool, form: Form) -> bool
    ensures { result ≡ spec.is_pattern which form }
{
    match form {
        Form::ArrayPattern | Form::ObjectPattern => which,
        _ => false,
    }
}

fn is_default(which: bool, form: Form) -> bool
    ensures { result ≡ spec.is_default which form }
{
    match form {
        Form::Default => which,
        _ => false,
    }
}

fn is_rest(which: bool, form: Form) -> bool
    ensures { result ≡ spec.is_rest_of which form }
{
    match form {
        Form::Rest => which,
        _ => false,
    }
}

fn is_pattern_property(which: bool, form: Form) -> bool
    ensures { result ≡ spec.is_property_of which form }
{
    match form {
        Form::PatternProperty(_) | Form::NameRest => which,
        Form::PatternShorthand => true,
        _ => false,
    }
}

// Whether it is a name, or a name with a default.
fn is_short(form: Form, spelling: Spelling) -> bool
    ensures { result ≡ spec.is_short form spelling }
{
    is_name(form) || is_default(matches!(spelling, Spelling::Short), form)
}

fn is_object_item(form: Form) -> bool
    ensures { result ≡ spec.is_object_item form }
{
    match form {
        Form::Property(_)
        | Form::ShorthandProperty
        | Form::PropertyMethod(_, _, _)
        | Form::Spread => true,
        _ => false,
    }
}

fn is_class_item(form: Form) -> bool
    ensures { result ≡ spec.is_class_item form }
{
    match form {
        Form::Method(_, _, _, _) | Form::Field(_, _) | Form::StaticBlock => true,
        _ => false,
    }
}

pub fn same_flow(one: Flow, other: Flow) -> bool
    ensures { result ≡ spec.same_flow one other }
{
    match (one, other) {
        (Flow::Plain, Flow::Plain) => true,
        (Flow::Async, Flow::Async) => true,
        (Flow::Generator, Flow::Generator) => true,
        (Flow::AsyncGenerator, Flow::AsyncGenerator) => true,
        _ => false,
    }
}

fn is_method_value(flow: Flow, form: Form) -> bool
    ensures { result ≡ spec.is_method_value flow form }
{
    match form {
        Form::MethodValue(other) => same_flow(flow, other),
        _ => false,
    }
}

fn is_export_specifier(form: Form) -> bool
    ensures { result ≡ spec.is_export_specifier form }
{
    matches!(form, Form::ExportSpecifier | Form::ExportShorthand)
}

fn is_default_declaration(form: Form, spelling: Spelling) -> bool
    ensures { result ≡ spec.is_default_declaration form spelling }
{
    match form {
        Form::FunctionDeclaration(_) | Form::ClassDeclaration => {
            matches!(spelling, Spelling::Default)
        }
        _ => false,
    }
}

/// Whether a place of the category takes the form, in this spelling and in no parentheses. The
/// expressions that a place takes by their level are left aside.
pub fn takes(category: Category, form: Form, spelling: Spelling) -> bool
    ensures { result ≡ spec.takes_bare category form spelling }
{
    match category {
        Category::Item => is_item(form, spelling),
        Category::ModuleItem => is_item(form, spelling) || is_module_form(form),
        Category::Statement => is_statement(form),
        Category::Declaration => is_declaration(form, spelling),
        Category::Block => matches!(form, Form::Block),
        Category::FunctionBody | Category::ArrowBody => matches!(form, Form::FunctionBody),
        Category::ClassBody => matches!(form, Form::ClassBody),
        Category::ClassItem => is_class_item(form),
        Category::Case => matches!(form, Form::Case | Form::DefaultCase),
        Category::Catch => matches!(form, Form::Catch),
        Category::ObjectItem => is_object_item(form),
        Category::Argument | Category::Element => matches!(form, Form::Spread),
        Category::Callee => matches!(form, Form::New),
        Category::Template => match form {
            Form::Template => matches!(spelling, Spelling::Tagged),
            _ => false,
        },
        Category::Method(flow) => is_method_value(flow, form),
        Category::Getter => matches!(form, Form::GetterValue),
        Category::Setter => matches!(form, Form::SetterValue),
        _ => takes_part(category, form, spelling),
    }
}

// The same of a place for a part of an import or an export, or for what the head of a `for`
// declares.
fn takes_part(category: Category, form: Form, spelling: Spelling) -> bool
    ensures { result ≡ spec.takes_part category form spelling }
{
    match category {
        Category::ImportSpecifier => {
            matches!(form, Form::ImportSpecifier | Form::ImportShorthand)
        }
        Category::ImportDefault => matches!(form, Form::ImportDefault),
        Category::ImportNamespace => matches!(form, Form::ImportNamespace),
        Category::ExportSpecifier => is_export_specifier(form) && is_usual(spelling),
        Category::OwnExport => {
            is_export_specifier(form) && matches!(spelling, Spelling::WithoutSource)
        }
        Category::DefaultDeclaration => is_default_declaration(form, spelling),
        Category::ForInit => matches!(form, Form::HeadVariables(_)) && is_usual(spelling),
        Category::ForLeft => {
            matches!(form, Form::HeadVariables(_)) && matches!(spelling, Spelling::BeforeLoop)
        }
        Category::LoneDeclarator => {
            matches!(form, Form::Declarator) && !matches!(spelling, Spelling::WithValue)
        }
        _ => takes_name(category, form, spelling),
    }
}

// The same of a place for a name, a key or a pattern.
fn takes_name(category: Category, form: Form, spelling: Spelling) -> bool
    ensures { result ≡ spec.takes_name category form spelling }
{
    match category {
        Category::Binding => is_name(form) || is_pattern(declares(spelling), form),
        Category::BindingValue => {
            is_name(form)
                || is_pattern(declares(spelling), form)
                || is_default(declares(spelling), form)
        }
        Category::BindingElement => {
            is_name(form)
                || is_pattern(declares(spelling), form)
                || is_default(declares(spelling), form)
                || is_rest(declares(spelling), form)
        }
        Category::BindingProperty => is_pattern_property(declares(spelling), form),
        Category::Assigned => is_pattern(assigns(spelling), form),
        Category::AssignedValue => {
            is_pattern(assigns(spelling), form) || is_default(assigns(spelling), form)
        }
        Category::AssignedElement => {
            is_pattern(assigns(spelling), form)
                || is_default(assigns(spelling), form)
                || is_rest(assigns(spelling), form)
        }
        Category::AssignedProperty => is_pattern_property(assigns(spelling), form),
        Category::Name => is_name(form),
        Category::AnyName | Category::SuperMember => is_any_name(form),
        Category::Member => is_any_name(form) || is_private(form),
        Category::ObjectKey => is_key(form),
        Category::ClassKey => is_key(form) || is_private(form),
        Category::ShortValue => is_short(form, spelling),
        Category::Source => is_string(form),
        _ => false,
    }
}
