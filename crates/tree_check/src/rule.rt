//! The rules that a tree keeps which some text spells.

ghost use Rattle.std.specs.Prelude.{◌≡◌};
ghost use Rattle.tree_check.specs.Rules.{rule_name, rule_number};

/// The greatest depth of a node, the tree's first node having depth 1.
pub const MAX_DEPTH: usize = 1_000;

/// A rule of trees. A node that breaks several is blamed for the first of them.
#[derive(Clone, Copy, Debug, PartialEq, Eq)]
pub enum Rule {
    /// A node stands at a depth above 1,000, the tree's first node having depth 1.
    Depth,
    /// A slot that needs a child has none, or a list is too short.
    Missing,
    /// A child, or an empty place of a list, stands in a slot that does not take it.
    Category,
    /// The scalars are those of no form.
    Scalar,
    /// A name is no identifier name (ECMA-262, clause 12.7), or a reserved word where that may not
    /// stand.
    Name,
    /// The text of a number, a BigInt, a regular expression or an interpreter line does not scan as
    /// such.
    LiteralText,
    /// The text of a template's characters is none (12.9.6).
    TemplateText,
    /// A directive stands where none may, or its text is no inside of a string (11.2.1).
    Directive,
    /// A shorthand's two names are not one.
    Shorthand,
    /// A declarator lacks a value that it needs, or has one before `in` or `of` (14.3, 14.7.5).
    Initializer,
    /// A rest element is not the last of its list.
    RestLast,
    /// A method's function, or the kind of a method, is not that of such a method (15.4, 15.7).
    Method,
    /// A chain has no optional link, or an optional link is in no chain or belongs to `super`
    /// (13.3.9).
    Chain,
    /// `await` or `yield` stands where it is no operator (15.5, 15.8).
    Context,
    /// An `else` would belong to another `if` (14.6).
    DanglingElse,
    /// A switch has a second case without test (14.12).
    DefaultTwice,
    /// The specifiers of an import stand together or follow each other as none do (16.2.2).
    Specifiers,
    /// A comment belongs to a place that no text has.
    CommentPlace,
    /// The text of a comment would end it, or is no text (12.4).
    CommentText,
    /// A comment that ends a line stands where no line may end.
    LineGap,
    /// A private name stands outside every class body.
    Private,
}

impl Rule {
    /// 1 to 21, in the order of the variants.
    pub fn number(self) -> u8
        ensures { result ≡ rule_number self }
    {
        match self {
            Rule::Depth => 1,
            Rule::Missing => 2,
            Rule::Category => 3,
            Rule::Scalar => 4,
            Rule::Name => 5,
            Rule::LiteralText => 6,
            Rule::TemplateText => 7,
            Rule::Directive => 8,
            Rule::Shorthand => 9,
            Rule::Initializer => 10,
            Rule::RestLast => 11,
            Rule::Method => 12,
            Rule::Chain => 13,
            Rule::Context => 14,
            Rule::DanglingElse => 15,
            Rule::DefaultTwice => 16,
            Rule::Specifiers => 17,
            Rule::CommentPlace => 18,
            Rule::CommentText => 19,
            Rule::LineGap => 20,
            Rule::Private => 21,
        }
    }

    /// The name under which a row tells it.
    #[tactic(auto, unfolding(crate::specs::Rules::rule_name))]
    pub fn name(self) -> &'static str
        ensures { result.now ≡ rule_name self }
    {
        match self {
            Rule::Depth => "Depth",
            Rule::Missing => "Missing",
            Rule::Category => "Category",
            Rule::Scalar => "Scalar",
            Rule::Name => "Name",
            Rule::LiteralText => "LiteralText",
            Rule::TemplateText => "TemplateText",
            Rule::Directive => "Directive",
            Rule::Shorthand => "Shorthand",
            Rule::Initializer => "Initializer",
            Rule::RestLast => "RestLast",
            Rule::Method => "Method",
            Rule::Chain => "Chain",
            Rule::Context => "Context",
            Rule::DanglingElse => "DanglingElse",
            Rule::DefaultTwice => "DefaultTwice",
            Rule::Specifiers => "Specifiers",
            Rule::CommentPlace => "CommentPlace",
            Rule::CommentText => "CommentText",
            Rule::LineGap => "LineGap",
            Rule::Private => "Private",
        }
    }
}
