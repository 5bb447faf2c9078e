//! The pieces of which the spellings of forms are made, as data. Whoever reads the table of forms
//! has one case for each sort of piece.

ghost use Rattle.std.specs.Prelude.{◌≡◌};
ghost use Rattle.js_forms.specs.Table.{meta_spelling};

use crate::category::Category;
use crate::context::Scope;
use crate::form::Standing;
use asi_rules::Ending;
use js_tokens::{Punctuator, Word};

/// The words that the grammar knows at some places alone, where they have no escapes.
#[derive(Clone, Copy, Debug, PartialEq, Eq)]
pub enum MetaWord {
    Target,
    Meta,
    As,
}

impl MetaWord {
    #[tactic(auto, unfolding(crate::specs::Table::meta_spelling))]
    pub fn spelling(self) -> &'static str
        ensures { result.now ≡ meta_spelling self }
    {
        match self {
            MetaWord::Target => "target",
            MetaWord::Meta => "meta",
            MetaWord::As => "as",
        }
    }
}

/// What is asked of the next token.
#[derive(Clone, Copy, Debug, PartialEq, Eq)]
pub enum Test {
    Punctuator(Punctuator),
    NotPunctuator(Punctuator),
    Word(Word),
    NotWord(Word),
    /// One of these words.
    OneOf(Word, Word),
    Spelled(MetaWord),
    NotSpelled(MetaWord),
    /// A name that is no reserved word.
    FreeName,
    /// No line end stands before it.
    SameLine,
    /// The statement goes on with it: no line end stands before it, and it is no `;`, no `}` and
    /// not the end of the text.
    GoesOn,
    /// The end of the text.
    End,
    /// What `export default` declares begins otherwise.
    NoDeclaration,
    /// An expression statement may begin with it.
    Expression,
    /// `[` or `{`.
    Pattern,
    /// The key of a field is no word that stands before keys. Before a static field's, `static` is
    /// none.
    FieldName(Standing),
    /// No token.
    Never,
}

/// The tokens whose text is a scalar.
#[derive(Clone, Copy, Debug, PartialEq, Eq)]
pub enum Lexeme {
    /// A name that is no reserved word.
    FreeName,
    AnyName,
    PrivateName,
    Quoted,
    Number,
    BigInt,
    Regex,
    Directive,
}

/// The blanks of made text.
#[derive(Clone, Copy, Debug, PartialEq, Eq)]
pub enum Blank {
    Space,
    /// A space, where the list beside it has items.
    Inside,
    /// A line end with the indentation of the list that follows, where that has items. Items in a
    /// row have the same between them.
    Items,
    /// A line end with the node's own indentation, where the list before it has items.
    Line,
}

/// A place for one child.
#[derive(Clone, Copy, Debug, PartialEq, Eq)]
pub struct Place {
    pub category: Category,
    /// The least level of an expression.
    pub least: u8,
    pub scope: Scope,
}

/// A scalar that the form determines.
#[derive(Clone, Copy, Debug, PartialEq, Eq)]
pub enum Fixed {
    True,
    False,
    /// The form's operator.
    Operator,
    Async,
    Generator,
    Static,
    Computed,
    Optional,
    /// `kind` of a method (ESTree, MethodDefinition).
    MethodKind,
    /// `kind` of a property.
    PropertyKind,
    /// Whether a property is a method.
    IsMethod,
    /// `kind` of a declaration of variables.
    DeclarationKind,
    LiteralKind,
    /// The value of a literal that is a word.
    WordValue,
    /// The flags of a literal that is a word.
    WordFlags,
    NewTarget,
    ImportMeta,
}

/// A piece that the fields of the form tell.
#[derive(Clone, Copy, Debug, PartialEq, Eq)]
pub enum Own {
    Operator,
    /// The blank behind an operator that is a word.
    OperatorSpace,
    /// The right operand, of the level that the operator wants.
    Right,
    /// `async`, where the function is one.
    Async,
    /// No line end behind that.
    AsyncLine,
    AsyncSpace,
    /// `*`, where the function is a generator.
    Star,
    /// `static`, where the member is.
    Static,
    StaticSpace,
    /// `get` or `set`, of an accessor.
    Access,
    AccessSpace,
    /// A key, in brackets where it is computed.
    KeyOpen,
    Key,
    KeyClose,
    /// The parameters and the body of a method.
    Method,
    Literal,
    /// `var`, `let` or `const`.
    VariableWord,
    /// `.` or `?.`.
    Dot,
    /// `?.`, where the link is optional.
    Link,
    /// What is asked of the key of a field without a value.
    FieldName,
    /// The key of a field is the name `static`, of one that is not static.
    StaticName,
}

/// A choice between two rows of pieces.
#[derive(Clone, Copy, Debug, PartialEq, Eq)]
pub enum Choice {
    /// A name of a function or a class, or none.
    Name,
    Heritage,
    ArrowParameters,
    ArrowBody,
    /// The comma behind the one parameter of a setter.
    LastComma,
    Argument,
    Label,
    Else,
    CatchParameter,
    Handler,
    Finalizer,
    /// The `;` behind a `do` loop.
    Semicolon,
    ForInit,
    ForTest,
    ForUpdate,
    ExportedAs,
}

/// A piece of a spelling.
#[derive(Clone, Copy, Debug, PartialEq, Eq)]
pub enum Piece {
    /// No token.
    Nothing,
    /// A scalar that the form determines. All of them come first.
    Scalar(Fixed),
    /// The first line of a program, whose text is a scalar that is told elsewhere. It counts as a
    /// word.
    Interpreter,
    Blank(Blank),
    /// A token that passes the test.
    Token(Test),
    /// Such a token comes next, and belongs to what follows.
    Ahead(Test),
    /// A token whose text is scalars.
    Text(Lexeme),
    Child(Place),
    /// The child by which the form goes on, whose shape tells that of the node.
    First(Place),
    /// An empty place.
    Hole,
    /// A child that is the first of the list that follows.
    Into(Place),
    /// An empty list, or the end of one with children put into it; what its slot takes, if
    /// anything.
    NoList(Option<Place>),
    /// Children in a row, and whether semicolons stand between them.
    Row(Place, bool),
    /// Children with commas between them: whether places may be empty, and whether a comma may be
    /// last.
    Commas(Place, bool, bool),
    /// One name for two children: the mirror, which is spelled nowhere, before the other (`true`)
    /// or behind it.
    Twins(bool, Place),
    /// The end of a statement or a field: `;`, or where that may be missing; whether it is an
    /// export clause.
    End(Ending, bool),
    /// A template, and whether all its escapes are good.
    Template(bool),
    /// The first of the two rows of pieces, or the second.
    Choice(Choice),
    Own(Own),
}

/// Which of a form's spellings it is.
#[derive(Clone, Copy, Debug, PartialEq, Eq)]
pub enum Spelling {
    /// The only one, or the usual one.
    Usual,
    /// A pattern, or a part of one, that declares.
    Declares,
    /// The same that assigns.
    Assigns,
    /// A default in a shorthand.
    Short,
    /// A template behind a tag, whose escapes may be any.
    Tagged,
    /// `new` without arguments.
    WithoutArguments,
    /// A declarator of a name alone.
    NameAlone,
    /// A declarator of a pattern alone.
    PatternAlone,
    /// A declarator or a field with a value.
    WithValue,
    /// A declaration in the head of a `for`, before `in` or `of`.
    BeforeLoop,
    /// A function or a class behind `export default`, which may lack its name.
    Default,
    /// An export of names, or one of these, without a source.
    WithoutSource,
    /// A field without a value, whose key is the name `get` or `set`.
    AccessorName,
    /// A field without a value that is not static, whose key is the name `static`.
    StaticName,
    /// An import of names in braces.
    Names,
    /// An import of a namespace.
    Namespace,
    /// An import of the default alone.
    DefaultAlone,
    /// An import of the default and of names in braces.
    DefaultAndNames,
    /// An import of the default and of a namespace.
    DefaultAndNamespace,
}
