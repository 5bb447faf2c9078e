//! Operators: by which tokens, before and between which operands (ECMA-262, clauses 13.4 to 13.15).

ghost use Rattle.std.specs.Prelude.{◌≡◌, length, map, IsTrue};
ghost use Rattle.js_forms.specs.Operators as spec;

use crate::levels::{
    ADDITIVE, BIT_AND, BIT_OR, BIT_XOR, COALESCE, EQUALITY, EXPONENT, LOGICAL_AND, Left,
    MULTIPLICATIVE, RELATIONAL, SHIFT, UPDATE,
};
use js_tokens::{Punctuator, TokenKind, Word};

/// An operator, by its token.
#[derive(Clone, Copy, Debug, PartialEq, Eq)]
pub enum Operator {
    Mark(Punctuator),
    Word(Word),
}

/// What a token is between two operands.
#[derive(Clone, Copy, Debug, PartialEq, Eq)]
pub enum Infix {
    /// No operator.
    None,
    /// One of a binary expression: its level, its left operand, and the least level of the right
    /// one.
    Binary(u8, Left, u8),
    /// One of a logical expression, with the same.
    Logical(u8, Left, u8),
    Assignment,
}

/// What a token is before an operand.
#[derive(Clone, Copy, Debug, PartialEq, Eq)]
pub enum Prefix {
    /// No operator.
    None,
    Unary,
    /// `++` or `--`, which may stand behind an operand too.
    Update,
}

/// The kinds of expressions that have an operator.
#[derive(Clone, Copy, Debug, PartialEq, Eq)]
pub enum Role {
    Update,
    Unary,
    Binary,
    Logical,
    Assignment,
}

/// A token, and what operator it is.
pub type OperatorRow = (Operator, Infix, Prefix);

macro_rules! operators {
    ($($sort:ident $token:expr, $infix:expr, $prefix:ident;)*) => {
        &[$((Operator::$sort($token), $infix, Prefix::$prefix)),*]
    };
}

const RELATION: Infix = Infix::Binary(RELATIONAL, Left::Level(RELATIONAL), SHIFT);

const SAMENESS: Infix = Infix::Binary(EQUALITY, Left::Level(EQUALITY), RELATIONAL);

const SUM: Infix = Infix::Binary(ADDITIVE, Left::Level(ADDITIVE), MULTIPLICATIVE);

const PRODUCT: Infix = Infix::Binary(MULTIPLICATIVE, Left::Level(MULTIPLICATIVE), EXPONENT);

const SHIFTED: Infix = Infix::Binary(SHIFT, Left::Level(SHIFT), ADDITIVE);

const NO_ROW: OperatorRow = (
    Operator::Mark(Punctuator::OpenBrace),
    Infix::None,
    Prefix::None,
);

/// How many words are operators.
pub const WORD_COUNT: usize = 5;

/// The words that are operators, and behind them the punctuators in their order.
pub const OPERATORS: &[OperatorRow] = operators! {
    // 13.10, 13.5
    Word Word::In, RELATION, None;
    Word Word::Instanceof, RELATION, None;
    Word Word::Typeof, Infix::None, Unary;
    Word Word::Void, Infix::None, Unary;
    Word Word::Delete, Infix::None, Unary;
    Mark Punctuator::OpenBrace, Infix::None, None;
    Mark Punctuator::OpenParen, Infix::None, None;
    Mark Punctuator::CloseParen, Infix::None, None;
    Mark Punctuator::OpenBracket, Infix::None, None;
    Mark Punctuator::CloseBracket, Infix::None, None;
    Mark Punctuator::Dot, Infix::None, None;
    Mark Punctuator::Ellipsis, Infix::None, None;
    Mark Punctuator::Semicolon, Infix::None, None;
    Mark Punctuator::Comma, Infix::None, None;
    // 13.10
    Mark Punctuator::Less, RELATION, None;
    Mark Punctuator::Greater, RELATION, None;
    Mark Punctuator::LessEqual, RELATION, None;
    Mark Punctuator::GreaterEqual, RELATION, None;
    // 13.11
    Mark Punctuator::Equal, SAMENESS, None;
    Mark Punctuator::NotEqual, SAMENESS, None;
    Mark Punctuator::StrictEqual, SAMENESS, None;
    Mark Punctuator::StrictNotEqual, SAMENESS, None;
    // 13.8, 13.5
    Mark Punctuator::Plus, SUM, Unary;
    Mark Punctuator::Minus, SUM, Unary;
    // 13.7
    Mark Punctuator::Star, PRODUCT, None;
    Mark Punctuator::Percent, PRODUCT, None;
    // 13.6
    Mark Punctuator::StarStar, Infix::Binary(EXPONENT, Left::Level(UPDATE), EXPONENT), None;
    // 13.4
    Mark Punctuator::PlusPlus, Infix::None, Update;
    Mark Punctuator::MinusMinus, Infix::None, Update;
    // 13.9
    Mark Punctuator::ShiftLeft, SHIFTED, None;
    Mark Punctuator::ShiftRight, SHIFTED, None;
    Mark Punctuator::ShiftRightUnsigned, SHIFTED, None;
    // 13.12
    Mark Punctuator::Ampersand, Infix::Binary(BIT_AND, Left::Level(BIT_AND), EQUALITY), None;
    Mark Punctuator::Bar, Infix::Binary(BIT_OR, Left::Level(BIT_OR), BIT_XOR), None;
    Mark Punctuator::Caret, Infix::Binary(BIT_XOR, Left::Level(BIT_XOR), BIT_AND), None;
    // 13.5
    Mark Punctuator::Bang, Infix::None, Unary;
    Mark Punctuator::Tilde, Infix::None, Unary;
    // 13.13
    Mark Punctuator::AndAnd, Infix::Logical(LOGICAL_AND, Left::Level(LOGICAL_AND), BIT_OR), None;
    Mark Punctuator::OrOr, Infix::Logical(COALESCE, Left::Other(COALESCE), LOGICAL_AND), None;
    Mark Punctuator::Nullish, Infix::Logical(COALESCE, Left::Coalescing(BIT_OR), BIT_OR), None;
    Mark Punctuator::Question, Infix::None, None;
    Mark Punctuator::OptionalDot, Infix::None, None;
    Mark Punctuator::Colon, Infix::None, None;
    // 13.15
    Mark Punctuator::Assign, Infix::Assignment, None;
    Mark Punctuator::PlusAssign, Infix::Assignment, None;
    Mark Punctuator::MinusAssign, Infix::Assignment, None;
    Mark Punctuator::StarAssign, Infix::Assignment, None;
    Mark Punctuator::PercentAssign, Infix::Assignment, None;
    Mark Punctuator::StarStarAssign, Infix::Assignment, None;
    Mark Punctuator::ShiftLeftAssign, Infix::Assignment, None;
    Mark Punctuator::ShiftRightAssign, Infix::Assignment, None;
    Mark Punctuator::ShiftRightUnsignedAssign, Infix::Assignment, None;
    Mark Punctuator::AmpersandAssign, Infix::Assignment, None;
    Mark Punctuator::BarAssign, Infix::Assignment, None;
    Mark Punctuator::CaretAssign, Infix::Assignment, None;
    Mark Punctuator::Arrow, Infix::None, None;
    Mark Punctuator::Slash, PRODUCT, None;
    Mark Punctuator::SlashAssign, Infix::Assignment, None;
    Mark Punctuator::CloseBrace, Infix::None, None;
    Mark Punctuator::AndAssign, Infix::Assignment, None;
    Mark Punctuator::OrAssign, Infix::Assignment, None;
    Mark Punctuator::NullishAssign, Infix::Assignment, None;
};

/// The table of operators.
#[tactic(auto, unfolding(crate::specs::Operators::operators))]
pub fn operators() -> &'static [OperatorRow]
    ensures count { length result.now ≡ 62 }
    ensures order { IsTrue (spec.are_placed 0 (map (λ row. row.0) spec.operators)) }
    ensures rows { result.now ≡ spec.operators }
{
    OPERATORS
}

impl Operator {
    pub fn spelling(self) -> &'static str
        ensures { result.now ≡ spec.operator_spelling self }
    {
        match self {
            Operator::Mark(mark) => mark.spelling(),
            Operator::Word(word) => word.spelling(),
        }
    }

    /// What it is between two operands.
    pub fn infix(self) -> Infix
        ensures { result ≡ spec.infix_of self }
    {
        match self {
            Operator::Mark(mark) => operators()[WORD_COUNT + mark as usize].1,
            Operator::Word(word) => word_row(word, operators()).1,
        }
    }

    // What it is before an operand.
    fn prefix(self) -> Prefix
        ensures { result ≡ spec.prefix_of self }
    {
        match self {
            Operator::Mark(mark) => operators()[WORD_COUNT + mark as usize].2,
            Operator::Word(word) => word_row(word, operators()).2,
        }
    }
}

// The row of the word among those before the punctuators; one of no operator where it has none.
fn word_row(word: Word, rows: &[OperatorRow]) -> OperatorRow
    ensures { result ≡ spec.row_of word rows.now }
{
    for row in rows {
        match row.0 {
            Operator::Word(found) => {
                if found.number() == word.number() {
                    return *row;
                }
            }
            Operator::Mark(_) => return NO_ROW,
        }
    }
    NO_ROW
}

/// Whether the row is that of an operator of such expressions.
pub fn has_role(between: Infix, before: Prefix, role: Role) -> bool
    ensures { result ≡ spec.has_role between before role }
{
    match role {
        Role::Update => matches!(before, Prefix::Update),
        Role::Unary => matches!(before, Prefix::Unary),
        Role::Binary => matches!(between, Infix::Binary(_, _, _)),
        Role::Logical => matches!(between, Infix::Logical(_, _, _)),
        Role::Assignment => matches!(between, Infix::Assignment),
    }
}

fn with_role(operator: Operator, role: Role) -> Option<Operator>
    ensures { result ≡ spec.with_role operator role }
{
    if has_role(operator.infix(), operator.prefix(), role) {
        return Some(operator);
    }
    None
}

fn operator_of(token: TokenKind, role: Role) -> Option<Operator>
    ensures { result ≡ spec.operator_of token role }
{
    match token {
        TokenKind::Punctuator(mark) => with_role(Operator::Mark(mark), role),
        TokenKind::Name(word) => with_role(Operator::Word(word), role),
        _ => None,
    }
}

/// The operator before an operand that the token is (ECMA-262, clause 13.5), `++` and `--` left
/// aside.
pub fn unary(token: TokenKind) -> Option<Operator>
    ensures { result ≡ spec.operator_of token Role.Unary }
{
    operator_of(token, Role::Unary)
}

/// The operator of a binary expression that the token is (ECMA-262, clauses 13.6 to 13.12).
pub fn binary(token: TokenKind) -> Option<Operator>
    ensures { result ≡ spec.operator_of token Role.Binary }
{
    operator_of(token, Role::Binary)
}

/// The operator of a logical expression that the token is (ECMA-262, clause 13.13).
pub fn logical(token: TokenKind) -> Option<Operator>
    ensures { result ≡ spec.operator_of token Role.Logical }
{
    operator_of(token, Role::Logical)
}

/// The operator of an assignment that the token is (ECMA-262, clause 13.15).
pub fn assigning(token: TokenKind) -> Option<Operator>
    ensures { result ≡ spec.operator_of token Role.Assignment }
{
    operator_of(token, Role::Assignment)
}
