//! The punctuators.

ghost use Rattle.js_tokens.specs.Punctuators.{punctuators, punctuator_spellings, are_in_order, punctuator_spelling, punctuator_number};
ghost use Rattle.std.specs.Prelude.{◌≡◌, IsTrue, length, map};

/// A punctuator of ECMA-262, clause 12.8, `}` and the division punctuators among them.
#[derive(Clone, Copy, Debug, PartialEq, Eq)]
pub enum Punctuator {
    OpenBrace,
    OpenParen,
    CloseParen,
    OpenBracket,
    CloseBracket,
    Dot,
    Ellipsis,
    Semicolon,
    Comma,
    Less,
    Greater,
    LessEqual,
    GreaterEqual,
    Equal,
    NotEqual,
    StrictEqual,
    StrictNotEqual,
    Plus,
    Minus,
    Star,
    Percent,
    StarStar,
    PlusPlus,
    MinusMinus,
    ShiftLeft,
    ShiftRight,
    ShiftRightUnsigned,
    Ampersand,
    Bar,
    Caret,
    Bang,
    Tilde,
    AndAnd,
    OrOr,
    Nullish,
    Question,
    OptionalDot,
    Colon,
    Assign,
    PlusAssign,
    MinusAssign,
    StarAssign,
    PercentAssign,
    StarStarAssign,
    ShiftLeftAssign,
    ShiftRightAssign,
    ShiftRightUnsignedAssign,
    AmpersandAssign,
    BarAssign,
    CaretAssign,
    Arrow,
    Slash,
    SlashAssign,
    CloseBrace,
    AndAssign,
    OrAssign,
    NullishAssign,
}

/// A row for each punctuator, in the order of the enum, with its text.
pub const PUNCTUATORS: &[(Punctuator, &str)] = &[
    (Punctuator::OpenBrace, "{"),
    (Punctuator::OpenParen, "("),
    (Punctuator::CloseParen, ")"),
    (Punctuator::OpenBracket, "["),
    (Punctuator::CloseBracket, "]"),
    (Punctuator::Dot, "."),
    (Punctuator::Ellipsis, "..."),
    (Punctuator::Semicolon, ";"),
    (Punctuator::Comma, ","),
    (Punctuator::Less, "<"),
    (Punctuator::Greater, ">"),
    (Punctuator::LessEqual, "<="),
    (Punctuator::GreaterEqual, ">="),
    (Punctuator::Equal, "=="),
    (Punctuator::NotEqual, "!="),
    (Punctuator::StrictEqual, "==="),
    (Punctuator::StrictNotEqual, "!=="),
    (Punctuator::Plus, "+"),
    (Punctuator::Minus, "-"),
    (Punctuator::Star, "*"),
    (Punctuator::Percent, "%"),
    (Punctuator::StarStar, "**"),
    (Punctuator::PlusPlus, "++"),
    (Punctuator::MinusMinus, "--"),
    (Punctuator::ShiftLeft, "<<"),
    (Punctuator::ShiftRight, ">>"),
    (Punctuator::ShiftRightUnsigned, ">>>"),
    (Punctuator::Ampersand, "&"),
    (Punctuator::Bar, "|"),
    (Punctuator::Caret, "^"),
    (Punctuator::Bang, "!"),
    (Punctuator::Tilde, "~"),
    (Punctuator::AndAnd, "&&"),
    (Punctuator::OrOr, "||"),
    (Punctuator::Nullish, "??"),
    (Punctuator::Question, "?"),
    (Punctuator::OptionalDot, "?."),
    (Punctuator::Colon, ":"),
    (Punctuator::Assign, "="),
    (Punctuator::PlusAssign, "+="),
    (Punctuator::MinusAssign, "-="),
    (Punctuator::StarAssign, "*="),
    (Punctuator::PercentAssign, "%="),
    (Punctuator::StarStarAssign, "**="),
    (Punctuator::ShiftLeftAssign, "<<="),
    (Punctuator::ShiftRightAssign, ">>="),
    (Punctuator::ShiftRightUnsignedAssign, ">>>="),
    (Punctuator::AmpersandAssign, "&="),
    (Punctuator::BarAssign, "|="),
    (Punctuator::CaretAssign, "^="),
    (Punctuator::Arrow, "=>"),
    (Punctuator::Slash, "/"),
    (Punctuator::SlashAssign, "/="),
    (Punctuator::CloseBrace, "}"),
    (Punctuator::AndAssign, "&&="),
    (Punctuator::OrAssign, "||="),
    (Punctuator::NullishAssign, "??="),
];

#[tactic(auto, unfolding(crate::specs::Punctuators::punctuators, crate::specs::Punctuators::punctuator_spellings, type_defs::specs::Rows::in_order))]
fn punctuator_rows() -> &'static [(Punctuator, &'static str)]
    ensures count { length result.now ≡ 57 }
    ensures order { IsTrue (are_in_order punctuators) }
    ensures spellings { map (λ row. row.1.now) result.now ≡ punctuator_spellings }
{
    PUNCTUATORS
}

impl Punctuator {
    /// The punctuator's text.
    pub fn spelling(self) -> &'static str
        ensures { result.now ≡ punctuator_spelling self }
    {
        punctuator_rows()[self as usize].1
    }

    /// The punctuator's place in the enum, from 0.
    pub fn number(self) -> u8
        ensures { result ≡ punctuator_number self }
    {
        self as u8
    }
}
