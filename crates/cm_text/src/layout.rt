//! The layout of made text.

ghost use Rattle.cm_text.specs.Layouts.{usual_layout};
ghost use Rattle.std.specs.Prelude.{◌≡◌};

/// The marks in which a made string stands.
#[derive(Clone, Copy, Debug, PartialEq, Eq)]
pub enum Quote {
    Double,
    Single,
}

/// How made text is laid out. A tab is 1 to 16 columns wide: calls that take a layout want that.
#[derive(Clone, Copy, Debug, PartialEq, Eq)]
pub struct Layout {
    /// The columns from one tab stop to the next, and those that a level of indentation takes
    /// where the source shows no other unit.
    pub tab_width: u8,
    /// Indentation is written in tabs as far as they reach.
    pub use_tabs: bool,
    /// The marks of made strings, where they do not follow the source.
    pub quote: Option<Quote>,
    /// Arrays, objects and their patterns have a comma after the last item.
    pub trailing_comma: bool,
    /// The braces of objects, their patterns and import and export clauses hold no blanks inside.
    pub tight_braces: bool,
    /// The one parameter of an arrow function has parentheses.
    pub arrow_parens: bool,
}

impl Layout {
    /// Tabs 4 columns wide, strings as in the source, and all else false.
    pub fn usual() -> Layout
        ensures { result ≡ usual_layout }
    {
        Layout {
            tab_width: 4,
            use_tabs: false,
            quote: None,
            trailing_comma: false,
            tight_braces: false,
            arrow_parens: false,
        }
    }
}
