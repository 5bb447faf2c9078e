//! A cursor over the tokens of a text. The next token is read ahead, and the stretches of the nodes
//! that are read are kept by their numbers.

ghost use Rattle.std.specs.Prelude.{◌≡◌, ◌≤◌, true, length, IfOk};
ghost use Rattle.first_grammar.specs.Input as spec;
ghost use Rattle.first_grammar.specs.Input.{Gives, same, scan};

use crate::error::ReadError;
use crate::table::{Word, same_word};
use crate::words::{blanks_end, is_reserved, is_start, mark_of, name_end};
use sqlite_items::Items;
use std::alloc::{AllocError, Global};
use std::marker::Model;
use tree_core::{Span, Spans, Units};

/// The most nodes that are numbered.
const MOST_NODES: usize = 4_194_304;

/// A token, and where it stands.
#[derive(Clone, Copy)]
pub struct Token {
    pub word: Word,
    pub start: u32,
    pub end: u32,
}

/// A place in a text of at most 2,097,152 bytes.
#[derive(Drop)]
pub struct Cursor<'a> {
    text: &'a [u8],
    /// Where the last token ended.
    at: u32,
    ahead: Token,
    spans: Spans,
    ghost short: { length text.now ≤ 2097152 },
    ghost inside: { at ≤ length text.now },
    ghost ordered: { ahead.start ≤ ahead.end },
    ghost ends: { ahead.end ≤ length text.now },
    ghost scanned: { ahead ≡ scan text.now at },
}

impl<'a> Model for Cursor<'a> {
    ghost use Rattle.first_grammar.specs.Input.{Input};

    ghost Value = { Input };

    ghost view = { λ c. record { text = c.text.now; at = c.at; spans = c.spans } };
}

/// The token of the name that stands there.
fn name_token(text: &[u8], start: u32, end: u32) -> Token
    requires order { start ≤ end }
    requires within { end ≤ length text.now }
    ensures { result ≡ spec.name_token text.now start end }
{
    let reserved = is_reserved(&text[start as usize..end as usize]);
    let word = if reserved { Word::Reserved } else { Word::Name };
    Token { word, start, end }
}

/// The next token after the blanks from here.
#[tactic(auto, unfolding(crate::specs::Input::scan))]
fn scan(text: &[u8], from: u32) -> Token
    requires short { length text.now ≤ 2097152 }
    requires within { from ≤ length text.now }
    ensures value { result ≡ scan text.now from }
    ensures order { result.start ≤ result.end }
    ensures within { result.end ≤ length text.now }
{
    let at = blanks_end(text, from as usize);
    let start = at as u32;
    if at >= text.len() {
        return Token {
            word: Word::End,
            start,
            end: start,
        };
    }
    let first = text[at];
    if is_start(first) {
        let end = name_end(text, at + 1);
        return name_token(text, start, end as u32);
    }
    Token {
        word: mark_of(first),
        start,
        end: start + 1,
    }
}

impl<'a> Cursor<'a> {
    pub fn new(alloc: Global, text: &'a [u8]) -> Cursor<'a>
        requires short { length text.now ≤ 2097152 }
        ensures { result ≡ spec.begin text.now }
    {
        Cursor {
            text,
            at: 0,
            ahead: scan(text, 0),
            spans: Items::new(alloc),
        }
    }

    /// The next token's sort.
    pub fn word(&self) -> Word
        ensures { result ≡ spec.word self.now }
    {
        self.ahead.word
    }

    /// Where the last token ended.
    pub fn at(&self) -> u32
        ensures { result ≡ self.now.at }
    {
        self.at
    }

    /// Where the next token begins.
    pub fn opening(&self) -> u32
        ensures { result ≡ spec.opening self.now }
    {
        self.ahead.start
    }

    /// At least as many as there are tokens left.
    pub fn turns(&self) -> usize
        ensures { result ≡ spec.turns self.now }
    {
        self.text.len() - self.at as usize
    }

    /// That no tree goes on with the next token.
    pub fn refuse(&self) -> ReadError
        ensures { result ≡ spec.refusal self.now }
    {
        ReadError::Unexpected(self.ahead.start)
    }

    /// That too much nests at the next token.
    pub fn too_deep(&self) -> ReadError
        ensures { result ≡ ReadError.Nesting (spec.opening self.now) }
    {
        ReadError::Nesting(self.ahead.start)
    }

    /// Passes the next token.
    pub fn take(&mut self)
        ensures { self.new ≡ spec.next self.old }
    {
        self.at = self.ahead.end;
        self.ahead = scan(self.text, self.at);
    }

    /// Passes the blanks before the next token.
    #[tactic(auto, using(crate::proofs::Ahead::same_ahead))]
    pub fn settle(&mut self)
        ensures { self.new ≡ spec.moved (spec.opening self.old) self.old }
    {
        self.at = self.ahead.start;
    }

    /// Whether the next token is of this sort.
    pub fn sees(&self, word: Word) -> bool
        ensures { result ≡ spec.sees word self.now }
    {
        same_word(self.word(), word)
    }

    /// Passes the next token if it is of this sort, and says whether it is.
    pub fn eat(&mut self, word: Word) -> bool
        ensures found { result ≡ spec.sees word self.old }
        ensures after { self.new ≡ spec.after word self.old }
    {
        let found = self.sees(word);
        if found {
            self.take();
        }
        found
    }

    /// Passes a token of this sort.
    #[tactic(auto, unfolding(crate::specs::Input::expect))]
    pub fn expect(&mut self, word: Word) -> Result<(), ReadError>
        ensures { Gives same (spec.expect word self.old) result self.new }
    {
        if self.eat(word) {
            return Ok(());
        }
        Err(self.refuse())
    }

    /// The next token's text; then passes it.
    fn text(&mut self, alloc: Global) -> Result<Units, ReadError>
        ensures { Gives same (spec.named_if true self.old) result self.new }
    {
        let bytes = &self.text[self.ahead.start as usize..self.ahead.end as usize];
        let units = Units::of_bytes(alloc, bytes)?;
        self.take();
        Ok(units)
    }

    /// The text of a name that is no reserved word.
    #[tactic(auto, unfolding(crate::specs::Input::name))]
    pub fn name(&mut self, alloc: Global) -> Result<Units, ReadError>
        ensures { Gives same (spec.name self.old) result self.new }
    {
        if self.sees(Word::Name) {
            return self.text(alloc);
        }
        Err(self.refuse())
    }

    /// The text of any name.
    #[tactic(auto, unfolding(crate::specs::Input::any_name))]
    pub fn any_name(&mut self, alloc: Global) -> Result<Units, ReadError>
        ensures { Gives same (spec.any_name self.old) result self.new }
    {
        match self.word() {
            Word::Name | Word::Reserved => self.text(alloc),
            _ => Err(self.refuse()),
        }
    }

    /// The next number, for a node that begins at `start` and ends here.
    #[tactic(auto, unfolding(crate::specs::Input::numbered))]
    pub fn numbered(&mut self, start: u32) -> Result<u32, ReadError>
        ensures { Gives same (spec.numbered start self.old) result self.new }
    {
        let number = self.spans.len();
        if number >= MOST_NODES {
            return Err(ReadError::NoMemory);
        }
        let end = self.at;
        self.spans.push(Span { start, end })?;
        Ok(number as u32)
    }

    /// The stretches of the nodes by their numbers.
    pub fn into_spans(self) -> Spans
        ensures { result ≡ self.entry.spans }
    {
        self.spans
    }
}
