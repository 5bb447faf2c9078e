//! A cursor over the tokens of a source. The next token is read ahead in the goal `Div`, and read
//! again in another where the grammar wants it. Comments and the stretches of nodes are kept.
//!
//! A broken element, or want of memory, is kept too: the next token is then `End`, nothing moves any
//! more, and each refusal is that one.

ghost use Rattle.std.specs.Prelude.{◌≡◌, ◌≢◌, ◌+◌, ◌<◌, ◌≤◌, [], ◌++◌, length, drop, slice_index, slice_range, true, false, IsTrue, IfOk, OnOk, OnErr, Some, None, is_some};
ghost use Rattle.js_lexer.specs.Cursors as spec;
ghost use Rattle.js_lexer.specs.Cursors.{SpansFit, SpanFits, FoundFrom};
ghost use Rattle.js_lexer.specs.Blanks.{blank_len, comment_len, gap_len};
ghost use Rattle.js_lexer.specs.Scan.{gap_at};

use crate::blanks::{blank_len, comment_len};
use crate::fault::{LexFault, Refusal, SyntaxFault, SyntaxKind};
use crate::parts::has_byte;
use crate::scanning::{Gap, gap_to, next, token_at};
use cm_text::Source;
use js_tokens::{Goal, Punctuator, Token, TokenKind, Word};
use sqlite_items::Items;
use std::alloc::{AllocError, Global};
use std::marker::Model;
use tree_core::{CommentSpans, Span, Spans};

/// The most nodes that are numbered.
pub const MOST_NODES: usize = 4_194_304;

/// A token that is read ahead, `End` where there is a refusal.
#[derive(Clone, Copy)]
pub struct Ahead {
    token: Token,
    refusal: Option<Refusal>,
}

// The token `End` at the offset.
fn end_at(at: u32, broken_before: bool) -> Token
    ensures { result ≡ spec.end_at at broken_before }
{
    Token {
        kind: TokenKind::End,
        start: at,
        end: at,
        broken_before,
    }
}

// What stands behind the gap.
#[tactic(auto, unfolding(crate::specs::Cursors::look_ahead))]
fn look_ahead(text: &[u8], gap: Gap, goal: Goal) -> Ahead
    requires short { length text.now ≤ 2097152 }
    requires within { gap.end ≤ length text.now }
    ensures value { result ≡ spec.look_ahead text.now gap goal }
    ensures found { FoundFrom gap.end (length text.now) result }
{
    match token_at(text, gap, goal) {
        Ok(token) => Ahead {
            token,
            refusal: None,
        },
        Err(LexFault { at, kind }) => {
            let kind = SyntaxKind::Lex(kind);
            Ahead {
                token: end_at(at, gap.broken),
                refusal: Some(Refusal::Syntax(SyntaxFault { at, kind })),
            }
        }
    }
}

fn no_memory(at: u32) -> Ahead
    ensures { result ≡ spec.no_memory at }
{
    Ahead {
        token: end_at(at, false),
        refusal: Some(Refusal::NoMemory),
    }
}

// Keeps the comment that may begin at the offset. Its length, 0 where there is none.
#[tactic(auto, unfolding(crate::specs::Cursors::comment_at))]
fn keep_comment(comments: &mut CommentSpans, text: &[u8], at: usize) -> Result<usize, AllocError>
    requires short { length text.now ≤ 2097152 }
    requires within { at ≤ length text.now }
    requires fit { SpansFit (length text.now) comments.old }
    ensures len { IfOk result (λ len. len ≡ comment_len (drop at text.now)) }
    ensures kept { OnOk result (comments.new ≡ comments.old ++ spec.comment_at at (drop at text.now)) }
    ensures none { IfOk result (λ len. len ≡ 0 → comments.new ≡ comments.old) }
    ensures still_fit { SpansFit (length text.now) comments.new }
{
    let len = comment_len(&text[at..]);
    if len == 0 {
        return Ok(0);
    }
    let start = at as u32;
    let end = start + len as u32;
    comments.push(Span { start, end })?;
    Ok(len)
}

// Keeps the comment that may begin at the offset. The length of the blank or comment there, 0 where
// there is none.
#[tactic(auto, using(crate::proofs::Kept::slash_len, crate::proofs::Kept::no_comment))]
fn pass_blank(comments: &mut CommentSpans, text: &[u8], at: usize) -> Result<usize, AllocError>
    requires short { length text.now ≤ 2097152 }
    requires within { at ≤ length text.now }
    requires fit { SpansFit (length text.now) comments.old }
    ensures len { IfOk result (λ len. len ≡ blank_len (drop at text.now)) }
    ensures kept { OnOk result (comments.new ≡ comments.old ++ spec.comment_at at (drop at text.now)) }
    ensures none { IfOk result (λ len. len ≡ 0 → comments.new ≡ comments.old) }
    ensures still_fit { SpansFit (length text.now) comments.new }
{
    let rest = &text[at..];
    if !has_byte(rest, 0, b'/') {
        return Ok(blank_len(rest));
    }
    keep_comment(comments, text, at)
}

// Keeps the comments among the blanks from the offset on. Where these end.
#[tactic(auto, using(crate::proofs::Kept::keeping_comments))]
fn keep_comments(comments: &mut CommentSpans, text: &[u8], from: usize) -> Result<usize, AllocError>
    requires short { length text.now ≤ 2097152 }
    requires within { from ≤ length text.now }
    requires fit { SpansFit (length text.now) comments.old }
    ensures kept { OnOk result (comments.new ≡ comments.old ++ spec.comments_from 0 from (drop from text.now)) }
    ensures end { IfOk result (λ end. end ≡ from + gap_len (drop from text.now)) }
    ensures within { IfOk result (λ end. end ≤ length text.now) }
    ensures still_fit { SpansFit (length text.now) comments.new }
{
    let mut at = from;
    while at < text.len() {
        let len = pass_blank(comments, text, at)?;
        if len == 0 {
            return Ok(at);
        }
        at += len.min(text.len() - at);
    }
    Ok(at)
}

// Keeps the comments behind the offset, and reads the token behind them.
fn pass_blanks(comments: &mut CommentSpans, text: &[u8], from: u32) -> Ahead
    requires short { length text.now ≤ 2097152 }
    requires within { from ≤ length text.now }
    requires fit { SpansFit (length text.now) comments.old }
    ensures kept { result.refusal ≢ Some Refusal.NoMemory → comments.new ≡ comments.old ++ spec.comments_from 0 from (drop from text.now) }
    ensures ahead { result.refusal ≢ Some Refusal.NoMemory → result ≡ spec.look_ahead text.now (gap_at text.now from) Goal.Div }
    ensures found { FoundFrom from (length text.now) result }
    ensures still_fit { SpansFit (length text.now) comments.new }
{
    match keep_comments(comments, text, from as usize) {
        Ok(end) => look_ahead(text, gap_to(text, from, end), Goal::Div),
        Err(AllocError) => no_memory(from),
    }
}

fn is_end(kind: TokenKind) -> bool
    ensures { result ≡ spec.is_end kind }
{
    match kind {
        TokenKind::End => true,
        _ => false,
    }
}

/// A place between two tokens of a source.
#[derive(Drop)]
pub struct Cursor<'a> {
    source: &'a Source,
    token: Token,
    last_end: u32,
    refusal: Option<Refusal>,
    spans: Spans,
    comments: CommentSpans,
    ghost behind: { last_end ≤ token.start },
    ghost ordered: { token.start ≤ token.end },
    ghost within: { token.end ≤ length source.now },
    ghost spans_fit: { SpansFit (length source.now) spans },
    ghost comments_fit: { SpansFit (length source.now) comments },
}

impl<'a> Model for Cursor<'a> {
    ghost use Rattle.js_lexer.specs.Cursors.{Input};

    ghost Value = { Input };

    ghost view = { λ c. record { text = c.source.now; token = c.token; last_end = c.last_end; refusal = c.refusal; spans = c.spans; comments = c.comments } };
}

impl<'a> Cursor<'a> {
    /// Before the first token at or behind the offset.
    #[tactic(auto, unfolding(crate::specs::Cursors::moved))]
    pub fn new(alloc: Global, source: &'a Source, from: u32) -> Cursor<'a>
        requires { from ≤ length source.now }
        ensures begun { result.refusal ≢ Some Refusal.NoMemory → result ≡ spec.begun source.now from }
        ensures text { result.text ≡ source.now }
    {
        let text = source.bytes();
        let mut comments = Items::new(alloc);
        let found = pass_blanks(&mut comments, text, from);
        Cursor {
            source,
            token: found.token,
            last_end: from,
            refusal: found.refusal,
            spans: Items::new(alloc),
            comments,
        }
    }

    /// The source that it goes over.
    pub fn source(&self) -> &'a Source
        ensures { result.now ≡ self.now.text }
    {
        self.source
    }

    /// The next token.
    pub fn token(&self) -> Token
        ensures value { result ≡ self.now.token }
        ensures behind { self.now.last_end ≤ result.start }
        ensures ordered { result.start ≤ result.end }
        ensures within { result.end ≤ length self.now.text }
    {
        self.token
    }

    /// The next token's sort.
    pub fn kind(&self) -> TokenKind
        ensures { result ≡ self.now.token.kind }
    {
        self.token.kind
    }

    /// Where the next token begins.
    pub fn start(&self) -> u32
        ensures value { result ≡ self.now.token.start }
        ensures within { result ≤ length self.now.text }
    {
        self.token.start
    }

    /// Where the last token ended.
    pub fn last_end(&self) -> u32
        ensures value { result ≡ self.now.last_end }
        ensures within { result ≤ length self.now.text }
    {
        self.last_end
    }

    /// Whether a line end stands before the next token.
    pub fn line_end_before(&self) -> bool
        ensures { result ≡ self.now.token.broken_before }
    {
        self.token.broken_before
    }

    /// The next token's bytes.
    pub fn text(&self) -> &'a [u8]
        ensures { result.now ≡ slice_range self.now.text self.now.token.start self.now.token.end }
    {
        &self.source.bytes()[self.token.start as usize..self.token.end as usize]
    }

    /// At least as many as there are tokens left.
    pub fn turns(&self) -> usize
        ensures { result ≡ spec.turns self.now }
    {
        self.source.bytes().len() - self.last_end as usize
    }

    /// Whether the next token is this punctuator.
    pub fn sees_mark(&self, mark: Punctuator) -> bool
        ensures { result ≡ spec.is_mark self.now.token.kind mark }
    {
        self.token.kind.is_punctuator(mark)
    }

    /// Whether the next token is this word, spelled without an escape.
    pub fn sees_word(&self, word: Word) -> bool
        ensures { result ≡ spec.is_word self.now.token.kind word }
    {
        self.token.kind.is_word(word)
    }

    /// Whether the text ends here, and nothing was refused.
    pub fn is_done(&self) -> bool
        ensures { result ≡ spec.is_done self.now }
    {
        is_end(self.token.kind) && self.refusal.is_none()
    }

    /// The token that follows an offset in a goal, for looking further ahead.
    pub fn token_behind(&self, at: u32, goal: Goal) -> Result<Token, LexFault>
        requires { at ≤ length self.now.text }
        ensures { result ≡ spec.token_behind self.now at goal }
    {
        next(self.source, at, goal)
    }

    /// Passes the next token, with the blanks and comments behind it. Nothing moves at the end.
    #[tactic(auto, unfolding(crate::specs::Cursors::taken, crate::specs::Cursors::moved))]
    pub fn take(&mut self)
        ensures after { self.new.refusal ≢ Some Refusal.NoMemory → self.new ≡ spec.taken self.old }
        ensures text { self.new.text ≡ self.old.text }
        ensures spans { self.new.spans ≡ self.old.spans }
    {
        if is_end(self.token.kind) {
            return;
        }
        let from = self.token.end;
        let text = self.source.bytes();
        let found = pass_blanks(&mut self.comments, text, from);
        self.last_end = from;
        self.token = found.token;
        self.refusal = found.refusal;
    }

    /// Passes the punctuator if it comes next, and says whether it does.
    pub fn eat_mark(&mut self, mark: Punctuator) -> bool
        ensures found { result ≡ spec.is_mark self.old.token.kind mark }
        ensures passed { result ≡ true → self.new.refusal ≢ Some Refusal.NoMemory → self.new ≡ spec.taken self.old }
        ensures stays { result ≡ false → self.new ≡ self.old }
        ensures text { self.new.text ≡ self.old.text }
        ensures spans { self.new.spans ≡ self.old.spans }
    {
        let found = self.sees_mark(mark);
        if found {
            self.take();
        }
        found
    }

    /// Passes the word if it comes next, and says whether it does.
    pub fn eat_word(&mut self, word: Word) -> bool
        ensures found { result ≡ spec.is_word self.old.token.kind word }
        ensures passed { result ≡ true → self.new.refusal ≢ Some Refusal.NoMemory → self.new ≡ spec.taken self.old }
        ensures stays { result ≡ false → self.new ≡ self.old }
        ensures text { self.new.text ≡ self.old.text }
        ensures spans { self.new.spans ≡ self.old.spans }
    {
        let found = self.sees_word(word);
        if found {
            self.take();
        }
        found
    }

    /// Reads the next token in this goal.
    #[tactic(auto, unfolding(crate::specs::Cursors::rescanned))]
    pub fn rescan(&mut self, goal: Goal)
        ensures { self.new ≡ spec.rescanned goal self.old }
    {
        if self.refusal.is_some() {
            return;
        }
        let gap = Gap {
            end: self.token.start,
            broken: self.token.broken_before,
        };
        let found = look_ahead(self.source.bytes(), gap, goal);
        self.token = found.token;
        self.refusal = found.refusal;
    }

    // Refuses all that follows, unless something was refused before.
    #[tactic(auto, unfolding(crate::specs::Cursors::stopped))]
    fn stop(&mut self, fault: SyntaxFault) -> Refusal
        ensures after { self.new ≡ spec.stopped fault self.old }
        ensures answer { result ≡ spec.refusal_of fault self.old }
    {
        if let Some(earlier) = self.refusal {
            return earlier;
        }
        let refusal = Refusal::Syntax(fault);
        self.token = end_at(self.token.start, self.token.broken_before);
        self.refusal = Some(refusal);
        refusal
    }

    /// That no tree goes on with the next token. All that follows is refused so.
    pub fn refuse(&mut self) -> Refusal
        ensures after { self.new ≡ spec.refused self.old.token.start self.old }
        ensures answer { result ≡ spec.refusal self.old.token.start self.old }
    {
        self.refuse_at(self.token.start)
    }

    /// That no tree goes on with the token at this offset. All that follows is refused so.
    pub fn refuse_at(&mut self, at: u32) -> Refusal
        ensures after { self.new ≡ spec.refused at self.old }
        ensures answer { result ≡ spec.refusal at self.old }
    {
        let kind = SyntaxKind::Unexpected;
        self.stop(SyntaxFault { at, kind })
    }

    /// That too much nests at the next token. All that follows is refused so.
    pub fn too_deep(&mut self) -> Refusal
        ensures after { self.new ≡ spec.stopped (spec.nesting self.old) self.old }
        ensures answer { result ≡ spec.refusal_of (spec.nesting self.old) self.old }
    {
        let kind = SyntaxKind::Nesting;
        self.stop(SyntaxFault {
            at: self.token.start,
            kind,
        })
    }

    /// The next number, for a node from `start` to where the last token ended.
    #[tactic(auto, unfolding(crate::specs::Cursors::numbered))]
    pub fn numbered(&mut self, start: u32) -> Result<u32, Refusal>
        ensures number { IfOk result (λ number. number ≡ length self.old.spans) }
        ensures given { IfOk result (λ number. number < length self.new.spans) }
        ensures after { OnOk result (self.new ≡ spec.numbered start self.old) }
        ensures err { OnErr result (self.new ≡ self.old) }
        ensures memory { OnErr result (result ≡ Err Refusal.NoMemory) }
    {
        let number = self.spans.len();
        if number >= MOST_NODES {
            return Err(Refusal::NoMemory);
        }
        let end = self.last_end;
        self.spans.push(Span {
            start: start.min(end),
            end,
        })?;
        Ok(number as u32)
    }

    /// The stretch of the node with this number.
    pub fn span(&self, number: u32) -> Span
        requires { number < length self.now.spans }
        ensures { SpanFits (length self.now.text) result }
    {
        self.spans.as_slice()[number as usize]
    }

    /// The comments that were passed, in the order of the text.
    pub fn comments(&self) -> &CommentSpans
        ensures value { result.now ≡ self.now.comments }
        ensures fit { SpansFit (length self.now.text) result.now }
    {
        &self.comments
    }

    /// The stretches of the nodes by their numbers, and those of the comments.
    pub fn into_spans(self) -> (Spans, CommentSpans)
        ensures spans { result.0 ≡ self.entry.spans }
        ensures comments { result.1 ≡ self.entry.comments }
    {
        (self.spans, self.comments)
    }
}
