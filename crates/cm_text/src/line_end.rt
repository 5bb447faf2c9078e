//! Line ends (ECMA-262, clause 12.3), told by their last byte.

ghost use Rattle.std.specs.Prelude.{◌≡◌, ◌<◌, length, slice_index};
ghost use Rattle.cm_text.specs.Lines.{feed_end, return_end, follows_separator_lead, line_end_at};

/// The forms of a line end.
#[derive(Clone, Copy, Debug, PartialEq, Eq)]
pub enum LineEnd {
    /// A line feed alone.
    Lf,
    /// A carriage return and a line feed, which end one line.
    CrLf,
    /// A carriage return alone.
    Cr,
    /// U+2028, the line separator.
    Ls,
    /// U+2029, the paragraph separator.
    Ps,
}

// The byte at the offset, 0 past the end.
fn byte_at(bytes: &[u8], at: usize) -> u8
    ensures { result ≡ slice_index bytes.now at }
{
    if at < bytes.len() { bytes[at] } else { 0 }
}

fn feed_end(bytes: &[u8], at: usize) -> LineEnd
    ensures { result ≡ feed_end bytes.now at }
{
    // At the text's start this looks at the line feed itself.
    if byte_at(bytes, at.saturating_sub(1)) == b'\r' {
        LineEnd::CrLf
    } else {
        LineEnd::Lf
    }
}

fn return_end(bytes: &[u8], at: usize) -> Option<LineEnd>
    requires { at < length bytes.now }
    ensures { result ≡ return_end bytes.now at }
{
    if byte_at(bytes, at + 1) == b'\n' {
        None
    } else {
        Some(LineEnd::Cr)
    }
}

// Near the text's start this looks at one byte twice, which cannot be both.
fn follows_separator_lead(bytes: &[u8], at: usize) -> bool
    ensures { result ≡ follows_separator_lead bytes.now at }
{
    byte_at(bytes, at.saturating_sub(2)) == 0xE2 && byte_at(bytes, at.saturating_sub(1)) == 0x80
}

/// The line end whose last byte is the one at the offset.
#[tactic(auto, unfolding(crate::specs::Lines::line_end_at))]
pub fn line_end_at(bytes: &[u8], at: usize) -> Option<LineEnd>
    requires { at < length bytes.now }
    ensures { result ≡ line_end_at bytes.now at }
{
    let byte = bytes[at];
    if byte == b'\n' {
        return Some(feed_end(bytes, at));
    }
    if byte == b'\r' {
        return return_end(bytes, at);
    }
    if byte == 0xA8 && follows_separator_lead(bytes, at) {
        return Some(LineEnd::Ls);
    }
    if byte == 0xA9 && follows_separator_lead(bytes, at) {
        return Some(LineEnd::Ps);
    }
    None
}
