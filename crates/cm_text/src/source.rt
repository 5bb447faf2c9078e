//! A source text.

ghost use Rattle.std.specs.Prelude.{◌≡◌, ◌≤◌, length, unwrap_or};
ghost use Rattle.std.specs.Str.{IsUtf8};
ghost use Rattle.cm_text.specs.Lines.{lines_before, first_line_end, front_width};
ghost use Rattle.cm_text.specs.Text.{source_of};

use crate::fault::TextFault;
use crate::line_end::LineEnd;
use crate::lines::{blank_end, first_line_end, line_start, lines_before};
use std::marker::Model;

/// The most bytes that a source may have.
pub const MAX_LENGTH: usize = 2_097_152;

/// A source text, which contracts see as its bytes. They are UTF-8, and at most `MAX_LENGTH`.
#[derive(Debug, Drop)]
pub struct Source {
    bytes: Vec<u8>,
}

impl Model for Source {
    ghost use Rattle.std.specs.Prelude.{List, ℕ, ◌≤◌, length};
    ghost use Rattle.std.specs.Str.{IsUtf8};

    ghost Value = { List ℕ };

    ghost view = { λ s. s.bytes.items };

    ghost invariant = { λ s. (length s.bytes.items ≤ 2097152) × ∥ IsUtf8 s.bytes.items ∥₁ };
}

impl Source {
    /// The text of these bytes, or why they make none.
    pub fn new(bytes: Vec<u8>) -> Result<Source, TextFault>
        ensures { result ≡ source_of bytes.items }
    {
        let len = bytes.len();
        if len > MAX_LENGTH {
            return Err(TextFault::TooLong { len: len as u64 });
        }
        match str::from_utf8(&bytes) {
            Ok(_) => {}
            Err(e) => {
                return Err(TextFault::NotUtf8 {
                    at: e.valid_up_to() as u32,
                });
            }
        }
        Ok(Source { bytes })
    }

    /// The bytes of the text.
    pub fn bytes(&self) -> &[u8]
        ensures value { result.now ≡ self.now }
        ensures bounded { length self.now ≤ MAX_LENGTH }
        ensures utf8 { IsUtf8 self.now }
    {
        &self.bytes
    }

    /// The bytes of the text, which is no source any more.
    pub fn into_bytes(self) -> Vec<u8>
        ensures { result.items ≡ self }
    {
        self.bytes
    }

    /// How many line ends stand before the offset. One that the offset falls into, as between the
    /// two bytes of CR LF, does not count: it counts from where it ends.
    pub fn line_of(&self, at: u32) -> u32
        requires { at ≤ length self.now }
        ensures { result ≡ lines_before self.now at }
    {
        lines_before(self.bytes(), at)
    }

    /// The width of the spaces and tabs that open the line of the offset, a tab going to the next
    /// multiple of `width`. The line begins behind the last line end that `line_of` counts.
    pub fn blank_front(&self, at: u32, width: u8) -> u32
        requires within { at ≤ length self.now }
        requires one { 1 ≤ width }
        requires sixteen { width ≤ 16 }
        ensures { result ≡ front_width self.now at width }
    {
        let bytes = self.bytes();
        blank_end(&bytes[line_start(bytes, at as usize)..], u32::from(width))
    }

    /// The form of the first line end, `Lf` where there is none.
    pub fn line_end(&self) -> LineEnd
        ensures { result ≡ unwrap_or (first_line_end self.now (length self.now)) LineEnd.Lf }
    {
        first_line_end(self.bytes()).unwrap_or(LineEnd::Lf)
    }
}
