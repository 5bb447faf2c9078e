//! Walks over the lines of a text.

ghost use Rattle.std.specs.Prelude.{◌≡◌, ◌≤◌, length};
ghost use Rattle.cm_text.specs.Lines.{lines_before, line_start, first_line_end, blank_end};

use crate::line_end::{LineEnd, line_end_at};

/// How many line ends stand wholly before the offset.
#[tactic(auto, using(crate::proofs::LineLemmas::counting_lines))]
pub fn lines_before(bytes: &[u8], at: u32) -> u32
    requires { at ≤ length bytes.now }
    ensures { result ≡ lines_before bytes.now at }
{
    let mut lines = 0;
    for last in 0..at {
        if line_end_at(bytes, last as usize).is_some() {
            lines += 1;
        }
    }
    lines
}

/// The first line end of the text.
#[tactic(auto, using(crate::proofs::LineLemmas::finding_first))]
pub fn first_line_end(bytes: &[u8]) -> Option<LineEnd>
    ensures { result ≡ first_line_end bytes.now (length bytes.now) }
{
    for last in 0..bytes.len() {
        let found = line_end_at(bytes, last);
        if found.is_some() {
            return found;
        }
    }
    None
}

/// Where the line begins that the offset is on.
#[tactic(auto, using(crate::proofs::LineLemmas::finding_line_start))]
pub fn line_start(bytes: &[u8], at: usize) -> usize
    requires { at ≤ length bytes.now }
    ensures start { result ≡ line_start bytes.now at }
    ensures within { result ≤ at }
{
    for behind in (0..at).rev() {
        if line_end_at(bytes, behind).is_some() {
            return behind + 1;
        }
    }
    0
}

/// The column behind the spaces and tabs that open the bytes.
pub fn blank_end(bytes: &[u8], width: u32) -> u32
    requires short { length bytes.now ≤ 2097152 }
    requires one { 1 ≤ width }
    requires sixteen { width ≤ 16 }
    ensures { result ≡ blank_end width 0 bytes.now }
{
    let mut column = 0;
    for byte in bytes {
        match *byte {
            b' ' => column += 1,
            b'\t' => column = (column / width + 1) * width,
            _ => return column,
        }
    }
    column
}
