//! The blanks that open lines.

use cm_text::{Layout, LineEnd};
use std::alloc::AllocError;

/// The blanks that open a line: their width, whether they are tabs alone, and where they stand in
/// the text; a front that is to be made stands nowhere.
#[derive(Clone, Copy, Debug, PartialEq, Eq)]
pub struct Front {
    pub width: u64,
    pub tabs: bool,
    pub start: usize,
    pub len: usize,
}

impl Front {
    /// The front of a line that begins with no blank.
    pub fn none() -> Front {
        Front::made(0, false)
    }

    /// A front of this width, in tabs if `tabs` says so and they reach it.
    pub fn made(width: u64, tabs: bool) -> Front {
        Front {
            width,
            tabs,
            start: 0,
            len: 0,
        }
    }
}

fn push_many(out: &mut Vec<u8>, byte: u8, count: u64) -> Result<(), AllocError> {
    for _turn in 0..count {
        out.push(byte)?;
    }
    Ok(())
}

fn push_again(out: &mut Vec<u8>, start: usize, len: usize) -> Result<(), AllocError> {
    for behind in 0..len {
        let at = start.saturating_add(behind);
        if at < out.len() {
            let byte = out[at];
            out.push(byte)?;
        }
    }
    Ok(())
}

/// Writes the front.
pub fn push_front(out: &mut Vec<u8>, layout: &Layout, front: Front) -> Result<(), AllocError> {
    let tab = u64::from(layout.tab_width.max(1));
    if layout.use_tabs {
        push_many(out, b'\t', front.width / tab)?;
        return push_many(out, b' ', front.width % tab);
    }
    if front.len > 0 {
        return push_again(out, front.start, front.len);
    }
    if front.tabs && front.width % tab == 0 {
        return push_many(out, b'\t', front.width / tab);
    }
    push_many(out, b' ', front.width)
}

/// The front of the line that begins at `start`, with which the text ends or goes on.
pub fn front_at(out: &[u8], start: usize, tab_width: u8) -> Front {
    let tab = u64::from(tab_width.max(1));
    let mut found = Front {
        width: 0,
        tabs: true,
        start,
        len: 0,
    };
    for at in start..out.len() {
        match out[at] {
            b' ' => {
                found.tabs = false;
                found.width = found.width.saturating_add(1);
            }
            b'\t' => found.width = (found.width / tab).saturating_add(1).saturating_mul(tab),
            _ => return closed(found),
        }
        found.len = found.len.saturating_add(1);
    }
    closed(found)
}

fn closed(found: Front) -> Front {
    Front {
        tabs: found.tabs && found.len > 0,
        ..found
    }
}

/// The bytes of the line end.
pub fn end_bytes(end: LineEnd) -> &'static [u8] {
    match end {
        LineEnd::Lf => b"\n",
        LineEnd::CrLf => b"\r\n",
        LineEnd::Cr => b"\r",
        LineEnd::Ls => b"\xE2\x80\xA8",
        LineEnd::Ps => b"\xE2\x80\xA9",
    }
}

/// Where the last line of the bytes from the offset on begins, if a line ends there.
pub fn last_line(out: &[u8], from: usize) -> Option<usize> {
    let mut found = None;
    for at in from..out.len() {
        if ends_line(out, at) {
            found = Some(at.saturating_add(1));
        }
    }
    found
}

// Whether the byte is the last of a line end. The first byte of CR LF counts, which changes
// nothing for a line that begins behind both.
fn ends_line(out: &[u8], at: usize) -> bool {
    if at >= out.len() {
        return false;
    }
    let byte = out[at];
    if byte == b'\n' || byte == b'\r' {
        return true;
    }
    (byte == 0xA8 || byte == 0xA9) && at >= 2 && out[at - 1] == 0x80 && out[at - 2] == 0xE2
}

/// Whether the bytes begin with a line end.
pub fn begins_with_line_end(bytes: &[u8]) -> bool {
    match bytes {
        [b'\n', ..] | [b'\r', ..] => true,
        [0xE2, 0x80, last, ..] => *last == 0xA8 || *last == 0xA9,
        _ => false,
    }
}

/// Where the first line end of the bytes begins, if a line ends in them.
pub fn first_line_end(bytes: &[u8]) -> Option<usize> {
    for at in 0..bytes.len() {
        if begins_with_line_end(&bytes[at..]) {
            return Some(at);
        }
    }
    None
}
