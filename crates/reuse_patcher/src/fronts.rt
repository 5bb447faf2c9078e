//! The blanks that open a line of the source.

use cm_text::Layout;
use std::alloc::AllocError;

/// Spaces and tabs at the start of a line: how many bytes, how wide, and whether all are tabs.
#[derive(Clone, Copy, Debug, PartialEq, Eq)]
pub struct BlankFront {
    pub len: usize,
    pub width: u64,
    pub tabs: bool,
}

impl BlankFront {
    pub fn none() -> BlankFront {
        BlankFront {
            len: 0,
            width: 0,
            tabs: false,
        }
    }
}

/// The blanks that open the line which begins there; U+FEFF may stand before those of a text.
pub fn front_of(text: &[u8], start: usize, tab: u8) -> BlankFront {
    let tab = u64::from(tab.max(1));
    let mut found = BlankFront {
        len: 0,
        width: 0,
        tabs: true,
    };
    for at in start..text.len() {
        match text[at] {
            b' ' => {
                found.tabs = false;
                found.width = found.width.saturating_add(1);
            }
            b'\t' => found.width = (found.width / tab).saturating_add(1).saturating_mul(tab),
            _ => return closed(found),
        }
        found.len = found.len.saturating_add(1);
    }
    closed(found)
}

fn closed(found: BlankFront) -> BlankFront {
    BlankFront {
        tabs: found.tabs && found.len > 0,
        ..found
    }
}

fn push_many(out: &mut Vec<u8>, byte: u8, count: u64) -> Result<(), AllocError> {
    for _turn in 0..count {
        out.push(byte)?;
    }
    Ok(())
}

/// Adds a front of this width, which takes the place of the old one: in tabs where that was of tabs
/// alone and they reach it.
pub fn push_moved(
    out: &mut Vec<u8>,
    layout: &Layout,
    old: BlankFront,
    width: u64,
) -> Result<(), AllocError> {
    let tab = u64::from(layout.tab_width.max(1));
    if layout.use_tabs {
        push_many(out, b'\t', width / tab)?;
        return push_many(out, b' ', width % tab);
    }
    if old.tabs && width % tab == 0 {
        return push_many(out, b'\t', width / tab);
    }
    push_many(out, b' ', width)
}

/// How far lines are shifted: a width that is added or taken away.
#[derive(Clone, Copy, Debug, PartialEq, Eq)]
pub struct Shift {
    pub more: u64,
    pub less: u64,
}

impl Shift {
    pub fn between(old: u64, new: u64) -> Shift {
        Shift {
            more: new.saturating_sub(old),
            less: old.saturating_sub(new),
        }
    }

    pub fn is_none(self) -> bool {
        self.more == 0 && self.less == 0
    }

    /// The width after the shift, at least 0.
    pub fn moved(self, width: u64) -> u64 {
        width.saturating_add(self.more).saturating_sub(self.less)
    }
}
