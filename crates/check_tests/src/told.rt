//! Trees told as texts: `(Kind FIELD.. COMMENT..)`, the fields in the order of the table of kinds.
//!
//! A scalar is `=TEXT`, `+` (true), `-` (false) or `~` (null). A single place is a node or `_`, a
//! list `[..]` of these. A comment is `{b*TEXT}`: `b` before the node, `a` after it, `i` inside it,
//! and `*` of a block, `/` of a line. In texts `%XXXX` is the code unit with these four digits.

use sqlite_items::Items;
use std::alloc::Global;
use std::str;
use tree_core::{Comment, Comments, Notes, Place, Scalar, Scalars, Slot, Tree, Units};
use type_defs::{FieldDef, Kind, fields, kind_of};

const MAX_DEPTH: u32 = 100;

#[derive(Drop)]
struct Input<'a> {
    text: &'a [u8],
    at: usize,
}

#[derive(Drop)]
struct Told {
    lead: Comments,
    trail: Comments,
    inner: Comments,
}

fn hex_digit(byte: u8) -> Option<u16> {
    match byte {
        b'0'..=b'9' => Some(u16::from(byte - b'0')),
        b'a'..=b'f' => Some(u16::from(byte - b'a') + 10),
        _ => None,
    }
}

fn ends_text(byte: u8) -> bool {
    matches!(byte, 0 | b' ' | b'(' | b')' | b'[' | b']' | b'{' | b'}')
}

impl<'a> Input<'a> {
    fn peek(&self) -> u8 {
        if self.at < self.text.len() {
            self.text[self.at]
        } else {
            0
        }
    }

    fn pass(&mut self) -> u8 {
        let byte = self.peek();
        self.at = self.at.saturating_add(1);
        byte
    }

    // Passes the byte if it comes next.
    fn eat(&mut self, byte: u8) -> bool {
        let found = self.peek() == byte;
        if found {
            self.at = self.at.saturating_add(1);
        }
        found
    }

    fn pass_blanks(&mut self) {
        for _turn in 0..self.text.len() {
            if !self.eat(b' ') {
                return;
            }
        }
    }

    fn unit(&mut self) -> Option<u16> {
        let byte = self.pass();
        if byte != b'%' {
            return Some(u16::from(byte));
        }
        let mut code = 0u16;
        for _turn in 0..4 {
            let digit = hex_digit(self.pass())?;
            code = (code % 0x1000) * 0x10 + digit % 0x10;
        }
        Some(code)
    }

    fn units(&mut self, alloc: Global) -> Option<Units> {
        let mut units = Units::empty();
        for _turn in 0..self.text.len() {
            if ends_text(self.peek()) {
                return Some(units);
            }
            let unit = self.unit()?;
            units.push(alloc, unit).ok()?;
        }
        Some(units)
    }

    fn kind(&mut self) -> Option<Kind> {
        let start = self.at;
        for _turn in 0..self.text.len() {
            if ends_text(self.peek()) {
                break;
            }
            self.pass();
        }
        let end = self.at.min(self.text.len());
        if start > end {
            return None;
        }
        let text = self.text;
        let name = str::from_utf8(&text[start..end]).ok()?;
        kind_of(name)
    }

    fn scalar(&mut self, alloc: Global) -> Option<Scalar> {
        match self.pass() {
            b'=' => Some(Scalar::Text(self.units(alloc)?)),
            b'+' => Some(Scalar::Truth(true)),
            b'-' => Some(Scalar::Truth(false)),
            b'~' => Some(Scalar::Null),
            _ => None,
        }
    }

    fn comment(&mut self, alloc: Global, told: &mut Told) -> Option<()> {
        let place = self.pass();
        let block = self.pass() == b'*';
        let text = self.units(alloc)?;
        let comment = Comment { block, text };
        match place {
            b'b' => told.lead.push(comment).ok()?,
            b'a' => told.trail.push(comment).ok()?,
            _ => told.inner.push(comment).ok()?,
        }
        if self.eat(b'}') { Some(()) } else { None }
    }

    fn notes(&mut self, alloc: Global) -> Option<Notes> {
        let mut told = Told {
            lead: Items::new(alloc),
            trail: Items::new(alloc),
            inner: Items::new(alloc),
        };
        for _turn in 0..self.text.len() {
            self.pass_blanks();
            if !self.eat(b'{') {
                break;
            }
            self.comment(alloc, &mut told)?;
        }
        Notes::new(alloc, told.lead, told.trail, told.inner).ok()
    }
}

#[cycle(told)]
fn place(alloc: Global, input: &mut Input<'_>, depth: u32) -> Option<Place> {
    input.pass_blanks();
    if input.eat(b'_') {
        return Some(Place {
            name: None,
            node: None,
        });
    }
    let node = node(alloc, input, depth)?;
    Place::filled(alloc, node).ok()
}

#[cycle(told)]
fn list(alloc: Global, input: &mut Input<'_>, depth: u32) -> Option<Slot> {
    if !input.eat(b'[') {
        return None;
    }
    let mut places = Items::new(alloc);
    for _turn in 0..input.text.len() {
        input.pass_blanks();
        if input.eat(b']') {
            return Some(Slot::list(places));
        }
        places.push(place(alloc, input, depth)?).ok()?;
    }
    None
}

#[cycle(told)]
fn slot(alloc: Global, input: &mut Input<'_>, field: &FieldDef, depth: u32) -> Option<Slot> {
    input.pass_blanks();
    if field.1.list {
        return list(alloc, input, depth);
    }
    Some(Slot::single(place(alloc, input, depth)?))
}

#[cycle(told)]
fn node(alloc: Global, input: &mut Input<'_>, depth: u32) -> Option<Tree> {
    if depth == 0 || !input.eat(b'(') {
        return None;
    }
    let kind = input.kind()?;
    let mut scalars = Scalars::new();
    let mut slots = Items::new(alloc);
    for field in fields(kind) {
        input.pass_blanks();
        if field.1.slot {
            slots.push(slot(alloc, input, field, depth - 1)?).ok()?;
        } else {
            let scalar = input.scalar(alloc)?;
            scalars = scalars.with(alloc, scalar).ok()?;
        }
    }
    let notes = input.notes(alloc)?;
    if !input.eat(b')') {
        return None;
    }
    Some(Tree {
        kind,
        scalars,
        slots,
        notes,
        from: None,
    })
}

/// The tree that the text tells.
pub fn tree_of(alloc: Global, text: &str) -> Option<Tree> {
    let mut input = Input {
        text: text.as_bytes(),
        at: 0,
    };
    input.pass_blanks();
    node(alloc, &mut input, MAX_DEPTH)
}
