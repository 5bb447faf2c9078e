//! Texts: a row for each, which is a stretch of units that many texts share, or two texts joined.
//!
//! Joining copies nothing but short texts. A joined text is written out at its first reading, in
//! place, for all who share it; a single unit and a comparison go down some joined rows first.

use crate::budget::{Budget, add};
use crate::fault::{Fault, Stop, nothing_named};
use indexmap::IndexSet;
use std::alloc::Global;
use std::cmp::Ordering;

/// The most code units of a text.
pub const MAX_TEXT_UNITS: u32 = 2_097_152;

// Texts that together are not longer are written out where they are joined.
const SHORT: u32 = 32;

// How many joined rows a look at a unit goes down, and the row on the way that is then written out.
const MAX_DESCENT: u32 = 64;

const HALF_DESCENT: u32 = 32;

const UNIT_BYTES: u64 = 2;

const ROW_BYTES: u64 = 20;

const WORD_BYTES: u64 = 128;

/// How a text is kept: as the units from a place on, or as two earlier texts.
#[derive(Clone, Copy, Debug)]
enum Shape {
    Flat(u32),
    Joined(u32, u32),
}

/// A text. `word` is one more than the number of the word that it is, or 0 where that is unknown.
#[derive(Clone, Copy, Debug)]
struct Row {
    length: u32,
    word: u32,
    shape: Shape,
}

/// Where some units of a text stand: `length` of them from `place` on; or a text below it that is
/// to be written out first.
#[derive(Clone, Copy, Debug)]
enum Run {
    Units { place: usize, length: u32 },
    Deep(u32),
}

#[derive(Drop)]
pub(crate) struct Texts {
    alloc: Global,
    units: Vec<u16>,
    rows: Vec<Row>,
    words: IndexSet<Vec<u16>>,
    word_texts: Vec<u32>,
    waiting: Vec<u32>,
}

fn flat_row(start: u32, length: u32) -> Row {
    Row {
        length,
        word: 0,
        shape: Shape::Flat(start),
    }
}

// Where the text begins in the units, where it is flat.
fn flat_start(rows: &[Row], text: u32) -> Option<u32> {
    let number = text as usize;
    if number >= rows.len() {
        return None;
    }
    match rows[number].shape {
        Shape::Flat(start) => Some(start),
        Shape::Joined(..) => None,
    }
}

// Writes a stretch of the units again, at their end.
fn repeat(budget: &mut Budget, units: &mut Vec<u16>, start: u32, length: u32) -> Result<(), Stop> {
    let start = start as usize;
    let end = start.saturating_add(length as usize);
    if end > units.len() || start > end {
        return Err(nothing_named());
    }
    budget.grow(units, length as usize, UNIT_BYTES)?;
    units.extend_from_within(start..end)?;
    Ok(())
}

// Writes bytes as units.
fn write_bytes(units: &mut Vec<u16>, bytes: &[u8]) -> Result<(), Stop> {
    for byte in bytes {
        units.push(u16::from(*byte))?;
    }
    Ok(())
}

// Writes a text out at the end of the units. Each part of it has a unit at least, so it has fewer
// than twice as many parts as units.
fn write_out(
    budget: &mut Budget,
    rows: &[Row],
    units: &mut Vec<u16>,
    waiting: &mut Vec<u32>,
    text: u32,
    length: u32,
) -> Result<(), Stop> {
    waiting.clear();
    let mut now = text;
    for _part in 0..u64::from(length) * 2 {
        if now as usize >= rows.len() {
            return Err(nothing_named());
        }
        let row = rows[now as usize];
        match row.shape {
            Shape::Flat(start) => {
                repeat(budget, units, start, row.length)?;
                match waiting.pop() {
                    Some(next) => now = next,
                    None => return Ok(()),
                }
            }
            Shape::Joined(a, b) => {
                add(budget, waiting, b, 4)?;
                now = a;
            }
        }
    }
    Err(nothing_named())
}

// How many units a text has.
fn length_at(rows: &[Row], text: u32) -> Option<u32> {
    let number = text as usize;
    if number >= rows.len() {
        return None;
    }
    Some(rows[number].length)
}

// The units from `at` on of a stretch.
fn units_from(start: u32, at: u32, length: u32) -> Run {
    Run::Units {
        place: (start as usize).saturating_add(at as usize),
        length: length.saturating_sub(at),
    }
}

// Where the units of a text from `index` on stand.
fn run_at(rows: &[Row], text: u32, index: u32) -> Result<Run, Stop> {
    let mut now = text;
    let mut half = text;
    let mut at = index;
    for step in 0..MAX_DESCENT {
        if now as usize >= rows.len() {
            return Err(nothing_named());
        }
        let row = rows[now as usize];
        match row.shape {
            Shape::Flat(start) => {
                return Ok(units_from(start, at, row.length));
            }
            Shape::Joined(a, b) => {
                let Some(front) = length_at(rows, a) else {
                    return Err(nothing_named());
                };
                if at < front {
                    now = a;
                } else {
                    at -= front;
                    now = b;
                }
            }
        }
        if step == HALF_DESCENT {
            half = now;
        }
    }
    Ok(Run::Deep(half))
}

// The place behind the first units that two stretches have in common, of at most `length`.
fn common(units: &[u16], a: usize, b: usize, length: u32) -> u32 {
    for done in 0..length {
        let x = a.saturating_add(done as usize);
        let y = b.saturating_add(done as usize);
        if x >= units.len() || y >= units.len() || units[x] != units[y] {
            return done;
        }
    }
    length
}

impl Texts {
    pub(crate) fn new(alloc: Global) -> Texts {
        Texts {
            alloc,
            units: Vec::new(alloc),
            rows: Vec::new(alloc),
            words: IndexSet::new(alloc),
            word_texts: Vec::new(alloc),
            waiting: Vec::new(alloc),
        }
    }

    /// A new text.
    pub(crate) fn text(&mut self, budget: &mut Budget, units: &[u16]) -> Result<u32, Stop> {
        let Ok(length) = u32::try_from(units.len()) else {
            return Err(Stop::Fault(Fault::TextLong));
        };
        if length > MAX_TEXT_UNITS {
            return Err(Stop::Fault(Fault::TextLong));
        }
        let Ok(start) = u32::try_from(self.units.len()) else {
            return Err(Stop::NoMemory);
        };
        budget.grow(&self.units, units.len(), UNIT_BYTES)?;
        self.units.extend_from_slice(units)?;
        add(budget, &mut self.rows, flat_row(start, length), ROW_BYTES)
    }

    /// A new text whose units are, as numbers, these bytes.
    pub(crate) fn text_of_bytes(&mut self, budget: &mut Budget, bytes: &[u8]) -> Result<u32, Stop> {
        let Ok(length) = u32::try_from(bytes.len()) else {
            return Err(Stop::Fault(Fault::TextLong));
        };
        if length > MAX_TEXT_UNITS {
            return Err(Stop::Fault(Fault::TextLong));
        }
        let Ok(start) = u32::try_from(self.units.len()) else {
            return Err(Stop::NoMemory);
        };
        budget.grow(&self.units, bytes.len(), UNIT_BYTES)?;
        write_bytes(&mut self.units, bytes)?;
        add(budget, &mut self.rows, flat_row(start, length), ROW_BYTES)
    }

    /// How many units a text has.
    #[inline(always)]
    pub(crate) fn length(&self, text: u32) -> Result<u32, Stop> {
        let number = text as usize;
        if number >= self.rows.len() {
            return Err(nothing_named());
        }
        Ok(self.rows[number].length)
    }

    /// Writes a text out where it is joined.
    pub(crate) fn flatten(&mut self, budget: &mut Budget, text: u32) -> Result<(), Stop> {
        let number = text as usize;
        if number >= self.rows.len() {
            return Err(nothing_named());
        }
        let row = self.rows[number];
        if let Shape::Flat(_) = row.shape {
            return Ok(());
        }
        let Ok(start) = u32::try_from(self.units.len()) else {
            return Err(Stop::NoMemory);
        };
        write_out(
            budget,
            &self.rows,
            &mut self.units,
            &mut self.waiting,
            text,
            row.length,
        )?;
        if number >= self.rows.len() {
            return Err(nothing_named());
        }
        self.rows[number].shape = Shape::Flat(start);
        Ok(())
    }

    /// The units of a text that is written out.
    pub(crate) fn units(&self, text: u32) -> Result<&[u16], Stop> {
        let Some(start) = flat_start(&self.rows, text) else {
            return Err(nothing_named());
        };
        let start = start as usize;
        let end = start.saturating_add(self.length(text)? as usize);
        if start > end || end > self.units.len() {
            return Err(nothing_named());
        }
        Ok(&self.units[start..end])
    }

    /// The text of the units from `from` up to `to` of a text, as far as it has them.
    pub(crate) fn slice(
        &mut self,
        budget: &mut Budget,
        text: u32,
        from: u32,
        to: u32,
    ) -> Result<u32, Stop> {
        self.flatten(budget, text)?;
        let to = to.min(self.length(text)?);
        let from = from.min(to);
        let Some(start) = flat_start(&self.rows, text) else {
            return Err(nothing_named());
        };
        let row = flat_row(start.saturating_add(from), to - from);
        add(budget, &mut self.rows, row, ROW_BYTES)
    }

    /// The text of two texts, one behind the other.
    pub(crate) fn join(&mut self, budget: &mut Budget, a: u32, b: u32) -> Result<u32, Stop> {
        let front = self.length(a)?;
        let back = self.length(b)?;
        if front == 0 {
            return Ok(b);
        }
        if back == 0 {
            return Ok(a);
        }
        let length = front.saturating_add(back);
        if length > MAX_TEXT_UNITS {
            return Err(Stop::Fault(Fault::TextLong));
        }
        if let Some(text) = self.joined_flat(budget, a, b)? {
            return Ok(text);
        }
        if let Some(text) = self.joined_ends(budget, a, b)? {
            return Ok(text);
        }
        self.joined_row(budget, a, b)
    }

    // The text of two texts, as a row that names both.
    fn joined_row(&mut self, budget: &mut Budget, a: u32, b: u32) -> Result<u32, Stop> {
        let length = self.length(a)?.saturating_add(self.length(b)?);
        let row = Row {
            length,
            word: 0,
            shape: Shape::Joined(a, b),
        };
        add(budget, &mut self.rows, row, ROW_BYTES)
    }

    // The text of two flat texts of which the second is short, where the first ends the units or is
    // short too.
    fn joined_flat(&mut self, budget: &mut Budget, a: u32, b: u32) -> Result<Option<u32>, Stop> {
        let front = self.length(a)?;
        let back = self.length(b)?;
        if back > SHORT {
            return Ok(None);
        }
        let (Some(start), Some(behind)) = (flat_start(&self.rows, a), flat_start(&self.rows, b))
        else {
            return Ok(None);
        };
        let Ok(end) = u32::try_from(self.units.len()) else {
            return Err(Stop::NoMemory);
        };
        let length = front.saturating_add(back);
        if start.saturating_add(front) == end {
            repeat(budget, &mut self.units, behind, back)?;
            let row = flat_row(start, length);
            return Ok(Some(add(budget, &mut self.rows, row, ROW_BYTES)?));
        }
        if length > SHORT {
            return Ok(None);
        }
        repeat(budget, &mut self.units, start, front)?;
        repeat(budget, &mut self.units, behind, back)?;
        let row = flat_row(end, length);
        Ok(Some(add(budget, &mut self.rows, row, ROW_BYTES)?))
    }

    // The text of two texts of which one is joined and the other short: the short one is joined with
    // the end that it meets.
    fn joined_ends(&mut self, budget: &mut Budget, a: u32, b: u32) -> Result<Option<u32>, Stop> {
        let (number, other) = (a as usize, b as usize);
        if number >= self.rows.len() || other >= self.rows.len() {
            return Err(nothing_named());
        }
        match (self.rows[number].shape, self.rows[other].shape) {
            (Shape::Joined(first, last), Shape::Flat(_)) => {
                let Some(end) = self.joined_flat(budget, last, b)? else {
                    return Ok(None);
                };
                Ok(Some(self.joined_row(budget, first, end)?))
            }
            (Shape::Flat(_), Shape::Joined(first, last)) => {
                let Some(start) = self.joined_flat(budget, a, first)? else {
                    return Ok(None);
                };
                Ok(Some(self.joined_row(budget, start, last)?))
            }
            _ => Ok(None),
        }
    }

    // Where the units of a text from `index` on stand.
    fn run(&mut self, budget: &mut Budget, text: u32, index: u32) -> Result<(usize, u32), Stop> {
        match run_at(&self.rows, text, index)? {
            Run::Units { place, length } => return Ok((place, length)),
            Run::Deep(below) => self.flatten(budget, below)?,
        }
        match run_at(&self.rows, text, index)? {
            Run::Units { place, length } => Ok((place, length)),
            Run::Deep(_) => Err(nothing_named()),
        }
    }

    /// The unit at an index.
    pub(crate) fn unit_at(
        &mut self,
        budget: &mut Budget,
        text: u32,
        index: u32,
    ) -> Result<Option<u16>, Stop> {
        if index >= self.length(text)? {
            return Ok(None);
        }
        let (place, _) = self.run(budget, text, index)?;
        if place >= self.units.len() {
            return Err(nothing_named());
        }
        Ok(Some(self.units[place]))
    }

    // The index of the first unit in which two texts differ, or the length of the shorter one.
    fn common_front(&mut self, budget: &mut Budget, a: u32, b: u32) -> Result<u32, Stop> {
        let length = self.length(a)?.min(self.length(b)?);
        let mut done = 0;
        for _turn in 0..length {
            if done >= length {
                break;
            }
            let (x, left) = self.run(budget, a, done)?;
            let (y, right) = self.run(budget, b, done)?;
            let most = left.min(right).min(length - done);
            if most == 0 {
                return Err(nothing_named());
            }
            let same = if x == y {
                most
            } else {
                common(&self.units, x, y, most)
            };
            done = done.saturating_add(same).min(length);
            if same < most {
                break;
            }
        }
        Ok(done)
    }

    /// Whether two texts have the same units.
    pub(crate) fn same(&mut self, budget: &mut Budget, a: u32, b: u32) -> Result<bool, Stop> {
        if a == b {
            return Ok(true);
        }
        let length = self.length(a)?;
        if length != self.length(b)? {
            return Ok(false);
        }
        let (first, second) = (self.known_word(a), self.known_word(b));
        if first != 0 && second != 0 {
            return Ok(first == second);
        }
        Ok(self.common_front(budget, a, b)? == length)
    }

    /// Compares two texts by their units.
    pub(crate) fn compare(
        &mut self,
        budget: &mut Budget,
        a: u32,
        b: u32,
    ) -> Result<Ordering, Stop> {
        let at = self.common_front(budget, a, b)?;
        let first = self.unit_at(budget, a, at)?;
        let second = self.unit_at(budget, b, at)?;
        Ok(match (first, second) {
            (None, None) => Ordering::Equal,
            (None, Some(_)) => Ordering::Less,
            (Some(_), None) => Ordering::Greater,
            (Some(x), Some(y)) => x.cmp(&y),
        })
    }

    // One more than the number of the word that a text is, or 0 where that is unknown.
    #[inline(always)]
    fn known_word(&self, text: u32) -> u32 {
        let number = text as usize;
        if number >= self.rows.len() {
            return 0;
        }
        self.rows[number].word
    }

    /// The word that a text is.
    #[inline(always)]
    pub(crate) fn word_of(&mut self, budget: &mut Budget, text: u32) -> Result<u32, Stop> {
        let known = self.known_word(text);
        if known != 0 {
            return Ok(known - 1);
        }
        self.find_word(budget, text)
    }

    #[inline(never)]
    fn find_word(&mut self, budget: &mut Budget, text: u32) -> Result<u32, Stop> {
        self.flatten(budget, text)?;
        let units = self.units(text)?;
        let word = match self.words.get_index_of(units) {
            Some(index) => index,
            None => {
                let mut key: Vec<u16> = Vec::new(self.alloc);
                budget.charge(WORD_BYTES.saturating_add((units.len() as u64).saturating_mul(2)))?;
                key.extend_from_slice(units)?;
                add(budget, &mut self.word_texts, text, 4)?;
                let (index, _) = self.words.insert_full(key)?;
                index
            }
        };
        let Ok(word) = u32::try_from(word) else {
            return Err(Stop::NoMemory);
        };
        let number = text as usize;
        if number >= self.rows.len() || word == u32::MAX {
            return Err(nothing_named());
        }
        self.rows[number].word = word + 1;
        Ok(word)
    }

    /// The word of these units, where some text was it.
    pub(crate) fn word(&self, units: &[u16]) -> Option<u32> {
        match self.words.get_index_of(units) {
            Some(index) => u32::try_from(index).ok(),
            None => None,
        }
    }

    /// A text that is the word.
    #[inline(always)]
    pub(crate) fn word_text(&self, word: u32) -> Result<u32, Stop> {
        let number = word as usize;
        if number >= self.word_texts.len() {
            return Err(nothing_named());
        }
        Ok(self.word_texts[number])
    }

    /// How many texts were made.
    pub(crate) fn count(&self) -> usize {
        self.rows.len()
    }
}
