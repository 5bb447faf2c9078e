//! Where a text stands in another.

use script_values::Stop;
use std::alloc::{AllocError, Global};

/// A text that is sought, with a table that says of each front of it how long the longest shorter
/// front is that ends it. So no unit of the searched text is read more than twice.
#[derive(Drop)]
pub(crate) struct Pattern {
    units: Vec<u16>,
    borders: Vec<usize>,
}

// How much of the pattern stands before a unit that follows so much of it.
fn fall_back(units: &[u16], borders: &[usize], matched: usize, unit: u16) -> usize {
    let mut front = matched;
    for _fall in 0..matched {
        if front < units.len() && units[front] == unit {
            return front;
        }
        if front == 0 || front - 1 >= borders.len() {
            return 0;
        }
        front = borders[front - 1];
    }
    front
}

impl Pattern {
    pub(crate) fn new(alloc: Global, units: &[u16]) -> Result<Pattern, AllocError> {
        let mut pattern = Pattern {
            units: Vec::from_slice(alloc, units)?,
            borders: Vec::new(alloc),
        };
        pattern.find_borders()?;
        Ok(pattern)
    }

    fn find_borders(&mut self) -> Result<(), AllocError> {
        let mut matched = 0;
        for index in 0..self.units.len() {
            if index > 0 {
                let unit = self.units[index];
                matched = fall_back(&self.units, &self.borders, matched, unit);
                if matched < index && matched < self.units.len() && self.units[matched] == unit {
                    matched += 1;
                }
            }
            self.borders.push(matched)?;
        }
        Ok(())
    }

    /// The index at which the pattern first stands in a text, from an index on.
    pub(crate) fn find(&self, text: &[u16], from: usize) -> Option<usize> {
        let length = self.units.len();
        if length == 0 {
            return if from <= text.len() { Some(from) } else { None };
        }
        let mut matched = 0;
        for index in from..text.len() {
            let unit = text[index];
            matched = fall_back(&self.units, &self.borders, matched, unit);
            if matched < length && self.units[matched] == unit {
                matched += 1;
            }
            if matched == length {
                return Some((index + 1).saturating_sub(length));
            }
        }
        None
    }

    pub(crate) fn len(&self) -> usize {
        self.units.len()
    }
}

/// Whether a text stands in another at an index.
pub(crate) fn stands_at(text: &[u16], sought: &[u16], index: usize) -> bool {
    if index > text.len() || text.len() - index < sought.len() {
        return false;
    }
    text[index..index + sought.len()] == sought[..]
}
