//! The words of a script: names, keys and texts, each with a number that equal texts share.

use indexmap::IndexMap;
use std::alloc::{AllocError, Global};
use tree_core::Units;

#[derive(Drop)]
pub struct Words {
    alloc: Global,
    numbers: IndexMap<Vec<u16>, u32>,
}

impl Words {
    pub fn new(alloc: Global) -> Words {
        Words {
            alloc,
            numbers: IndexMap::new(alloc),
        }
    }

    /// The number of a text.
    pub fn of(&mut self, units: &[u16]) -> Result<u32, AllocError> {
        let found = self.numbers.get(units).copied();
        if let Some(number) = found {
            return Ok(number);
        }
        let Ok(number) = u32::try_from(self.numbers.len()) else {
            return Err(AllocError);
        };
        let mut own: Vec<u16> = Vec::new(self.alloc);
        own.extend_from_slice(units)?;
        if self.numbers.insert(own, number).is_err() {
            return Err(AllocError);
        }
        Ok(number)
    }

    /// The texts in the order of their numbers.
    pub fn into_texts(self) -> Result<Vec<Units>, AllocError> {
        let mut texts = Vec::new(self.alloc);
        for (units, _number) in self.numbers {
            texts.push(Units::new(units))?;
        }
        Ok(texts)
    }
}
