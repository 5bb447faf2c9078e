//! Objects: maps from words to values in the order of insertion.

use crate::budget::{Budget, add};
use crate::fault::{Stop, nothing_named};
use crate::value::Value;
use indexmap::IndexMap;
use std::alloc::Global;

const OBJECT_BYTES: u64 = 96;

const ENTRY_BYTES: u64 = 128;

#[derive(Drop)]
pub(crate) struct Objects {
    alloc: Global,
    maps: Vec<IndexMap<u32, Value>>,
}

impl Objects {
    pub(crate) fn new(alloc: Global) -> Objects {
        Objects {
            alloc,
            maps: Vec::new(alloc),
        }
    }

    /// A new object without keys.
    pub(crate) fn object(&mut self, budget: &mut Budget) -> Result<u32, Stop> {
        let map: IndexMap<u32, Value> = IndexMap::new(self.alloc);
        add(budget, &mut self.maps, map, OBJECT_BYTES)
    }

    #[inline(always)]
    fn map(&self, object: u32) -> Result<&IndexMap<u32, Value>, Stop> {
        let number = object as usize;
        if number >= self.maps.len() {
            return Err(nothing_named());
        }
        Ok(&self.maps[number])
    }

    /// How many keys an object has.
    pub(crate) fn length(&self, object: u32) -> Result<usize, Stop> {
        Ok(self.map(object)?.len())
    }

    /// The key and value at an index in the order of insertion.
    pub(crate) fn entry(&self, object: u32, index: usize) -> Result<Option<(u32, Value)>, Stop> {
        match self.map(object)?.get_index(index) {
            Some((key, value)) => Ok(Some((*key, *value))),
            None => Ok(None),
        }
    }

    /// The value of a key, and its index; `hint` is where it may be.
    #[inline(always)]
    pub(crate) fn field(
        &self,
        object: u32,
        key: u32,
        hint: u32,
    ) -> Result<Option<(u32, Value)>, Stop> {
        let map = self.map(object)?;
        if let Some((found, value)) = map.get_index(hint as usize) {
            if *found == key {
                return Ok(Some((hint, *value)));
            }
        }
        match map.get_full(&key) {
            Some((index, _, value)) => {
                let Ok(index) = u32::try_from(index) else {
                    return Err(nothing_named());
                };
                Ok(Some((index, *value)))
            }
            None => Ok(None),
        }
    }

    /// Sets a key, and tells its index.
    #[inline(always)]
    pub(crate) fn set_field(
        &mut self,
        budget: &mut Budget,
        object: u32,
        key: u32,
        hint: u32,
        value: Value,
    ) -> Result<u32, Stop> {
        let number = object as usize;
        if number >= self.maps.len() {
            return Err(nothing_named());
        }
        let is_there = match self.maps[number].get_index(hint as usize) {
            Some((found, _)) => *found == key,
            None => false,
        };
        if is_there {
            if number < self.maps.len() {
                if let Some(place) = self.maps[number].get_index_mut(hint as usize) {
                    *place = value;
                    return Ok(hint);
                }
            }
            return Err(nothing_named());
        }
        self.insert(budget, object, key, value)
    }

    fn insert(
        &mut self,
        budget: &mut Budget,
        object: u32,
        key: u32,
        value: Value,
    ) -> Result<u32, Stop> {
        let number = object as usize;
        if number >= self.maps.len() {
            return Err(nothing_named());
        }
        budget.charge(ENTRY_BYTES)?;
        let (index, old) = self.maps[number].insert_full(key, value)?;
        if old.is_some() {
            budget.give_back(ENTRY_BYTES);
        }
        match u32::try_from(index) {
            Ok(index) => Ok(index),
            Err(_) => Err(nothing_named()),
        }
    }
}
