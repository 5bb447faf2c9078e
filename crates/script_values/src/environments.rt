//! Environments: the names that inner functions take.

use crate::budget::{Budget, add};
use crate::fault::{Fault, Stop, nothing_named};
use crate::value::Value;
use std::alloc::Global;

const LINK_BYTES: u64 = 8;

const VALUE_BYTES: u64 = 17;

/// An environment: the one around it, and where its names begin.
#[derive(Clone, Copy, Debug)]
struct Link {
    around: u32,
    first: u32,
}

/// What names hold, and which of them are early: their declarations have not run.
#[derive(Drop)]
pub(crate) struct Environments {
    links: Vec<Link>,
    values: Vec<Value>,
    early: Vec<bool>,
}

impl Environments {
    pub(crate) fn new(alloc: Global) -> Environments {
        Environments {
            links: Vec::new(alloc),
            values: Vec::new(alloc),
            early: Vec::new(alloc),
        }
    }

    // A new environment whose names begin behind all others.
    #[inline(always)]
    fn link(&mut self, budget: &mut Budget, around: u32) -> Result<u32, Stop> {
        let Ok(first) = u32::try_from(self.values.len()) else {
            return Err(Stop::NoMemory);
        };
        add(budget, &mut self.links, Link { around, first }, LINK_BYTES)
    }

    /// A new environment inside another, with so many names that are early.
    #[inline(always)]
    pub(crate) fn environment(
        &mut self,
        budget: &mut Budget,
        around: u32,
        names: u32,
    ) -> Result<u32, Stop> {
        let made = self.link(budget, around)?;
        let end = self.values.len().saturating_add(names as usize);
        budget.grow(&self.values, names as usize, VALUE_BYTES)?;
        self.values.resize(end, Value::Undefined)?;
        self.early.resize(end, true)?;
        Ok(made)
    }

    /// A new environment beside another, with what its names hold now.
    pub(crate) fn again(
        &mut self,
        budget: &mut Budget,
        environment: u32,
        names: u32,
    ) -> Result<u32, Stop> {
        let around = self.around(environment)?;
        let first = self.first(environment)?;
        let end = first.saturating_add(names as usize);
        if end > self.values.len() || end > self.early.len() || first > end {
            return Err(nothing_named());
        }
        let made = self.link(budget, around)?;
        budget.grow(&self.values, names as usize, VALUE_BYTES)?;
        if end <= self.values.len() && end <= self.early.len() {
            self.values.extend_from_within(first..end)?;
            self.early.extend_from_within(first..end)?;
        }
        Ok(made)
    }

    /// The environment around one.
    #[inline(always)]
    pub(crate) fn around(&self, environment: u32) -> Result<u32, Stop> {
        let number = environment as usize;
        if number >= self.links.len() {
            return Err(nothing_named());
        }
        Ok(self.links[number].around)
    }

    // Where the names of an environment begin.
    #[inline(always)]
    fn first(&self, environment: u32) -> Result<usize, Stop> {
        let number = environment as usize;
        if number >= self.links.len() {
            return Err(nothing_named());
        }
        Ok(self.links[number].first as usize)
    }

    /// Takes back the environments from this one on.
    #[inline(always)]
    pub(crate) fn cut(&mut self, environment: u32) {
        let number = environment as usize;
        if number < self.links.len() {
            let first = self.links[number].first as usize;
            self.links.truncate(number);
            self.values.truncate(first);
            self.early.truncate(first);
        }
    }

    // The place of a name, so many environments outwards.
    #[inline(always)]
    fn place(&self, environment: u32, outwards: u32, name: u32) -> Result<usize, Stop> {
        let mut at = environment;
        for _step in 0..outwards {
            at = self.around(at)?;
        }
        Ok(self.first(at)?.saturating_add(name as usize))
    }

    /// What a name holds.
    #[inline(always)]
    pub(crate) fn cell(&self, environment: u32, outwards: u32, name: u32) -> Result<Value, Stop> {
        let place = self.place(environment, outwards, name)?;
        if place >= self.values.len() || place >= self.early.len() {
            return Err(nothing_named());
        }
        if self.early[place] {
            return Err(Stop::Fault(Fault::EarlyName));
        }
        Ok(self.values[place])
    }

    /// A name's declaration runs.
    #[inline(always)]
    pub(crate) fn declare(
        &mut self,
        environment: u32,
        outwards: u32,
        name: u32,
        value: Value,
    ) -> Result<(), Stop> {
        let place = self.place(environment, outwards, name)?;
        if place >= self.values.len() || place >= self.early.len() {
            return Err(nothing_named());
        }
        self.values[place] = value;
        self.early[place] = false;
        Ok(())
    }

    /// A name is assigned, which has no effect on an early one.
    #[inline(always)]
    pub(crate) fn assign(
        &mut self,
        environment: u32,
        outwards: u32,
        name: u32,
        value: Value,
    ) -> Result<(), Stop> {
        let place = self.place(environment, outwards, name)?;
        if place >= self.values.len() || place >= self.early.len() {
            return Err(nothing_named());
        }
        if !self.early[place] {
            self.values[place] = value;
        }
        Ok(())
    }
}
