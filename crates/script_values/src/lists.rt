//! Lists: each has a store of items. A loop goes over a store, and a write that is no push, while
//! some loop goes over it, goes to a copy.

use crate::budget::{Budget, add};
use crate::fault::{Fault, Stop, nothing_named};
use crate::value::Value;
use std::alloc::Global;

/// The most items of a list.
pub const MAX_LIST_ITEMS: usize = 1_000_000;

const VALUE_BYTES: u64 = 16;

const STORE_BYTES: u64 = 48;

/// Items, which begin at `front`. `loops` go over them. The list may have gone on to a copy.
#[derive(Drop)]
struct Store {
    items: Vec<Value>,
    front: usize,
    loops: u32,
    left: bool,
}

/// A loop over the items that a list had when the loop began.
#[derive(Clone, Copy, Debug, PartialEq, Eq)]
pub struct ListLoop {
    store: u32,
    length: u32,
}

impl ListLoop {
    /// How many items the loop goes over.
    #[inline(always)]
    pub fn length(self) -> u32 {
        self.length
    }
}

#[derive(Drop)]
pub(crate) struct Lists {
    alloc: Global,
    homes: Vec<u32>,
    stores: Vec<Store>,
}

fn new_store(items: Vec<Value>, front: usize) -> Store {
    Store {
        items,
        front,
        loops: 0,
        left: false,
    }
}

// Writes values over items from a place on.
fn write_at(items: &mut Vec<Value>, place: usize, values: &[Value]) -> Result<(), Stop> {
    for (index, value) in values.iter().enumerate() {
        let at = place.saturating_add(index);
        if at >= items.len() {
            return Err(nothing_named());
        }
        items[at] = *value;
    }
    Ok(())
}

impl Lists {
    pub(crate) fn new(alloc: Global) -> Lists {
        Lists {
            alloc,
            homes: Vec::new(alloc),
            stores: Vec::new(alloc),
        }
    }

    fn copied(&self, budget: &mut Budget, items: &[Value]) -> Result<Vec<Value>, Stop> {
        budget.charge((items.len() as u64).saturating_mul(VALUE_BYTES))?;
        let mut own = Vec::new(self.alloc);
        own.extend_from_slice(items)?;
        Ok(own)
    }

    /// A new list of these items.
    pub(crate) fn list(&mut self, budget: &mut Budget, items: &[Value]) -> Result<u32, Stop> {
        if items.len() > MAX_LIST_ITEMS {
            return Err(Stop::Fault(Fault::ListLong));
        }
        let own = self.copied(budget, items)?;
        self.add_list(budget, own)
    }

    fn add_list(&mut self, budget: &mut Budget, own: Vec<Value>) -> Result<u32, Stop> {
        let store = add(budget, &mut self.stores, new_store(own, 0), STORE_BYTES)?;
        add(budget, &mut self.homes, store, 4)
    }

    /// A new list of the items from `from` up to `to`, as far as the list has them.
    pub(crate) fn part_of(
        &mut self,
        budget: &mut Budget,
        list: u32,
        from: usize,
        to: usize,
    ) -> Result<u32, Stop> {
        let items = self.items(list)?;
        let to = to.min(items.len());
        let from = from.min(to);
        let own = self.copied(budget, &items[from..to])?;
        self.add_list(budget, own)
    }

    #[inline(always)]
    fn home(&self, list: u32) -> Result<usize, Stop> {
        let number = list as usize;
        if number >= self.homes.len() {
            return Err(nothing_named());
        }
        Ok(self.homes[number] as usize)
    }

    /// The items of a list.
    #[inline(always)]
    pub(crate) fn items(&self, list: u32) -> Result<&[Value], Stop> {
        let store = self.home(list)?;
        if store >= self.stores.len() {
            return Err(nothing_named());
        }
        let store = &self.stores[store];
        if store.front > store.items.len() {
            return Err(nothing_named());
        }
        Ok(&store.items[store.front..])
    }

    // The store of a list before a write that its loops must not see.
    #[inline(always)]
    fn own_store(&mut self, budget: &mut Budget, list: u32) -> Result<usize, Stop> {
        let store = self.home(list)?;
        if store >= self.stores.len() {
            return Err(nothing_named());
        }
        if self.stores[store].loops == 0 {
            return Ok(store);
        }
        self.leave(budget, list, store)
    }

    #[inline(never)]
    fn leave(&mut self, budget: &mut Budget, list: u32, store: usize) -> Result<usize, Stop> {
        let items = self.items(list)?;
        let own = self.copied(budget, items)?;
        let number = add(budget, &mut self.stores, new_store(own, 0), STORE_BYTES)?;
        let list = list as usize;
        if list >= self.homes.len() || store >= self.stores.len() {
            return Err(nothing_named());
        }
        self.homes[list] = number;
        self.stores[store].left = true;
        Ok(number as usize)
    }

    #[inline(always)]
    pub(crate) fn push(
        &mut self,
        budget: &mut Budget,
        list: u32,
        value: Value,
    ) -> Result<(), Stop> {
        let store = self.home(list)?;
        if store >= self.stores.len() {
            return Err(nothing_named());
        }
        let store = &mut self.stores[store];
        if store.items.len().saturating_sub(store.front) >= MAX_LIST_ITEMS {
            return Err(Stop::Fault(Fault::ListLong));
        }
        add(budget, &mut store.items, value, VALUE_BYTES)?;
        Ok(())
    }

    pub(crate) fn pop(&mut self, budget: &mut Budget, list: u32) -> Result<Value, Stop> {
        if self.items(list)?.is_empty() {
            return Ok(Value::Undefined);
        }
        let store = self.own_store(budget, list)?;
        if store >= self.stores.len() {
            return Err(nothing_named());
        }
        match self.stores[store].items.pop() {
            Some(value) => Ok(value),
            None => Err(nothing_named()),
        }
    }

    pub(crate) fn shift(&mut self, budget: &mut Budget, list: u32) -> Result<Value, Stop> {
        if self.items(list)?.is_empty() {
            return Ok(Value::Undefined);
        }
        let store = self.own_store(budget, list)?;
        if store >= self.stores.len() {
            return Err(nothing_named());
        }
        let store = &mut self.stores[store];
        let front = store.front;
        if front >= store.items.len() {
            return Err(nothing_named());
        }
        let value = store.items[front];
        store.front = front + 1;
        Ok(value)
    }

    /// Writes an item; at the length one is added.
    #[inline(always)]
    pub(crate) fn set_item(
        &mut self,
        budget: &mut Budget,
        list: u32,
        index: usize,
        value: Value,
    ) -> Result<(), Stop> {
        let length = self.items(list)?.len();
        if index > length {
            return Err(Stop::Fault(Fault::BadIndex));
        }
        if index == length {
            return self.push(budget, list, value);
        }
        let store = self.own_store(budget, list)?;
        if store >= self.stores.len() {
            return Err(nothing_named());
        }
        let store = &mut self.stores[store];
        let place = store.front.saturating_add(index);
        if place >= store.items.len() {
            return Err(nothing_named());
        }
        store.items[place] = value;
        Ok(())
    }

    /// Puts values in front of the items of a list.
    pub(crate) fn unshift(
        &mut self,
        budget: &mut Budget,
        list: u32,
        values: &[Value],
    ) -> Result<(), Stop> {
        let length = self.items(list)?.len();
        if values.len() > MAX_LIST_ITEMS || length.saturating_add(values.len()) > MAX_LIST_ITEMS {
            return Err(Stop::Fault(Fault::ListLong));
        }
        let store = self.own_store(budget, list)?;
        if store >= self.stores.len() {
            return Err(nothing_named());
        }
        if self.stores[store].front < values.len() {
            self.make_front(budget, store, values.len())?;
        }
        if store >= self.stores.len() {
            return Err(nothing_named());
        }
        let store = &mut self.stores[store];
        let Some(front) = store.front.checked_sub(values.len()) else {
            return Err(nothing_named());
        };
        write_at(&mut store.items, front, values)?;
        store.front = front;
        Ok(())
    }

    // Makes room in front of the items, as much as there are items and values.
    fn make_front(&mut self, budget: &mut Budget, store: usize, values: usize) -> Result<(), Stop> {
        if store >= self.stores.len() {
            return Err(nothing_named());
        }
        let store = &mut self.stores[store];
        if store.front > store.items.len() {
            return Err(nothing_named());
        }
        let length = store.items.len() - store.front;
        let front = length.saturating_add(values);
        budget.charge((front as u64).saturating_mul(2 * VALUE_BYTES))?;
        let mut items = Vec::new(self.alloc);
        items.resize(front, Value::Undefined)?;
        items.extend_from_slice(&store.items[store.front..])?;
        budget.give_back((store.items.len() as u64).saturating_mul(VALUE_BYTES));
        store.items = items;
        store.front = front;
        Ok(())
    }

    pub(crate) fn reverse(&mut self, budget: &mut Budget, list: u32) -> Result<(), Stop> {
        let store = self.own_store(budget, list)?;
        if store >= self.stores.len() {
            return Err(nothing_named());
        }
        let store = &mut self.stores[store];
        if store.front > store.items.len() {
            return Err(nothing_named());
        }
        let front = store.front;
        store.items[front..].reverse();
        Ok(())
    }

    /// A loop over a list begins.
    pub(crate) fn begin_loop(&mut self, list: u32) -> Result<ListLoop, Stop> {
        let home = self.home(list)?;
        if home >= self.stores.len() {
            return Err(nothing_named());
        }
        let store = &mut self.stores[home];
        let length = store.items.len().saturating_sub(store.front);
        let (Ok(length), Ok(number)) = (u32::try_from(length), u32::try_from(home)) else {
            return Err(nothing_named());
        };
        if store.loops == u32::MAX {
            return Err(Stop::NoMemory);
        }
        store.loops += 1;
        Ok(ListLoop {
            store: number,
            length,
        })
    }

    #[inline(always)]
    pub(crate) fn loop_item(&self, turns: ListLoop, index: u32) -> Result<Value, Stop> {
        let store = turns.store as usize;
        if store >= self.stores.len() || index >= turns.length {
            return Err(nothing_named());
        }
        let store = &self.stores[store];
        let place = store.front.saturating_add(index as usize);
        if place >= store.items.len() {
            return Err(nothing_named());
        }
        Ok(store.items[place])
    }

    /// A loop has ended. What the list left is given back with the last loop over it.
    pub(crate) fn end_loop(&mut self, budget: &mut Budget, turns: ListLoop) {
        let number = turns.store as usize;
        if number >= self.stores.len() {
            return;
        }
        let store = &mut self.stores[number];
        store.loops = store.loops.saturating_sub(1);
        if store.loops == 0 && store.left {
            let bytes = (store.items.len() as u64).saturating_mul(VALUE_BYTES);
            store.items = Vec::new(self.alloc);
            store.front = 0;
            budget.give_back(bytes);
        }
    }
}
