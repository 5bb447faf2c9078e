//! The heap of a run.

ghost use Rattle.std.specs.Prelude.{◌≡◌};

use crate::budget::{Budget, add};
use crate::environments::Environments;
use crate::fault::{Stop, nothing_named};
use crate::ids::{CollectionId, EnvironmentId, FunctionId, ListId, ObjectId, TextId, Word};
use crate::lists::{ListLoop, Lists};
use crate::objects::Objects;
use crate::records::{Closure, Collection};
use crate::texts::Texts;
use crate::value::Value;
use scope_lookup::Paths;
use std::alloc::Global;
use std::cmp::Ordering;
use tree_core::Units;

/// Texts that every heap holds from the start.
#[derive(Clone, Copy, Debug, PartialEq, Eq)]
pub enum Spelling {
    Undefined,
    Null,
    True,
    False,
    Boolean,
    Number,
    String,
    Function,
    Object,
    Comma,
    Empty,
}

// The spellings in the order of the enum.
const SPELLINGS: &[&[u8]] = &[
    b"undefined",
    b"null",
    b"true",
    b"false",
    b"boolean",
    b"number",
    b"string",
    b"function",
    b"object",
    b",",
    b"",
];

// So many units have a text that is made once.
const SINGLE_UNITS: u16 = 256;

const CLOSURE_BYTES: u64 = 8;

const COLLECTION_BYTES: u64 = 40;

const PLACE_BYTES: u64 = 8;

/// What the values of a run name: texts, lists, objects, functions, collections and environments.
/// A call with a number that this heap did not give answers `NoMemory`, and so does a call that
/// would take more memory than `MAX_HEAP_BYTES`.
#[derive(Drop)]
pub struct Heap {
    alloc: Global,
    budget: Budget,
    texts: Texts,
    lists: Lists,
    objects: Objects,
    functions: Vec<Closure>,
    collections: Vec<Collection>,
    environments: Environments,
    singles: u32,
    spellings: u32,
}

impl Heap {
    /// A heap whose first words are these, in their order. They differ from each other.
    pub fn new(alloc: Global, words: &[Units]) -> Result<Heap, Stop> {
        let mut heap = Heap {
            alloc,
            budget: Budget::new(),
            texts: Texts::new(alloc),
            lists: Lists::new(alloc),
            objects: Objects::new(alloc),
            functions: Vec::new(alloc),
            collections: Vec::new(alloc),
            environments: Environments::new(alloc),
            singles: 0,
            spellings: 0,
        };
        for word in words {
            let text = heap.texts.text(&mut heap.budget, word.get())?;
            heap.texts.word_of(&mut heap.budget, text)?;
        }
        heap.make_spellings()?;
        heap.make_singles()?;
        Ok(heap)
    }

    fn make_spellings(&mut self) -> Result<(), Stop> {
        let Ok(first) = u32::try_from(self.texts.count()) else {
            return Err(Stop::NoMemory);
        };
        self.spellings = first;
        for spelling in SPELLINGS {
            self.texts.text_of_bytes(&mut self.budget, spelling)?;
        }
        Ok(())
    }

    fn make_singles(&mut self) -> Result<(), Stop> {
        let Ok(first) = u32::try_from(self.texts.count()) else {
            return Err(Stop::NoMemory);
        };
        self.singles = first;
        for unit in 0..SINGLE_UNITS {
            self.texts.text(&mut self.budget, &[unit])?;
        }
        Ok(())
    }

    /// The allocator that the heap was made with.
    pub fn alloc(&self) -> Global {
        self.alloc
    }

    // Texts.

    /// A new text of these units. `TextLong` comes exactly above `MAX_TEXT_UNITS`.
    pub fn text(&mut self, units: &[u16]) -> Result<TextId, Stop> {
        Ok(TextId::numbered(self.texts.text(&mut self.budget, units)?))
    }

    /// A new text whose units are, as numbers, these bytes.
    pub fn text_of_bytes(&mut self, bytes: &[u8]) -> Result<TextId, Stop> {
        Ok(TextId::numbered(self.texts.text_of_bytes(&mut self.budget, bytes)?))
    }

    /// A text that is there from the start.
    #[inline(always)]
    pub fn spelling(&self, spelling: Spelling) -> TextId {
        TextId::numbered(self.spellings.saturating_add(spelling as u32))
    }

    /// The text of one unit.
    #[inline(always)]
    pub fn unit_text(&mut self, unit: u16) -> Result<TextId, Stop> {
        if unit < SINGLE_UNITS {
            return Ok(TextId::numbered(self.singles.saturating_add(u32::from(unit))));
        }
        self.text(&[unit])
    }

    /// How many units a text has.
    #[inline(always)]
    pub fn length(&self, text: TextId) -> Result<u32, Stop> {
        self.texts.length(text.number())
    }

    /// The text of two texts, one behind the other. `TextLong` comes exactly where together they
    /// have more than `MAX_TEXT_UNITS`.
    pub fn join(&mut self, a: TextId, b: TextId) -> Result<TextId, Stop> {
        let joined = self.texts.join(&mut self.budget, a.number(), b.number())?;
        Ok(TextId::numbered(joined))
    }

    /// The text of the units from `from` up to `to`, as far as the text has them. Nothing is copied.
    pub fn slice(&mut self, text: TextId, from: u32, to: u32) -> Result<TextId, Stop> {
        let part = self.texts.slice(&mut self.budget, text.number(), from, to)?;
        Ok(TextId::numbered(part))
    }

    /// The unit at an index, or None behind the text's end.
    #[inline(always)]
    pub fn unit_at(&mut self, text: TextId, index: u32) -> Result<Option<u16>, Stop> {
        self.texts.unit_at(&mut self.budget, text.number(), index)
    }

    /// Writes a text out, so that `units` gives its units.
    pub fn flatten(&mut self, text: TextId) -> Result<(), Stop> {
        self.texts.flatten(&mut self.budget, text.number())
    }

    /// The units of a text that was written out by `flatten`.
    pub fn units(&self, text: TextId) -> Result<&[u16], Stop> {
        self.texts.units(text.number())
    }

    /// Whether two texts have the same units.
    pub fn same_text(&mut self, a: TextId, b: TextId) -> Result<bool, Stop> {
        self.texts.same(&mut self.budget, a.number(), b.number())
    }

    /// Compares two texts unit by unit.
    pub fn compare_texts(&mut self, a: TextId, b: TextId) -> Result<Ordering, Stop> {
        self.texts.compare(&mut self.budget, a.number(), b.number())
    }

    // Words.

    /// The word that a text is.
    #[inline(always)]
    pub fn word_of(&mut self, text: TextId) -> Result<Word, Stop> {
        let word = self.texts.word_of(&mut self.budget, text.number())?;
        Ok(Word::numbered(word))
    }

    /// The word of these units.
    pub fn word(&mut self, units: &[u16]) -> Result<Word, Stop> {
        if let Some(word) = self.texts.word(units) {
            return Ok(Word::numbered(word));
        }
        let text = self.text(units)?;
        self.word_of(text)
    }

    /// A text that is the word.
    #[inline(always)]
    pub fn word_text(&self, word: Word) -> Result<TextId, Stop> {
        Ok(TextId::numbered(self.texts.word_text(word.number())?))
    }

    // Lists.

    /// A new list of these items. `ListLong` comes exactly above `MAX_LIST_ITEMS`.
    pub fn list(&mut self, items: &[Value]) -> Result<ListId, Stop> {
        Ok(ListId::numbered(self.lists.list(&mut self.budget, items)?))
    }

    /// The items of a list.
    #[inline(always)]
    pub fn items(&self, list: ListId) -> Result<&[Value], Stop> {
        self.lists.items(list.number())
    }

    /// A new list of the items from `from` up to `to`, as far as the list has them.
    pub fn part_of(&mut self, list: ListId, from: usize, to: usize) -> Result<ListId, Stop> {
        let part = self
            .lists
            .part_of(&mut self.budget, list.number(), from, to)?;
        Ok(ListId::numbered(part))
    }

    /// Writes the item at an index; at the length one is added. `BadIndex` comes exactly beyond
    /// the length, and `ListLong` exactly at the length of a list that is full.
    #[inline(always)]
    pub fn set_item(&mut self, list: ListId, index: usize, value: Value) -> Result<(), Stop> {
        self.lists
            .set_item(&mut self.budget, list.number(), index, value)
    }

    /// Adds an item at the end. `ListLong` comes exactly where the list is full.
    #[inline(always)]
    pub fn push(&mut self, list: ListId, value: Value) -> Result<(), Stop> {
        self.lists.push(&mut self.budget, list.number(), value)
    }

    /// Takes the last item away, and gives it; undefined where there is none.
    pub fn pop(&mut self, list: ListId) -> Result<Value, Stop> {
        self.lists.pop(&mut self.budget, list.number())
    }

    /// Takes the first item away, and gives it; undefined where there is none.
    pub fn shift(&mut self, list: ListId) -> Result<Value, Stop> {
        self.lists.shift(&mut self.budget, list.number())
    }

    /// Puts values in front of the items. `ListLong` comes exactly where the list would be longer
    /// than `MAX_LIST_ITEMS`.
    pub fn unshift(&mut self, list: ListId, values: &[Value]) -> Result<(), Stop> {
        self.lists.unshift(&mut self.budget, list.number(), values)
    }

    /// Reverses the order of the items.
    pub fn reverse(&mut self, list: ListId) -> Result<(), Stop> {
        self.lists.reverse(&mut self.budget, list.number())
    }

    /// Begins a loop over the items that a list has now. Later writes to the list are not seen by
    /// the loop. Each loop is to be ended.
    pub fn begin_loop(&mut self, list: ListId) -> Result<ListLoop, Stop> {
        self.lists.begin_loop(list.number())
    }

    /// An item of a loop, at an index below its length.
    #[inline(always)]
    pub fn loop_item(&self, turns: ListLoop, index: u32) -> Result<Value, Stop> {
        self.lists.loop_item(turns, index)
    }

    /// Ends a loop.
    pub fn end_loop(&mut self, turns: ListLoop) {
        self.lists.end_loop(&mut self.budget, turns);
    }

    // Objects.

    /// A new object without keys.
    pub fn object(&mut self) -> Result<ObjectId, Stop> {
        Ok(ObjectId::numbered(self.objects.object(&mut self.budget)?))
    }

    /// How many keys an object has.
    pub fn object_length(&self, object: ObjectId) -> Result<usize, Stop> {
        self.objects.length(object.number())
    }

    /// The value of a key; None where the object lacks the key.
    #[inline(always)]
    pub fn field(&self, object: ObjectId, key: Word) -> Result<Option<Value>, Stop> {
        match self.objects.field(object.number(), key.number(), 0)? {
            Some((_, value)) => Ok(Some(value)),
            None => Ok(None),
        }
    }

    /// The value of a key with the key's index. `hint` is an index where the key may be; the answer
    /// does not depend on it.
    #[inline(always)]
    pub fn field_near(
        &self,
        object: ObjectId,
        key: Word,
        hint: u32,
    ) -> Result<Option<(u32, Value)>, Stop> {
        self.objects.field(object.number(), key.number(), hint)
    }

    /// Sets a key's value. A new key goes last, and one that is there keeps its place.
    #[inline(always)]
    pub fn set_field(&mut self, object: ObjectId, key: Word, value: Value) -> Result<(), Stop> {
        self.set_field_near(object, key, 0, value)?;
        Ok(())
    }

    /// Sets a key's value, and tells the key's index. `hint` is an index where the key may be.
    #[inline(always)]
    pub fn set_field_near(
        &mut self,
        object: ObjectId,
        key: Word,
        hint: u32,
        value: Value,
    ) -> Result<u32, Stop> {
        self.objects.set_field(&mut self.budget, object.number(), key.number(), hint, value)
    }

    /// The key at an index in the order of insertion.
    pub fn key(&self, object: ObjectId, index: usize) -> Result<Option<Word>, Stop> {
        match self.objects.entry(object.number(), index)? {
            Some((key, _)) => Ok(Some(Word::numbered(key))),
            None => Ok(None),
        }
    }

    /// The key and its value at an index in the order of insertion.
    pub fn entry(&self, object: ObjectId, index: usize) -> Result<Option<(Word, Value)>, Stop> {
        match self.objects.entry(object.number(), index)? {
            Some((key, value)) => Ok(Some((Word::numbered(key), value))),
            None => Ok(None),
        }
    }

    // Functions and collections.

    /// A new function: the number of its node in the script, and the environment around it.
    pub fn function(&mut self, node: u32, environment: EnvironmentId) -> Result<FunctionId, Stop> {
        let closure = Closure {
            node,
            block: environment.number(),
        };
        let number = add(
            &mut self.budget,
            &mut self.functions,
            closure,
            CLOSURE_BYTES,
        )?;
        Ok(FunctionId::numbered(number))
    }

    /// The node and the environment that a function was made with.
    #[inline(always)]
    pub fn function_of(&self, function: FunctionId) -> Result<(u32, EnvironmentId), Stop> {
        let number = function.number() as usize;
        if number >= self.functions.len() {
            return Err(nothing_named());
        }
        let closure = self.functions[number];
        Ok((closure.node, EnvironmentId::numbered(closure.block)))
    }

    /// How many functions were made.
    #[inline(always)]
    pub fn functions_made(&self) -> usize {
        self.functions.len()
    }

    /// A new collection of paths, which comes from another or from none.
    pub fn collection(
        &mut self,
        paths: Paths,
        from: Option<CollectionId>,
    ) -> Result<CollectionId, Stop> {
        self.budget
            .charge((paths.len() as u64).saturating_mul(PLACE_BYTES))?;
        let number = add(
            &mut self.budget,
            &mut self.collections,
            Collection { paths, from },
            COLLECTION_BYTES,
        )?;
        Ok(CollectionId::numbered(number))
    }

    /// The paths of a collection.
    pub fn paths(&self, collection: CollectionId) -> Result<&Paths, Stop> {
        let number = collection.number() as usize;
        if number >= self.collections.len() {
            return Err(nothing_named());
        }
        Ok(&self.collections[number].paths)
    }

    /// The collection that a collection comes from.
    pub fn comes_from(&self, collection: CollectionId) -> Result<Option<CollectionId>, Stop> {
        let number = collection.number() as usize;
        if number >= self.collections.len() {
            return Err(nothing_named());
        }
        Ok(self.collections[number].from)
    }

    // Environments.

    /// What stands around the outermost environment. It has no names.
    pub fn outermost(&self) -> EnvironmentId
        ensures { result ≡ 0 }
    {
        EnvironmentId::numbered(0)
    }

    /// A new environment inside another, with so many names whose declarations have not run.
    pub fn environment(
        &mut self,
        around: EnvironmentId,
        names: u32,
    ) -> Result<EnvironmentId, Stop> {
        let made = self
            .environments
            .environment(&mut self.budget, around.number(), names)?;
        Ok(EnvironmentId::numbered(made))
    }

    /// A new environment inside the same one, whose names hold what those of this one hold.
    pub fn environment_again(
        &mut self,
        environment: EnvironmentId,
        names: u32,
    ) -> Result<EnvironmentId, Stop> {
        let made = self
            .environments
            .again(&mut self.budget, environment.number(), names)?;
        Ok(EnvironmentId::numbered(made))
    }

    /// The environment around one.
    #[inline(always)]
    pub fn around(&self, environment: EnvironmentId) -> Result<EnvironmentId, Stop> {
        let around = self.environments.around(environment.number())?;
        Ok(EnvironmentId::numbered(around))
    }

    /// Ends an environment that began when so many functions were made. Where none was made since,
    /// nothing names it or a later one, and their names are taken back.
    #[inline(always)]
    pub fn end_environment(&mut self, environment: EnvironmentId, functions: usize) {
        if self.functions.len() == functions {
            self.environments.cut(environment.number());
        }
    }

    /// What a name holds, so many environments outwards. `EarlyName` comes exactly where its
    /// declaration has not run.
    #[inline(always)]
    pub fn cell(
        &self,
        environment: EnvironmentId,
        outwards: u32,
        name: u32,
    ) -> Result<Value, Stop> {
        self.environments.cell(environment.number(), outwards, name)
    }

    /// Runs a name's declaration.
    #[inline(always)]
    pub fn declare(
        &mut self,
        environment: EnvironmentId,
        outwards: u32,
        name: u32,
        value: Value,
    ) -> Result<(), Stop> {
        self.environments
            .declare(environment.number(), outwards, name, value)
    }

    /// Assigns a name. Where its declaration has not run this has no effect.
    #[inline(always)]
    pub fn assign(
        &mut self,
        environment: EnvironmentId,
        outwards: u32,
        name: u32,
        value: Value,
    ) -> Result<(), Stop> {
        self.environments
            .assign(environment.number(), outwards, name, value)
    }
}
