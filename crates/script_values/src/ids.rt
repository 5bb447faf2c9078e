//! The numbers of what a heap holds, which contracts see as numbers.

ghost use Rattle.std.specs.Prelude.{◌≡◌};

use std::marker::Model;

/// The number of a text of the heap.
#[derive(Clone, Copy, Debug, PartialEq, Eq)]
pub struct TextId {
    number: u32,
}

impl Model for TextId {
    ghost use Rattle.std.specs.Prelude.{ℕ};

    ghost Value = { ℕ };

    ghost view = { λ n. n.number };

    ghost inverse = { λ n. record { number = n } };
}

impl TextId {
    pub(crate) fn numbered(number: u32) -> TextId
        ensures { result ≡ number }
    {
        TextId { number }
    }

    pub fn number(self) -> u32
        ensures { result ≡ self }
    {
        self.number
    }
}

/// The number of a list of the heap.
#[derive(Clone, Copy, Debug, PartialEq, Eq)]
pub struct ListId {
    number: u32,
}

impl Model for ListId {
    ghost use Rattle.std.specs.Prelude.{ℕ};

    ghost Value = { ℕ };

    ghost view = { λ n. n.number };

    ghost inverse = { λ n. record { number = n } };
}

impl ListId {
    pub(crate) fn numbered(number: u32) -> ListId
        ensures { result ≡ number }
    {
        ListId { number }
    }

    pub fn number(self) -> u32
        ensures { result ≡ self }
    {
        self.number
    }
}

/// The number of a object of the heap.
#[derive(Clone, Copy, Debug, PartialEq, Eq)]
pub struct ObjectId {
    number: u32,
}

impl Model for ObjectId {
    ghost use Rattle.std.specs.Prelude.{ℕ};

    ghost Value = { ℕ };

    ghost view = { λ n. n.number };

    ghost inverse = { λ n. record { number = n } };
}

impl ObjectId {
    pub(crate) fn numbered(number: u32) -> ObjectId
        ensures { result ≡ number }
    {
        ObjectId { number }
    }

    pub fn number(self) -> u32
        ensures { result ≡ self }
    {
        self.number
    }
}

/// The number of a function that a script made.
#[derive(Clone, Copy, Debug, PartialEq, Eq)]
pub struct FunctionId {
    number: u32,
}

impl Model for FunctionId {
    ghost use Rattle.std.specs.Prelude.{ℕ};

    ghost Value = { ℕ };

    ghost view = { λ n. n.number };

    ghost inverse = { λ n. record { number = n } };
}

impl FunctionId {
    pub(crate) fn numbered(number: u32) -> FunctionId
        ensures { result ≡ number }
    {
        FunctionId { number }
    }

    pub fn number(self) -> u32
        ensures { result ≡ self }
    {
        self.number
    }
}

/// The number of a collection of paths.
#[derive(Clone, Copy, Debug, PartialEq, Eq)]
pub struct CollectionId {
    number: u32,
}

impl Model for CollectionId {
    ghost use Rattle.std.specs.Prelude.{ℕ};

    ghost Value = { ℕ };

    ghost view = { λ n. n.number };

    ghost inverse = { λ n. record { number = n } };
}

impl CollectionId {
    pub(crate) fn numbered(number: u32) -> CollectionId
        ensures { result ≡ number }
    {
        CollectionId { number }
    }

    pub fn number(self) -> u32
        ensures { result ≡ self }
    {
        self.number
    }
}

/// The number of a environment of names.
#[derive(Clone, Copy, Debug, PartialEq, Eq)]
pub struct EnvironmentId {
    number: u32,
}

impl Model for EnvironmentId {
    ghost use Rattle.std.specs.Prelude.{ℕ};

    ghost Value = { ℕ };

    ghost view = { λ n. n.number };

    ghost inverse = { λ n. record { number = n } };
}

impl EnvironmentId {
    pub(crate) fn numbered(number: u32) -> EnvironmentId
        ensures { result ≡ number }
    {
        EnvironmentId { number }
    }

    pub fn number(self) -> u32
        ensures { result ≡ self }
    {
        self.number
    }
}

/// The number of a word: equal texts are one word.
#[derive(Clone, Copy, Debug, PartialEq, Eq)]
pub struct Word {
    number: u32,
}

impl Model for Word {
    ghost use Rattle.std.specs.Prelude.{ℕ};

    ghost Value = { ℕ };

    ghost view = { λ n. n.number };

    ghost inverse = { λ n. record { number = n } };
}

impl Word {
    /// The word of that number. The words that a heap is made with have the numbers from 0 on.
    pub fn numbered(number: u32) -> Word
        ensures { result ≡ number }
    {
        Word { number }
    }

    pub fn number(self) -> u32
        ensures { result ≡ self }
    {
        self.number
    }
}
