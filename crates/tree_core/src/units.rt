//! Texts of UTF-16 code units. Most texts of a program are short, and short ones are held in place.

ghost use Rattle.std.specs.Prelude.{◌≡◌, [], ◌∷◌, ◌++◌, take, IfOk, OnOk};
ghost use Rattle.std.specs.Str.{bytes_eq};

use std::alloc::{AllocError, Global};
use std::marker::Model;

/// The most code units that are held in place. With so many a text takes 32 bytes.
const SHORT: usize = 14;

// A short text: how many code units it has, and then those. What is behind them says nothing.
#[derive(Debug, Drop)]
struct Short {
    count: u8,
    units: [u16; SHORT],
}

#[derive(Debug, Drop)]
enum Stored {
    InPlace(Short),
    Apart(Vec<u16>),
}

impl Short {
    #[tactic(auto, using(std::proofs::lemmas::List::take_all))]
    fn get(&self) -> &[u16]
        ensures { result.now ≡ take self.now.count self.now.units }
    {
        let count = usize::from(self.count);
        if count < SHORT {
            return &self.units[..count];
        }
        &self.units
    }
}

/// A text of UTF-16 code units.
#[derive(Debug, Drop)]
pub struct Units {
    stored: Stored,
}

impl Model for Units {
    ghost use Rattle.std.specs.Prelude.{List, ℕ};
    ghost use Rattle.tree_core.specs.Stored.{stored_units};

    ghost Value = { List ℕ };

    ghost view = { λ u. stored_units u.stored };
}

impl Units {
    /// The text of these code units.
    pub fn new(units: Vec<u16>) -> Units
        ensures { result ≡ units.items }
    {
        Units {
            stored: Stored::Apart(units),
        }
    }

    /// The text without code units.
    pub fn empty() -> Units
        ensures { result ≡ [] }
    {
        Units {
            stored: Stored::InPlace(Short {
                count: 0,
                units: [0; SHORT],
            }),
        }
    }

    /// The text without code units, with room for so many.
    pub fn with_room(alloc: Global, count: usize) -> Result<Units, AllocError>
        ensures { IfOk result (λ units. units ≡ []) }
    {
        if count <= SHORT {
            return Ok(Units::empty());
        }
        Ok(Units::new(Vec::with_capacity(alloc, count)?))
    }

    /// The text whose code units are, as numbers, these bytes.
    pub fn of_bytes(alloc: Global, bytes: &[u8]) -> Result<Units, AllocError>
        ensures { IfOk result (λ units. units ≡ bytes.now) }
    {
        let mut units = Units::with_room(alloc, bytes.len())?;
        for byte in bytes {
            units.push(alloc, u16::from(*byte))?;
        }
        Ok(units)
    }

    /// An equal text.
    pub fn copied(&self, alloc: Global) -> Result<Units, AllocError>
        ensures { IfOk result (λ copied. copied ≡ self.now) }
    {
        let mut copied = Units::with_room(alloc, self.get().len())?;
        for unit in self.get() {
            copied.push(alloc, *unit)?;
        }
        Ok(copied)
    }

    /// The code units in order.
    pub fn get(&self) -> &[u16]
        ensures { result.now ≡ self.now }
    {
        match &self.stored {
            Stored::InPlace(short) => short.get(),
            Stored::Apart(units) => units,
        }
    }

    /// Writes one code unit more at the end. It takes no memory where there is room.
    pub fn push(&mut self, alloc: Global, unit: u16) -> Result<(), AllocError>
        ensures { OnOk result (self.new ≡ self.old ++ unit ∷ []) }
    {
        match &mut self.stored {
            Stored::InPlace(short) => {
                if usize::from(short.count) < SHORT {
                    short.units[usize::from(short.count)] = unit;
                    short.count += 1;
                    return Ok(());
                }
            }
            Stored::Apart(units) => return Ok(units.push(unit)?),
        }
        self.push_apart(alloc, unit)
    }

    // The same where no code unit more has room in place.
    fn push_apart(&mut self, alloc: Global, unit: u16) -> Result<(), AllocError>
        ensures { OnOk result (self.new ≡ self.old ++ unit ∷ []) }
    {
        let mut units = Vec::with_capacity(alloc, 2 * SHORT)?;
        for unit in self.get() {
            units.push(*unit)?;
        }
        units.push(unit)?;
        self.stored = Stored::Apart(units);
        Ok(())
    }

    /// Whether the code units are, as numbers, these bytes.
    pub fn is(&self, text: &[u8]) -> bool
        ensures { result ≡ bytes_eq self.now text.now }
    {
        are_bytes(self.get(), text)
    }
}

/// Whether the code units are, as numbers, these bytes.
pub fn are_bytes(units: &[u16], text: &[u8]) -> bool
    ensures { result ≡ bytes_eq units.now text.now }
{
    if units.len() != text.len() {
        return false;
    }
    for at in 0..units.len() {
        if units[at] != u16::from(text[at]) {
            return false;
        }
    }
    true
}
