//! The scalars of a node. Most nodes have one or none, which are held in place.

ghost use Rattle.std.specs.Prelude.{◌≡◌, [], ◌∷◌, ◌++◌, length, slice_get, IfOk, OnOk};
ghost use Rattle.std.specs.Option.{option_copied};
ghost use Rattle.tree_core.specs.Tests.{is_text, is_truth, is_null, is_text_at, is_truth_at, is_null_at};

use crate::units::Units;
use sqlite_items::Items;
use std::alloc::{AllocError, Global};
use std::marker::Model;

/// A name, a raw text or another text; a truth; or the absence of a value.
#[derive(Debug, Drop)]
pub enum Scalar {
    Text(Units),
    Truth(bool),
    Null,
}

impl Scalar {
    /// Whether the scalar is the text whose code units are, as numbers, these bytes.
    pub fn is_text(&self, text: &[u8]) -> bool
        ensures { result ≡ is_text text.now self.now }
    {
        match self {
            Scalar::Text(units) => units.is(text),
            Scalar::Truth(_) | Scalar::Null => false,
        }
    }

    /// Whether the scalar is this truth.
    pub fn is_truth(&self, truth: bool) -> bool
        ensures { result ≡ is_truth truth self.now }
    {
        match self {
            Scalar::Truth(found) => *found == truth,
            Scalar::Text(_) | Scalar::Null => false,
        }
    }

    /// Whether the scalar is the absence of a value.
    pub fn is_null(&self) -> bool
        ensures { result ≡ is_null self.now }
    {
        match self {
            Scalar::Null => true,
            Scalar::Text(_) | Scalar::Truth(_) => false,
        }
    }
}

#[derive(Debug, Drop)]
enum Held {
    Nothing,
    One(Scalar),
    Many(Items<Scalar>),
}

/// Scalars in the order of the kind's fields.
#[derive(Debug, Drop)]
pub struct Scalars {
    held: Held,
}

impl Model for Scalars {
    ghost use Rattle.std.specs.Prelude.{List};
    ghost use Rattle.tree_core.specs.declared.scalars.Scalar.{Scalar};
    ghost use Rattle.tree_core.specs.Held.{held_list};

    ghost Value = { List Scalar };

    ghost view = { λ s. held_list s.held };
}

impl Scalars {
    pub fn new() -> Scalars
        ensures { result ≡ [] }
    {
        Scalars {
            held: Held::Nothing,
        }
    }

    /// None yet, with room for so many.
    pub fn with_room(alloc: Global, count: usize) -> Result<Scalars, AllocError>
        ensures { IfOk result (λ scalars. scalars ≡ []) }
    {
        if count < 2 {
            return Ok(Scalars::new());
        }
        Ok(Scalars {
            held: Held::Many(Items::from_vec(Vec::with_capacity(alloc, count)?)),
        })
    }

    /// One scalar alone.
    pub fn one(scalar: Scalar) -> Scalars
        ensures { result ≡ scalar ∷ [] }
    {
        Scalars {
            held: Held::One(scalar),
        }
    }

    pub fn len(&self) -> usize
        ensures { result ≡ length self.now }
    {
        match &self.held {
            Held::Nothing => 0,
            Held::One(_) => 1,
            Held::Many(all) => all.len(),
        }
    }

    pub fn get(&self, at: usize) -> Option<&Scalar>
        ensures { option_copied result ≡ slice_get self.now at }
    {
        match &self.held {
            Held::Nothing => None,
            Held::One(a) => {
                if at == 0 {
                    return Some(a);
                }
                None
            }
            Held::Many(all) => all.get(at),
        }
    }

    /// Whether there is a scalar of this number, and it is the ASCII text.
    pub fn is_text_at(&self, at: usize, text: &str) -> bool
        ensures { result ≡ is_text_at text.now (slice_get self.now at) }
    {
        match self.get(at) {
            Some(scalar) => scalar.is_text(text.as_bytes()),
            None => false,
        }
    }

    /// Whether there is a scalar of this number, and it is this truth.
    pub fn is_truth_at(&self, at: usize, truth: bool) -> bool
        ensures { result ≡ is_truth_at truth (slice_get self.now at) }
    {
        match self.get(at) {
            Some(scalar) => scalar.is_truth(truth),
            None => false,
        }
    }

    /// Whether there is a scalar of this number, and it is the absence of a value.
    pub fn is_null_at(&self, at: usize) -> bool
        ensures { result ≡ is_null_at (slice_get self.now at) }
    {
        match self.get(at) {
            Some(scalar) => scalar.is_null(),
            None => false,
        }
    }

    /// These scalars and one more behind them. The first takes no memory, nor does one for which there
    /// is room.
    pub fn with(self, alloc: Global, scalar: Scalar) -> Result<Scalars, AllocError>
        ensures { OnOk result (result ≡ Ok (self ++ scalar ∷ [])) }
    {
        let held = match self.held {
            Held::Nothing => Held::One(scalar),
            Held::One(a) => {
                let mut all = Items::from_vec(Vec::with_capacity(alloc, 2)?);
                all.push(a)?;
                all.push(scalar)?;
                Held::Many(all)
            }
            Held::Many(mut all) => {
                all.push(scalar)?;
                Held::Many(all)
            }
        };
        Ok(Scalars { held })
    }

    /// These scalars and then the others.
    pub fn append(self, alloc: Global, more: Scalars) -> Result<Scalars, AllocError>
        ensures { OnOk result (result ≡ Ok (self ++ more)) }
    {
        match more.held {
            Held::Nothing => Ok(self),
            Held::One(a) => self.with(alloc, a),
            Held::Many(more) => {
                let mut all = self.into_items(alloc)?;
                all.append(more)?;
                Ok(Scalars {
                    held: Held::Many(all),
                })
            }
        }
    }

    fn into_items(self, alloc: Global) -> Result<Items<Scalar>, AllocError>
        ensures { OnOk result (result ≡ Ok self) }
    {
        let mut all = Items::new(alloc);
        match self.held {
            Held::Nothing => {}
            Held::One(a) => all.push(a)?,
            Held::Many(more) => all = more,
        }
        Ok(all)
    }
}
