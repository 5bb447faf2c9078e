//! What is expected at a place.

use js_forms::{Category, Context, Flow, Place};

/// A place: what it takes, the least level of an expression, and what surrounds it.
#[derive(Clone, Copy)]
pub struct Expected {
    pub category: Category,
    pub least: u8,
    pub context: Context,
}

impl Expected {
    /// What this category and level take in the context, where no directive may stand.
    pub fn new(category: Category, least: u8, context: Context) -> Expected {
        Expected {
            category,
            least,
            context: context.with_directives(false),
        }
    }

    /// What the place of a form takes whose function runs so.
    pub fn at(place: Place, flow: Flow, context: Context) -> Expected {
        Expected {
            category: place.category,
            least: place.least,
            context: context.within(place.scope, flow),
        }
    }
}
