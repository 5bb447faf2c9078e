//! The values of options: numbers, names in a list, and the quote.

ghost use Rattle.std.specs.Prelude.{◌≡◌, ◌++◌, ◌∷◌, ◌≤◌, [], IfOk, IfSome, OnOk, map};
ghost use Rattle.command_words.specs.Values as spec;

use cm_text::Quote;
use sqlite_items::Items;
use std::alloc::{AllocError, Global};
use tree_core::{Name, Names};

fn one_to(most: u64, number: u64) -> Option<u64>
    ensures { result ≡ spec.one_to most number }
{
    if 1 <= number && number <= most {
        Some(number)
    } else {
        None
    }
}

/// The number that `text` writes in decimal digits, where it lies in 1 to `most`.
pub(crate) fn number_to(most: u64, text: &str) -> Option<u64>
    ensures { result ≡ spec.number_to most text.now }
{
    let bytes = text.as_bytes();
    if bytes.is_empty() {
        return None;
    }
    // The number of `parse` may have a sign.
    if bytes[0] == b'+' {
        return None;
    }
    match text.parse::<u64>() {
        Ok(number) => one_to(most, number),
        Err(_) => None,
    }
}

/// The steps that a script may take.
pub(crate) fn fuel_in(text: &str) -> Option<u64>
    ensures { result ≡ spec.fuel_in text.now }
{
    if text.len() <= 13 {
        number_to(1_000_000_000_000, text)
    } else {
        None
    }
}

/// The columns of a tab.
pub(crate) fn tab_width_in(text: &str) -> Option<u8>
    ensures { result ≡ spec.number_to 16 text.now }
{
    match number_to(16, text) {
        Some(width) if width <= 16 => Some(width as u8),
        _ => None,
    }
}

/// The names that commas part, where none is empty.
pub(crate) fn names_in(alloc: Global, text: &str) -> Result<Option<Names>, AllocError>
    ensures { IfOk result (λ names. names ≡ spec.names_in text.now) }
{
    let mut names = Items::new(alloc);
    let mut rest = text;
    'names: while let Some((name, after)) = rest.split_once(',') {
        if name.is_empty() {
            return Ok(None);
        }
        add(alloc, &mut names, name)?;
        rest = after;
    }
    if rest.is_empty() {
        return Ok(None);
    }
    add(alloc, &mut names, rest)?;
    Ok(Some(names))
}

/// A copy of each text.
pub(crate) fn names(alloc: Global, texts: &[&str]) -> Result<Names, AllocError>
    ensures { IfOk result (λ names. names ≡ map (λ t. t.now) texts.now) }
{
    let mut names = Items::new(alloc);
    for text in texts {
        add(alloc, &mut names, text)?;
    }
    Ok(names)
}

pub(crate) fn name(alloc: Global, text: &str) -> Result<Name, AllocError>
    ensures { IfOk result (λ name. name ≡ text.now) }
{
    let text = String::from_str(alloc, text)?;
    Ok(Name::new(text))
}

pub(crate) fn add(alloc: Global, names: &mut Names, text: &str) -> Result<(), AllocError>
    ensures { OnOk result (names.new ≡ names.old ++ text.now ∷ []) }
{
    let name = name(alloc, text)?;
    names.push(name)
}

/// The marks in which strings are to stand.
pub(crate) fn quote_in(text: &str) -> Option<Quote>
    ensures { result ≡ spec.quote_in text.now }
{
    if text == "single" {
        Some(Quote::Single)
    } else if text == "double" {
        Some(Quote::Double)
    } else {
        None
    }
}
