//! The options in the matches of `clap`, each with its usual value where the words have none.

ghost use Rattle.std.specs.Prelude.{◌≡◌, IfOk, map, option_map};
ghost use Rattle.clap.specs.Words.{all_of, first_of, found_of, rows_of};
ghost use Rattle.command_words.specs.Invocations as spec;

use crate::values::{add, fuel_in, names_in, quote_in, tab_width_in};
use clap::ArgMatches;
use cm_text::{Layout, Quote};
use sqlite_items::Items;
use std::alloc::{AllocError, Global};
use tree_core::Names;

/// The first value of `id`.
pub(crate) fn first<'a>(matches: &ArgMatches<'a>, id: &str) -> Option<&'a str>
    ensures { option_map (λ s. s.now) result ≡ first_of id.now (rows_of (found_of matches.now)) }
{
    matches.get_str(id)
}

/// The values of `id`.
pub(crate) fn all<'b, 'a>(matches: &'b ArgMatches<'a>, id: &str) -> Option<&'b [&'a str]>
    ensures { option_map (λ s. map (λ v. v.now) s.now) result ≡ all_of id.now (rows_of (found_of matches.now)) }
{
    matches.get_raw(id)
}

/// Whether the flag `id` was used.
pub(crate) fn is_set(matches: &ArgMatches, id: &str) -> bool
    ensures { result ≡ spec.is_set id.now (rows_of (found_of matches.now)) }
{
    match first(matches, id) {
        Some(value) => value == "true",
        None => false,
    }
}

pub(crate) fn fuel(matches: &ArgMatches) -> Option<u64>
    ensures { result ≡ spec.fuel_of (rows_of (found_of matches.now)) }
{
    match first(matches, "fuel") {
        Some(text) => fuel_in(text),
        None => Some(10_000_000),
    }
}

pub(crate) fn extensions(alloc: Global, matches: &ArgMatches) -> Result<Option<Names>, AllocError>
    ensures { IfOk result (λ names. names ≡ spec.extensions_of (rows_of (found_of matches.now))) }
{
    match first(matches, "extensions") {
        Some(text) => names_in(alloc, text),
        None => {
            let mut names = Items::new(alloc);
            add(alloc, &mut names, "js")?;
            Ok(Some(names))
        }
    }
}

fn tab_width(matches: &ArgMatches) -> Option<u8>
    ensures { result ≡ spec.tab_width_of (rows_of (found_of matches.now)) }
{
    match first(matches, "tab-width") {
        Some(text) => tab_width_in(text),
        None => Some(4),
    }
}

// The marks that the words ask for, if they do; `None` of a word that names none.
fn quote(matches: &ArgMatches) -> Option<Option<Quote>>
    ensures { result ≡ spec.quote_of (rows_of (found_of matches.now)) }
{
    match first(matches, "quote") {
        Some(text) => Some(Some(quote_in(text)?)),
        None => Some(None),
    }
}

pub(crate) fn layout(matches: &ArgMatches) -> Option<Layout>
    ensures { result ≡ spec.layout_of (rows_of (found_of matches.now)) }
{
    let tab_width = tab_width(matches)?;
    let quote = quote(matches)?;
    Some(Layout {
        tab_width,
        use_tabs: is_set(matches, "use-tabs"),
        quote,
        trailing_comma: is_set(matches, "trailing-comma"),
        tight_braces: is_set(matches, "no-curly-spacing"),
        arrow_parens: is_set(matches, "arrow-parens"),
    })
}
