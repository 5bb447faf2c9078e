//! Keys: a word, a text, or a number, which counts as its decimal text.

ghost use Rattle.std.specs.Prelude.{◌≡◌};

use crate::host::Host;
use script_values::{Fault, Heap, Stop, TextId, Value, Word};
use tree_core::Units;

/// The most code units of an index that a list, a node list or a text can have.
const MAX_INDEX_LENGTH: u32 = 8;

fn digit(unit: u16) -> Option<i64> {
    if unit < 48 || unit > 57 {
        return None;
    }
    Some(i64::from(unit - 48))
}

// The number of decimal digits without leading zeros; the greatest one where there are too many.
fn magnitude(digits: &[u16]) -> Option<i64> {
    if digits.is_empty() || (digits[0] == 48 && digits.len() > 1) {
        return None;
    }
    let mut number: i64 = 0;
    for unit in digits {
        let digit = digit(*unit)?;
        number = number.saturating_mul(10).saturating_add(digit);
    }
    Some(number)
}

/// The index that a text spells: a decimal number without leading zeros, perhaps with `-`. Numbers
/// out of range are the greatest or the least.
pub fn index_of(units: &[u16]) -> Option<i64> {
    if units.is_empty() {
        return None;
    }
    if units[0] != 45 {
        return magnitude(units);
    }
    match magnitude(&units[1..]) {
        None => None,
        Some(number) => {
            if number == 0 {
                return None;
            }
            Some(number.saturating_neg())
        }
    }
}

// The index that a text of the heap spells.
fn text_index(heap: &mut Heap, text: TextId) -> Result<Option<i64>, Stop> {
    heap.flatten(text)?;
    Ok(index_of(heap.units(text)?))
}

/// The index that a word spells, of those at which something may stand: a longer word is read by
/// its length alone.
pub fn read_index(heap: &mut Heap, word: Word) -> Result<Option<i64>, Stop> {
    let text = heap.word_text(word)?;
    if heap.length(text)? > MAX_INDEX_LENGTH {
        return Ok(None);
    }
    text_index(heap, text)
}

/// The index that a word spells, in range or not.
pub fn written_index(heap: &mut Heap, word: Word) -> Result<Option<i64>, Stop> {
    let text = heap.word_text(word)?;
    text_index(heap, text)
}

/// The word of a number's decimal text.
pub fn number_word(host: &mut Host, number: i64) -> Result<Word, Stop>
    ensures forest { host.new.arena ≡ host.old.arena }
{
    let text = number.to_string(host.alloc)?;
    let units = Units::of_bytes(host.alloc, text.as_bytes())?;
    host.heap.word(units.get())
}

/// A key that is neither a text nor a number.
pub const NO_KEY: Stop = Stop::Fault(Fault::BadOperand);

/// The word of a key.
pub fn key_word(host: &mut Host, key: Value) -> Result<Word, Stop>
    ensures forest { host.new.arena ≡ host.old.arena }
{
    match key {
        Value::Text(text) => host.heap.word_of(text),
        Value::Whole(number) => number_word(host, number),
        _ => Err(NO_KEY),
    }
}
