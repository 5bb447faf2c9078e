//! The words of sample mode: `--sample N`.

ghost use Rattle.std.specs.Prelude.{◌≡◌, IfSome, map, option_map, string_bytes};
ghost use Rattle.command_words.specs.Requests as spec;

use crate::invocation::Request;
use crate::values::number_to;

/// Whether the words begin as those of sample mode.
#[tactic(auto, using(crate::proofs::SampleWords::is_sample_none, crate::proofs::SampleWords::is_sample_here))]
pub(crate) fn is_sample(words: &[String]) -> bool
    ensures { result ≡ spec.is_sample (map string_bytes words.now) }
{
    if words.is_empty() {
        return false;
    }
    words[0].as_str() == "--sample"
}

// The number of functions.
fn count_in(text: &str) -> Option<u32>
    ensures { result ≡ spec.count_in text.now }
{
    if text.len() > 5 {
        return None;
    }
    match number_to(20_000, text) {
        Some(count) if count <= 20_000 => Some(count as u32),
        _ => None,
    }
}

// The number of functions for which the words ask.
#[tactic(auto, using(crate::proofs::SampleWords::count_of_none, crate::proofs::SampleWords::count_of_here))]
fn count_of(words: &[String]) -> Option<u32>
    ensures { result ≡ spec.count_of (map string_bytes words.now) }
{
    if words.len() != 2 {
        return None;
    }
    count_in(words[1].as_str())
}

/// What the words of sample mode ask for.
#[tactic(auto, using(crate::proofs::SampleWords::count_of_ranges))]
pub(crate) fn sample(words: &[String]) -> Option<Request>
    ensures value { result ≡ option_map Request.Sample (spec.count_of (map string_bytes words.now)) }
    ensures ranges { IfSome result spec.HasRanges }
{
    match count_of(words) {
        Some(count) => Some(Request::Sample { count }),
        None => None,
    }
}
