// A language from nine numbers: the count, then kind and limit for each of four places.
ghost use Rattle.std.specs.Prelude.{◌≡◌};
ghost use Rattle.door.specs.Languages.{component_of, language_of};

use super::LANGUAGE_NUMBERS;
use weights::{Component, Language};

// The numbers of the kinds, which are the file's tags.
pub(super) const DIST: u16 = 1;

pub(super) const WIDTH: u16 = 2;

pub(super) const CLASS: u16 = 3;

pub(super) const GAIN: u16 = 4;

// An unknown kind becomes width 0, which every call refuses 4 at its index.
fn component(kind: u16, limit: u16) -> Component
    ensures { result ≡ component_of kind limit }
{
    match kind {
        DIST => Component::Dist,
        WIDTH => Component::Width(limit),
        CLASS => Component::Class(limit),
        GAIN => Component::Gain,
        _ => Component::Width(0),
    }
}

// A slice of another length is a language of no components, which every call refuses 5.
pub fn language(numbers: &[u16]) -> Language
    ensures { result ≡ language_of numbers.now }
{
    if numbers.len() != LANGUAGE_NUMBERS {
        return Language::NONE;
    }
    Language {
        count: numbers[0] as u32,
        first: component(numbers[1], numbers[2]),
        second: component(numbers[3], numbers[4]),
        third: component(numbers[5], numbers[6]),
        fourth: component(numbers[7], numbers[8]),
    }
}
