// A language in the file: one component, or two languages under a product, nested.
// `LanguageBegins` and the bounds stay clauses: `language` is public, and a type with them would ask more of a caller.
ghost use Rattle.std.specs.Prelude.{◌≡◌, ◌<◌, ◌≤◌, length};
ghost use Rattle.weights.specs.Sizes.{places, product_tags};
ghost use Rattle.fields.specs.Nested.{added, with_component, with_tag, width_read, class_read, component_read, language_at};
ghost use Rattle.fields.specs.Parts.{LanguageBegins, Advances};
ghost use Rattle.file_bytes.specs.Offsets.{RecordOffset};

use super::{Found, Taken};
use file_bytes::limit;
use refusals::Refusal;
use weights::{Component, Language, PRODUCT_TAGS};

// The tags of a language in the file.
const DIST_TAG: u8 = 1;

const WIDTH_TAG: u8 = 2;

const CLASS_TAG: u8 = 3;

const GAIN_TAG: u8 = 4;

const PRODUCT_TAG: u8 = 5;

// The language with c after its components.
#[tactic(auto, unfolding(crate::specs::Nested::added))]
fn added(l: Language, c: Component) -> Language
    requires { l.count ≤ places }
    ensures { result ≡ added l c }
{
    let count = l.count + 1;
    match l.count {
        0 => Language {
            count,
            first: c,
            ..l
        },
        1 => Language {
            count,
            second: c,
            ..l
        },
        2 => Language {
            count,
            third: c,
            ..l
        },
        _ => Language {
            count,
            fourth: c,
            ..l
        },
    }
}

// A component more has been found.
fn with_component(f: Found, c: Component) -> Found
    requires { f.language.count ≤ places }
    ensures { result ≡ with_component f c }
{
    Found {
        language: added(f.language, c),
        ..f
    }
}

// A product tag more has been found.
fn with_tag(f: Found) -> Found
    requires { f.tags ≤ product_tags }
    ensures { result ≡ with_tag f }
{
    Found {
        tags: f.tags + 1,
        ..f
    }
}

// A width whose tag is at an offset: its limit is there, and is not 0.
fn width(file: &[u8], at: u32, found: Found) -> Result<Taken, Refusal>
    requires { RecordOffset at × (found.language.count ≤ places) }
    ensures { result ≡ width_read file.now at found }
{
    let place = at + 1;
    if file.len() <= at as usize + 2 {
        return Err(Refusal::Bytes { which: 0, place });
    }
    let w = limit(file, place);
    if w == 0 {
        return Err(Refusal::BadComponent { which: 0, place });
    }
    let found = with_component(found, Component::Width(w));
    Ok(Taken {
        next: at + 3,
        found,
    })
}

// A class whose tag is at an offset: its limit is there.
fn class(file: &[u8], at: u32, found: Found) -> Result<Taken, Refusal>
    requires { RecordOffset at × (found.language.count ≤ places) }
    ensures { result ≡ class_read file.now at found }
{
    let place = at + 1;
    if file.len() <= at as usize + 2 {
        return Err(Refusal::Bytes { which: 0, place });
    }
    let found = with_component(found, Component::Class(limit(file, place)));
    Ok(Taken {
        next: at + 3,
        found,
    })
}

// One component: its tag, and a limit for width and class.
#[tactic(auto, unfolding(crate::specs::Nested::component_read))]
fn component(file: &[u8], at: u32, found: Found) -> Result<Taken, Refusal>
    requires { (at < length file.now) × RecordOffset at × (found.language.count ≤ places) }
    ensures { result ≡ component_read file.now at found }
{
    match file[at as usize] {
        DIST_TAG => Ok(Taken {
            next: at + 1,
            found: with_component(found, Component::Dist),
        }),
        GAIN_TAG => Ok(Taken {
            next: at + 1,
            found: with_component(found, Component::Gain),
        }),
        WIDTH_TAG => width(file, at, found),
        CLASS_TAG => class(file, at, found),
        _ => Err(Refusal::BadComponent {
            which: 0,
            place: at,
        }),
    }
}

// One language at an offset, after what has been found before it: a component, or a product of two languages.
#[tactic(auto, using(crate::proofs::Advancing::read_end, crate::proofs::Advancing::read_fourth, crate::proofs::Advancing::read_component, crate::proofs::Advancing::read_product, crate::proofs::Advancing::component_advances))]
pub fn language(file: &[u8], at: u32, found: Found) -> Result<Taken, Refusal>
    requires { LanguageBegins at found }
    ensures value { result ≡ language_at file.now at found }
    ensures advances { Advances file.now at found result }
{
    let i = at as usize;
    if file.len() <= i {
        return Err(Refusal::Bytes {
            which: 0,
            place: at,
        });
    }
    if file[i] != PRODUCT_TAG {
        return component(file, at, found);
    }
    if PRODUCT_TAGS <= found.tags {
        return Err(Refusal::BadCount {
            which: 0,
            place: at,
        });
    }
    let Taken { next, found } = language(file, at + 1, with_tag(found))?;
    language(file, next, found)
}
