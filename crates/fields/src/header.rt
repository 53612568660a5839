// The header: version, n, m, mode and the language, each checked before the next.
ghost use Rattle.std.specs.Prelude.{◌≡◌};
ghost use Rattle.fields.specs.Nested.{nothing};
ghost use Rattle.fields.specs.Header.{field_check, mode_field_check, fields_check, head_read};
ghost use Rattle.fields.specs.Parts.{SmallHeadRead};

use super::languages::language;
use super::{Found, Head, SoundHead, Taken};
use file_bytes::byte;
use refusals::Refusal;
use weights::Language;

// A field of one byte: it is there, and lies in lo..hi.
#[tactic(auto, unfolding(crate::specs::Header::field_check))]
fn field_check(file: &[u8], at: u32, r: Refusal, lo: u8, hi: u8) -> Result<(), Refusal>
    ensures { result ≡ field_check file.now at r lo hi }
{
    let i = at as usize;
    if file.len() <= i {
        return Err(Refusal::Bytes {
            which: 0,
            place: at,
        });
    }
    if file[i] < lo || hi < file[i] {
        return Err(r);
    }
    Ok(())
}

// The mode, which is 0 exactly when m is 0.
fn mode_field_check(file: &[u8]) -> Result<(), Refusal>
    ensures { result ≡ mode_field_check file.now }
{
    let wrong = Refusal::Size { which: 0, place: 7 };
    if byte(file, 6) == 0 {
        field_check(file, 7, wrong, 0, 0)
    } else {
        field_check(file, 7, wrong, 1, 3)
    }
}

// Version, n, m and mode, each where those before it pass.
#[tactic(auto, unfolding(crate::specs::Header::fields_check))]
fn fields_check(file: &[u8]) -> Result<(), Refusal>
    ensures { result ≡ fields_check file.now }
{
    field_check(file, 4, Refusal::Version { which: 0, place: 4 }, 1, 1)?;
    field_check(file, 5, Refusal::Size { which: 0, place: 5 }, 1, 16)?;
    field_check(file, 6, Refusal::Size { which: 0, place: 6 }, 0, 32)?;
    mode_field_check(file)
}

// Nothing of a language has been read.
fn nothing() -> Found
    ensures { result ≡ nothing }
{
    Found {
        tags: 0,
        language: Language::NONE,
    }
}

// Version, n, m, mode and the language; not the count of bytes before them.
#[tactic(auto, using(crate::proofs::Passing::fields_small), unfolding(crate::specs::Header::head_read))]
pub fn header(file: &[u8]) -> Result<SoundHead, Refusal>
    ensures value { result ≡ head_read file.now }
    ensures small { SmallHeadRead file.now result }
{
    fields_check(file)?;
    let Taken { next, found } = language(file, 8, nothing())?;
    let head = Head {
        n: byte(file, 5) as usize,
        m: byte(file, 6) as usize,
        mode: byte(file, 7),
        language: found.language,
    };
    Ok(SoundHead { next, head })
}
