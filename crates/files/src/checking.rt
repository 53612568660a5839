// The check of a whole file: its count of bytes, its head and its body.
ghost use Rattle.std.specs.Prelude.{◌≡◌};
ghost use Rattle.files.specs.File.{file_read};
ghost use Rattle.fields.specs.Parts.{SmallHeadRead};

use fields::SoundHead;
use fields::header::header;
use file_bytes::four;
use records::lists::body_check;
use refusals::Refusal;

// The whole file: its head and where its arcs begin, or the first refusal.
#[tactic(auto, unfolding(crate::specs::File::file_read))]
pub fn check_file(file: &[u8]) -> Result<SoundHead, Refusal>
    ensures value { result ≡ file_read file.now }
    ensures small { SmallHeadRead file.now result }
{
    if file.len() < 4 || four(file) != file.len() - 4 {
        return Err(Refusal::Bytes { which: 0, place: 0 });
    }
    let sound = header(file)?;
    body_check(file, sound.head, sound.next)?;
    Ok(sound)
}
