// The reader: the lengths of the two buffers first, then the file; it writes only what has passed every check.
ghost use Rattle.files.specs.Answers.{ReadSays};

use super::Problem;
use super::checking::check_file;
use contents::writing::write;
use fields::SoundHead;
use refusals::Refusal;

// Reads a problem file: its arcs into the first n x n x 4 words of one buffer, its attachments into the first n x m x 5 of the other.
#[tactic(auto, using(crate::proofs::Bodies::checked_body), unfolding(crate::specs::Answers::sized))]
pub fn read(file: &[u8], arcs: &mut [u32], mapping: &mut [u32]) -> Result<Problem, Refusal>
    ensures { ReadSays file.now arcs.old mapping.old arcs.new mapping.new result }
{
    if arcs.len() < 1024 {
        return Err(Refusal::Length { which: 1, place: 0 });
    }
    if mapping.len() < 2560 {
        return Err(Refusal::Length { which: 3, place: 0 });
    }
    let SoundHead { next, head } = check_file(file)?;
    write(file, head, next, arcs, mapping);
    Ok(Problem {
        n: head.n as u32,
        m: head.m as u32,
        mode: head.mode,
        language: head.language,
    })
}
