// The printed text of a problem file.
use super::filed::to_bytes;
use exchange::frames::Frame;
use exchange::requests::{Request, Unanswered};
use printing::text::print_text;
use refusals::Told;

// A text of more bytes does not fit a response.
const TEXT_ROOM: usize = 60000;

// Call 10: buffer file (a byte in each word); how many bytes the text has, and these, four to a word.
pub fn print_call(request: &Request<'_>, response: &mut Frame) -> Result<(), Unanswered> {
    let mut bytes = [0; 65536];
    let file = to_bytes(request.buffers(1)?.first, &mut bytes)?;
    let mut text = [0; 65536];
    let size = print_text(file, &mut text);
    if TEXT_ROOM < size {
        return Err(Unanswered::TooLong);
    }
    response.put_told(Told::DONE);
    response.put(&[size as u32]);
    response.put_bytes(&text[..size]);
    Ok(())
}
