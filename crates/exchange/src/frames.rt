// Frames that are read and written: 32-bit words, the lowest byte first, of which the first says how many follow.
ghost use Rattle.std.specs.Prelude.{◌≡◌, ◌≤◌, ◌%◌, length, IfOk};
ghost use Rattle.exchange.specs.declared.frames.TheConstants.{FRAME_BYTES, WORD_BYTES, CHUNK_WORDS};

use inputs::read_full;
use refusals::Told;
use std::io;
use std::io::Read;

const FRAME_BYTES: usize = 65536;

const WORD_BYTES: usize = 4;

// The words of a request that are read at a time.
const CHUNK_WORDS: usize = 8192;

// The response that is the single word 4294967295.
const TOO_LONG: [u8; 8] = [1, 0, 0, 0, 255, 255, 255, 255];

// The lowest byte of a word.
pub fn low_byte(word: u32) -> u8
    ensures { result ≡ word % 256 }
{
    (word & 0xff) as u8
}

// Words from an input, as many as there is room for; false where it ends before.
fn read_words(input: &mut impl Read, words: &mut [u32]) -> io::Result<bool>
    requires { length words.old ≤ CHUNK_WORDS }
{
    let mut bytes = [0; CHUNK_WORDS * WORD_BYTES];
    let size = words.len() * WORD_BYTES;
    if read_full(input, &mut bytes[..size])? < size {
        return Ok(false);
    }
    let (read, _) = bytes[..size].as_chunks();
    for (word, four) in words.iter_mut().zip(read) {
        *word = u32::from_le_bytes(*four);
    }
    Ok(true)
}

// Reads the words of a request behind its first. There are none where there is no request, or no room for it.
pub fn receive<'w>(input: &mut impl Read, words: &'w mut [u32]) -> io::Result<&'w [u32]>
    ensures { IfOk result (λ request. length request.now ≤ length words.old) }
{
    let mut first = [0; WORD_BYTES];
    if read_full(input, &mut first)? < WORD_BYTES {
        return Ok(&[]);
    }
    let count = u32::from_le_bytes(first) as usize;
    if words.len() < count {
        return Ok(&[]);
    }
    // A part at a time, so that what is read and copied is no longer than the request.
    for part in words[..count].chunks_mut(CHUNK_WORDS) {
        if !read_words(input, part)? {
            return Ok(&[]);
        }
    }
    Ok(&words[..count])
}

// Puts words into a frame from a place on, as far as there is room, and gives the place after them.
pub fn put(frame: &mut [u8], start: usize, words: &[u32]) -> usize
    ensures size { length frame.new ≡ length frame.old }
    ensures place { start ≤ length frame.old → (start ≤ result) × (result ≤ length frame.old) }
{
    let mut at = start;
    for word in words {
        if frame.len() < at || frame.len() - at < WORD_BYTES {
            return at;
        }
        frame[at..at + WORD_BYTES].copy_from_slice(&word.to_le_bytes());
        at += WORD_BYTES;
    }
    at
}

// Sends what a frame holds up to a place, its first word put before; nothing where no frame ends there.
pub fn send(rt: &impl Print, frame: &mut [u8], end: usize) -> io::Result<()> {
    if frame.len() < end || end < WORD_BYTES || FRAME_BYTES < end {
        return Ok(());
    }
    let others = (end / WORD_BYTES - 1) as u32;
    frame[..WORD_BYTES].copy_from_slice(&others.to_le_bytes());
    rt.write_all(&frame[..end])
}

// A response that is being written: its bytes so far, whose first word is put when it is sent.
#[derive(Drop)]
pub struct Frame {
    bytes: [u8; FRAME_BYTES],
    end: usize,
    ghost in_room: { (WORD_BYTES ≤ end) × (end ≤ FRAME_BYTES) },
}

impl Frame {
    pub fn new() -> Frame {
        Frame {
            bytes: [0; FRAME_BYTES],
            end: WORD_BYTES,
        }
    }

    // Begins another response in the same room.
    pub fn clear(&mut self)
        ensures { self.new.end ≡ WORD_BYTES }
    {
        self.end = WORD_BYTES;
    }

    // Puts bytes, and zeros up to a whole word, where there is room for them.
    pub fn put_bytes(&mut self, bytes: &[u8]) {
        let end = self.end + bytes.len();
        if FRAME_BYTES < end {
            return;
        }
        self.bytes[self.end..end].copy_from_slice(bytes);
        let whole = end.next_multiple_of(WORD_BYTES);
        self.bytes[end..whole].fill(0);
        self.end = whole;
    }

    // Puts words, as far as there is room.
    pub fn put(&mut self, words: &[u32]) {
        self.end = put(&mut self.bytes, self.end, words);
    }

    // Puts the row that a call tells.
    pub fn put_told(&mut self, told: Told) {
        self.put(&[told.number, told.which, told.place]);
    }

    pub fn send(&mut self, rt: &impl Print) -> io::Result<()> {
        send(rt, &mut self.bytes, self.end)
    }
}

// Sends the response for a buffer that is too long for this program.
pub fn send_too_long(rt: &impl Print) -> io::Result<()> {
    rt.write_all(&TOO_LONG)
}
