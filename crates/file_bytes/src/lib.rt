// Bytes of a file by their offset; of several bytes the first is the largest. A byte past the end counts as 0: whether a field is
// there is a check of its own.
// `ByteOffset` stays a clause: `two` and `limit` are public, and a type with it would ask more of a caller.
#![tactic(auto)]

ghost use Rattle.std.specs.Prelude.{◌≡◌, ◌≤◌, get_or};
ghost use Rattle.file_bytes.specs.Bytes.{two_at, four_at};
ghost use Rattle.file_bytes.specs.Offsets.{ByteOffset};

// The byte at an offset.
pub fn byte(file: &[u8], at: u32) -> u32
    ensures { (result ≡ get_or file.now at 0) × (result ≤ 255) }
{
    match file.get(at as usize) {
        Some(byte) => *byte as u32,
        None => 0,
    }
}

// The number in two bytes.
#[tactic(auto, unfolding(crate::specs::Bytes::two_at))]
pub fn two(file: &[u8], at: u32) -> u32
    requires { ByteOffset at }
    ensures { (result ≡ two_at file.now at) × (result ≤ 65535) }
{
    byte(file, at) * 256 + byte(file, at + 1)
}

// The file's count of the bytes after it.
pub fn four(file: &[u8]) -> usize
    ensures { result ≡ four_at file.now 0 }
{
    two(file, 0) as usize * 65536 + two(file, 2) as usize
}

// The limit of a width or a class.
pub fn limit(file: &[u8], at: u32) -> u16
    requires { ByteOffset at }
    ensures { result ≡ two_at file.now at }
{
    two(file, at) as u16
}
