// Reads as much of an input as a buffer has room for.
#![tactic(auto)]

ghost use Rattle.std.specs.Prelude.{◌≡◌, ◌<◌, ◌≤◌, length, take, IfOk};
ghost use Rattle.std.specs.Io.{ReadsAtMost};
ghost use Rattle.std.specs.Io.KnownBytes.{Consumes, IsAtEnd};

use std::io;
use std::io::Read;

// Reads until the buffer is full or the input ends, and gives how many bytes were read; they stand at the buffer's start.
// After an error the buffer may hold bytes that were read before it.
pub fn read_full<R: Read>(input: &mut R, buffer: &mut [u8]) -> io::Result<usize>
    ensures bound { ReadsAtMost result buffer.new }
    ensures bytes { IfOk result (λ n. Consumes (R.remaining input.old) (R.remaining input.new) (take n buffer.new)) }
    ensures end { IfOk result (λ n. n < length buffer.new → IsAtEnd (R.remaining input.new)) }
{
    // `done` counts the bytes that the reads gave, not the turns.
    let mut done = 0;
    while done < buffer.len() {
        let got = input.read(&mut buffer[done..])?;
        if got == 0 {
            break;
        }
        done += got;
    }
    Ok(done)
}

#[cfg(test)]
mod tests {
    use super::read_full;
    use std::io;
    use std::io::{ErrorKind, Read};
    use std::test::Fail;

    // Gives byte 7 so many times, one to a read, and then ends or, where `fails`, fails; an io::Error can't be copied into it.
    #[derive(Drop)]
    struct Dripping {
        left: usize,
        fails: bool,
    }

    impl Read for Dripping {
        fn read(&mut self, buffer: &mut [u8]) -> io::Result<usize> {
            if self.left == 0 {
                if self.fails {
                    return Err(io::Error::from(ErrorKind::BrokenPipe));
                }
                return Ok(0);
            }
            if buffer.is_empty() {
                return Ok(0);
            }
            buffer[0] = 7;
            self.left -= 1;
            Ok(1)
        }
    }

    #[test]
    fn fills_the_buffer_by_many_reads(rt: HostRuntime) -> Result<(), Fail> {
        let mut input = Dripping {
            left: 9,
            fails: true,
        };
        let mut buffer = [0u8; 4];
        assert_eq!(rt; read_full(&mut input, &mut buffer)?, 4);
        assert_eq!(rt; buffer, [7, 7, 7, 7]);
        assert_eq!(rt; input.left, 5);
        Ok(())
    }

    #[test]
    fn gives_what_there_is_at_the_end(rt: HostRuntime) -> Result<(), Fail> {
        let mut input = Dripping {
            left: 3,
            fails: false,
        };
        let mut buffer = [0u8; 4];
        assert_eq!(rt; read_full(&mut input, &mut buffer)?, 3);
        assert_eq!(rt; buffer, [7, 7, 7, 0]);
        Ok(())
    }

    #[test]
    fn hands_on_an_error_in_mid_stream(rt: HostRuntime) {
        let mut input = Dripping {
            left: 3,
            fails: true,
        };
        let mut buffer = [0u8; 4];
        let answer = read_full(&mut input, &mut buffer);
        assert!(rt; answer.is_err());
    }
}
