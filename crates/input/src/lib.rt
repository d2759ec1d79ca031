// Reads of a stream as much as there is room for, however few bytes each read gives.
#![tactic(auto)]

ghost use Rattle.std.specs.Prelude.{◌≤◌, ◌<◌, length, take, IfOk};
ghost use Rattle.std.specs.Io.KnownBytes.{Consumes, IsAtEnd};

use std::io::{self, Read};

/// Reads until `buf` is full or the stream ends, and says how many bytes it put at the start of `buf`. After an `Err` some
/// bytes may have been taken.
pub fn read_full<R: Read>(from: &mut R, buf: &mut [u8]) -> io::Result<usize>
    ensures bound { IfOk result (λ n. n ≤ length buf.new) }
    ensures bytes { IfOk result (λ n. Consumes (R.remaining from.old) (R.remaining from.new) (take n buf.new)) }
    ensures end { IfOk result (λ n. n < length buf.new → IsAtEnd (R.remaining from.new)) }
{
    let mut done = 0;
    // A `while`, as in Rust: how many bytes a read gives is not known before.
    while done < buf.len() {
        let n = from.read(&mut buf[done..])?;
        if n == 0 {
            return Ok(done);
        }
        done += n;
    }
    Ok(done)
}

#[cfg(test)]
mod tests {
    use super::*;
    use std::io::ErrorKind;
    use std::test::Fail;

    // Gives its bytes one at a read, and then fails.
    #[derive(Drop)]
    struct Failing<'a>(&'a [u8]);

    impl Read for Failing<'_> {
        fn read(&mut self, buf: &mut [u8]) -> io::Result<usize> {
            let Some((first, rest)) = self.0.split_first() else {
                return Err(io::Error::from(ErrorKind::BrokenPipe));
            };
            if buf.is_empty() {
                return Ok(0);
            }
            buf[0] = *first;
            self.0 = rest;
            Ok(1)
        }
    }

    #[test]
    fn takes_what_a_stream_has(rt: HostRuntime) -> Result<(), Fail> {
        let mut stream: &[u8] = b"abcde";
        let mut buf = [0u8; 3];
        assert_eq!(rt; read_full(&mut stream, &mut buf)?, 3);
        assert_eq!(rt; &buf, b"abc");
        assert_eq!(rt; read_full(&mut stream, &mut buf)?, 2);
        assert_eq!(rt; &buf, b"dec");
        assert_eq!(rt; read_full(&mut stream, &mut buf)?, 0);
        Ok(())
    }

    #[test]
    fn goes_on_after_short_reads_and_hands_an_error_on(rt: HostRuntime) -> Result<(), Fail> {
        let mut stream = Failing(b"abcde");
        let mut buf = [0u8; 4];
        assert_eq!(rt; read_full(&mut stream, &mut buf)?, 4);
        assert_eq!(rt; &buf, b"abcd");
        for _ in 0..2 {
            let failed = read_full(&mut stream, &mut buf);
            assert!(rt; failed.is_err_and(|e| e.kind() == ErrorKind::BrokenPipe));
        }
        Ok(())
    }
}
