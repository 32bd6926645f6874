//! Reads and writes that are tried again if a signal interrupts them.
ghost use Rattle.std.specs.Prelude.{◌≡◌, ◌≢◌, ◌↔◌, IsTrue, IfErr};
ghost use Rattle.std.specs.Io.{ReadsAtMost, WritesAtMost};
ghost use Rattle.std.specs.Io.KnownBytes.{ReadConsumes, WriteAppends};
ghost use Rattle.std.specs.IoError.{error_kind};

use std::io::{Error, ErrorKind, Read, Result, Write};

/// Whether a call failed only because a signal interrupted it, and so moved no byte.
fn is_interruption(error: &Error) -> bool
    ensures { IsTrue result ↔ (error_kind error.now ≡ ErrorKind.Interrupted) }
{
    error.kind() == ErrorKind::Interrupted
}

/// Reads once. A read that a signal interrupts is tried again.
///
/// # Errors
/// The reader's own, or `TimedOut` if 2^64 - 1 reads were interrupted. The reader then still has all that it had.
pub fn read_retrying<R: Read>(reader: &mut R, bytes: &mut [u8]) -> Result<usize>
    ensures bound { ReadsAtMost result bytes.new }
    ensures bytes { ReadConsumes (R.remaining reader.old) (R.remaining reader.new)
        result bytes.new }
    ensures retried { IfErr result (λ e. error_kind e ≢ ErrorKind.Interrupted) }
{
    'trying: for _ in 0..u64::MAX {
        match reader.read(bytes) {
            Ok(count) => return Ok(count),
            Err(error) => {
                if !is_interruption(&error) {
                    return Err(error);
                }
            }
        }
    }
    Err(ErrorKind::TimedOut.into())
}

/// Writes once. A write that a signal interrupts is tried again.
///
/// # Errors
/// The writer's own, or `TimedOut` if 2^64 - 1 writes were interrupted. The writer took nothing.
pub fn write_retrying<W: Write>(writer: &mut W, bytes: &[u8]) -> Result<usize>
    ensures bound { WritesAtMost result bytes.now }
    ensures bytes { WriteAppends (W.contents writer.old) (W.contents writer.new)
        result bytes.now }
    ensures retried { IfErr result (λ e. error_kind e ≢ ErrorKind.Interrupted) }
{
    'trying: for _ in 0..u64::MAX {
        match writer.write(bytes) {
            Ok(count) => return Ok(count),
            Err(error) => {
                if !is_interruption(&error) {
                    return Err(error);
                }
            }
        }
    }
    Err(ErrorKind::TimedOut.into())
}
