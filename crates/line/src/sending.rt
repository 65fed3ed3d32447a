//! What any line does for the code above it.
ghost use Rattle.std.specs.Prelude.{◌≡◌, length};
ghost use Rattle.line.specs.Sending.{send_answer, send_after, trip_of, Travelled};

use crate::line::Line;
use refusal::Refusal;

/// Empties the line, and makes these bytes its reply that waits.
pub fn send<L: Line>(line: &mut L, bytes: &[u8]) -> Result<(), Refusal>
    ensures answer { result ≡ send_answer bytes.now }
    ensures after { L.meaning line.new ≡ send_after bytes.now }
{
    line.open();
    for byte in bytes {
        line.put(*byte)?;
    }
    line.close();
    Ok(())
}

/// Sends the bytes, collects their wire bytes into `buffer`, and has the far end read them into `out`.
/// What was sent, collected and checked is what was put.
pub fn round_trip<L: Line>(
    line: &mut L,
    bytes: &[u8],
    buffer: &mut [u8],
    out: &mut [u8],
) -> Result<usize, Refusal>
    ensures { Travelled bytes.now (L.wire bytes.now) (trip_of bytes.now (L.wire bytes.now) (length buffer.old) (length out.old)) result (L.meaning line.new) buffer.old buffer.new out.old out.new }
{
    send(line, bytes)?;
    let n = line.collect(buffer)?;
    L::check(&buffer[0..n], out)
}
