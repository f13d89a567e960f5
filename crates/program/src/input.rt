// Reading the input in pieces.
ghost use Rattle.std.specs.Prelude.{◌<◌, ◌≤◌, length, take, IfOk};
ghost use Rattle.std.specs.Io.KnownBytes.{Consumes, IsAtEnd};

use std::io;
use std::io::Read;

// Reads until the piece is full or the input ends. Returns how many bytes it read, to the start of the piece.
pub fn fill<R: Read>(input: &mut R, piece: &mut [u8]) -> io::Result<usize>
    ensures within { IfOk result (λ k. k ≤ length piece.new) }
    ensures bytes { IfOk result (λ k. Consumes (R.remaining input.old) (R.remaining input.new) (take k piece.new)) }
    ensures end { IfOk result (λ k. k < length piece.new → IsAtEnd (R.remaining input.new)) }
{
    let mut done = 0;
    // no `for`, since a read gives as many bytes as it likes
    while done < piece.len() {
        let got = input.read(&mut piece[done..])?;
        if got == 0 {
            return Ok(done);
        }
        done += got;
    }
    Ok(done)
}
