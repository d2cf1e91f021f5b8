// The part of an input that can matter.
ghost use Rattle.std.specs.Prelude.{◌≡◌, take, IfSome, IfOk};
ghost use Rattle.line_format.specs.Writing.{enough};

use crate::text::ENOUGH_BYTES;
use arrayvec::ArrayVec;
use std::io;
use std::io::Read;

/// Reads the first 2,305 bytes of an input, or all if there are fewer. Fails where the input does.
pub fn read_text<R: Read>(input: R) -> io::Result<ArrayVec<u8, ENOUGH_BYTES>>
where
    R: Drop,
    ensures { IfSome (R.remaining input)
        (λ bytes. IfOk result (λ text. text.items ≡ take enough bytes)) }
{
    let mut text = ArrayVec::new();
    // The constant fits 64 bits.
    io::copy(&mut input.take(ENOUGH_BYTES as u64), &mut text)?;
    Ok(text)
}
