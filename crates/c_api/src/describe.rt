// An error in words.
ghost use Rattle.words.specs.Words.{error_of, described};
ghost use Rattle.c_api.specs.Texts.{Writes};

use crate::texts::put_length;
use words::describe;

// The words of an error of five numbers, with what the buffer held behind them. `length` gets their
// bytes.
#[unsafe(no_mangle)]
pub extern "C" fn purple_garden_describe(
    error: &[u32; 5],
    line: &mut [u8],
    length: &mut [u64; 1],
) -> u32
    ensures { let due = described (error_of error.now) line.old in
        Writes due result length.old length.new line.new }
{
    let answer = describe(error.into(), line);
    put_length(length, answer)
}
