// Practice sheets.
ghost use Rattle.practice.specs.Practice as P;
ghost use Rattle.c_api.specs.Texts.{Writes};

use crate::texts::put_length;
use practice::write_sheet;

// The practice sheet of a seed, with what the buffer held behind it. `length` gets its bytes.
#[unsafe(no_mangle)]
pub extern "C" fn purple_garden_practice(
    seed: u32,
    lines: u32,
    out: &mut [u8],
    length: &mut [u64; 1],
) -> u32
    ensures { let sheet = P.promised seed lines out.old in
        Writes sheet result length.old length.new out.new }
{
    let answer = write_sheet(seed, lines, out);
    put_length(length, answer)
}
