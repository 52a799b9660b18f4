// The correction sheet of a paper's errors.
ghost use Rattle.sheet.specs.Sheet.{printed};
ghost use Rattle.c_api.specs.Texts.{Writes};

use crate::texts::put_length;
use sheet::print_sheet;

// The sheet of the errors, five numbers each, into `sheet`; `length` gets its bytes.
#[unsafe(no_mangle)]
pub extern "C" fn purple_garden_sheet(
    script: &[u8],
    errors: &[u32],
    sheet: &mut [u8],
    length: &mut [u64; 1],
) -> u32
    ensures { let due = printed script.now errors.now sheet.old in
        Writes due result length.old length.new sheet.new }
{
    let answer = print_sheet(script, errors, sheet);
    put_length(length, answer)
}
