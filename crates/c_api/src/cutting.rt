// Cutting a script into tokens.
ghost use Rattle.std.specs.Prelude.{◌≡◌};
ghost use Rattle.tokens.specs.Tables.{promised, is_cut};
ghost use Rattle.c_api.specs.Tables.{cut_numbers};

use crate::cells::{put, table_cells};
use tokens::{cut, is_cut};

// Cuts a script into a table of its tokens and one of its lexer errors, with zeros behind both, and
// their counts into `counts`.
#[unsafe(no_mangle)]
pub extern "C" fn purple_garden_cut(
    script: &[u8],
    tokens: &mut [u32],
    errors: &mut [u32],
    counts: &mut [u32; 2],
) -> u32
    ensures { let due = promised script.now tokens.old errors.old in
        cut_numbers due counts.old
        ≡ record {
          number = result;
          counts = counts.new;
          tokens = tokens.new;
          errors = errors.new;
        } }
{
    put(counts, cut(script, tokens, errors).map(table_cells))
}

// Whether both tables are exactly what cutting this script leaves in them.
#[unsafe(no_mangle)]
pub extern "C" fn purple_garden_is_cut(script: &[u8], tokens: &[u32], errors: &[u32]) -> bool
    ensures { result ≡ is_cut script.now tokens.now errors.now }
{
    is_cut(script, tokens, errors)
}
