// The diagnostics array of collecting mode: errors and the lexer's faults are pushed in the order
// in which they are met.
#![tactic(auto)]

ghost use Rattle.std.specs.Prelude.{◌≡◌, ◌+◌, length};
ghost use mathlib.Core.List.{foldl};
ghost use Rattle.tokens.specs.Table.{errors_from};
ghost use Rattle.diagnostics.specs.Records.{diagnostics as diagnostics_of, pushed};
ghost use Rattle.diagnostics.specs.Faults.{diagnostics_in, early, late};

use ast::DIAGNOSTIC_WIDTH;
use lex::Diagnostic;
use tokens::{ERROR_WIDTH, error_at};

// Writes record `n` and answers how many there are then. Nothing changes where it has no room.
// The array and its count stay apart: C lends the one and reads the other among six numbers, and
// the parser has the count in the struct of what it gathers.
#[tactic(auto, unfolding(crate::specs::Records::pushed))]
pub fn push_diagnostic(diagnostics: &mut [u32], n: u32, d: Diagnostic) -> u32
    ensures { let before = diagnostics_of diagnostics.old n in
        diagnostics_of diagnostics.new result ≡ pushed before d }
{
    let at = DIAGNOSTIC_WIDTH * n as usize;
    if n == u32::MAX || diagnostics.len() < at + DIAGNOSTIC_WIDTH {
        return n;
    }
    let cells: [u32; DIAGNOSTIC_WIDTH] = d.into();
    diagnostics[at..at + DIAGNOSTIC_WIDTH].copy_from_slice(&cells);
    n + 1
}

// How many diagnostics there are, and how many records of the error table are among them.
#[derive(Clone, Copy, Default)]
pub struct Listed {
    pub diagnostics: u32,
    pub errors: usize,
}

// The faults from record `from` of the error table on that are met before the token of record `at`.
// `errors` of the answer is the record behind these: `from` itself where there are none, also past
// the table.
// The count and the place stay parameters: both tables are lent by the caller apart.
pub fn push_faults(errors: &[u32], diagnostics: &mut [u32], n: u32, from: usize, at: u32) -> Listed
    ensures { let before = diagnostics_of diagnostics.old n in
        let after = diagnostics_of diagnostics.new result.diagnostics in
        let faults = errors_from errors.now from in
        (after ≡ foldl pushed before (diagnostics_in (early at faults)))
        × (errors_from errors.now result.errors ≡ late at faults)
        × (result.errors ≡ from + length (early at faults)) }
{
    let mut count = n;
    let records = errors.len() / ERROR_WIDTH;
    for i in from..records {
        let e = error_at(errors, i);
        if e.error.number == 0 || at < e.after {
            return Listed {
                diagnostics: count,
                errors: i,
            };
        }
        count = push_diagnostic(diagnostics, count, e.error);
    }
    Listed {
        diagnostics: count,
        errors: records.max(from),
    }
}
