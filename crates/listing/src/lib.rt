// The listing of a reading, written into a lent buffer.
#![tactic(auto)]

mod emit;
mod forms;
mod lines;
mod records;

ghost use Rattle.std.specs.Prelude.{◌≡◌, ◌≤◌, length, IfOk};
ghost use Rattle.text.specs.Answer.{Result as Left};
ghost use Rattle.listing.specs.Listing.{held, within, as_parsed, text_of, into_buffer, Measures};
ghost use Rattle.listing.specs.Listing.{listing_answer};

use crate::emit::Malformed;
use crate::lines::write_answer;
use ast::{Counts, DIAGNOSTIC_WIDTH, Node, ReadError, TypeExpr};
use lex::Diagnostic;
use text::{LAST, Writer};

// The arrays that a reading fills. No `ast::Tree`: a listing takes no script, has the diagnostics,
// and is also made of an answer without counts.
#[derive(Clone, Copy)]
pub struct Arrays<'a> {
    pub nodes: &'a [u32],
    pub types: &'a [u32],
    pub lists: &'a [u32],
    pub roots: &'a [u32],
    pub diagnostics: &'a [u32],
}

impl Arrays<'_> {
    // Whether they have what the counts say.
    #[tactic(auto, unfolding(crate::specs::Listing::within))]
    fn holds(&self, c: Counts) -> bool
        ensures { result ≡ within c (held self.now) }
    {
        Node::WIDTH * c.nodes as usize <= self.nodes.len()
            && TypeExpr::WIDTH * c.types as usize <= self.types.len()
            && c.cells as usize <= self.lists.len()
            && c.roots as usize <= self.roots.len()
            && DIAGNOSTIC_WIDTH * c.diagnostics as usize <= self.diagnostics.len()
    }
}

// Why there is no tree, as it is listed: a refusal by its number, or an error of the script. Unlike
// in `ast::ReadError` the number may be any, since who lists an answer may have it from a caller:
// no enum holds each of them.
#[derive(Clone, Copy)]
pub enum Failure {
    Refused(u32),
    Script(Diagnostic),
}

impl From<ReadError> for Failure {
    ghost use Rattle.listing.specs.Listing.{failure_of};

    ghost from_gives = { λ error failure. failure ≡ failure_of error };

    fn from(error: ReadError) -> Failure
        ensures { result ≡ failure_of error }
    {
        match error {
            ReadError::Refused(refusal) => Failure::Refused(refusal.into()),
            ReadError::Script(e) => Failure::Script(e),
        }
    }
}

// Why nothing is listed: the buffer is too short, or the arrays hold no tree. The buffer is
// unchanged then.
#[derive(Clone, Copy, Debug, PartialEq, Eq)]
pub enum ListingError {
    Short,
    Malformed,
}

impl From<Malformed> for ListingError {
    ghost use Rattle.listing.specs.declared.ListingError.{ListingError};

    ghost from_gives = { λ malformed error. error ≡ ListingError.Malformed };

    fn from(_malformed: Malformed) -> ListingError
        ensures { result ≡ ListingError.Malformed }
    {
        ListingError::Malformed
    }
}

// How many bytes the text of an answer has: counted on a buffer that has no room.
fn text_length(answer: Result<Counts, Failure>, arrays: &Arrays) -> Result<usize, Malformed>
    ensures { Measures (text_of (as_parsed answer) (held arrays.now)) result }
{
    let mut w = Writer {
        out: &mut [],
        at: 0,
    };
    write_answer(answer, arrays, &mut w)?;
    if w.at == LAST {
        return Err(Malformed);
    }
    Ok(w.at)
}

// How many bytes were written. They are counted first, so that a buffer that is too short stays as
// it is.
pub fn write_listing(
    answer: Result<Counts, Failure>,
    arrays: &Arrays,
    out: &mut [u8],
) -> Result<usize, ListingError>
    ensures listed { let left : Left =
        record { answer = listing_answer result; buffer = out.new } in
        left ≡ into_buffer (text_of (as_parsed answer) (held arrays.now)) out.old }
    ensures inside { IfOk result (λ n. n ≤ length out.new) }
{
    let length = text_length(answer, arrays)?;
    if out.len() < length {
        return Err(ListingError::Short);
    }
    let mut w = Writer { out, at: 0 };
    write_answer(answer, arrays, &mut w)?;
    Ok(length)
}
