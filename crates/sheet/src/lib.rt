// The correction sheet of a paper: each error by line and column, in words.
#![tactic(auto)]

ghost use Rattle.std.specs.Prelude.{◌≡◌, ◌-◌, ◌≤◌, length};
ghost use Rattle.lex.specs.Answer.{max_bytes};
ghost use Rattle.text.specs.Answer.{result as result_of, answer_of};
ghost use Rattle.text.specs.Emit.{Emits, Writes};
ghost use Rattle.text.specs.Text.{number as number_of};
ghost use Rattle.sheet.specs.Sheet.{blanks, right, heading, body};
ghost use Rattle.sheet.specs.Sheet.{entry, entries, printed};
ghost use Rattle.sheet.specs.Count.{sized, counted_of, lines_at, text_in};
ghost use Rattle.sheet.specs.Count.{texts_of, Reached};

use lex::{Diagnostic, MAX_BYTES, Refusal};
use positions::{Place, advance};
use text::{Writer, Writing};
use words::{MAX_LINE, describe};

// The place of the last error's start: the next one's is found from it.
#[derive(Clone, Copy)]
pub(crate) struct Progress {
    pub start: u32,
    pub place: Place,
}

// The places of a line before its words.
const MARGIN: usize = 15;

// The places that the words take in a line.
const PIECE: usize = 57;

// The bytes of a line, with its line feed.
const LINE_BYTES: usize = MARGIN + PIECE + 1;

fn write_blanks(n: usize, w: &mut Writer)
    ensures { Writes (blanks n) w.old w.new }
{
    for _ in 0..n {
        w.write_byte(b' ');
    }
}

// How many blanks stand before a number in five places.
fn blanks_before(n: u32) -> usize
    ensures { result ≡ 5 - length (number_of n) }
{
    4usize.saturating_sub(n.max(1).ilog10() as usize)
}

// A number at the right of five places, by hand for the reason at `Writer`.
fn write_right(n: u32, w: &mut Writer)
    ensures { Writes (right (number_of n)) w.old w.new }
{
    write_blanks(blanks_before(n), w);
    w.write_number(n as usize);
}

// Line, column and number of an error.
fn write_heading(p: Place, number: u32, w: &mut Writer)
    ensures { Writes (heading p number) w.old w.new }
{
    write_right(p.line, w);
    write_blanks(1, w); // so that the column stands in places 7 to 11
    write_right(p.column, w);
    write_blanks(1, w);
    w.write_number(number as usize);
    write_blanks(1, w);
}

// The words in pieces, each but the last followed by a line feed and a margin. `chunks` gives no
// piece of empty words, which take a line of blanks.
fn write_body(words: &[u8], w: &mut Writer)
    ensures { Writes (body words.now) w.old w.new }
{
    let mut rest = words;
    while PIECE < rest.len() {
        let (piece, behind) = rest.split_at(PIECE);
        w.write_text(piece);
        w.write_byte(b'\n');
        write_blanks(MARGIN, w);
        rest = behind;
    }
    w.write_text(rest);
    write_blanks(PIECE - rest.len(), w);
    w.write_byte(b'\n');
}

// The lines of an error at a place; none where it has no words.
fn write_lines(p: Place, e: Diagnostic, w: &mut Writer)
    ensures { Writes (lines_at p e) w.old w.new }
{
    let mut line = [0u8; MAX_LINE];
    if let Ok(n) = describe(e, &mut line) {
        write_heading(p, e.number, w);
        write_body(&line[..n], w);
    }
}

// The lines of one more error; none where it is refused. Its place is found from the last one's.
fn write_entry(script: &[u8], e: Diagnostic, known: Progress, w: &mut Writer) -> Progress
    requires { Reached script.now known }
    ensures writes { Writes (text_in (entry script.now e)) w.old w.new }
    ensures reached { Reached script.now result }
{
    match advance(script, known.start, known.place, e.start) {
        Err(_) => known,
        Ok(place) => {
            write_lines(place, e, w);
            Progress {
                start: e.start,
                place,
            }
        }
    }
}

// How many lines an error takes.
fn count_lines(script: &[u8], e: Diagnostic) -> Result<usize, Refusal>
    requires { length script.now ≤ max_bytes }
    ensures { counted_of result ≡ sized (entry script.now e) }
{
    let mut line = [0u8; MAX_LINE];
    let n = describe(e, &mut line)?;
    if script.len() < e.start as usize {
        return Err(Refusal::Outside);
    }
    Ok(n.div_ceil(PIECE))
}

// How many lines all errors take, or the first refusal.
fn count_all(script: &[u8], errors: &[u32]) -> Result<usize, Refusal>
    requires { length script.now ≤ max_bytes }
    ensures { counted_of result ≡ sized (entries script.now errors.now) }
{
    let mut lines = 0;
    for cells in errors.as_chunks().0 {
        lines += count_lines(script, Diagnostic::from(cells))?;
    }
    Ok(lines)
}

// The lines of all errors.
fn write_all(script: &[u8], errors: &[u32], out: &mut [u8]) -> usize
    ensures { let text = texts_of script.now errors.now in
        Emits text out.old 0 out.new result }
{
    let mut w = Writer { out, at: 0 };
    let mut known = Progress {
        start: 0,
        place: Place::START,
    };
    for cells in errors.as_chunks().0 {
        known = write_entry(script, Diagnostic::from(cells), known, &mut w);
    }
    w.at
}

// The sheet of the errors, five numbers each. They are looked at before anything is written, so
// that the buffer is as it was where the sheet is refused.
pub fn print_sheet(script: &[u8], errors: &[u32], sheet: &mut [u8]) -> Writing
    ensures { let left = result_of (answer_of result) sheet.new in
        left ≡ printed script.now errors.now sheet.old }
{
    if MAX_BYTES < script.len() {
        return Err(Refusal::TooLong);
    }
    let lines = count_all(script, errors)?;
    if sheet.len() / LINE_BYTES < lines {
        return Err(Refusal::SheetTooShort);
    }
    Ok(write_all(script, errors, sheet))
}
