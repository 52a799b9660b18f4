// Spans of tokens; the line and column of a position.
#![tactic(auto)]

ghost use Rattle.std.specs.Prelude.{◌≡◌, ◌++◌, ◌≤◌, length, drop};
ghost use Rattle.lex.specs.Answer.{max_bytes, answered};
ghost use Rattle.positions.specs.Span.{token_span};
ghost use Rattle.positions.specs.Position.{columns_of, onward, max_place, goes_on};
ghost use Rattle.positions.specs.Position.{advanced, place_at};
ghost use Rattle.positions.specs.LineColumns.{falls as falls_in, all_inside, cells_of};
ghost use Rattle.positions.specs.LineColumns.{Fillable, outcome, line_columns};

use lex::{MAX_BYTES, Refusal, Token, Type, as_str_len, well_formed};

#[derive(Clone, Copy)]
pub struct Span {
    pub start: usize,
    pub len: usize,
}

impl Span {
    // The span of a token. A string's starts one byte later.
    #[tactic(auto, unfolding(crate::specs::Span::token_span, crate::specs::Span::span_of))]
    pub fn from_token(script: &[u8], t: Token) -> Result<Span, Refusal>
        ensures { answered result ≡ token_span script.now t }
    {
        if MAX_BYTES < script.len() {
            return Err(Refusal::TooLong);
        }
        if !well_formed(script, t) {
            return Err(Refusal::Malformed);
        }
        let start = if t.kind == Type::S {
            t.start + 1
        } else {
            t.start
        };
        Ok(Span {
            start,
            len: as_str_len(t),
        })
    }
}

#[derive(Clone, Copy)]
pub struct Place {
    pub line: u32,
    pub column: u32,
}

const LINE_FEED: u8 = 10;

// The UTF-8 continuation bytes.
const FIRST_CONTINUATION: u8 = 128;

const LAST_CONTINUATION: u8 = 191;

// The greatest line and the greatest column of a script that is not too long.
const MAX_PLACE: u32 = 65537;

// The columns that a byte takes: none if it is a UTF-8 continuation byte.
#[tactic(auto, unfolding(crate::specs::Position::columns_of, lex::specs::Bytes::between))]
fn columns_of(b: u8) -> u32
    ensures { result ≡ columns_of b }
{
    match b {
        FIRST_CONTINUATION..=LAST_CONTINUATION => 0,
        _ => 1,
    }
}

impl Place {
    // Where a script starts.
    pub const START: Place = Place { line: 1, column: 1 };

    // The place behind some bytes, from the place before them.
    fn after(self, bytes: &[u8]) -> Place
        requires { (1 ≤ self.column)
            × (self.column ≤ max_place)
            × (self.line ≤ max_place)
            × (length bytes.now ≤ max_bytes) }
        ensures { result ≡ onward self bytes.now }
    {
        let mut place = self;
        for b in bytes {
            if *b == LINE_FEED {
                place.line += 1;
                place.column = 1;
            } else {
                place.column += columns_of(*b);
            }
        }
        place
    }
}

// The walk to `to` goes on from `known`, the place of `from`.
#[tactic(auto, unfolding(crate::specs::Position::goes_on))]
fn goes_on(from: u32, known: Place, to: u32) -> bool
    ensures { result ≡ goes_on from known to }
{
    from <= to && (1..=MAX_PLACE).contains(&known.column) && known.line <= MAX_PLACE
}

// The line and column of the position `to`. Where `known` is the place of `from`, only the bytes
// between the two are gone through; where `to` lies before `from`, all before `to`.
#[tactic(auto, using(crate::proofs::Places::onward_start), unfolding(crate::specs::Position::advanced, crate::specs::Position::goes_on))]
pub fn advance(script: &[u8], from: u32, known: Place, to: u32) -> Result<Place, Refusal>
    ensures { answered result ≡ advanced script.now from known to }
{
    if MAX_BYTES < script.len() {
        return Err(Refusal::TooLong);
    }
    let n = to as usize;
    if script.len() < n {
        return Err(Refusal::Outside);
    }
    if goes_on(from, known, to) {
        let start = from as usize;
        return Ok(known.after(&script[start..n]));
    }
    Ok(Place::START.after(&script[..n]))
}

// The line and column of the position `at`, both from 1 on.
pub fn line_column(script: &[u8], at: u32) -> Result<Place, Refusal>
    ensures { answered result ≡ place_at script.now at }
{
    advance(script, 0, Place::START, at)
}

// A position is below the one before it.
fn falls(positions: &[u32]) -> bool
    ensures { result ≡ falls_in positions.now }
{
    !positions.is_sorted()
}

// No position lies past the script's end.
fn all_inside(script: &[u8], positions: &[u32]) -> bool
    ensures { result ≡ all_inside (length script.now) positions.now }
{
    positions.iter().all(|p| *p as usize <= script.len())
}

// The pairs of all positions. Each place is found from the one before it, so that the script is
// gone through once. Pairs are written by index: of parts that `chunks_exact_mut` lends, a proof
// knows no cell afterwards.
fn fill(script: &[u8], positions: &[u32], places: &mut [u32])
    requires { Fillable script.now positions.now places.old }
    ensures { let cells = cells_of script.now positions.now in
        places.new ≡ cells ++ drop (length cells) places.old }
{
    let mut at = 0;
    let mut place = Place::START;
    for (i, p) in positions.iter().enumerate() {
        let to = *p as usize;
        place = place.after(&script[at..to]);
        places[2 * i] = place.line;
        places[2 * i + 1] = place.column;
        at = to;
    }
}

// The lines and columns of positions that never fall: those of position `i` go into cells `2 * i`
// and `2 * i + 1` of `places`. All is tested before anything is written.
#[tactic(auto, unfolding(crate::specs::LineColumns::line_columns))]
pub fn line_columns(script: &[u8], positions: &[u32], places: &mut [u32]) -> Result<(), Refusal>
    ensures { let left = outcome (answered result) places.new in
        let bytes = script.now in
        left ≡ line_columns bytes positions.now places.old }
{
    if MAX_BYTES < script.len() {
        return Err(Refusal::TooLong);
    }
    if places.len() / 2 < positions.len() {
        return Err(Refusal::PlacesTooShort);
    }
    if falls(positions) {
        return Err(Refusal::PositionsFall);
    }
    if !all_inside(script, positions) {
        return Err(Refusal::Outside);
    }
    fill(script, positions, places);
    Ok(())
}
