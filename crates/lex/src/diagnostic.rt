// Diagnostics: document 01's five numbers for an error of the script. Refusals: the papers'
// numbers.
ghost use Rattle.std.specs.Prelude.{◌≡◌};
ghost use Rattle.lex.specs.Cells.{diagnostic_cells, diagnostic_at};
ghost use Rattle.lex.specs.Refusals.{number};

// An error: its number, where its span starts and how long it is, the wanted kind (0 but for 11)
// and the seen kind (for 33 the byte). The numbers stay numbers: cells of lent arrays have them,
// and an enum as a parameter would ask more.
#[derive(Clone, Copy, Default, PartialEq, Eq)]
pub struct Diagnostic {
    pub number: u32,
    pub start: u32,
    pub len: u32,
    pub wanted: u32,
    pub seen: u32,
}

impl Diagnostic {
    // The errors of the rules.
    pub const TOO_DEEP: u32 = 10;

    pub const EXPECTED_TOKEN: u32 = 11;

    pub const EXPECTED_IDENTIFIER: u32 = 12;

    pub const DOCS_ATTACHED_TO_NOTHING: u32 = 13;

    pub const DOCS_BEFORE_SOMETHING_ELSE: u32 = 14;

    pub const IMPORT_PATH_NOT_A_STRING: u32 = 15;

    pub const EXTERN_WITHOUT_A_STRING: u32 = 16;

    pub const NESTED_EXTERN: u32 = 17;

    pub const MATCH_WITHOUT_A_DEFAULT: u32 = 18;

    pub const EXPECTED_EXPRESSION: u32 = 19;

    pub const EMPTY_FOREIGN: u32 = 20;

    pub const EMPTY_OPTION: u32 = 21;

    pub const EMPTY_ARRAY: u32 = 22;

    pub const BAD_TYPE: u32 = 23;

    // The faults of the lexer.
    pub const UNTERMINATED_STRING: u32 = 31;

    pub const INVALID_UTF8: u32 = 32;

    pub const UNKNOWN_CHARACTER: u32 = 33;

    pub const INVALID_NUMBER: u32 = 34;
}

// Five cells hold it, in this order.
impl From<Diagnostic> for [u32; 5] {
    ghost from_gives = { λ error cells. cells ≡ diagnostic_cells error };

    #[tactic(auto, unfolding(crate::specs::Cells::diagnostic_cells))]
    fn from(error: Diagnostic) -> [u32; 5]
        ensures { result ≡ diagnostic_cells error }
    {
        [
            error.number,
            error.start,
            error.len,
            error.wanted,
            error.seen,
        ]
    }
}

impl From<&[u32; 5]> for Diagnostic {
    ghost from_gives = { λ cells error. error ≡ diagnostic_at cells.now 0 };

    fn from(cells: &[u32; 5]) -> Diagnostic
        ensures { result ≡ diagnostic_at cells.now 0 }
    {
        let [number, start, len, wanted, seen] = *cells;
        Diagnostic {
            number,
            start,
            len,
            wanted,
            seen,
        }
    }
}

// Why a call is refused. Nothing that is lent changes then.
#[derive(Clone, Copy, Debug, PartialEq, Eq)]
pub enum Refusal {
    TooLong = 1, // the script is over 65,536 bytes
    TooShort = 2, // an array is shorter than its least length
    Outside = 3, // what is asked about lies outside
    Malformed = 4, // something visited is malformed
    LineTooShort = 41, // the buffer for an error in words is too short
    NoWords = 42, // the numbers are no error of a script
    NotCut = 43, // the tables are not those that cutting the script gives
    SheetTooShort = 44, // the buffer for a correction sheet is too short
    TooManyLines = 47, // a practice sheet has at most 16 lines
    PracticeTooShort = 48, // the buffer for a practice sheet is too short
    PositionsFall = 49, // a position is below the one before it
    PlacesTooShort = 50, // the list for lines and columns is too short
}

// The papers' number of a refusal.
impl From<Refusal> for u32 {
    ghost from_gives = { λ refusal n. n ≡ number refusal };

    fn from(refusal: Refusal) -> u32
        ensures { result ≡ number refusal }
    {
        refusal as u32
    }
}
