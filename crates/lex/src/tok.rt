// Tokens: their kinds, the keyword table and their spellings.
ghost use Rattle.std.specs.Prelude.{◌≡◌, true, false, [], ◌∷◌, ◌<◌, ◌≤◌, length, MatchOption};
ghost use Rattle.lex.specs.Bytes.{between};
ghost use Rattle.lex.specs.Kind.{same_bytes, keywords, name_kind};
ghost use Rattle.lex.specs.Kind.{punctuator_kind, IsKindOf, text_at, kind_name, fixed_spelling};
ghost use Rattle.lex.specs.Kind.{bytes_of, name_of, fixed_text};
ghost use Rattle.lex.specs.Spelling.{spelling_offset, spelling as spelling_of};
ghost use Rattle.lex.specs.Spelling.{well_formed, as_str_length};

use crate::leading_space;

// A token: its kind, where it starts and how long its spelling is. Both are `usize`, as places in a
// slice are: spans of any script fit. A record of tokens' table has them as cells of 32 bits.
#[derive(Clone, Copy)]
pub struct Token {
    pub kind: u32,
    pub start: usize,
    pub len: usize,
}

impl Token {
    // Eof, where the script ends.
    pub fn eof(start: usize) -> Token
        ensures { result ≡ record { kind = 1; start = start; len = 3 } }
    {
        Token {
            kind: Type::EOF,
            start,
            len: 3,
        }
    }
}

// A fault: its number, where its span starts and how long it is, and the byte that is seen; 0 but
// for an unknown character. Who takes a fault writes both numbers: an enum would be turned back.
// The byte stands between start and length: crate `tokens` stores both in a record, and side by
// side the compiled code loads them in one step, which waits for the two steps that wrote them.
#[derive(Clone, Copy)]
pub struct Fault {
    pub number: u32,
    pub start: usize,
    pub seen: u8,
    pub len: usize,
}

// What stands where no blank or comment begins: a token or a fault, its length, and how many bytes
// are taken.
// A fault stands beside how much is taken, as a token does: a Result would need a struct about it.
#[derive(Clone, Copy)]
pub enum Piece {
    Token {
        kind: u32,
        len: usize,
        taken: usize,
    },
    Fault {
        number: u32,
        len: usize,
        seen: u8,
        taken: usize,
    },
}

// What stands at a position after blanks and comments, with the next position; or where the script
// ends.
// Each of the three has a next position; an Option of a Result in a struct with it says no more.
#[derive(Clone, Copy)]
pub enum Step {
    Token { token: Token, next: usize },
    Fault { fault: Fault, next: usize },
    End { at: usize },
}

// A token and the position after it.
#[derive(Clone, Copy)]
pub struct Next {
    pub token: Token,
    pub next: usize,
}

// The kinds of token are numbers, in the order of the Rust enum: cells of lent arrays have them,
// and an enum as a parameter would ask more.
#[derive(Clone, Copy)]
pub struct Type(pub u32);

impl Type {
    pub const EOF: u32 = 1;

    pub const BRACE_LEFT: u32 = 2;

    pub const BRACE_RIGHT: u32 = 3;

    pub const PLUS: u32 = 4;

    pub const MINUS: u32 = 5;

    pub const ASTERIKS: u32 = 6;

    pub const SLASH: u32 = 7;

    pub const PERCENT: u32 = 8;

    pub const EQUAL: u32 = 9;

    pub const DOUBLE_EQUAL: u32 = 10;

    pub const LESS_THAN: u32 = 11;

    pub const GREATER_THAN: u32 = 12;

    pub const EXCLAIM: u32 = 13;

    pub const NOT_EQUAL: u32 = 14;

    pub const QUESTION: u32 = 15;

    pub const COLON: u32 = 16;

    pub const DOT: u32 = 17;

    pub const BRAKET_LEFT: u32 = 18;

    pub const BRAKET_RIGHT: u32 = 19;

    pub const CURLY_LEFT: u32 = 20;

    pub const CURLY_RIGHT: u32 = 21;

    // S, D, I, IDENT and DOC: a string, a double, an integer, a name and a doc, each with a
    // spelling of its own.
    pub const S: u32 = 22;

    pub const D: u32 = 23;

    pub const I: u32 = 24;

    pub const IDENT: u32 = 25;

    pub const DOC: u32 = 26;

    // The keywords.
    pub const IMPORT: u32 = 27;

    pub const EXTERN: u32 = 28;

    pub const LET: u32 = 29;

    pub const FN: u32 = 30;

    pub const MATCH: u32 = 31;

    pub const AS: u32 = 32;

    pub const TRUE: u32 = 33;

    pub const FALSE: u32 = 34;

    // The names of types.
    pub const STR: u32 = 35;

    pub const INT: u32 = 36;

    pub const DOUBLE: u32 = 37;

    pub const BOOL: u32 = 38;

    pub const VOID: u32 = 39;

    pub const OPTION: u32 = 40;

    pub const ARRAY: u32 = 41;

    pub const FOREIGN: u32 = 42;

    pub const RECORD: u32 = 43;

    // The kind of a name: its keyword's, or IDENT.
    // By the first byte: a `match` on whole names compares with each.
    pub fn from_keyword(name: &[u8]) -> u32
        ensures { result ≡ name_kind keywords name.now }
    {
        if name.len() < 2 {
            return Type::IDENT;
        }
        match name[0] {
            b'i' => kind_if(b"import", Type::IMPORT, name),
            b'e' => kind_if(b"extern", Type::EXTERN, name),
            b'l' => kind_if(b"let", Type::LET, name),
            b'f' => {
                if same_bytes(b"fn", name) {
                    return Type::FN;
                }
                kind_if(b"false", Type::FALSE, name)
            }
            b'm' => kind_if(b"match", Type::MATCH, name),
            b'a' => kind_if(b"as", Type::AS, name),
            b't' => kind_if(b"true", Type::TRUE, name),
            b'S' => kind_if(b"Str", Type::STR, name),
            b'I' => kind_if(b"Int", Type::INT, name),
            b'D' => kind_if(b"Double", Type::DOUBLE, name),
            b'B' => kind_if(b"Bool", Type::BOOL, name),
            b'V' => kind_if(b"Void", Type::VOID, name),
            b'O' => kind_if(b"Option", Type::OPTION, name),
            b'A' => kind_if(b"Array", Type::ARRAY, name),
            b'F' => kind_if(b"Foreign", Type::FOREIGN, name),
            b'R' => kind_if(b"Record", Type::RECORD, name),
            _ => Type::IDENT,
        }
    }

    // The kind of a sign of one byte.
    pub(crate) fn from_punctuator(b: u8) -> Option<u32>
        ensures { MatchOption result (punctuator_kind b ≡ 0) (IsKindOf b) }
    {
        match b {
            b'(' => Some(Type::BRACE_LEFT),
            b')' => Some(Type::BRACE_RIGHT),
            b'+' => Some(Type::PLUS),
            b'-' => Some(Type::MINUS),
            b'*' => Some(Type::ASTERIKS),
            b'/' => Some(Type::SLASH),
            b'%' => Some(Type::PERCENT),
            b'=' => Some(Type::EQUAL),
            b'<' => Some(Type::LESS_THAN),
            b'>' => Some(Type::GREATER_THAN),
            b'!' => Some(Type::EXCLAIM),
            b'?' => Some(Type::QUESTION),
            b':' => Some(Type::COLON),
            b'.' => Some(Type::DOT),
            b'[' => Some(Type::BRAKET_LEFT),
            b']' => Some(Type::BRAKET_RIGHT),
            b'{' => Some(Type::CURLY_LEFT),
            b'}' => Some(Type::CURLY_RIGHT),
            _ => None,
        }
    }

    // The name of a kind in the Rust enum; none for a number that is no kind.
    pub fn name(kind: u32) -> Option<&'static str>
        ensures text { bytes_of result ≡ name_of kind }
        ensures by_cases { MatchOption result
            (between 1 43 kind ≡ false)
            (λ n. (between 1 43 kind ≡ true) × (n.now ≡ kind_name kind)) }
    {
        if kind < Type::EOF {
            return None;
        }
        text_at(&KIND_NAMES, kind as usize)
    }

    // The fixed spelling of a kind; none for a kind whose tokens have spellings of their own, and
    // for a number that is no kind.
    pub fn fixed_spelling(kind: u32) -> Option<&'static str>
        ensures text { bytes_of result ≡ fixed_text kind }
        ensures by_cases { MatchOption result
            (length (fixed_spelling kind) ≡ 0)
            (λ t. (0 < length (fixed_spelling kind)) × (t.now ≡ fixed_spelling kind)) }
    {
        match text_at(&SPELLINGS, kind as usize) {
            Some(text) if !text.is_empty() => Some(text),
            _ => None,
        }
    }
}

// The text at a number, where the table has one.
fn text_at(table: &[&'static str], n: usize) -> Option<&'static str>
    ensures { MatchOption result
        (length table.now ≤ n)
        (λ t. (n < length table.now) × (t.now ≡ text_at table.now n)) }
{
    table.get(n).copied()
}

// Two tables, each with a text for 0 and for each kind: the specification has each as one list.

// The name of each kind; 0 is none.
const KIND_NAMES: [&str; 44] = [
    "",
    "Eof",
    "BraceLeft",
    "BraceRight",
    "Plus",
    "Minus",
    "Asteriks",
    "Slash",
    "Percent",
    "Equal",
    "DoubleEqual",
    "LessThan",
    "GreaterThan",
    "Exclaim",
    "NotEqual",
    "Question",
    "Colon",
    "Dot",
    "BraketLeft",
    "BraketRight",
    "CurlyLeft",
    "CurlyRight",
    "S",
    "D",
    "I",
    "Ident",
    "Doc",
    "Import",
    "Extern",
    "Let",
    "Fn",
    "Match",
    "As",
    "True",
    "False",
    "Str",
    "Int",
    "Double",
    "Bool",
    "Void",
    "Option",
    "Array",
    "Foreign",
    "Record",
];

// The fixed spelling of each number from 0 on; empty where there is none.
const SPELLINGS: [&str; 44] = [
    "", "eof", "(", ")", "+", "-", "*", "/", "%", "=", "==", "<", ">", "!", "!=", "?", ":", ".",
    "[", "]", "{", "}", "", "", "", "", "", "import", "extern", "let", "fn", "match", "as", "true",
    "false", "Str", "Int", "Double", "Bool", "Void", "Option", "Array", "Foreign", "Record",
];

// The kind, where the name has the spelling; else IDENT.
fn kind_if(spelling: &[u8], kind: u32, name: &[u8]) -> u32
    ensures { let word = name.now in
        result ≡ name_kind (record { kind = kind; spelling = spelling.now } ∷ []) word }
{
    if same_bytes(spelling, name) {
        kind
    } else {
        Type::IDENT
    }
}

// The two spellings are the same bytes.
pub fn same_bytes(a: &[u8], b: &[u8]) -> bool
    ensures { result ≡ same_bytes a.now b.now }
{
    a == b
}

// How many bytes of a token stand before its spelling, `rest` being what begins with it.
pub fn spelling_offset(kind: u32, rest: &[u8]) -> usize
    ensures { result ≡ spelling_offset kind rest.now }
{
    if kind == Type::S {
        return 1;
    }
    if kind != Type::DOC {
        return 0;
    }
    if rest.len() < 2 {
        return 2;
    }
    leading_space(&rest[2..]) + 2
}

// Where the spelling of any token begins, if its kind has one and it lies within the script.
pub fn spelling(script: &[u8], t: Token) -> Option<usize>
    ensures { result ≡ spelling_of script.now t }
{
    let kind = t.kind;
    let start = t.start;
    if kind < Type::S {
        return None;
    }
    if Type::DOC < kind {
        return None;
    }
    if script.len() < start {
        return None;
    }
    let offset = spelling_offset(kind, &script[start..]);
    let left = script.len() - start;
    if left < offset {
        return None;
    }
    if left - offset < t.len {
        return None;
    }
    Some(start + offset)
}

// The kind is known, and a spelling from the script lies in it. A known kind has one of these, or a
// fixed one.
pub fn well_formed(script: &[u8], t: Token) -> bool
    ensures { result ≡ well_formed script.now t }
{
    spelling(script, t).is_some() || Type::fixed_spelling(t.kind).is_some()
}

// The length of `as_str`: only S, D, I, Ident and Doc have one of their own.
pub fn as_str_len(t: Token) -> usize
    ensures { result ≡ as_str_length t }
{
    let kind = t.kind;
    if Type::S <= kind && kind <= Type::DOC {
        return t.len;
    }
    Type::fixed_spelling(kind).map_or(0, |text| text.len())
}
