// An error of a script in words. docs/WORDS.md has the table.
#![tactic(auto)]

ghost use Rattle.std.specs.Prelude.{◌≡◌, ◌<◌};
ghost use Rattle.text.specs.Answer.{result as result_of, answer_of};
ghost use Rattle.text.specs.Emit.{Writes};
ghost use Rattle.words.specs.Words.{phrase, kind_name, hex_digit, hex, details, line, is_kind};
ghost use Rattle.words.specs.Words.{is_script_error, is_wanted, is_seen, has_words, described};

use lex::{Diagnostic, Refusal, Type};
use text::{Writer, Writing};

// The most bytes of a line, and the fewest of a buffer.
pub const MAX_LINE: usize = 160;

// What the rule is that an error breaks; no text for another number, which `has_words` keeps out.
#[tactic(auto, unfolding(crate::specs::Words::phrase, crate::specs::Words::phrases, text::specs::Text::bytes))]
fn phrase(number: u32) -> &'static str
    ensures { result.now ≡ phrase number }
{
    match number {
        Diagnostic::TOO_DEEP =>
            "more than 128 levels inside one another are not allowed; level 129 would begin at ",
        Diagnostic::EXPECTED_TOKEN => "expected ",
        Diagnostic::EXPECTED_IDENTIFIER => "a name must stand here, not ",
        Diagnostic::DOCS_ATTACHED_TO_NOTHING =>
            "a #! comment describes the let, fn or extern after it, but the script ends after ",
        Diagnostic::DOCS_BEFORE_SOMETHING_ELSE =>
            "a #! comment describes the let, fn or extern after it, but something else \
             comes after ",
        Diagnostic::IMPORT_PATH_NOT_A_STRING => "an import path must be a string, not ",
        Diagnostic::EXTERN_WITHOUT_A_STRING => "extern must be followed by a string, not ",
        Diagnostic::NESTED_EXTERN => "an extern cannot stand inside another extern, but here is ",
        Diagnostic::MATCH_WITHOUT_A_DEFAULT =>
            "a match needs a default, a block without a condition; this match opens with ",
        Diagnostic::EXPECTED_EXPRESSION => "an expression must stand here, not ",
        Diagnostic::EMPTY_FOREIGN => "Foreign< must be followed by a name, not ",
        Diagnostic::EMPTY_OPTION => "Option< must be followed by a type, not ",
        Diagnostic::EMPTY_ARRAY => "Array< must be followed by a type, not ",
        Diagnostic::BAD_TYPE => "a type must stand here, not ",
        Diagnostic::UNTERMINATED_STRING => "this string has no closing quote",
        Diagnostic::INVALID_UTF8 =>
            "this text has bytes that form no character; it must be valid UTF-8",
        Diagnostic::UNKNOWN_CHARACTER =>
            "this character is not part of the language; its byte in hexadecimal is ",
        Diagnostic::INVALID_NUMBER => "a number can have only one dot, and this one has more",
        _ => "",
    }
}

// What a kind of token is called. No text for another number, as at `phrase`.
#[tactic(auto, unfolding(crate::specs::Words::kind_name, crate::specs::Words::kind_names, text::specs::Text::bytes))]
fn kind_name(kind: u32) -> &'static str
    ensures { result.now ≡ kind_name kind }
{
    match kind {
        Type::EOF => "the end of the script",
        Type::BRACE_LEFT => "'('",
        Type::BRACE_RIGHT => "')'",
        Type::PLUS => "'+'",
        Type::MINUS => "'-'",
        Type::ASTERIKS => "'*'",
        Type::SLASH => "'/'",
        Type::PERCENT => "'%'",
        Type::EQUAL => "'='",
        Type::DOUBLE_EQUAL => "'=='",
        Type::LESS_THAN => "'<'",
        Type::GREATER_THAN => "'>'",
        Type::EXCLAIM => "'!'",
        Type::NOT_EQUAL => "'!='",
        Type::QUESTION => "'?'",
        Type::COLON => "':'",
        Type::DOT => "'.'",
        Type::BRAKET_LEFT => "'['",
        Type::BRAKET_RIGHT => "']'",
        Type::CURLY_LEFT => "'{'",
        Type::CURLY_RIGHT => "'}'",
        Type::S => "a string",
        Type::D => "a number with a dot",
        Type::I => "a whole number",
        Type::IDENT => "a name",
        Type::DOC => "a #! comment",
        Type::IMPORT => "the word 'import'",
        Type::EXTERN => "the word 'extern'",
        Type::LET => "the word 'let'",
        Type::FN => "the word 'fn'",
        Type::MATCH => "the word 'match'",
        Type::AS => "the word 'as'",
        Type::TRUE => "the word 'true'",
        Type::FALSE => "the word 'false'",
        Type::STR => "the word 'Str'",
        Type::INT => "the word 'Int'",
        Type::DOUBLE => "the word 'Double'",
        Type::BOOL => "the word 'Bool'",
        Type::VOID => "the word 'Void'",
        Type::OPTION => "the word 'Option'",
        Type::ARRAY => "the word 'Array'",
        Type::FOREIGN => "the word 'Foreign'",
        Type::RECORD => "the word 'Record'",
        _ => "",
    }
}

fn hex_digit(d: u32) -> u8
    requires { d < 16 }
    ensures { result ≡ hex_digit d }
{
    b"0123456789ABCDEF"[d as usize]
}

// Two hexadecimal digits, without `write!` for the reason at `Writer`.
fn write_hex(b: u32, w: &mut Writer)
    ensures { Writes (hex b) w.old w.new }
{
    w.write_byte(hex_digit(b / 16 % 16));
    w.write_byte(hex_digit(b % 16));
}

// What stands behind the phrase.
#[tactic(auto, using(text::proofs::EmitLaws::writes_nothing), unfolding(crate::specs::Words::details))]
fn write_details(e: Diagnostic, w: &mut Writer)
    ensures { Writes (details e.number e.wanted e.seen) w.old w.new }
{
    match e.number {
        Diagnostic::EXPECTED_TOKEN => {
            w.write_text(kind_name(e.wanted).as_bytes());
            w.write_text(b", but found ");
            w.write_text(kind_name(e.seen).as_bytes());
        }
        ..=Diagnostic::BAD_TYPE => w.write_text(kind_name(e.seen).as_bytes()),
        Diagnostic::UNKNOWN_CHARACTER => write_hex(e.seen, w),
        _ => {}
    }
}

fn write_line(e: Diagnostic, w: &mut Writer)
    ensures { Writes (line e) w.old w.new }
{
    w.write_text(phrase(e.number).as_bytes());
    write_details(e, w);
}

#[tactic(auto, unfolding(crate::specs::Words::is_kind))]
fn is_kind(k: u32) -> bool
    ensures { result ≡ is_kind k }
{
    matches!(k, Type::EOF..=Type::RECORD)
}

#[tactic(auto, unfolding(crate::specs::Words::is_script_error))]
fn is_script_error(number: u32) -> bool
    ensures { result ≡ is_script_error number }
{
    matches!(
        number,
        Diagnostic::TOO_DEEP..=Diagnostic::BAD_TYPE
            | Diagnostic::UNTERMINATED_STRING..=Diagnostic::INVALID_NUMBER
    )
}

#[tactic(auto, unfolding(crate::specs::Words::is_wanted))]
fn is_wanted(number: u32, wanted: u32) -> bool
    ensures { result ≡ is_wanted number wanted }
{
    if number == Diagnostic::EXPECTED_TOKEN {
        is_kind(wanted)
    } else {
        wanted == 0
    }
}

#[tactic(auto, unfolding(crate::specs::Words::is_seen))]
fn is_seen(number: u32, seen: u32) -> bool
    ensures { result ≡ is_seen number seen }
{
    match number {
        ..=Diagnostic::BAD_TYPE => is_kind(seen),
        Diagnostic::UNKNOWN_CHARACTER => seen <= 255,
        _ => seen == 0,
    }
}

// Whether an error is one of a script, with the kinds or the byte that such an error has.
#[tactic(auto, unfolding(crate::specs::Words::has_words))]
fn has_words(e: Diagnostic) -> bool
    ensures { result ≡ has_words e }
{
    is_script_error(e.number) && is_wanted(e.number, e.wanted) && is_seen(e.number, e.seen)
}

// The words of an error into the buffer `line`, with what it held behind them. An error that has
// none is refused.
pub fn describe(e: Diagnostic, line: &mut [u8]) -> Writing
    ensures { result_of (answer_of result) line.new ≡ described e line.old }
{
    if line.len() < MAX_LINE {
        return Err(Refusal::LineTooShort);
    }
    if !has_words(e) {
        return Err(Refusal::NoWords);
    }
    let mut w = Writer { out: line, at: 0 };
    write_line(e, &mut w);
    Ok(w.at)
}
