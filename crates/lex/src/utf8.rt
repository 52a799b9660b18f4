// Well-formed UTF-8, by RFC 3629, section 4.
ghost use Rattle.std.specs.Prelude.{◌≡◌, true, ◌+◌, ◌<◌, ◌≤◌, length, take, drop};
ghost use Rattle.lex.specs.declared.utf8.Utf8State.TheVariants.{Expecting};
ghost use Rattle.lex.specs.Bytes.{between};
ghost use Rattle.lex.specs.Utf8.{least_second, greatest_second, after_lead};
ghost use Rattle.lex.specs.Utf8.{is_boundary, state_after, utf8};

use crate::byte_search::{count_run, peek};

// Where a reading of bytes stands: between characters, inside one with `more` bytes to come, the
// next of them from `low` to `high`, or behind a byte that no character has there.
#[derive(Clone, Copy)]
pub enum Utf8State {
    Boundary,
    Expecting { more: u8, low: u8, high: u8 },
    Invalid,
}

// The least second byte, by the first.
#[tactic(auto, unfolding(crate::specs::Utf8::least_second))]
fn least_second(b: u8) -> u8
    ensures { result ≡ least_second b }
{
    if b == 0xe0 {
        return 0xa0;
    }
    if b == 0xf0 {
        return 0x90;
    }
    0x80
}

// The greatest second byte, by the first.
#[tactic(auto, unfolding(crate::specs::Utf8::greatest_second))]
fn greatest_second(b: u8) -> u8
    ensures { result ≡ greatest_second b }
{
    if b == 0xed {
        return 0x9f;
    }
    if b == 0xf4 {
        return 0x8f;
    }
    0xbf
}

// The place behind a character's first byte.
#[tactic(auto, unfolding(crate::specs::Utf8::after_lead))]
fn after_lead(b: u8) -> Utf8State
    ensures { result ≡ after_lead b }
{
    if b < 0x80 {
        return Utf8State::Boundary;
    }
    if b < 0xc2 {
        return Utf8State::Invalid;
    }
    if b < 0xe0 {
        return Utf8State::Expecting {
            more: 1,
            low: 0x80,
            high: 0xbf,
        };
    }
    if b < 0xf0 {
        return Utf8State::Expecting {
            more: 2,
            low: least_second(b),
            high: greatest_second(b),
        };
    }
    if b < 0xf5 {
        return Utf8State::Expecting {
            more: 3,
            low: least_second(b),
            high: greatest_second(b),
        };
    }
    Utf8State::Invalid
}

// Whether the byte is from `low` to `high`.
#[tactic(auto, unfolding(crate::specs::Bytes::between))]
fn is_between(low: u8, high: u8, b: u8) -> bool
    ensures { result ≡ between low high b }
{
    (low..=high).contains(&b)
}

// Whether the bytes from `at` on complete a character of which `more` are to come, the first of
// them from `low` to `high`.
fn completes(bytes: &[u8], at: usize, more: u8, low: u8, high: u8) -> bool
    requires { (0 < more) × (more ≤ 3) × (0 < low) }
    ensures result_value { let following = take more (drop at bytes.now) in
        result ≡ is_boundary (state_after (Expecting more low high) following) }
    ensures more_in_bounds { result ≡ true → at + more ≤ length bytes.now }
{
    let b = peek(bytes, at);
    if b < low {
        return false;
    }
    if high < b {
        return false;
    }
    if more == 1 {
        return true;
    }
    if !is_between(0x80, 0xbf, peek(bytes, at + 1)) {
        return false;
    }
    if more == 2 {
        return true;
    }
    is_between(0x80, 0xbf, peek(bytes, at + 2))
}

// The bytes are whole characters: first those of one byte, as long as there is no other, then one
// character a turn, those of two bytes before the others. `str::from_utf8` takes 1.7 times as long
// on those of two bytes, and its contract has characters written anew, not RFC 3629's ranges.
pub fn is_utf8(bytes: &[u8]) -> bool
    ensures { result ≡ utf8 bytes.now }
{
    let mut i = count_run(bytes, |b| b < 0x80);
    while i < bytes.len() {
        let b = bytes[i];
        if is_between(0xc2, 0xdf, b) {
            if !completes(bytes, i + 1, 1, 0x80, 0xbf) {
                return false;
            }
            i += 2;
            continue;
        }
        match after_lead(b) {
            Utf8State::Boundary => i += 1,
            Utf8State::Expecting { more, low, high } => {
                if !completes(bytes, i + 1, more, low, high) {
                    return false;
                }
                i += 1 + more as usize;
            }
            Utf8State::Invalid => return false,
        }
    }
    true
}
