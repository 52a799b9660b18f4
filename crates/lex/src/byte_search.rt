// Byte-level scans for the lexer.
ghost use Rattle.std.specs.Prelude.{◌≡◌, ℕ, Bool, ◌≤◌, leb, length, get_or};
ghost use Rattle.lex.specs.Bytes.{is_digit, is_ident_cont, is_num_cont, is_plain};
ghost use Rattle.lex.specs.Bytes.{Computes, count_while, before, find_byte};

use crate::class::{Classes, is_digit, is_ident_cont};

// How many bytes in front have the property, tested one by one.
pub(crate) fn count_each<F: Fn(u8) -> bool>(bytes: &[u8], has: F) -> usize
    requires { F.IsAlwaysCallable has }
    ensures within { result ≤ length bytes.now }
    ensures run { (p : ℕ → Bool) → Computes (F.post has) p → result ≡ count_while p bytes.now }
{
    bytes.iter().position(|b| !has(*b)).unwrap_or(bytes.len())
}

// Whether all bytes of a window have the property. The loop has no early exit, so that the compiled
// code compares all of them in one step.
fn all_have<F: Fn(u8) -> bool>(window: &[u8; 16], has: &F) -> bool
    requires { F.IsAlwaysCallable has.now }
    ensures { (p : ℕ → Bool) → Computes (F.post has.now) p
        → result ≡ leb 16 (count_while p window.now) }
{
    let mut all = true;
    for b in window {
        all &= has(*b);
    }
    all
}

// How many bytes in front have the property: by windows of 16 bytes, and one by one where a window
// has another byte.
// No iterator: what is left behind the last whole window is what is read next.
pub(crate) fn count_run<F: Fn(u8) -> bool>(bytes: &[u8], has: F) -> usize
    requires { F.IsAlwaysCallable has }
    ensures within { result ≤ length bytes.now }
    ensures run { (p : ℕ → Bool) → Computes (F.post has) p → result ≡ count_while p bytes.now }
{
    let mut rest = bytes;
    while let Some((window, after)) = rest.split_first_chunk::<16>() {
        if !all_have(window, &has) {
            break;
        }
        rest = after;
    }
    bytes.len() - rest.len() + count_each(rest, has)
}

// The first place of `needle`.
pub(crate) fn find_byte(needle: u8, haystack: &[u8]) -> Option<usize>
    ensures { result ≡ find_byte needle haystack.now }
{
    let i = count_run(haystack, |b| b != needle);
    if i < haystack.len() { Some(i) } else { None }
}

// How many bytes stand before the end of the first line.
pub(crate) fn line_end(haystack: &[u8]) -> usize
    ensures { result ≡ before 10 haystack.now }
{
    count_run(haystack, |b| b != b'\n')
}

// How many bytes in front have the property, which both tests compute. The first 8 are tested one
// by one: most runs end there.
fn count_front<N: Fn(u8) -> bool, F: Fn(u8) -> bool>(bytes: &[u8], near: N, far: F) -> usize
    requires near_callable { N.IsAlwaysCallable near }
    requires far_callable { F.IsAlwaysCallable far }
    ensures within { result ≤ length bytes.now }
    ensures run { (p : ℕ → Bool) → Computes (N.post near) p → Computes (F.post far) p
        → result ≡ count_while p bytes.now }
{
    match bytes.split_first_chunk::<8>() {
        Some((front, rest)) => {
            let n = count_each(front, near);
            if n < 8 { n } else { 8 + count_run(rest, far) }
        }
        None => count_run(bytes, far),
    }
}

// How many bytes in front are digits.
pub(crate) fn skip_digits(classes: &Classes, haystack: &[u8]) -> usize
    ensures { result ≡ count_while is_digit haystack.now }
{
    count_front(haystack, |b| classes.begins_number(b), is_digit)
}

// How many bytes in front can continue a name.
pub(crate) fn skip_ident_cont(classes: &Classes, haystack: &[u8]) -> usize
    ensures { result ≡ count_while is_ident_cont haystack.now }
{
    count_front(haystack, |b| classes.continues_name(b), is_ident_cont)
}

// How many bytes in front are of ASCII and not `needle`.
pub(crate) fn skip_plain(needle: u8, haystack: &[u8]) -> usize
    ensures { result ≡ count_while (is_plain needle) haystack.now }
{
    // With its needle: lent, the compiled code would store it and read it back at each call.
    let is_plain = move |b: u8| (b < 0x80) & (b != needle);
    count_front(haystack, is_plain, is_plain)
}

// How many bytes in front can continue a number.
pub(crate) fn skip_num_cont(classes: &Classes, haystack: &[u8]) -> usize
    ensures { result ≡ count_while is_num_cont haystack.now }
{
    count_each(haystack, |b| classes.continues_number(b))
}

// The byte at a position; 0 past the end, which begins nothing: so each caller makes one test.
pub(crate) fn peek(script: &[u8], at: usize) -> u8
    ensures { result ≡ get_or script.now at 0 }
{
    script.get(at).copied().unwrap_or(0)
}
