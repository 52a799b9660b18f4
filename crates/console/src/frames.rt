// Numbers and framed bytes on standard input. A number is in decimal and ends at a blank or a line
// feed; a frame is its length as a number, its bytes, and a line feed. Functions that print promise
// nothing of the text: no contract can speak of what standard output takes.
ghost use Rattle.std.specs.Prelude.{◌≡◌, ◌≤◌, length, IfOk, MatchResult, Some, Ok};
ghost use Rattle.std.specs.Option.{IfSome};
ghost use Rattle.console.specs.Frame.{IsPrefixLen, Within, Inside};

use std::io;
use std::io::{ErrorKind, Read};

// Why a number or a frame was not read: the input failed, or something else stands there.
#[derive(Debug, Drop)]
pub enum ReadError {
    Io(io::Error),
    Malformed,
}

impl From<io::Error> for ReadError {
    ghost use Rattle.console.specs.declared.frames.ReadError.{ReadError};

    ghost from_gives = { λ error read_error. read_error ≡ ReadError.Io error };

    fn from(error: io::Error) -> ReadError
        ensures { result ≡ ReadError.Io error }
    {
        ReadError::Io(error)
    }
}

// Twenty digits are enough for any limit.
const MAX_DIGITS: usize = 20;

// Reads until `buf` is full or nothing is left, and answers how many bytes it put at the start of
// `buf`. A read that a signal interrupts is made again.
pub fn read_full(input: &mut impl Read, buf: &mut [u8]) -> io::Result<usize>
    ensures { IfOk result (λ n. IsPrefixLen n buf.new) }
{
    let mut done = 0;
    // Counted: nothing says that a reader is not interrupted for ever.
    for _ in 0..u64::MAX {
        if done == buf.len() {
            break;
        }
        match input.read(&mut buf[done..]) {
            Ok(0) => break,
            Ok(n) => done += n,
            Err(e) => {
                if e.kind() != ErrorKind::Interrupted {
                    return Err(e);
                }
            }
        }
    }
    Ok(done)
}

// The next byte; None where nothing is left.
fn read_byte(input: &mut impl Read) -> io::Result<Option<u8>> {
    let mut b = [0u8; 1];
    let n = read_full(input, &mut b)?;
    Ok(if n == 1 { Some(b[0]) } else { None })
}

// The next number, at most `limit`; a larger one is malformed. None where nothing is left.
pub fn read_number(input: &mut impl Read, limit: usize) -> Result<Option<usize>, ReadError>
    ensures { IfOk result (Within limit) }
{
    let mut value: usize = 0;
    for digits in 0..=MAX_DIGITS {
        match read_byte(input)? {
            Some(b @ b'0'..=b'9') => {
                let Some(tens) = value.checked_mul(10) else {
                    return Err(ReadError::Malformed);
                };
                match tens.checked_add((b - b'0') as usize) {
                    Some(next) if next <= limit => value = next,
                    _ => return Err(ReadError::Malformed),
                }
            }
            Some(b' ' | b'\n') if 0 < digits => return Ok(Some(value)),
            None if digits == 0 => return Ok(None),
            _ => return Err(ReadError::Malformed),
        }
    }
    Err(ReadError::Malformed)
}

// The next frame, its bytes at the start of `buf`; the cells behind them keep what they held. One
// that is longer than `buf` is malformed. None where nothing is left: then `buf` stays as it was.
pub fn read_frame(input: &mut impl Read, buf: &mut [u8]) -> Result<Option<usize>, ReadError>
    ensures { MatchResult result (Inside buf.old buf.new) (λ _. length buf.new ≡ length buf.old) }
{
    let Some(n) = read_number(input, buf.len())? else {
        return Ok(None);
    };
    if read_full(input, &mut buf[..n])? != n || read_byte(input)? != Some(b'\n') {
        return Err(ReadError::Malformed);
    }
    Ok(Some(n))
}

// ---- cases that a tool writes

// As many cases as a program of lookups, readings or sheets shows: what follows is not read.
pub const MAX_CASES: u64 = 1_000_000;

// Shows case after case, until one answers that there was none. What is malformed ends them, and is
// said. Nothing says that the input ends, so the cases are counted.
pub fn each_case<F: FnMut(u64) -> Result<bool, ReadError>>(
    rt: &impl Print,
    mut show: F,
) -> io::Result<()>
    requires { F.IsAlwaysCallable show }
{
    for i in 0..u64::MAX {
        match show(i) {
            Ok(true) => {}
            Ok(false) => return Ok(()),
            Err(ReadError::Malformed) => return rt.write_all(b"(malformed)\n"),
            Err(ReadError::Io(error)) => return Err(error),
        }
    }
    Ok(())
}

// Prints the name of the next case, a frame. Answers whether there was one.
pub fn print_name(rt: &impl Print, input: &mut impl Read) -> Result<bool, ReadError> {
    let mut name = [0u8; 4096];
    let Some(n) = read_frame(input, &mut name)? else {
        return Ok(false);
    };
    rt.write_all(&name[..n])?;
    print!(rt; ": ")?;
    Ok(true)
}

// ---- numbers and scripts of a case: what is missing or malformed is taken for 0

// What was read, if anything was.
fn read_or_none(read: Result<Option<usize>, ReadError>) -> io::Result<Option<usize>>
    ensures { IfOk result (λ o. IfSome o (λ n. read ≡ Ok (Some n))) }
{
    match read {
        Ok(found) => Ok(found),
        Err(ReadError::Malformed) => Ok(None),
        Err(ReadError::Io(error)) => Err(error),
    }
}

// A number of a case. 0 and no Option: what is printed of such a case is held byte for byte.
pub fn read_up_to(input: &mut impl Read, limit: usize) -> io::Result<usize>
    ensures { IfOk result (λ n. n ≤ limit) }
{
    let n = read_or_none(read_number(input, limit))?;
    Ok(n.unwrap_or(0))
}

// A script: how many bytes it has, and the first of them as a frame. The others are those of the
// buffer.
pub fn read_script(input: &mut impl Read, script: &mut [u8]) -> io::Result<usize>
    ensures { IfOk result (λ n. IsPrefixLen n script.new) }
{
    let n = read_up_to(input, script.len())?;
    read_or_none(read_frame(input, script))?;
    Ok(n)
}
