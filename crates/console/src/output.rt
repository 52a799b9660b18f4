// What a call answered, on standard output. No contract can speak of what that takes.
use lex::Refusal;
use std::io;

// What was asked, as `show` prints it, or the number of the refusal.
pub fn print_answer<T, F: FnOnce(T) -> io::Result<()> + Drop>(
    rt: &impl Print,
    answer: Result<T, Refusal>,
    show: F,
) -> io::Result<()>
    requires { F.IsAlwaysCallable show }
{
    match answer {
        Ok(asked) => show(asked),
        Err(refusal) => print!(rt; "refused {}", u32::from(refusal)),
    }
}

// Where a node starts, `none` where it has no token, or the number of the refusal.
pub fn print_start(rt: &impl Print, answer: Result<Option<u32>, Refusal>) -> io::Result<()> {
    print_answer(rt, answer, |start| match start {
        Some(at) => print!(rt; "{at}"),
        None => print!(rt; "none"),
    })
}

// The text that was written in front of `buffer`, or the number of the refusal.
pub fn print_text(
    rt: &impl Print,
    answer: Result<usize, Refusal>,
    buffer: &[u8],
) -> io::Result<()> {
    print_answer(rt, answer, |n| match buffer.get(..n) {
        Some(text) => rt.write_all(text),
        None => Ok(()),
    })
}

// How long the text is that was written, or the number of the refusal; and on a line of its own
// what the buffer holds then.
pub fn print_left(
    rt: &impl Print,
    answer: Result<usize, Refusal>,
    buffer: &[u8],
) -> io::Result<()> {
    print_answer(rt, answer, |n| print!(rt; "written {n}"))?;
    println!(rt;)?;
    rt.write_all(buffer)?;
    println!(rt;)
}
