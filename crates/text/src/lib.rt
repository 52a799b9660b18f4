// Bytes, texts and numbers into a buffer from a position on. Behind the buffer's end they are only
// counted.
#![tactic(auto)]

ghost use Rattle.std.specs.Prelude.{[], ◌∷◌};
ghost use Rattle.text.specs.Text.{number};
ghost use Rattle.text.specs.Emit.{Emits, Writes};

use lex::Refusal;

// How a call ends that writes a text into a lent buffer: with the text's length in bytes.
pub type Writing = Result<usize, Refusal>;

// The last position. A text that reaches it is counted no further, and is taken for too long. A
// limit and no Option: a method that writes cannot fail.
pub const LAST: usize = usize::MAX;

// A lent buffer, and where the next byte goes. It is written by its methods: `write!` promises the
// text of a `Display` only where it answers Ok, and never that it does, and nothing here may fail.
// A trait of what can be written would have an impl in place of each method.
// Made by its literal: of one that a function makes no proof has what its buffer ends as.
#[derive(Drop)]
pub struct Writer<'a> {
    pub out: &'a mut [u8],
    pub at: usize,
}

// A byte into a buffer, and where the next one goes. Writing goes by these functions, which have
// the buffer and the place as values of their own: each byte by a writer's fields took up to twice
// the time.
fn put(b: u8, out: &mut [u8], at: usize) -> usize
    ensures { Emits (b ∷ []) out.old at out.new result }
{
    if at < out.len() {
        out[at] = b;
        return at + 1;
    }
    at.saturating_add(1)
}

// Eight bytes at once where there is room for them, and the others one by one.
fn put_text(text: &[u8], out: &mut [u8], at: usize) -> usize
    ensures { Emits text.now out.old at out.new result }
{
    let mut to = at;
    let mut rest = text;
    while let Some((eight, more)) = rest.split_first_chunk::<8>() {
        if out.len() < 8 || out.len() - 8 < to {
            break;
        }
        out[to..to + 8].copy_from_slice(eight);
        to += 8;
        rest = more;
    }
    for b in rest {
        to = put(*b, out, to);
    }
    to
}

// By hand and without `write!` for the reason at `Writer`. `itoa` has its text by the library's
// `decimal`, which no law here joins with `number`.
fn put_number(n: usize, out: &mut [u8], at: usize) -> usize
    ensures { Emits (number n) out.old at out.new result }
{
    if n < 10 {
        return put(b'0' + n as u8, out, at);
    }
    let to = put_number(n / 10, out, at);
    put(b'0' + (n % 10) as u8, out, to)
}

impl<'a> Writer<'a> {
    pub fn write_byte(&mut self, b: u8)
        ensures { Writes (b ∷ []) self.old self.new }
    {
        self.at = put(b, self.out, self.at);
    }

    pub fn write_text(&mut self, text: &[u8])
        ensures { Writes text.now self.old self.new }
    {
        self.at = put_text(text, self.out, self.at);
    }

    // A number in decimal. One digit, as most numbers have, takes no call.
    pub fn write_number(&mut self, n: usize)
        ensures { Writes (number n) self.old self.new }
    {
        if n < 10 {
            self.write_byte(b'0' + n as u8);
        } else {
            self.at = put_number(n, self.out, self.at);
        }
    }
}
