// The class of a byte: five bits, looked up in one table.
ghost use Rattle.std.specs.Prelude.{◌≡◌};
ghost use Rattle.lex.specs.Bytes.{is_ws, is_digit, is_ident_start, is_ident_cont};
ghost use Rattle.lex.specs.Bytes.{is_num_cont, class_table};

// The bits of a class: what the byte can be or begin. They and the table have prescribed forms.
#[derive(Clone, Copy)]
pub(crate) struct Class(pub u8);

impl Class {
    pub(crate) const IDENT_CONT: u8 = 1;

    pub(crate) const IDENT_START: u8 = 2;

    pub(crate) const DIGIT: u8 = 4;

    pub(crate) const NUM_CONT: u8 = 8;

    pub(crate) const WS: u8 = 16;
}

// The class of each byte. The compiled code writes a constant array onto the stack at each use: so
// `Classes` has it once.
pub const CLASS: [u8; 256] = [
    0, 0, 0, 0, 0, 0, 0, 0, 0, 16, 16, 0, 0, 16, 0, 0, 0, 0, 0, 0, 0, 0, 0, 0, 0, 0, 0, 0, 0, 0, 0,
    0, 16, 0, 0, 0, 0, 0, 0, 0, 0, 0, 0, 0, 0, 0, 8, 0, 13, 13, 13, 13, 13, 13, 13, 13, 13, 13, 0,
    0, 0, 0, 0, 0, 0, 3, 3, 3, 3, 3, 3, 3, 3, 3, 3, 3, 3, 3, 3, 3, 3, 3, 3, 3, 3, 3, 3, 3, 3, 3, 3,
    0, 0, 0, 0, 3, 0, 3, 3, 3, 3, 3, 3, 3, 3, 3, 3, 3, 3, 3, 3, 3, 3, 3, 3, 3, 3, 3, 3, 3, 3, 3, 3,
    0, 0, 0, 0, 0, 0, 0, 0, 0, 0, 0, 0, 0, 0, 0, 0, 0, 0, 0, 0, 0, 0, 0, 0, 0, 0, 0, 0, 0, 0, 0, 0,
    0, 0, 0, 0, 0, 0, 0, 0, 0, 0, 0, 0, 0, 0, 0, 0, 0, 0, 0, 0, 0, 0, 0, 0, 0, 0, 0, 0, 0, 0, 0, 0,
    0, 0, 0, 0, 0, 0, 0, 0, 0, 0, 0, 0, 0, 0, 0, 0, 0, 0, 0, 0, 0, 0, 0, 0, 0, 0, 0, 0, 0, 0, 0, 0,
    0, 0, 0, 0, 0, 0, 0, 0, 0, 0, 0, 0, 0, 0, 0, 0, 0, 0, 0, 0, 0, 0, 0, 0, 0, 0, 0, 0, 0, 0, 0, 0,
    0, 0, 0, 0, 0,
];

// Whether the byte is a digit.
// Tested without the table, for windows of 16 bytes.
#[tactic(auto, using(crate::proofs::Bits::ascii_digit))]
pub(crate) fn is_digit(b: u8) -> bool
    ensures { result ≡ is_digit b }
{
    b.is_ascii_digit()
}

// Whether the byte separates: space, tab, CR or LF. ASCII's white space has the form feed besides.
// Tested without the table, where none is lent.
#[tactic(auto, using(crate::proofs::Bits::separates))]
pub(crate) fn is_ws(b: u8) -> bool
    ensures { result ≡ is_ws b }
{
    (b == b' ') | (b == b'\t') | (b == b'\r') | (b == b'\n')
}

// Whether the byte can continue a name. Without branches, so that 16 bytes are tested in one step.
// Tested without the table, for windows of 16 bytes.
#[tactic(auto, using(crate::proofs::Bits::ascii_name))]
pub(crate) fn is_ident_cont(b: u8) -> bool
    ensures { result ≡ is_ident_cont b }
{
    b.is_ascii_alphanumeric() | (b == b'_')
}

// The table of classes: made once, and lent to whoever looks up many bytes.
#[derive(Drop)]
pub struct Classes {
    bits: [u8; 256],
    ghost is_table: { bits ≡ class_table },
}

impl Classes {
    pub fn new() -> Classes {
        Classes { bits: CLASS }
    }

    // Five methods of one line: each has another property in its contract.

    // Whether the byte can begin a name.
    pub(crate) fn begins_name(&self, b: u8) -> bool
        ensures { result ≡ is_ident_start b }
    {
        self.bits[b as usize] & Class::IDENT_START != 0
    }

    // Whether the byte can continue a name.
    pub(crate) fn continues_name(&self, b: u8) -> bool
        ensures { result ≡ is_ident_cont b }
    {
        self.bits[b as usize] & Class::IDENT_CONT != 0
    }

    // Whether the byte is a digit.
    pub(crate) fn begins_number(&self, b: u8) -> bool
        ensures { result ≡ is_digit b }
    {
        self.bits[b as usize] & Class::DIGIT != 0
    }

    // Whether the byte can continue a number.
    pub(crate) fn continues_number(&self, b: u8) -> bool
        ensures { result ≡ is_num_cont b }
    {
        self.bits[b as usize] & Class::NUM_CONT != 0
    }

    // Whether the byte separates.
    pub(crate) fn separates(&self, b: u8) -> bool
        ensures { result ≡ is_ws b }
    {
        self.bits[b as usize] & Class::WS != 0
    }
}
