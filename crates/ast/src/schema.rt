// The schema: the sorts of fields, and the cells of a list's members.
ghost use Rattle.std.specs.Prelude.{◌≡◌};
ghost use Rattle.ast.specs.Schema.{member_width, members, sort_at};

// What a field of a record, or of a member of a list, is.
#[derive(Clone, Copy, Debug, PartialEq, Eq)]
pub enum Sort {
    Value,
    Token,
    Tokens,
    Params,
    Type,
    Fns,
    Nodes,
    Fields,
    Cases,
    Node,
}

// The sort of a number: they count from 0. Any other number is taken for a list of tokens.
impl From<u64> for Sort {
    ghost from_gives = { λ number sort. sort ≡ sort_at number };

    #[tactic(auto, unfolding(crate::specs::Schema::sort_at))]
    fn from(number: u64) -> Sort
        ensures { result ≡ sort_at number }
    {
        match number {
            0 => Sort::Value,
            1 => Sort::Token,
            3 => Sort::Params,
            4 => Sort::Type,
            5 => Sort::Fns,
            6 => Sort::Nodes,
            7 => Sort::Fields,
            8 => Sort::Cases,
            9 => Sort::Node,
            _ => Sort::Tokens,
        }
    }
}

// The cells of a member of each list.
pub const TOKEN_WIDTH: usize = 3;

pub const PARAM_WIDTH: usize = 4;

pub const FN_WIDTH: usize = 8;

pub const NODE_WIDTH: usize = 1;

pub const FIELD_WIDTH: usize = 4;

pub const CASE_WIDTH: usize = 6;

impl Sort {
    // The cells of a member of such a list; what is no list is taken for one of tokens.
    pub fn width(self) -> usize
        ensures { result ≡ member_width (members self) }
    {
        match self {
            Sort::Params => PARAM_WIDTH,
            Sort::Fns => FN_WIDTH,
            Sort::Nodes => NODE_WIDTH,
            Sort::Fields => FIELD_WIDTH,
            Sort::Cases => CASE_WIDTH,
            _ => TOKEN_WIDTH,
        }
    }
}
