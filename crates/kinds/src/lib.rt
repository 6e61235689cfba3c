// Numbers that can't stand for each other, the sizes, and what is turned away.
#![tactic(auto)]

ghost use Rattle.std.specs.Prelude.{◌≡◌};
ghost use Rattle.kinds.specs.Sizes.{AsAgreed};
ghost use Rattle.kinds.specs.Refusals.{refusal_of};

// A node of a pattern: a member of a set row.
#[derive(Clone, Copy, PartialEq, Eq)]
pub struct Node(pub u16);

// A row of a table: its 256 cells are those from 256 times its number on.
#[derive(Clone, Copy, PartialEq, Eq)]
pub struct Row(pub u16);

// Bytes of a pattern.
pub const PATTERN_MOST: usize = 1024;
// Open groups.
pub const GROUPS_MOST: u16 = 32;
// A number in a count.
pub const COUNT_MOST: u16 = 255;
// Nodes of a pattern.
pub const NODES_MOST: u16 = 2048;
// Rows of a table.
pub const ROWS_MOST: u16 = 1024;
// Set words for a row.
pub const WORDS_A_ROW: usize = 32;
// Bytes of a text.
pub const TEXT_MOST: usize = 1048576;

// Lengths of lists with a place for each node, and for each row.
pub const NODES: usize = NODES_MOST as usize;

pub const ROWS: usize = ROWS_MOST as usize;

// The sizes side by side.
#[derive(Drop)]
struct Sizes {
    pattern: usize,
    groups: u16,
    count: u16,
    nodes: u16,
    rows: u16,
    words: usize,
    text: usize,
}

// The constants are the agreed sizes: one that strays is refused here.
fn agreed_sizes() -> Sizes
    ensures { AsAgreed result }
{
    Sizes {
        pattern: PATTERN_MOST,
        groups: GROUPS_MOST,
        count: COUNT_MOST,
        nodes: NODES_MOST,
        rows: ROWS_MOST,
        words: WORDS_A_ROW,
        text: TEXT_MOST,
    }
}

// What is turned away; `refusal_of` has the number, the place and the values of each.
#[derive(Clone, Copy, PartialEq, Eq)]
pub enum Refusal {
    TooLong,
    // Those of reading, 2 to 9, with their place.
    NoAtom(u32),
    BadCount(u32),
    BadClass(u32),
    BadEscape(u32),
    Stray(u32),
    NoGroup(u32),
    OpenGroup(u32),
    DeepGroup(u32),
    ManyNodes,
    ManyRows,
    LongText,
    NotFormed,
    PastEnd,
    // With the number of starts.
    FewPlaces(u32),
}

impl Refusal {
    pub fn number(self) -> u32
        ensures { result ≡ (refusal_of self).number }
    {
        match self {
            Refusal::TooLong => 1,
            Refusal::NoAtom(_) => 2,
            Refusal::BadCount(_) => 3,
            Refusal::BadClass(_) => 4,
            Refusal::BadEscape(_) => 5,
            Refusal::Stray(_) => 6,
            Refusal::NoGroup(_) => 7,
            Refusal::OpenGroup(_) => 8,
            Refusal::DeepGroup(_) => 9,
            Refusal::ManyNodes => 10,
            Refusal::ManyRows => 11,
            Refusal::LongText => 12,
            Refusal::NotFormed => 13,
            Refusal::PastEnd => 14,
            Refusal::FewPlaces(_) => 15,
        }
    }

    pub fn place(self) -> u32
        ensures { result ≡ (refusal_of self).place }
    {
        match self {
            Refusal::TooLong => PATTERN_MOST as u32,
            Refusal::NoAtom(i)
            | Refusal::BadCount(i)
            | Refusal::BadClass(i)
            | Refusal::BadEscape(i)
            | Refusal::Stray(i)
            | Refusal::NoGroup(i)
            | Refusal::OpenGroup(i)
            | Refusal::DeepGroup(i) => i,
            Refusal::ManyNodes
            | Refusal::ManyRows
            | Refusal::LongText
            | Refusal::NotFormed
            | Refusal::PastEnd
            | Refusal::FewPlaces(_) => 0,
        }
    }
}
