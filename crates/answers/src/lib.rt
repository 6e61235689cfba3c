// What the entry points hand back: an answer, or else the refusal that is due. `Answers` sets out each case.
#![tactic(auto)]

use kinds::Row;

// A table that was compiled: how many rows it has, and its head row.
#[derive(Clone, Copy)]
pub struct Drawn {
    pub rows: u16,
    pub head: Row,
}

// What was written of a text, with the text's length. No Result: a text whose beginning alone fits is no error.
#[derive(Clone, Copy)]
pub enum Written {
    // The whole text stands in the buffer.
    Whole(u32),
    // The buffer is full of the text's beginning.
    Beginning(u32),
}
