// The numbers of an answer, as C and Rust read it: the code that is handed back, and what is put into the lent numbers.
#![tactic(auto)]

ghost use Rattle.std.specs.Prelude.{◌≡◌, get_or};
ghost use Rattle.kinds.specs.Refusals.{refusal_of};
ghost use Rattle.answers.specs.Answers.{whole_of, longest_of, first_of, starts_of, text_of, compiled_of};
ghost use Rattle.codes.specs.Codes.{whole_code, longest_code, longest_end, first_code, first_start, first_end, starts_code, starts_count};
ghost use Rattle.codes.specs.Codes.{compile_code, compile_rows, compile_head, compile_place, text_code, text_length};

use answers::{Drawn, Written};
use kinds::Refusal;

// The codes that are no refusal's number; numbers, since C reads them.
const TABLE: u32 = 0;

const MATCH: u32 = 0;

const NO_MATCH: u32 = 1;

const LISTED: u32 = 0;

const WHOLE_TEXT: u32 = 0;

const LONGER_TEXT: u32 = 1;

// Of a table its rows and head row are put, of a refusal its place.
pub fn put_compiled(
    answer: Result<Drawn, Refusal>,
    rows: &mut u16,
    head: &mut u16,
    place: &mut u32,
) -> u32
    ensures code { result ≡ compile_code (compiled_of answer) }
    ensures rows { rows.new ≡ compile_rows rows.old (compiled_of answer) }
    ensures head { head.new ≡ compile_head head.old (compiled_of answer) }
    ensures place { place.new ≡ compile_place place.old (compiled_of answer) }
{
    match answer {
        Ok(drawn) => {
            *rows = drawn.rows;
            *head = drawn.head.0;
            TABLE
        }
        Err(refusal) => {
            *place = refusal.place();
            refusal.number()
        }
    }
}

pub fn whole_code(answer: Result<bool, Refusal>) -> u32
    ensures { result ≡ whole_code (whole_of answer) }
{
    match answer {
        Ok(true) => MATCH,
        Ok(false) => NO_MATCH,
        Err(refusal) => refusal.number(),
    }
}

// The end of a match is put.
pub fn put_longest(answer: Result<Option<u32>, Refusal>, end: &mut u32) -> u32
    ensures code { result ≡ longest_code (longest_of answer) }
    ensures end { end.new ≡ longest_end end.old (longest_of answer) }
{
    match answer {
        Ok(Some(e)) => {
            *end = e;
            MATCH
        }
        Ok(None) => NO_MATCH,
        Err(refusal) => refusal.number(),
    }
}

// The start and the end of a match are put.
pub fn put_first(answer: Result<Option<(u32, u32)>, Refusal>, start: &mut u32, end: &mut u32) -> u32
    ensures code { result ≡ first_code (first_of answer) }
    ensures start { start.new ≡ first_start start.old (first_of answer) }
    ensures end { end.new ≡ first_end end.old (first_of answer) }
{
    match answer {
        Ok(Some((from, to))) => {
            *start = from;
            *end = to;
            MATCH
        }
        Ok(None) => NO_MATCH,
        Err(refusal) => refusal.number(),
    }
}

// The number of starts that a refusal comes with, or else what stood there.
fn count_of(refusal: Refusal, old: u32) -> u32
    ensures { result ≡ get_or (refusal_of refusal).values 0 old }
{
    match refusal {
        Refusal::FewPlaces(n) => n,
        _ => old,
    }
}

// The number of starts is put, also of a list with too few places.
pub fn put_starts(answer: Result<u32, Refusal>, count: &mut u32) -> u32
    ensures code { result ≡ starts_code (starts_of answer) }
    ensures count { count.new ≡ starts_count count.old (starts_of answer) }
{
    match answer {
        Ok(n) => {
            *count = n;
            LISTED
        }
        Err(refusal) => {
            *count = count_of(refusal, *count);
            refusal.number()
        }
    }
}

// The length of the text is put, also of one whose beginning alone is written.
pub fn put_text(answer: Result<Written, Refusal>, length: &mut u32) -> u32
    ensures code { result ≡ text_code (text_of answer) }
    ensures length { length.new ≡ text_length length.old (text_of answer) }
{
    match answer {
        Ok(Written::Whole(n)) => {
            *length = n;
            WHOLE_TEXT
        }
        Ok(Written::Beginning(n)) => {
            *length = n;
            LONGER_TEXT
        }
        Err(refusal) => refusal.number(),
    }
}
