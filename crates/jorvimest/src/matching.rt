// The matchers over numbers and slices.
ghost use Rattle.std.specs.Prelude.{◌≡◌};
ghost use Rattle.rules.specs.Table.{well_formed};
ghost use Rattle.rules.specs.Matchers.{whole_answer, longest_answer, first_answer, starts_answer};
ghost use Rattle.table.specs.Lent.{table_of};
ghost use Rattle.codes.specs.Codes.{whole_code, longest_code, longest_end, first_code, first_start, first_end, starts_code, starts_count};

use crate::lent;
use codes::{put_first, put_longest, put_starts, whole_code};

#[unsafe(no_mangle)]
pub extern "C" fn jorvimest_well_formed(rows: u16, head: u16, cells: &[u16], marks: &[u8]) -> bool
    ensures { result ≡ well_formed (table_of rows head marks.now cells.now) }
{
    lent(rows, head, cells, marks).is_well_formed()
}

#[unsafe(no_mangle)]
pub extern "C" fn jorvimest_whole(
    rows: u16,
    head: u16,
    cells: &[u16],
    marks: &[u8],
    text: &[u8],
) -> u32
    ensures { result ≡ whole_code (whole_answer (table_of rows head marks.now cells.now) text.now) }
{
    whole_code(ends::whole(&lent(rows, head, cells, marks), text))
}

// The end of a match is put into the lent number.
#[unsafe(no_mangle)]
pub extern "C" fn jorvimest_longest(
    rows: u16,
    head: u16,
    cells: &[u16],
    marks: &[u8],
    text: &[u8],
    start: u32,
    end: &mut u32,
) -> u32
    ensures code { result ≡ longest_code (longest_answer (table_of rows head marks.now cells.now) text.now start) }
    ensures end { end.new ≡ longest_end end.old (longest_answer (table_of rows head marks.now cells.now) text.now start) }
{
    let answer = ends::longest(&lent(rows, head, cells, marks), text, start);
    put_longest(answer, end)
}

// The start and the end of a match are put into the lent numbers.
#[unsafe(no_mangle)]
pub extern "C" fn jorvimest_first(
    rows: u16,
    head: u16,
    cells: &[u16],
    marks: &[u8],
    text: &[u8],
    start: &mut u32,
    end: &mut u32,
) -> u32
    ensures code { result ≡ first_code (first_answer (table_of rows head marks.now cells.now) text.now) }
    ensures start { start.new ≡ first_start start.old (first_answer (table_of rows head marks.now cells.now) text.now) }
    ensures end { end.new ≡ first_end end.old (first_answer (table_of rows head marks.now cells.now) text.now) }
{
    let answer = first::first(&lent(rows, head, cells, marks), text);
    put_first(answer, start, end)
}

// The starts are put into the lent list, and their number into the lent number.
#[unsafe(no_mangle)]
pub extern "C" fn jorvimest_starts(
    rows: u16,
    head: u16,
    cells: &[u16],
    marks: &[u8],
    text: &[u8],
    list: &mut [u32],
    count: &mut u32,
) -> u32
    ensures code { result ≡ starts_code (starts_answer (table_of rows head marks.now cells.now) text.now list.old).answer }
    ensures count { count.new ≡ starts_count count.old (starts_answer (table_of rows head marks.now cells.now) text.now list.old).answer }
    ensures list { list.new ≡ (starts_answer (table_of rows head marks.now cells.now) text.now list.old).list }
{
    let answer = starts::starts(&lent(rows, head, cells, marks), text, list);
    put_starts(answer, count)
}
