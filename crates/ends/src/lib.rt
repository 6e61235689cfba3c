// The matchers that read a text once from one place on: whether the whole text matches, and the last end that does.
#![tactic(auto)]

ghost use Rattle.std.specs.Prelude.{◌≡◌, ◌&&◌, ◌+◌, ◌*◌, ◌≤◌, ◌<◌, ltb, length};
ghost use Rattle.std.proofs.Math.Option.{none};
ghost use Rattle.rules.specs.Matchers.{whole_answer, longest_answer};
ghost use Rattle.rules.specs.Table as rule;
ghost use Rattle.answers.specs.Answers.{whole_of, longest_of};
ghost use Rattle.table.specs.Lent.{lent_table};
ghost use Rattle.table.specs.Stays.{no_byte_leaves};
ghost use Rattle.ends.specs.Readings.{end_of, LeadsOn, FindsOn};

use kinds::{Refusal, Row};
use table::{Checked, Lent, ends_here, no_byte_leaves, step};

// As many bytes are read before it is asked whether any byte leaves the row that they led to.
const STRETCH: usize = 256;

// Where a stretch from p on ends, in a text of n bytes.
fn stretch_end(p: usize, n: usize) -> usize
    requires { p < n }
    ensures { (p < result) × (result ≤ n) }
{
    if n - p < STRETCH { n } else { p + STRETCH }
}

// Whether bytes are left that all lead to the row again.
fn stays_on(cells: &[u16], q: Row, p: usize, n: usize) -> bool
    requires { 256 * q.0 + 256 ≤ length cells.now }
    ensures { result ≡ ltb p n && no_byte_leaves cells.now q.0 }
{
    p < n && no_byte_leaves(cells, q)
}

// The row that a stretch of the text leads to. `find_ends` looks at each mark besides: whole match is quicker without.
fn read_on(checked: &Checked<'_>, q: Row, from: usize, to: usize) -> Row
    requires { (q.0 < checked.now.table.rows) × ((from ≤ to) × (to ≤ length checked.now.text.now)) }
    ensures { LeadsOn (lent_table checked.now.table) checked.now.text.now q.0 from result.0 to }
{
    let mut row = q;
    for byte in &checked.text[from..to] {
        row = step(checked.table.cells, row, *byte);
    }
    row
}

// The row that the whole text leads to from the head row.
fn last_row(checked: &Checked<'_>) -> Row
    ensures { LeadsOn (lent_table checked.now.table) checked.now.text.now checked.now.table.head.0 0 result.0 (length checked.now.text.now) }
{
    let n = checked.text.len();
    let mut q = checked.table.head;
    let mut p = 0;
    // A while: the step is a stretch.
    while p < n {
        let to = stretch_end(p, n);
        q = read_on(checked, q, p, to);
        if stays_on(checked.table.cells, q, to, n) {
            return q;
        }
        p = to;
    }
    q
}

// The whole text, read from the head row.
fn takes_whole(checked: &Checked<'_>) -> bool
    ensures { result ≡ rule.whole (lent_table checked.now.table) checked.now.text.now }
{
    let q = last_row(checked);
    ends_here(checked.table.marks[q.0 as usize], true)
}

// How far the text is read: the row that this led to, the place, and the last end that was passed.
#[derive(Clone, Copy)]
struct Reading {
    row: Row,
    at: usize,
    found: Option<u32>,
}

impl Reading {
    // Nothing is read yet.
    fn begin(checked: &Checked<'_>, start: usize) -> Reading
        ensures row { result.row.0 ≡ rule.begins (lent_table checked.now.table) start }
        ensures at { result.at ≡ start }
        ensures found { end_of result.found ≡ none }
    {
        Reading {
            row: if start == 0 {
                checked.table.head
            } else {
                Row(0)
            },
            at: start,
            found: None,
        }
    }

    // Reads a stretch of the text up to a place, and finds the last end before it.
    fn find_ends(self, checked: &Checked<'_>, to: usize) -> Reading
        requires { (self.row.0 < checked.now.table.rows) × ((self.at ≤ to) × (to ≤ length checked.now.text.now)) }
        ensures { FindsOn (lent_table checked.now.table) checked.now.text.now self result × (result.at ≡ to) }
    {
        let mut row = self.row;
        let mut found = self.found;
        for p in self.at..to {
            if ends_here(checked.table.marks[row.0 as usize], false) {
                found = Some(p as u32);
            }
            row = step(checked.table.cells, row, checked.text[p]);
        }
        Reading { row, at: to, found }
    }

    // Reads to the text's end, or to its last byte where no byte leaves the row: those before it lead nowhere else.
    fn find_most(self, checked: &Checked<'_>) -> Reading
        requires { (self.row.0 < checked.now.table.rows) × (self.at ≤ length checked.now.text.now) }
        ensures { FindsOn (lent_table checked.now.table) checked.now.text.now self result }
    {
        let n = checked.text.len();
        let mut read = self;
        // A while: the step is a stretch.
        while read.at < n {
            let to = stretch_end(read.at, n);
            read = read.find_ends(checked, to);
            if stays_on(checked.table.cells, read.row, to, n) {
                return Reading {
                    row: read.row,
                    at: n - 1,
                    found: read.found,
                };
            }
        }
        read
    }
}

// The last end that matches, of a text read once from the start on.
fn last_end(checked: &Checked<'_>, start: u32) -> Option<u32>
    requires { start ≤ length checked.now.text.now }
    ensures { end_of result ≡ rule.longest (lent_table checked.now.table) checked.now.text.now start }
{
    let begun = Reading::begin(checked, start as usize);
    let most = begun.find_most(checked);
    let n = checked.text.len();
    // what is left is the last byte at most
    let all = most.find_ends(checked, n);
    if ends_here(checked.table.marks[all.row.0 as usize], true) {
        return Some(n as u32);
    }
    all.found
}

// Whole match, of anything that is lent.
#[tactic(auto, using(table::proofs::CheckLaws::turned_away), unfolding(rules::specs::Matchers::whole_answer))]
pub fn whole(table: &Lent<'_>, text: &[u8]) -> Result<bool, Refusal>
    ensures { whole_of result ≡ whole_answer (lent_table table.now) text.now }
{
    Ok(takes_whole(&Checked::of(table, text)?))
}

// Longest match from a start, of anything that is lent.
#[tactic(auto, using(table::proofs::CheckLaws::turned_away), unfolding(rules::specs::Matchers::longest_answer))]
pub fn longest(table: &Lent<'_>, text: &[u8], start: u32) -> Result<Option<u32>, Refusal>
    ensures { longest_of result ≡ longest_answer (lent_table table.now) text.now start }
{
    let checked = Checked::of(table, text)?;
    if text.len() < start as usize {
        return Err(Refusal::PastEnd);
    }
    Ok(last_end(&checked, start))
}
