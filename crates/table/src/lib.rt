// Tables as they are lent: whether one is well formed, and its rule.
#![tactic(auto)]

ghost use Rattle.std.specs.Prelude.{◌≡◌, ◌+◌, ◌*◌, ◌-◌, ◌≤◌, leb, ltb, eqb, length, get_or};
ghost use Rattle.rules.specs.Tools.{all};
ghost use Rattle.rules.specs.Table.{is_mark, well_formed, fits};
ghost use Rattle.table.specs.Lent.{lent_table};
ghost use Rattle.table.specs.Stays.{no_byte_leaves};

pub use checks::Checked;
use kinds::{ROWS_MOST, Row};

mod checks;

// How far cells lie past the last row, the bits of all of them put together. No exit from the loop, and a difference in place of a
// test, so that it runs over many cells at once.
fn all_past(cells: &[u16], last: u16) -> u16
    ensures { eqb result 0 ≡ all (λ c. leb c last) cells.now }
{
    let mut far = 0;
    for cell in cells {
        far |= cell.saturating_sub(last);
    }
    far
}

// Every cell is a row number.
fn rows_only(cells: &[u16], rows: u16) -> bool
    ensures { result ≡ all (λ c. ltb c rows) cells.now }
{
    if rows == 0 {
        return cells.is_empty();
    }
    all_past(cells, rows - 1) == 0
}

// Every mark is 0, 2 or 3.
fn marks_only(marks: &[u8]) -> bool
    ensures { result ≡ all is_mark marks.now }
{
    let mut good = true;
    for &mark in marks {
        good &= (mark == 0) | ((mark == 2) | (mark == 3));
    }
    good
}

// A table as it is lent. What is lent past its rows is not looked at.
#[derive(Clone, Copy)]
pub struct Lent<'t> {
    pub rows: u16,
    pub head: Row,
    pub cells: &'t [u16],
    pub marks: &'t [u8],
}

impl Lent<'_> {
    // What refusal 13 asks.
    #[tactic(auto, using(crate::proofs::SizeLaws::many_rows))]
    pub fn is_well_formed(&self) -> bool
        ensures { result ≡ well_formed (lent_table self.now) }
    {
        if self.rows < 1 {
            return false;
        }
        if ROWS_MOST < self.rows {
            return false;
        }
        let n = self.rows as usize;
        if self.marks.len() < n {
            return false;
        }
        if self.cells.len() < 256 * n {
            return false;
        }
        if self.rows <= self.head.0 {
            return false;
        }
        if !rows_only(&self.cells[..256 * n], self.rows) {
            return false;
        }
        marks_only(&self.marks[..n])
    }
}

// The row that a row goes to on a byte.
pub fn step(cells: &[u16], q: Row, b: u8) -> Row
    requires { 256 * q.0 + 256 ≤ length cells.now }
    ensures { result.0 ≡ get_or cells.now (256 * q.0 + b) 0 }
{
    let i = 256 * (q.0 as usize) + (b as usize);
    Row(cells[i])
}

// Whether a stretch that ends in a row with this mark matches. No other function goes by what a mark says.
pub fn ends_here(mark: u8, at_end: bool) -> bool
    ensures { result ≡ fits mark at_end }
{
    (mark == 3) | ((mark == 2) & at_end)
}

// Whether all cells lead to one row: the bits in which they differ from it, put together.
fn all_to(cells: &[u16], q: Row) -> bool
    ensures { result ≡ all (λ c. eqb c q.0) cells.now }
{
    let mut differing = 0;
    for cell in cells {
        differing |= cell ^ q.0;
    }
    differing == 0
}

// Whether no byte leaves a row. Of most rows the first cell tells that one does.
pub fn no_byte_leaves(cells: &[u16], q: Row) -> bool
    requires { 256 * q.0 + 256 ≤ length cells.now }
    ensures { result ≡ no_byte_leaves cells.now q.0 }
{
    let from = 256 * (q.0 as usize);
    if Row(cells[from]) != q {
        return false;
    }
    all_to(&cells[from..from + 256], q)
}
