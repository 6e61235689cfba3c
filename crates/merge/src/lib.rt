// Merging in place: rows that no further bytes and end position tell apart become one, named by the least.
#![tactic(auto)]

ghost use Rattle.std.specs.Prelude.{◌≡◌, length, take};
ghost use Rattle.rules.specs.Grid.{Grid};
ghost use Rattle.rules.specs.Compiled.{merged};
ghost use Rattle.grid.specs.Rows.{rows_of};
ghost use Rattle.parting.specs.Room.{Room};
ghost use Rattle.merge.specs.Merge.{Lent, Stands};

use grid::ROW_WORDS;
use kinds::{ROWS, Row};

mod lower;
mod numbers;

// The rows of the merged table, and its head row. `answers` has its like, on which merging does not stand.
#[derive(Drop)]
pub struct Merged {
    pub rows: u16,
    pub head: Row,
}

// Room that is lent for just the rows that there are. The lists stay single: each is lent on to a part of its own.
fn merge_all(
    cells: &mut [u16],
    marks: &mut [u8],
    preds: &mut [u64],
    class: &mut [u16],
    number: &mut [u16],
    order: &mut [u16],
    touched: &mut [u64],
) -> Merged
    requires { Grid (rows_of cells.old (length marks.old)) marks.old × Room cells.old preds.old class.old number.old order.old touched.old (length marks.old) }
    ensures { Stands (merged (rows_of cells.old (length marks.old)) marks.old) cells.new marks.new result.rows result.head.0 }
{
    parting::name(cells, marks, preds, class, number, order, touched);
    let rows = numbers::give(class, number);
    lower::move_down(cells, marks, class, number);
    Merged {
        rows,
        head: Row(number[1]),
    }
}

// The first rows of the lent cells and marks, merged; the set words are lent for scratch.
pub fn merge(cells: &mut [u16], marks: &mut [u8], sets: &mut [u64], rows: u16) -> Merged
    requires { Lent cells.old marks.old sets.old rows }
    ensures cells_len_unchanged { (length cells.new ≡ length cells.old) × ((length marks.new ≡ length marks.old) × (length sets.new ≡ length sets.old)) }
    ensures stands { Stands (merged (rows_of cells.old rows) (take rows marks.old)) cells.new marks.new result.rows result.head.0 }
{
    let n = rows as usize;
    let mut class = [0u16; ROWS];
    let mut number = [0u16; ROWS];
    let mut order = [0u16; ROWS];
    let mut touched = [0u64; ROW_WORDS];
    merge_all(
        &mut cells[..256 * n],
        &mut marks[..n],
        &mut sets[..ROW_WORDS * n],
        &mut class[..n],
        &mut number[..n],
        &mut order[..n],
        &mut touched,
    )
}
