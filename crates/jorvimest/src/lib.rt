// What C and Rust link: compiling, the matchers and the listing over numbers and slices.
#![tactic(auto)]

ghost use Rattle.std.specs.Prelude.{◌≡◌};
ghost use Rattle.table.specs.Lent.{table_of, lent_table};

mod compiling;
mod matching;
mod texts;

use kinds::Row;
use table::Lent;

// A table whose numbers and slices are lent one by one.
fn lent<'t>(rows: u16, head: u16, cells: &'t [u16], marks: &'t [u8]) -> Lent<'t>
    ensures { lent_table result ≡ table_of rows head marks.now cells.now }
{
    Lent {
        rows,
        head: Row(head),
        cells,
        marks,
    }
}
