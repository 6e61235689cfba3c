// The listing of a table, written into a lent buffer.
#![tactic(auto)]

ghost use Rattle.std.specs.Prelude.{◌≡◌, map, ◌*◌, ◌≤◌, length};
ghost use Rattle.rules.specs.Tools.{up_from, flat};
ghost use Rattle.rules.specs.Answers.{given};
ghost use Rattle.rules.specs.Listing.{run_text, runs, row_line, listing};
ghost use Rattle.table.specs.Lent.{lent_table};
ghost use Rattle.writing.specs.Writing.{Puts};
ghost use Rattle.writing.specs.RunsLeft.{run_view};
ghost use Rattle.writing.specs.Texts.{shown, shown_in};
ghost use Rattle.listing.specs.Lines.{line_of, listing_of};

use answers::Written;
use kinds::{Refusal, Row};
use table::Lent;
use writing::Page;
use writing::runs::{Run, Runs};

// One run, with a space ahead of it.
fn put_run(page: &mut Page<'_>, run: Run)
    ensures { Puts page.old (run_text (run_view run)) page.new }
{
    page.put(b' ');
    page.put_number(run.lo as u32);
    page.put(b'-');
    page.put_number(run.hi as u32);
    page.put(b'>');
    page.put_number(run.to.0 as u32);
}

// The runs of a row's 256 cells.
fn put_runs(page: &mut Page<'_>, cells: &[u16])
    requires { length cells.now ≡ 256 }
    ensures { Puts page.old (flat (map run_text (runs cells.now))) page.new }
{
    for run in Runs::of(cells) {
        put_run(page, run);
    }
}

// A row's line, of its mark and its 256 cells.
fn put_row(page: &mut Page<'_>, q: Row, mark: u8, cells: &[u16])
    requires { length cells.now ≡ 256 }
    ensures { Puts page.old (line_of q.0 mark cells.now) page.new }
{
    page.put_number(q.0 as u32);
    page.put(b' ');
    page.put_number(mark as u32);
    put_runs(page, cells);
    page.put(b'\n');
}

// The lines of all rows.
fn put_rows(page: &mut Page<'_>, table: &Lent<'_>)
    requires { (table.now.rows ≤ length table.now.marks.now) × (256 * table.now.rows ≤ length table.now.cells.now) }
    ensures { Puts page.old (flat (map (row_line (lent_table table.now)) (up_from 0 table.now.rows))) page.new }
{
    for q in 0..table.rows {
        let i = q as usize;
        put_row(
            page,
            Row(q),
            table.marks[i],
            &table.cells[256 * i..256 * i + 256],
        );
    }
}

// The listing of a table.
fn put_table(page: &mut Page<'_>, table: &Lent<'_>)
    requires { (table.now.rows ≤ length table.now.marks.now) × (256 * table.now.rows ≤ length table.now.cells.now) }
    ensures { Puts page.old (listing (given (lent_table table.now))) page.new }
{
    page.put_all(b"rows ");
    page.put_number(table.rows as u32);
    page.put_all(b" head ");
    page.put_number(table.head.0 as u32);
    page.put(b'\n');
    put_rows(page, table);
}

// The listing of anything that is lent.
pub fn write_table(table: &Lent<'_>, out: &mut [u8]) -> Result<Written, Refusal>
    ensures { shown result out.new ≡ shown_in out.old (listing_of (lent_table table.now)) }
{
    if !table.is_well_formed() {
        return Err(Refusal::NotFormed);
    }
    let mut page = Page::on(out);
    put_table(&mut page, table);
    Ok(page.written())
}
