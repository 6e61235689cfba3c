// A table as a graph for Graphviz: rows as circles, runs of bytes on the arrows.
#![tactic(auto)]

ghost use Rattle.std.specs.Prelude.{◌≡◌, map, ◌+◌, ◌*◌, ◌<◌};
ghost use Rattle.std.proofs.Math.Seq.{slice};
ghost use Rattle.rules.specs.Tools.{up_from, flat};
ghost use Rattle.rules.specs.Listing.{runs};
ghost use Rattle.rules.specs.Table.{Formed};
ghost use Rattle.table.specs.Lent.{lent_table};
ghost use Rattle.writing.specs.Writing.{Puts};
ghost use Rattle.writing.specs.RunsLeft.{run_view};
ghost use Rattle.writing.specs.Texts.{shown, shown_in};
ghost use Rattle.dot.specs.Dot.{is_trap, three_digits, byte_text, bytes_text, arrow, arrow_unless_trap, shape, row_dot, dot, dot_of};

use answers::Written;
use kinds::{Refusal, Row};
use table::{Lent, ends_here, no_byte_leaves};
use writing::Page;
use writing::runs::{Run, Runs};

// A byte by its three digits.
fn put_digits(page: &mut Page<'_>, b: u8)
    ensures { Puts page.old (three_digits b) page.new }
{
    page.put(b'0' + b / 100);
    page.put(b'0' + b / 10 % 10);
    page.put(b'0' + b % 10);
}

// A byte on an arrow: itself where it is printable, behind a backslash where dot asks that.
fn put_byte(page: &mut Page<'_>, b: u8)
    ensures { Puts page.old (byte_text b) page.new }
{
    if (b < 33) | (126 < b) {
        put_digits(page, b);
    } else if (b == b'"') | (b == b'\\') {
        page.put(b'\\');
        page.put(b);
    } else {
        page.put(b);
    }
}

// The bytes of a run.
fn put_bytes(page: &mut Page<'_>, run: Run)
    ensures { Puts page.old (bytes_text run.lo run.hi) page.new }
{
    put_byte(page, run.lo);
    if run.lo != run.hi {
        page.put(b'-');
        put_byte(page, run.hi);
    }
}

// An arrow on the bytes of a run.
fn put_arrow(page: &mut Page<'_>, q: Row, run: Run)
    ensures { Puts page.old (arrow q.0 (run_view run)) page.new }
{
    page.put_number(q.0 as u32);
    page.put_all(b" -> ");
    page.put_number(run.to.0 as u32);
    page.put_all(b" [label=\"");
    put_bytes(page, run);
    page.put_all(b"\"];\n");
}

// How a row is drawn: a double circle where a match ends, a circle with `$` where one ends at the text's end only, else a circle.
fn put_shape(page: &mut Page<'_>, q: Row, mark: u8)
    ensures { Puts page.old (shape q.0 mark) page.new }
{
    if ends_here(mark, false) {
        page.put_all(b" [shape=doublecircle];\n");
    } else if ends_here(mark, true) {
        page.put_all(b" [label=\"");
        page.put_number(q.0 as u32);
        page.put_all(b" $\"];\n");
    } else {
        page.put_all(b";\n");
    }
}

// A row that no reading leaves and in which no match ends, unless reading begins there.
fn is_trap(table: &Lent<'_>, q: Row) -> bool
    requires formed { Formed (lent_table table.now) }
    requires row { q.0 < table.now.rows }
    ensures { result ≡ is_trap (lent_table table.now) q.0 }
{
    if q == Row(0) || q == table.head {
        return false;
    }
    !ends_here(table.marks[q.0 as usize], true) && no_byte_leaves(table.cells, q)
}

// The arrow of a run; none to a trap.
fn put_way(page: &mut Page<'_>, table: &Lent<'_>, q: Row, run: Run)
    requires formed { Formed (lent_table table.now) }
    requires row { run.to.0 < table.now.rows }
    ensures { Puts page.old (arrow_unless_trap (lent_table table.now) q.0 (run_view run)) page.new }
{
    if !is_trap(table, run.to) {
        put_arrow(page, q, run);
    }
}

// The arrows of a row.
fn put_ways(page: &mut Page<'_>, table: &Lent<'_>, q: Row)
    requires formed { Formed (lent_table table.now) }
    requires row { q.0 < table.now.rows }
    ensures { Puts page.old (flat (map (arrow_unless_trap (lent_table table.now) q.0) (runs (slice (256 * q.0) (256 * q.0 + 256) table.now.cells.now)))) page.new }
{
    let i = q.0 as usize;
    for run in Runs::of(&table.cells[256 * i..256 * i + 256]) {
        put_way(page, table, q, run);
    }
}

// A row with its arrows; nothing of a trap.
fn put_row(page: &mut Page<'_>, table: &Lent<'_>, q: Row)
    requires formed { Formed (lent_table table.now) }
    requires row { q.0 < table.now.rows }
    ensures { Puts page.old (row_dot (lent_table table.now) q.0) page.new }
{
    if !is_trap(table, q) {
        page.put_number(q.0 as u32);
        put_shape(page, q, table.marks[q.0 as usize]);
        put_ways(page, table, q);
    }
}

// All rows.
fn put_rows(page: &mut Page<'_>, table: &Lent<'_>)
    requires { Formed (lent_table table.now) }
    ensures { Puts page.old (flat (map (row_dot (lent_table table.now)) (up_from 0 table.now.rows))) page.new }
{
    for q in 0..table.rows {
        put_row(page, table, Row(q));
    }
}

// The graph of a table; reading begins where the two arrows from points lead.
fn put_dot(page: &mut Page<'_>, table: &Lent<'_>)
    requires { Formed (lent_table table.now) }
    ensures { Puts page.old (dot (lent_table table.now)) page.new }
{
    page.put_all(
        b"digraph table {\nrankdir=LR;\nnode [shape=circle];\ninside [shape=point];\nhead [shape=point];\ninside -> 0 [label=\"inside\"];\nhead -> ",
    );
    page.put_number(table.head.0 as u32);
    page.put_all(b" [label=\"head\"];\n");
    put_rows(page, table);
    page.put_all(b"}\n");
}

// The graph of anything that is lent, for Graphviz.
pub fn write_dot(table: &Lent<'_>, out: &mut [u8]) -> Result<Written, Refusal>
    ensures { shown result out.new ≡ shown_in out.old (dot_of (lent_table table.now)) }
{
    if !table.is_well_formed() {
        return Err(Refusal::NotFormed);
    }
    let mut page = Page::on(out);
    put_dot(&mut page, table);
    Ok(page.written())
}
