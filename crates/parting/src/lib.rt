// Classes of rows that nothing tells apart: all rows are one class at first, which is cut by marks, and then round by round until no class
// waits; each is named by its least row.
#![tactic(auto)]

ghost use Rattle.std.specs.Prelude.{◌≡◌, ◌*◌, ◌≤◌, length};
ghost use Rattle.rules.specs.Sizes.{rows_most};
ghost use Rattle.rules.specs.Grid.{Grid};
ghost use Rattle.rules.specs.Compiled.{classes};
ghost use Rattle.grid.specs.Rows.{row_words, rows_of};
ghost use Rattle.chains.specs.Lent as chains;
ghost use Rattle.stretches.specs.Lent as stretches;
ghost use Rattle.cutting.specs.Lent.{Standing_in};
ghost use Rattle.settling.specs.Settling.{MarksTell, Settled};
ghost use Rattle.settling.specs.Lent.{Scratch_in};
ghost use Rattle.parting.specs.Room.{Room};
ghost use Rattle.parting.specs.Lent.{Named_in, Lists_in, class_names};

use chains::Groups;
use cutting::cut_groups;
use kinds::ROWS;
use leads::preds;
use settling::{Paths, settle};
use stretches::Classes;

// Rows for which little room is cleared.
const FEW: usize = 64;

// The rows' cells and marks, and the first bytes of their columns.
#[derive(Clone, Copy)]
struct Marked<'r> {
    cells: &'r [u16],
    marks: &'r [u8],
    bytes: &'r [u8],
}

// The classes by marks; how many there are.
fn first_classes(marks: &[u8], classes: &mut Classes, groups: &mut Groups) -> usize
    requires { Lists_in classes.old groups.old (length marks.now) }
    ensures same_lists { stretches.SameLists classes.old classes.new × chains.SameLists groups.old groups.new }
    ensures room { chains.RoomFor groups.new (length marks.now) }
    ensures standing { Standing_in classes.new (length marks.now) result }
    ensures marks_tell { MarksTell marks.now classes.new.class.now (length marks.now) × (1 ≤ result) }
{
    classes.begin();
    let count = marks::sort(marks, groups);
    cut_groups(classes, groups, count, 1)
}

// The classes by number.
fn part(
    rows: &Marked,
    preds: &mut [u64],
    classes: &mut Classes,
    groups: &mut Groups,
    firsts: &mut [u16],
    links: &mut [u16],
    touched: &mut [u64],
)
    requires named { Named_in rows.now }
    requires lists { Lists_in classes.old groups.old (length rows.now.marks.now) }
    requires scratch { Scratch_in groups.old firsts.old links.old touched.old (length rows.now.marks.now) × (length preds.old ≡ row_words * length rows.now.marks.now) }
    ensures same_lists { stretches.SameLists classes.old classes.new × chains.SameLists groups.old groups.new }
    ensures room { stretches.RoomFor classes.new (length rows.now.marks.now) × chains.RoomFor groups.new (length rows.now.marks.now) }
    ensures settled { Settled rows.now.cells.now rows.now.marks.now classes.new.class.now (length rows.now.marks.now) }
{
    preds::list(rows.cells, rows.bytes, rows.marks.len(), preds);
    let many = first_classes(rows.marks, classes, groups);
    let paths = Paths {
        cells: rows.cells,
        bytes: rows.bytes,
        preds,
    };
    settle(&paths, classes, groups, firsts, links, touched, many);
}

// Each row's class, named by its least row, in lists that are lent for just the rows that there are.
fn name_in(
    rows: &Marked,
    preds: &mut [u64],
    class: &mut [u16],
    classes: &mut Classes,
    groups: &mut Groups,
    firsts: &mut [u16],
    links: &mut [u16],
    touched: &mut [u64],
)
    requires named { Named_in rows.now × (length class.old ≡ length rows.now.marks.now) }
    requires lists { Lists_in classes.old groups.old (length rows.now.marks.now) }
    requires scratch { Scratch_in groups.old firsts.old links.old touched.old (length rows.now.marks.now) × (length preds.old ≡ row_words * length rows.now.marks.now) }
    ensures same_lists { stretches.SameLists classes.old classes.new }
    ensures room { stretches.RoomFor classes.new (length rows.now.marks.now) }
    ensures names { class.new ≡ class_names rows.now }
{
    part(rows, preds, classes, groups, firsts, links, touched);
    naming::name(classes.class, groups.seen, class);
}

// The same, with room of its own for the lists. Those that are lent stay apart: two of them go into `Classes`.
fn name_within<const ROOM: usize>(
    rows: &Marked,
    preds: &mut [u64],
    class: &mut [u16],
    number: &mut [u16],
    order: &mut [u16],
    touched: &mut [u64],
)
    requires named { Named_in rows.now }
    requires within { (length rows.now.marks.now ≤ ROOM) × (ROOM ≤ rows_most) }
    requires room { Room rows.now.cells.now preds.old class.old number.old order.old touched.old (length rows.now.marks.now) }
    ensures { class.new ≡ class_names rows.now }
{
    let n = rows.marks.len();
    let mut place = [0u16; ROOM];
    let mut start = [0u16; ROOM];
    let mut end = [0u16; ROOM];
    let mut seen = [0u16; ROOM];
    let mut prior = [0u16; ROOM];
    let mut last = [0u16; ROOM];
    let mut firsts = [0u16; ROOM];
    let mut links = [0u16; ROOM];
    let mut classes = Classes {
        order,
        place: &mut place[..n],
        class: number,
        start: &mut start[..n],
        end: &mut end[..n],
    };
    let mut groups = Groups {
        seen: &mut seen[..n],
        prior: &mut prior[..n],
        last: &mut last[..n],
    };
    name_in(
        rows,
        preds,
        class,
        &mut classes,
        &mut groups,
        &mut firsts[..n],
        &mut links[..n],
        touched,
    );
}

// Each row's class, named by its least row.
pub fn name(
    cells: &[u16],
    marks: &[u8],
    preds: &mut [u64],
    class: &mut [u16],
    number: &mut [u16],
    order: &mut [u16],
    touched: &mut [u64],
)
    requires grid { Grid (rows_of cells.now (length marks.now)) marks.now }
    requires room { Room cells.now preds.old class.old number.old order.old touched.old (length marks.now) }
    ensures { class.new ≡ classes (rows_of cells.now (length marks.now)) marks.now }
{
    let mut bytes = [0u8; 256];
    let many = columns::list(cells, marks.len(), &mut bytes);
    let rows = Marked {
        cells,
        marks,
        bytes: &bytes[..many],
    };
    if marks.len() <= FEW {
        name_within::<FEW>(&rows, preds, class, number, order, touched);
    } else {
        name_within::<ROWS>(&rows, preds, class, number, order, touched);
    }
}
