// Rows sorted into groups by their marks.
#![tactic(auto)]

ghost use Rattle.std.specs.Prelude.{◌≡◌, ◌+◌, ◌≤◌, ◌<◌, length};
ghost use Rattle.rules.specs.Sizes.{rows_most};
ghost use Rattle.chains.specs.Lent.{SameLists, RoomFor};
ghost use Rattle.marks.specs.Lent.{MarkedTo_in, ByMarks_in};

use chains::Groups;

// Row r joins the group of its mark, or opens one; how many groups there are then. `group` has for each mark one more than its group, 0
// where it has none, in half the room that Options would take.
#[tactic(auto, using(crate::proofs::MarkLaws::row_joined, crate::proofs::MarkLaws::row_opened))]
fn sort_row(marks: &[u8], group: &mut [u16], groups: &mut Groups, count: usize, r: usize) -> usize
    requires room { (length marks.now ≤ rows_most) × RoomFor groups.old (length marks.now) × (r < length marks.now) }
    requires marked { MarkedTo_in marks.now group.old groups.old count r }
    ensures same_lists { SameLists groups.old groups.new }
    ensures room { RoomFor groups.new (length marks.now) }
    ensures marked { MarkedTo_in marks.now group.new groups.new result (r + 1) }
{
    let m = marks[r] as usize;
    let g = group[m] as usize;
    if g == 0 {
        group[m] = (count + 1) as u16;
        groups.last[count] = 0;
        groups.join(r, count, r);
        return count + 1;
    }
    groups.join(r, g - 1, r);
    count
}

// All rows in groups by their marks; how many groups there are.
pub fn sort(marks: &[u8], groups: &mut Groups) -> usize
    requires { (length marks.now ≤ rows_most) × RoomFor groups.old (length marks.now) }
    ensures same_lists { SameLists groups.old groups.new }
    ensures room { RoomFor groups.new (length marks.now) }
    ensures by_marks { ByMarks_in marks.now groups.new result }
{
    let mut group = [0u16; 256];
    let mut count: usize = 0;
    for r in 0..marks.len() {
        count = sort_row(marks, &mut group, groups, count, r);
    }
    count
}
