// Rounds until no class waits: a round cuts classes by what leads to a class that waits, and the new classes wait for the next. Of a class
// that is cut the longest part keeps its number, so that no row waits often.
#![tactic(auto)]

ghost use Rattle.std.specs.Prelude.{◌≤◌, ◌<◌, length};
ghost use Rattle.chains.specs.Lent as chains;
ghost use Rattle.stretches.specs.Lent as stretches;
ghost use Rattle.cutting.specs.Lent.{Standing_in};
ghost use Rattle.settling.specs.Lent.{Drawn_in, Scratch_in, Sorted_in, Refined_in, Settled_in};

use chains::Groups;
use cutting::cut_groups;
use keys::Keys;
use leads::touched;
use stretches::Classes;

// Where rows lead: their cells, the first bytes of their columns, and the rows that lead to each.
#[derive(Clone, Copy)]
pub struct Paths<'r> {
    pub cells: &'r [u16],
    pub bytes: &'r [u8],
    pub preds: &'r [u64],
}

// The rows that lead to a class that waits, in groups; how many groups there are.
// `firsts` and `links` stay apart: two parts of a struct behind a `&mut` can't be lent on in one call.
fn sort(
    paths: &Paths,
    classes: &Classes,
    groups: &mut Groups,
    firsts: &mut [u16],
    links: &mut [u16],
    touched: &mut [u64],
    from: usize,
    many: usize,
) -> usize
    requires drawn { Drawn_in paths.now (length classes.now.order.now) }
    requires scratch { Scratch_in groups.old firsts.old links.old touched.old (length classes.now.order.now) }
    requires standing { Standing_in classes.now (length classes.now.order.now) many × (0 < from) × (from ≤ many) }
    ensures same_lists { chains.SameLists groups.old groups.new }
    ensures room { chains.RoomFor groups.new (length classes.now.order.now) }
    ensures sorted { Sorted_in paths.now classes.now groups.new from result }
{
    touched::list(
        classes.order,
        classes.start,
        classes.end,
        paths.preds,
        from,
        many,
        touched,
    );
    let keys = Keys {
        cells: paths.cells,
        class: classes.class,
        bytes: paths.bytes,
        from: from as u16,
    };
    round::sort(
        &keys,
        classes.start,
        classes.end,
        touched,
        groups,
        firsts,
        links,
    )
}

// One round; how many classes there are then.
fn cut_round(
    paths: &Paths,
    classes: &mut Classes,
    groups: &mut Groups,
    firsts: &mut [u16],
    links: &mut [u16],
    touched: &mut [u64],
    from: usize,
    many: usize,
) -> usize
    requires drawn { Drawn_in paths.now (length classes.old.order.now) }
    requires scratch { Scratch_in groups.old firsts.old links.old touched.old (length classes.old.order.now) }
    requires standing { Standing_in classes.old (length classes.old.order.now) many × (0 < from) × (from ≤ many) }
    ensures same_lists { stretches.SameLists classes.old classes.new × chains.SameLists groups.old groups.new }
    ensures room { chains.RoomFor groups.new (length classes.old.order.now) }
    ensures stands { Standing_in classes.new (length classes.old.order.now) result }
    ensures refined { Refined_in paths.now classes.old classes.new from many × (many ≤ result) }
{
    let count = sort(paths, classes, groups, firsts, links, touched, from, many);
    cut_groups(classes, groups, count, many)
}

// Rounds until no class waits; at first each of the `many` classes but one does.
pub fn settle(
    paths: &Paths,
    classes: &mut Classes,
    groups: &mut Groups,
    firsts: &mut [u16],
    links: &mut [u16],
    touched: &mut [u64],
    many: usize,
)
    requires drawn { Drawn_in paths.now (length classes.old.order.now) }
    requires scratch { Scratch_in groups.old firsts.old links.old touched.old (length classes.old.order.now) }
    requires standing { Standing_in classes.old (length classes.old.order.now) many × (1 ≤ many) }
    ensures same_lists { stretches.SameLists classes.old classes.new × chains.SameLists groups.old groups.new }
    ensures room { stretches.RoomFor classes.new (length classes.old.order.now) × chains.RoomFor groups.new (length classes.old.order.now) }
    ensures settled { Settled_in paths.now classes.old classes.new (length classes.old.order.now) }
{
    let mut total = many;
    let mut from: usize = 1;
    // A while: each round goes on from where the last one ended.
    while from < total {
        let next = cut_round(paths, classes, groups, firsts, links, touched, from, total);
        from = total;
        total = next;
    }
}
