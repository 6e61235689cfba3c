// Classes cut by groups of rows, which are rows of one class each.
#![tactic(auto)]

ghost use Rattle.std.specs.Prelude.{◌≡◌, ◌<◌, length};
ghost use Rattle.chains.specs.Lent.{Grouped_in};
ghost use Rattle.stretches.specs.Lent.{SameLists};
ghost use Rattle.cutting.specs.Lent.{Standing_in, CutOff_in, CutTo_in};

use chains::Groups;
use stretches::Classes;

// The rows of group g, of `count` groups, go to the end of their class's stretch, and are cut off there; how many classes there are then.
#[tactic(auto, using(crate::proofs::MoveLaws::first, crate::proofs::MoveLaws::next))]
fn cut_group(classes: &mut Classes, groups: &Groups, count: usize, g: usize, many: usize) -> usize
    requires standing { Standing_in classes.old (length classes.old.order.now) many }
    requires grouped { Grouped_in classes.old.class.now groups.now (length classes.old.order.now) count × (g < count) }
    ensures same_lists { SameLists classes.old classes.new }
    ensures stands { Standing_in classes.new (length classes.old.order.now) result }
    ensures cut_off { CutOff_in classes.old classes.new groups.now (length classes.old.order.now) count g many result }
{
    let mut x = groups.last[g] as usize;
    let r = groups.seen[x - 1] as usize;
    let c = classes.class[r] as usize;
    let mut at = classes.end[c] as usize;
    // A while: from link to link.
    while x != 0 {
        let s = groups.seen[x - 1] as usize;
        at -= 1;
        classes.swap(s, at);
        x = groups.prior[x - 1] as usize;
    }
    classes.cut(c, at, many)
}

// Rows of one class stay together if they are of one of `count` groups, or of none; how many classes there are then.
pub fn cut_groups(classes: &mut Classes, groups: &Groups, count: usize, many: usize) -> usize
    requires standing { Standing_in classes.old (length classes.old.order.now) many }
    requires grouped { Grouped_in classes.old.class.now groups.now (length classes.old.order.now) count }
    ensures same_lists { SameLists classes.old classes.new }
    ensures stands { Standing_in classes.new (length classes.old.order.now) result }
    ensures cut { CutTo_in classes.old classes.new groups.now (length classes.old.order.now) count many result }
{
    let mut total = many;
    for g in 0..count {
        total = cut_group(classes, groups, count, g, total);
    }
    total
}
