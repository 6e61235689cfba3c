// The way down a part's left parts, past rows and choices. The spine has the places of their operations, in the order of passing.
#![tactic(auto)]

ghost use Rattle.std.specs.Prelude.{◌≡◌, true, false, ◌+◌, ◌-◌, ◌^◌, ◌<◌, ◌≤◌, length};
ghost use Rattle.rules.specs.Sizes.{nodes_most};
ghost use Rattle.program.specs.Program.{program_most, operation_at};
ghost use Rattle.spine.specs.Parts.{Part};
ghost use Rattle.spine.specs.Spine.{joint, LeftOf, Down};

use kinds::Node;
use program::Op;

// The left part under the operation at i, by its end and its start node; `base` is the start node of both, and a choice's left part
// comes after S.
fn left_of(op: Op, i: usize, base: Node) -> Option<(usize, Node)>
    requires { ((joint op).two ≡ true → (joint op).right ≤ i) × (base.0 + 1 < 2 ^ 16) }
    ensures { LeftOf op i base.0 result }
{
    match op {
        Op::InRow(right) => Some((i - right as usize, base)),
        Op::Either(right) => Some((i - right as usize, Node(base.0 + 1))),
        _ => None,
    }
}

// The start node of a row or of a choice whose left part starts at `left`.
pub fn start_of(op: Op, left: Node) -> Node
    requires { (joint op).before ≤ left.0 }
    ensures { left.0 ≡ result.0 + (joint op).before }
{
    match op {
        Op::InRow(_) => left,
        _ => Node(left.0 - 1),
    }
}

// The part at which the way down ends, by its end and its start node, and how many operations were passed.
#[derive(Drop)]
pub struct Bottom {
    pub end: usize,
    pub start: Node,
    pub passed: usize,
}

// From the part that ends at `end` and starts at `base` down to one that is no row and no choice.
pub fn descend(program: &[u64], end: usize, spine: &mut [u16], base: Node) -> Bottom
    requires { Part program.now end × (end ≤ length program.now) × (end ≤ length spine.old) × (end ≤ program_most) × (base.0 < nodes_most) }
    ensures way { Down program.now spine.new result.passed end base.0 result.end result.start.0 }
    ensures whole { (joint (operation_at program.now (result.end - 1))).two ≡ false }
    ensures within { (1 ≤ result.end) × (result.end + result.passed ≤ end) }
{
    let mut at = end;
    let mut start = base;
    let mut passed = 0;
    while let Some((left_end, left_start)) = left_of(Op::from(program[at - 1]), at - 1, start) {
        spine[passed] = (at - 1) as u16;
        passed += 1;
        at = left_end;
        start = left_start;
    }
    Bottom {
        end: at,
        start,
        passed,
    }
}
