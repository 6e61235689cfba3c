// The fragments of the construction. Each builder begins at the node `base`, answers the fragment's end node, and leaves that node's
// entry to its caller; where there are too many nodes it answers none. A part of the program is named by its end. Calls nest only as deep
// as groups do: the way down the left parts, which is as long as a row or a choice, is kept on the lent spine, and each right part is lent
// what is left of it. No struct of the parameters: the end, the base and the lent part of the spine differ from call to call, and what is
// left in the nodes has to be known after each.
ghost use Rattle.std.specs.Prelude.{◌≡◌, false, ◌+◌, ◌-◌, ◌<◌, ◌≤◌, ◌↔◌, IsTrue, length};
ghost use Rattle.rules.specs.Sizes.{nodes_most};
ghost use Rattle.rules.specs.Nodes.{forked, around, all_joined, repeatedly};
ghost use Rattle.signs.specs.Answers.{repeat_of};
ghost use Rattle.program.specs.Program.{operation_at};
ghost use Rattle.spine.specs.Spine.{joint};
ghost use Rattle.entries.specs.Entries.{entry};
ghost use Rattle.nodes.specs.Fragments.{Binds, Ready, Builds, copies_of, copy_of, Fewer};

use entries::{Entry, Kind, link, next, put};
use kinds::{NODES, NODES_MOST, Node};
use program::Op;
use signs::count::Repeat;
use spine::{descend, start_of};

// A node with empty edges to a and to b.
fn empties(a: Node, b: Node) -> Entry
    ensures { result ≡ entry Kind.Empty a.0 b.0 0 }
{
    Entry {
        kind: Kind::Empty,
        to1: a,
        to2: b,
        atom: 0,
    }
}

// X|Y: S to both starts, both ends to E.
fn fork(nodes: &mut [Entry; NODES], base: Node, x_end: Node, y_end: Node) -> Option<Node>
    requires { (base.0 < nodes_most) × (x_end.0 < nodes_most) × (y_end.0 < nodes_most) }
    ensures { Binds forked base.0 (base.0 + 1) x_end.0 y_end.0 nodes.old nodes.new result }
{
    let e = next(y_end)?;
    let x = Node(base.0 + 1);
    let y = Node(x_end.0 + 1);
    put(nodes, base, empties(x, y));
    put(nodes, x_end, empties(e, e));
    put(nodes, y_end, empties(e, e));
    Some(e)
}

// X and Y in a row, an empty edge from X's end to Y's start; or X|Y.
fn combine(op: Op, nodes: &mut [Entry; NODES], base: Node, x_end: Node, y_end: Node) -> Option<Node>
    requires { (base.0 < nodes_most) × (x_end.0 < nodes_most) × (y_end.0 < nodes_most) }
    ensures { Binds (joint op).makes base.0 (base.0 + (joint op).before) x_end.0 y_end.0 nodes.old nodes.new result }
{
    match op {
        Op::InRow(_) => {
            let y = Node(x_end.0 + 1);
            put(nodes, x_end, empties(y, y));
            Some(y_end)
        }
        _ => fork(nodes, base, x_end, y_end),
    }
}

// The part that ends at `end`: down its left parts to the last, which is built first, and then up again, past each right part.
#[cycle(building)]
pub fn build_part(
    program: &[u64],
    end: usize,
    spine: &mut [u16],
    nodes: &mut [Entry; NODES],
    base: Node,
) -> Option<Node>
    requires { (end ≤ length spine.old) × Ready program.now end base.0 }
    ensures { Builds program.now end (λ X. X) base.0 nodes.old nodes.new result }
{
    let bottom = descend(program, end, spine, base);
    let mut start = bottom.start;
    if NODES_MOST <= start.0 {
        return None;
    }
    let mut last = build_bottom(
        program,
        bottom.end,
        &mut spine[bottom.passed..],
        nodes,
        start,
    )?;
    for up in (0..bottom.passed).rev() {
        let i = spine[up] as usize;
        let y_end = build_after(program, i, &mut spine[up..], nodes, last)?;
        let op = Op::from(program[i]);
        start = start_of(op, start);
        last = combine(op, nodes, start, last, y_end)?;
    }
    Some(last)
}

// A part that is no row and no choice.
#[cycle(building)]
fn build_bottom(
    program: &[u64],
    end: usize,
    spine: &mut [u16],
    nodes: &mut [Entry; NODES],
    base: Node,
) -> Option<Node>
    requires { ((joint (operation_at program.now (end - 1))).two ≡ false) × (end ≤ length spine.old) × Ready program.now end base.0 }
    ensures { Builds program.now end (λ X. X) base.0 nodes.old nodes.new result }
{
    let i = end - 1;
    match Op::from(program[i]) {
        Op::Nothing => link(nodes, base, Kind::Empty, 0),
        Op::Head => link(nodes, base, Kind::Head, 0),
        Op::Tail => link(nodes, base, Kind::Tail, 0),
        Op::Repeated(sign) => build_repeat(program, i, sign, spine, nodes, base),
        _ => link(nodes, base, Kind::Bytes, i as u16),
    }
}

// A part from the node after `before` on.
#[cycle(building)]
fn build_after(
    program: &[u64],
    end: usize,
    spine: &mut [u16],
    nodes: &mut [Entry; NODES],
    before: Node,
) -> Option<Node>
    requires { (end ≤ length spine.old) × Ready program.now end before.0 }
    ensures { Builds program.now end (λ X. X) (before.0 + 1) nodes.old nodes.new result }
{
    let base = next(before)?;
    build_part(program, end, spine, nodes, base)
}

// A repeat: S to X's start, X's end to E; perhaps S to E, and perhaps X's end back to X's start.
#[cycle(building)]
fn build_around(
    program: &[u64],
    end: usize,
    skip: bool,
    back: bool,
    spine: &mut [u16],
    nodes: &mut [Entry; NODES],
    base: Node,
) -> Option<Node>
    requires { (end ≤ length spine.old) × Ready program.now end base.0 }
    ensures { Builds program.now end (around skip back) base.0 nodes.old nodes.new result }
{
    let x_end = build_after(program, end, spine, nodes, base)?;
    let e = next(x_end)?;
    let x = Node(base.0 + 1);
    put(nodes, base, empties(x, if skip { e } else { x }));
    put(nodes, x_end, empties(e, if back { x } else { e }));
    Some(e)
}

// Copies that are still to be built: of X, and then of a repeat of X that may be skipped.
#[derive(Clone, Copy)]
struct Copies {
    plain: u16,
    extra: u16,
}

impl Copies {
    fn none(self) -> bool
        ensures { IsTrue result ↔ (self.plain + self.extra ≡ 0) }
    {
        self.plain == 0 && self.extra == 0
    }

    // One less.
    fn rest(self) -> Copies
        requires { 0 < self.plain + self.extra }
        ensures { Fewer self result }
    {
        if 0 < self.plain {
            Copies {
                plain: self.plain - 1,
                ..self
            }
        } else {
            Copies {
                extra: self.extra - 1,
                ..self
            }
        }
    }
}

// A part with a repeat sign.
#[cycle(building)]
fn build_repeat(
    program: &[u64],
    end: usize,
    sign: Repeat,
    spine: &mut [u16],
    nodes: &mut [Entry; NODES],
    base: Node,
) -> Option<Node>
    requires { (end ≤ length spine.old) × Ready program.now end base.0 }
    ensures { Builds program.now end (repeatedly (repeat_of sign)) base.0 nodes.old nodes.new result }
{
    match sign {
        Repeat::Star => build_around(program, end, true, true, spine, nodes, base),
        Repeat::Plus => build_around(program, end, false, true, spine, nodes, base),
        Repeat::Maybe => build_around(program, end, true, false, spine, nodes, base),
        Repeat::Times(plain, extra) => {
            build_copies(
                program,
                end,
                Copies { plain, extra },
                false,
                spine,
                nodes,
                base,
            )
        }
        Repeat::AtLeast(plain) => {
            build_copies(
                program,
                end,
                Copies { plain, extra: 1 },
                true,
                spine,
                nodes,
                base,
            )
        }
    }
}

// The next of the copies.
#[cycle(building)]
fn build_copy(
    program: &[u64],
    end: usize,
    copies: Copies,
    back: bool,
    spine: &mut [u16],
    nodes: &mut [Entry; NODES],
    base: Node,
) -> Option<Node>
    requires { (end ≤ length spine.old) × Ready program.now end base.0 }
    ensures { Builds program.now end (copy_of copies.plain back) base.0 nodes.old nodes.new result }
{
    if 0 < copies.plain {
        build_part(program, end, spine, nodes, base)
    } else {
        build_around(program, end, true, back, spine, nodes, base)
    }
}

// Copies in a row; none of them is one empty branch.
#[cycle(building)]
fn build_copies(
    program: &[u64],
    end: usize,
    copies: Copies,
    back: bool,
    spine: &mut [u16],
    nodes: &mut [Entry; NODES],
    base: Node,
) -> Option<Node>
    requires { (end ≤ length spine.old) × Ready program.now end base.0 }
    ensures { Builds program.now end (λ X. all_joined (copies_of copies.plain copies.extra back X)) base.0 nodes.old nodes.new result }
{
    if copies.none() {
        return link(nodes, base, Kind::Empty, 0);
    }
    let mut left = copies;
    let mut at = base;
    loop {
        let end_node = build_copy(program, end, left, back, spine, nodes, at)?;
        left = left.rest();
        if left.none() {
            return Some(end_node);
        }
        at = link(nodes, end_node, Kind::Empty, 0)?;
    }
}
