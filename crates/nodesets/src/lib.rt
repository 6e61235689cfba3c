// Sets of nodes in words of 64 bits: node v is bit v % 64 of word v / 64.
#![tactic(auto)]

ghost use Rattle.std.specs.Prelude.{◌≡◌, ℕ, ◌*◌, ◌≤◌, ◌<◌, length, get_or};
ghost use Rattle.rules.specs.Tools.{has, with};
ghost use Rattle.rules.specs.Tools as tools;
ghost use Rattle.nodesets.specs.NodeSets.{mask_of, meets, Within, doubled, TakenOut};

use kinds::Node;
use sets::TOP_BIT;

pub fn is_in(set: &[u64], v: Node) -> bool
    requires { v.0 < 64 * length set.now }
    ensures { result ≡ has (mask_of set.now) v.0 }
{
    sets::test(set, v.0 as usize)
}

pub fn put_in(set: &mut [u64], v: Node)
    requires { v.0 < 64 * length set.old }
    ensures { (length set.new ≡ length set.old) × (mask_of set.new ≡ with (mask_of set.old) v.0) }
{
    sets::put(set, v.0 as usize);
}

// Takes a node of word i, which is not 0, out of the set.
pub fn take_out(set: &mut [u64], i: usize) -> Node
    requires { (i < length set.old) × ((length set.old ≤ 1024) × (get_or set.old i 0 ≡ 0 → ⊥)) }
    ensures { TakenOut set.old set.new i result.0 }
{
    let word = set[i];
    let k = u64::trailing_zeros(word);
    set[i] = word - (1u64 << k);
    Node((64 * i + k as usize) as u16)
}

// The words of a set over those of another. No `copy_from_slice`, which asks the C library for memmove where it is not known that the
// two lists lie apart.
pub fn copy(out: &mut [u64], set: &[u64])
    requires { length out.old ≡ length set.now }
    ensures { out.new ≡ set.now }
{
    for (i, word) in set.iter().enumerate() {
        out[i] = *word;
    }
}

// The nodes that both sets have.
pub fn meet(out: &mut [u64], a: &[u64], b: &[u64])
    requires { (length out.old ≡ length a.now) × (length b.now ≡ length a.now) }
    ensures { out.new ≡ meets a.now b.now }
{
    for (i, word) in out.iter_mut().enumerate() {
        *word = a[i] & b[i];
    }
}

// The nodes that both sets have, where no word of `a` or `out` but those from `from` to `to` is in use; whether `out` had just these.
pub fn meet_again(out: &mut [u64], a: &[u64], b: &[u64], from: usize, to: usize) -> bool
    requires { (length out.old ≡ length a.now) × ((length b.now ≡ length a.now) × (Within from to a.now × Within from to out.old)) }
    ensures { (out.new ≡ meets a.now b.now) × (result ≡ tools.same out.old out.new) }
{
    let mut apart: u64 = 0;
    for i in from..to {
        let word = a[i] & b[i];
        apart |= out[i] ^ word;
        out[i] = word;
    }
    apart == 0
}

// The first word in use; the number of words where there is none.
pub fn first_used(set: &[u64]) -> usize
    ensures { (result ≤ length set.now) × ((i : ℕ) → i < result → get_or set.now i 0 ≡ 0) }
{
    set.iter().position(|word| *word != 0).unwrap_or(set.len())
}

// Where the words in use end, none of which is before `from`.
pub fn used_end(set: &[u64], from: usize) -> usize
    requires { from ≤ length set.now }
    ensures { (from ≤ result) × ((result ≤ length set.now) × ((i : ℕ) → result ≤ i → get_or set.now i 0 ≡ 0)) }
{
    for i in (from..set.len()).rev() {
        if set[i] != 0 {
            return i + 1;
        }
    }
    from
}

// The nodes after those of the set.
pub fn nodes_after(out: &mut [u64], set: &[u64])
    requires { length out.old ≡ length set.now }
    ensures { out.new ≡ doubled 0 set.now }
{
    let mut carry: u64 = 0;
    for (i, word) in set.iter().enumerate() {
        out[i] = word % TOP_BIT * 2 + carry;
        carry = word / TOP_BIT;
    }
}

// No `==`: that stops at a word that differs, and this looks at all of them side by side.
pub fn same(a: &[u64], b: &[u64]) -> bool
    requires { length a.now ≡ length b.now }
    ensures { result ≡ tools.same a.now b.now }
{
    let mut apart: u64 = 0;
    for (i, word) in a.iter().enumerate() {
        apart |= word ^ b[i];
    }
    apart == 0
}
