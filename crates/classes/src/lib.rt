// Classes: members, ranges and named classes.
#![tactic(auto)]

ghost use Rattle.std.specs.Prelude.{◌≡◌, ◌≤◌, IsTrue, eqb, length};
ghost use Rattle.std.specs.List.{starts_with};
ghost use Rattle.rules.specs.Reader.{member, class};
ghost use Rattle.signs.specs.Answers.{value_of, Reads};
ghost use Rattle.bytesets.specs.ByteSets.{bytes_of};
ghost use Rattle.classes.specs.Classes.{class_of, with_name, with_range, with_item, all_items};

use bytesets::ByteSet;
use signs::count::stands_at;
use signs::escape::read_escape;

// A member, and the place after it: an escape, or any byte but `[`, `]`, `\` and `-`.
#[tactic(auto, using(signs::proofs::Places::onward), unfolding(rules::specs::Reader::member))]
fn read_member(p: &[u8], at: usize) -> Option<(u8, usize)>
    requires { at ≤ length p.now }
    ensures { Reads 1 member p.now at (value_of result) }
{
    match *p.get(at)? {
        b'\\' => read_escape(p, at + 1),
        b'[' | b']' | b'-' => None,
        c => Some((c, at + 1)),
    }
}

// Whether the name stands at the start of the bytes. No `starts_with`, which looks at all bytes of a name: most names part at their
// third.
fn spells(bytes: &[u8], name: &[u8]) -> bool
    ensures bound { IsTrue result → length name.now ≤ length bytes.now }
    ensures value { result ≡ starts_with eqb bytes.now name.now }
{
    if bytes.len() < name.len() {
        return false;
    }
    for (i, c) in name.iter().enumerate() {
        if bytes[i] != *c {
            return false;
        }
    }
    true
}

// The named class at `at`, added to set, and the place after it.
fn read_name(p: &[u8], at: usize, set: ByteSet) -> Option<(ByteSet, usize)>
    requires { at ≤ length p.now }
    ensures { Reads 1 (with_name (bytes_of set)) p.now at (class_of result) }
{
    let rest = &p[at..];
    if spells(rest, b"[:digit:]") {
        return Some((set.with_range(b'0', b'9'), at + 9));
    }
    if spells(rest, b"[:upper:]") {
        return Some((set.with_range(b'A', b'Z'), at + 9));
    }
    if spells(rest, b"[:lower:]") {
        return Some((set.with_range(b'a', b'z'), at + 9));
    }
    if spells(rest, b"[:alpha:]") {
        return Some((set.with_range(b'A', b'Z').with_range(b'a', b'z'), at + 9));
    }
    if spells(rest, b"[:alnum:]") {
        let letters = set.with_range(b'A', b'Z').with_range(b'a', b'z');
        return Some((letters.with_range(b'0', b'9'), at + 9));
    }
    if spells(rest, b"[:xdigit:]") {
        let digits = set.with_range(b'0', b'9');
        return Some((
            digits.with_range(b'A', b'F').with_range(b'a', b'f'),
            at + 10,
        ));
    }
    if spells(rest, b"[:space:]") {
        return Some((set.with_range(9, 13).with_range(32, 32), at + 9));
    }
    None
}

// After the member lo: the rest of a range, if there is one. Its bytes are added to set.
fn read_range(p: &[u8], at: usize, lo: u8, set: ByteSet) -> Option<(ByteSet, usize)>
    requires { at ≤ length p.now }
    ensures { Reads 0 (with_range lo (bytes_of set)) p.now at (class_of result) }
{
    if !stands_at(p, at, b'-') {
        return Some((set.with_range(lo, lo), at));
    }
    let (hi, next) = read_member(p, at + 1)?;
    if hi < lo {
        return None;
    }
    Some((set.with_range(lo, hi), next))
}

// The item at `at`, added to set.
#[tactic(auto, using(signs::proofs::Places::onward, crate::proofs::ClassLaws::item_member, crate::proofs::ClassLaws::item_name))]
fn read_item(p: &[u8], at: usize, set: ByteSet) -> Option<(ByteSet, usize)>
    requires { at ≤ length p.now }
    ensures { Reads 1 (with_item (bytes_of set)) p.now at (class_of result) }
{
    match read_member(p, at) {
        Some((lo, next)) => read_range(p, next, lo, set),
        None => read_name(p, at, set),
    }
}

// One or more items and a `]`.
fn read_items(p: &[u8], from: usize) -> Option<(ByteSet, usize)>
    requires { from ≤ length p.now }
    ensures { Reads 2 all_items p.now from (class_of result) }
{
    let mut at = from;
    let mut set = ByteSet::none();
    'items: loop {
        (set, at) = read_item(p, at, set)?;
        if stands_at(p, at, b']') {
            break 'items Some((set, at + 1));
        }
    }
}

// The bytes of the class whose `[` stands right before `at`, and the place after it.
#[tactic(auto, using(signs::proofs::Places::onward), unfolding(rules::specs::Reader::class))]
pub fn read_class(p: &[u8], at: usize) -> Option<(ByteSet, usize)>
    requires { at ≤ length p.now }
    ensures { Reads 2 class p.now at (class_of result) }
{
    if !stands_at(p, at, b'^') {
        return read_items(p, at);
    }
    let (set, next) = read_items(p, at + 1)?;
    let rest = set.rest();
    if rest.is_empty() {
        return None;
    }
    Some((rest, next))
}
