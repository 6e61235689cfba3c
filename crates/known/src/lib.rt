// Known sets: the rows from row 2 on by the nodes whose edges were taken to reach them, in buckets.
#![tactic(auto)]

ghost use Rattle.std.specs.Prelude.{◌≡◌, ◌+◌, ◌*◌, ◌≤◌, ◌<◌, length};
ghost use Rattle.rules.specs.Sizes.{words_a_row};
ghost use Rattle.rules.specs.Tools as tools;
ghost use Rattle.mixing.specs.Mixing.{buckets};
ghost use Rattle.nodesets.specs.NodeSets.{row_words, Within};
ghost use Rattle.known.specs.Known.{mixed_in, all_mixed, bucket_of, FoundAs, Knows, Stored, Took};

use kinds::{ROWS, Row, WORDS_A_ROW};
use mixing::{BUCKETS, bucket_of, mix};
use nodesets::{copy, same};

// The buckets, and that of the empty set.
pub const HEADS: usize = BUCKETS + 1;

// The words of a set that are in use: those from `from` on, before `to`.
#[derive(Clone, Copy)]
pub struct Used {
    pub from: usize,
    pub to: usize,
}

// How many rows there are, and how many there may be; the greatest row of each bucket, and for each row the next below it in its
// bucket. It is 0 where there is none: row 0 is never sought, and an Option would take twice the room to clear.
#[derive(Drop)]
pub struct Known {
    pub rows: usize,
    pub room: usize,
    pub heads: [u16; HEADS],
    pub nexts: [u16; ROWS],
}

// Word i of a set mixed in.
fn mix_in(h: u64, i: usize, word: u64) -> u64
    requires { i < words_a_row }
    ensures { result ≡ mixed_in h i word }
{
    if word == 0 {
        return h;
    }
    mix(h ^ word) + i as u64 * 2246822519
}

// The words in use mixed.
fn mix_all(words: &[u64], used: Used) -> u64
    requires { (length words.now ≤ words_a_row) × Within used.from used.to words.now }
    ensures { result ≡ all_mixed 0 0 words.now }
{
    let mut h: u64 = 0;
    for i in used.from..used.to {
        h = mix_in(h, i, words[i]);
    }
    h
}

// The bucket of a set.
fn bucket(words: &[u64], used: Used) -> usize
    requires { (length words.now ≤ words_a_row) × Within used.from used.to words.now }
    ensures { (result ≡ bucket_of words.now) × (result ≤ buckets) }
{
    let h = mix_all(words, used);
    if h == 0 {
        return BUCKETS;
    }
    bucket_of(h)
}

// Whether row r has the set. Word i is looked at first: it mostly tells sets apart.
fn has_set(sets: &[u64], r: usize, words: &[u64], i: usize) -> bool
    requires { (words_a_row * r + words_a_row ≤ length sets.now) × (length words.now ≤ words_a_row) }
    ensures { result ≡ tools.same (row_words (length words.now) sets.now r) words.now }
{
    let at = WORDS_A_ROW * r;
    if i < words.len() && sets[at + i] != words[i] {
        return false;
    }
    // No `==`: that stops at a word that differs, and this looks at all of them side by side.
    same(&sets[at..at + words.len()], words)
}

// Row r gets the set.
fn store(sets: &mut [u64], r: usize, words: &[u64])
    requires { (words_a_row * r + words_a_row ≤ length sets.old) × (length words.now ≤ words_a_row) }
    ensures { Stored (length words.now) sets.old sets.new r words.now }
{
    let at = WORDS_A_ROW * r;
    copy(&mut sets[at..at + words.len()], words);
}

impl Known {
    // The search for a known set, from the greatest row of its bucket k down, yields its row by break. Word i is looked at first.
    fn find(&self, sets: &[u64], words: &[u64], k: usize, i: usize) -> Option<Row>
        requires { Knows (length words.now) sets.now self.now × ((length words.now ≤ words_a_row) × ((k ≡ bucket_of words.now) × (k ≤ buckets))) }
        ensures { FoundAs (length words.now) sets.now self.now.rows words.now result }
    {
        let mut r = self.heads[k] as usize;
        loop {
            if r == 0 {
                break None;
            }
            if has_set(sets, r, words, i) {
                break Some(Row(r as u16));
            }
            r = self.nexts[r] as usize;
        }
    }

    // The row of the set, whose bucket is k, sought by its word i; if no row has it, it is listed after them.
    fn take_into(&mut self, sets: &mut [u64], words: &[u64], k: usize, i: usize) -> Option<Row>
        requires { Knows (length words.now) sets.old self.old × ((length words.now ≤ words_a_row) × ((k ≡ bucket_of words.now) × (k ≤ buckets))) }
        ensures { Took (length words.now) sets.old self.old words.now sets.new self.new result }
    {
        if let Some(r) = self.find(sets, words, k, i) {
            return Some(r);
        }
        let c = self.rows;
        if c == self.room {
            return None;
        }
        store(sets, c, words);
        self.nexts[c] = self.heads[k];
        self.heads[k] = c as u16;
        self.rows = c + 1;
        Some(Row(c as u16))
    }

    // The row of the set, listed where it is new; or that there is no room for it. No search for the empty set: its bucket has no
    // other.
    pub fn take_in(&mut self, sets: &mut [u64], words: &[u64], used: Used) -> Option<Row>
        requires { Knows (length words.now) sets.old self.old × ((length words.now ≤ words_a_row) × Within used.from used.to words.now) }
        ensures { Took (length words.now) sets.old self.old words.now sets.new self.new result }
    {
        let k = bucket(words, used);
        let r = self.heads[k];
        if k == BUCKETS && r != 0 {
            return Some(Row(r));
        }
        self.take_into(sets, words, k, used.from)
    }
}
