// What tells the rows of a class apart in a round: the classes that they go to, where these wait.
#![tactic(auto)]

ghost use Rattle.std.specs.Prelude.{◌≡◌, ◌<◌, length};
ghost use Rattle.columns.specs.Columns.{Columns};
ghost use Rattle.grid.specs.Rows.{Rows};
ghost use Rattle.keys.specs.Keys.{Bucket, BucketOf, Busy, Tells, key_on, mixed_in};

use grid::goes_to;
use mixing::{bucket_of, mix};

// The key of a class that waits is mixed in, with the byte that leads there.
#[tactic(auto, unfolding(crate::specs::Keys::mixed_in))]
fn mix_in(h: u64, b: u8, x: u16) -> u64
    ensures { result ≡ mixed_in h b x }
{
    if x == 0 {
        return h;
    }
    mix(h) + (b as u64 * 65536 + x as u64)
}

// The rows in their classes, of which those from the number `from` on wait, and the first bytes of the rows' columns.
#[derive(Clone, Copy)]
pub struct Keys<'r> {
    pub cells: &'r [u16],
    pub class: &'r [u16],
    pub bytes: &'r [u8],
    pub from: u16,
    pub ghost rows: { Rows cells.now (length class.now) },
    pub ghost columns: { ∥ Columns cells.now bytes.now (length class.now) ∥₁ },
}

// Whether a row goes to a class that waits, and its bucket. No Option: the bucket is told of any row.
#[derive(Clone, Copy)]
pub struct Mixed {
    pub any: bool,
    pub bucket: usize,
}

impl Keys<'_> {
    // The key of the class that row r goes to on the byte b: its number if it waits, else 0.
    #[tactic(auto, unfolding(crate::specs::Keys::key))]
    fn key_on(&self, r: usize, b: u8) -> u16
        requires { r < length self.now.class.now }
        ensures { result ≡ key_on self.now.cells.now self.now.class.now self.now.from r b }
    {
        let x = self.class[goes_to(self.cells, self.class.len(), r, b)];
        if x < self.from { 0 } else { x }
    }

    // Rows p and q go to classes of one key on each column.
    pub fn alike(&self, p: usize, q: usize) -> bool
        requires { (p < length self.now.class.now) × (q < length self.now.class.now) }
        ensures { Tells result self.now.cells.now self.now.class.now self.now.from p q }
    {
        for b in self.bytes {
            if self.key_on(p, *b) != self.key_on(q, *b) {
                return false;
            }
        }
        true
    }

    // The keys of row r, mixed with its class.
    pub fn mixed(&self, r: usize) -> Mixed
        requires { r < length self.now.class.now }
        ensures busy { Busy result.any self.now.cells.now self.now.class.now self.now.from r }
        ensures bucket { BucketOf result.bucket self.now.cells.now self.now.class.now self.now.from self.now.bytes.now r }
    {
        let mut any = false;
        let mut h: u64 = 0;
        for b in self.bytes {
            let x = self.key_on(r, *b);
            any = any | (x != 0);
            h = mix_in(h, *b, x);
        }
        let bucket = bucket_of(mix(h) + self.class[r] as u64);
        Mixed { any, bucket }
    }

    // The bucket of row r if it goes to a class that waits.
    pub fn bucket(&self, r: usize) -> Option<usize>
        requires { r < length self.now.class.now }
        ensures { Bucket result self.now.cells.now self.now.class.now self.now.from self.now.bytes.now r }
    {
        let mixed = self.mixed(r);
        if mixed.any { Some(mixed.bucket) } else { None }
    }
}
