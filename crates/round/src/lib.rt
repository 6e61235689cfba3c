// Rows sorted into groups in a round: rows of one class that go to classes of the same keys are one group. Groups hang in buckets by a
// number mixed from the keys, so that a row is compared only with the first rows of its bucket's groups.
#![tactic(auto)]

ghost use Rattle.std.specs.Prelude.{◌≡◌, ◌+◌, ◌*◌, ◌≤◌, ◌<◌, length, set};
ghost use Rattle.chains.specs.Lent as chains;
ghost use Rattle.round.specs.Groups.{Ends, Touches};
ghost use Rattle.round.specs.Lent.{SameLists, Book_in, Firsts_in, Bucket_in, Sought_in, Filed_in, Passed_in, Sorted_in};

use crate::members::Members;
use chains::Groups;
use keys::Keys;
use mixing::BUCKETS;

mod members;

// The groups in their buckets. `firsts` has each group's first row, `heads` for each bucket one more than its latest group, and `links` for
// each group the same of the one before it in its bucket; 0 is none, where an Option would take twice the room to clear.
#[derive(Drop)]
struct Buckets<'r> {
    firsts: &'r mut [u16],
    heads: &'r mut [u16],
    links: &'r mut [u16],
    // How many rows are in groups, and how many groups there are.
    rows: usize,
    many: usize,
}

impl Buckets<'_> {
    // The group that row r goes with, sought from the latest of its bucket down.
    fn find(&self, keys: &Keys, bucket: usize, r: usize) -> Option<usize>
        requires row { (r < length keys.now.class.now) × Bucket_in keys.now bucket r }
        requires book { Book_in keys.now self.now × Firsts_in keys.now self.now }
        ensures { Sought_in result keys.now self.now r }
    {
        let mut x = self.heads[bucket] as usize;
        // A while: it goes from link to link.
        while x != 0 {
            let g = x - 1;
            let first = self.firsts[g] as usize;
            if keys.class[first] == keys.class[r] && keys.alike(first, r) {
                return Some(g);
            }
            x = self.links[g] as usize;
        }
        None
    }

    // Row r, which goes with no group, opens one.
    fn open(&mut self, keys: &Keys, groups: &mut Groups, bucket: usize, r: usize)
        requires row { (r < length keys.now.class.now) × Bucket_in keys.now bucket r × Sought_in None keys.now self.old r }
        requires before { Filed_in keys.now groups.old self.old r }
        ensures same_lists { SameLists self.old self.new × chains.SameLists groups.old groups.new }
        ensures after { Filed_in keys.now groups.new self.new (r + 1) }
        ensures seen { (self.new.rows ≡ self.old.rows + 1) × (groups.new.seen.now ≡ set groups.old.seen.now self.old.rows r) }
    {
        let g = self.many;
        self.firsts[g] = r as u16;
        self.links[g] = self.heads[bucket];
        self.heads[bucket] = (g + 1) as u16;
        groups.last[g] = 0;
        groups.join(self.rows, g, r);
        self.rows += 1;
        self.many += 1;
    }

    // Row r, which goes to a class that waits, joins the group that it goes with, or opens one.
    fn put_row(&mut self, keys: &Keys, groups: &mut Groups, bucket: usize, r: usize)
        requires row { (r < length keys.now.class.now) × Bucket_in keys.now bucket r }
        requires before { Filed_in keys.now groups.old self.old r }
        ensures same_lists { SameLists self.old self.new × chains.SameLists groups.old groups.new }
        ensures after { Filed_in keys.now groups.new self.new (r + 1) }
        ensures seen { (self.new.rows ≡ self.old.rows + 1) × (groups.new.seen.now ≡ set groups.old.seen.now self.old.rows r) }
    {
        let Some(g) = self.find(keys, bucket, r) else {
            return self.open(keys, groups, bucket, r);
        };
        groups.join(self.rows, g, r);
        self.rows += 1;
    }

    // Row r is put into a group if it goes to a class that waits, unless it is alone in its class.
    #[tactic(auto, using(crate::proofs::GroupLaws::passed_by))]
    fn sort_row(&mut self, keys: &Keys, start: &[u16], end: &[u16], groups: &mut Groups, r: usize)
        requires row { (r < length keys.now.class.now) × Ends keys.now.class.now start.now end.now }
        requires before { Filed_in keys.now groups.old self.old r }
        requires passed_before { Passed_in keys.now start.now end.now groups.old self.old r }
        ensures same_lists { SameLists self.old self.new × chains.SameLists groups.old groups.new }
        ensures after { Filed_in keys.now groups.new self.new (r + 1) }
        ensures passed_after { Passed_in keys.now start.now end.now groups.new self.new (r + 1) }
    {
        let c = keys.class[r] as usize;
        if end[c] - start[c] == 1 {
            return;
        }
        let Some(bucket) = keys.bucket(r) else {
            return;
        };
        self.put_row(keys, groups, bucket, r);
    }
}

// The rows that are touched in groups; how many groups there are.
pub fn sort(
    keys: &Keys,
    start: &[u16],
    end: &[u16],
    touched: &[u64],
    groups: &mut Groups,
    firsts: &mut [u16],
    links: &mut [u16],
) -> usize
    requires ends { Ends keys.now.class.now start.now end.now }
    requires room { chains.RoomFor groups.old (length keys.now.class.now)
        × (length firsts.old ≡ length keys.now.class.now) × (length links.old ≡ length keys.now.class.now) }
    requires touches { Touches keys.now.cells.now keys.now.class.now touched.now keys.now.from × (length keys.now.class.now ≤ 64 * length touched.now) }
    ensures same_lists { chains.SameLists groups.old groups.new }
    ensures room_kept { chains.RoomFor groups.new (length keys.now.class.now) }
    ensures sorted { Sorted_in keys.now start.now end.now groups.new result }
{
    let mut heads = [0u16; BUCKETS];
    let mut buckets = Buckets {
        firsts,
        heads: &mut heads,
        links,
        rows: 0,
        many: 0,
    };
    let rows = Members {
        set: touched,
        from: 0,
        n: keys.class.len(),
    };
    for r in rows {
        buckets.sort_row(keys, start, end, groups, r);
    }
    buckets.many
}
