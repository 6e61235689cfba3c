// All starts, from the text's end to its beginning.
ghost use Rattle.std.specs.Prelude.{◌≡◌, ◌++◌, reverse, ◌+◌, ◌≤◌, length, drop};
ghost use Rattle.rules.specs.Table.{starts};
ghost use Rattle.table.specs.Lent.{lent_table};
ghost use Rattle.starts.specs.Back.{Pass, Looked};

use ahead::{Search, begin, flags_at_end};
use kinds::ROWS;

// The flags at the place `to`, and how many bytes walks have read since they were made.
#[derive(Drop)]
struct LookBack {
    flags: [bool; ROWS],
    to: usize,
    spent: usize,
}

impl LookBack {
    // At the text's end, ahead of any walk.
    fn begin(search: &Search<'_>) -> LookBack
        ensures { Pass (lent_table search.now.table) search.now.text.now result (length search.now.text.now + 1) }
    {
        LookBack {
            flags: flags_at_end(&search.table),
            to: search.text.len(),
            spent: 0,
        }
    }

    // Whether a start has a match. Once the walks have read as much as new flags can cost, new flags are made for this place: so all
    // walks together read at most about twice the text for each row, and at most twice what trying each start would read.
    fn look(&mut self, search: &Search<'_>, s: usize) -> bool
        requires { Pass (lent_table search.now.table) search.now.text.now self.old s × (s ≤ self.old.to) }
        ensures { Looked (lent_table search.now.table) search.now.text.now self.new s result }
    {
        let walk = search.look(&self.flags, begin(&search.table, s), s, self.to);
        self.spent += walk.steps;
        if (search.table.rows as usize) * (self.to - s) < self.spent {
            self.flags = search.flags_before(&self.flags, s, self.to);
            self.to = s;
            self.spent = 0;
        }
        walk.found
    }
}

// How many starts there are. `list_back` says so too, but asks at each start for a place of the list.
pub fn count_starts(search: &Search<'_>) -> usize
    ensures { result ≡ length (starts (lent_table search.now.table) search.now.text.now) }
{
    // a copy, so that what it holds stays in registers
    let search = *search;
    let n = search.text.len();
    let mut back = LookBack::begin(&search);
    let mut count = 0;
    for s in (0..n + 1).rev() {
        if back.look(&search, s) {
            count += 1;
        }
    }
    count
}

// How many starts there are. A list that has room for them has them in its first places, the last start first.
pub fn list_back(search: &Search<'_>, list: &mut [u32]) -> usize
    ensures value { result ≡ length (starts (lent_table search.now.table) search.now.text.now) }
    ensures list_after { result ≤ length list.old → list.new ≡ reverse (starts (lent_table search.now.table) search.now.text.now) ++ drop result list.old }
{
    // a copy, so that what it holds stays in registers
    let search = *search;
    let n = search.text.len();
    let mut back = LookBack::begin(&search);
    let mut count = 0;
    for s in (0..n + 1).rev() {
        if back.look(&search, s) {
            if count < list.len() {
                list[count] = s as u32;
            }
            count += 1;
        }
    }
    count
}

// The starts, ascending, into the first places of a list that has room for them; and how many.
pub fn list_starts(search: &Search<'_>, list: &mut [u32]) -> u32
    requires { length (starts (lent_table search.now.table) search.now.text.now) ≤ length list.old }
    ensures value { result ≡ length (starts (lent_table search.now.table) search.now.text.now) }
    ensures list_after { list.new ≡ starts (lent_table search.now.table) search.now.text.now ++ drop result list.old }
{
    let count = list_back(search, list);
    list[..count].reverse();
    count as u32
}
