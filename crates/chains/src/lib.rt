// Groups of rows, each in a chain.
#![tactic(auto)]

ghost use Rattle.std.specs.Prelude.{◌≡◌, ◌+◌, ◌<◌, length, get_or, set};
ghost use Rattle.rules.specs.Sizes.{rows_most};
ghost use Rattle.chains.specs.Lent.{SameLists};

// `seen` has rows, `last` for each group one more than the place in `seen` of its last row, and `prior` for each place the same of the row
// before it in its group; 0 ends a chain, where an Option would take twice the room to clear.
#[derive(Drop)]
pub struct Groups<'r> {
    pub seen: &'r mut [u16],
    pub prior: &'r mut [u16],
    pub last: &'r mut [u16],
}

impl Groups<'_> {
    // Row r joins group g, after `count` rows that were seen.
    pub fn join(&mut self, count: usize, g: usize, r: usize)
        requires { (count < length self.old.seen.now) × (count < length self.old.prior.now) × (g < length self.old.last.now) × (count < rows_most) × (r < rows_most) }
        ensures same_lists { SameLists self.old self.new }
        ensures seen { self.new.seen.now ≡ set self.old.seen.now count r }
        ensures prior { self.new.prior.now ≡ set self.old.prior.now count (get_or self.old.last.now g 0) }
        ensures last { self.new.last.now ≡ set self.old.last.now g (count + 1) }
    {
        self.seen[count] = r as u16;
        self.prior[count] = self.last[g];
        self.last[g] = (count + 1) as u16;
    }
}
