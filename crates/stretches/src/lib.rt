// Classes of rows as stretches of one list.
#![tactic(auto)]

ghost use Rattle.std.specs.Prelude.{◌≡◌, ◌+◌, ◌≤◌, ◌<◌, length, set};
ghost use Rattle.rules.specs.Sizes.{rows_most};
ghost use Rattle.stretches.specs.Stretches.{Once, Renumbered};
ghost use Rattle.stretches.specs.Lent.{SameLists, RoomFor, Unmoved, EndsKept, ClassesKept, LinedUp, Placed_in, Swapped_in, Stretches_in, Inside_in, CutAt_in};

// `order` has the rows, those of a class side by side, and `place` where each row stands. Class c has the rows at the places from start[c]
// to end[c], and `class` has each row's class. Cutting a class leaves its longer part its number.
#[derive(Drop)]
pub struct Classes<'r> {
    pub order: &'r mut [u16],
    pub place: &'r mut [u16],
    pub class: &'r mut [u16],
    pub start: &'r mut [u16],
    pub end: &'r mut [u16],
}

impl Classes<'_> {
    // The rows in order, each of class 0.
    fn line_up(&mut self)
        requires { (length self.old.order.now ≤ rows_most) × RoomFor self.old (length self.old.order.now) }
        ensures same_lists { SameLists self.old self.new }
        ensures lined_up { LinedUp self.new (length self.old.order.now) }
        ensures ends_kept { EndsKept self.old self.new }
    {
        for r in 0..self.order.len() {
            self.order[r] = r as u16;
            self.place[r] = r as u16;
        }
        self.class.fill(0);
    }

    // All rows as one class.
    pub fn begin(&mut self)
        requires { (0 < length self.old.order.now) × (length self.old.order.now ≤ rows_most) × RoomFor self.old (length self.old.order.now) }
        ensures same_lists { SameLists self.old self.new }
        ensures one_class { Placed_in self.new (length self.old.order.now) × Stretches_in self.new (length self.old.order.now) 1 }
    {
        self.line_up();
        self.start[0] = 0;
        self.end[0] = self.order.len() as u16;
    }

    // Row r and the row at place p change places.
    pub fn swap(&mut self, r: usize, p: usize)
        requires { Placed_in self.old (length self.old.order.now) × (r < length self.old.order.now) × (p < length self.old.order.now) }
        ensures same_lists { SameLists self.old self.new }
        ensures swapped { Swapped_in self.old self.new (length self.old.order.now) r p }
        ensures classes_kept { ClassesKept self.old self.new }
    {
        let q = self.place[r] as usize;
        let s = self.order[p] as usize;
        self.order[q] = s as u16;
        self.place[s] = q as u16;
        self.order[p] = r as u16;
        self.place[r] = p as u16;
    }

    // The rows at the places from `from` to `to` become class z.
    fn renumber(&mut self, from: usize, to: usize, z: u16)
        requires { Once self.old.order.now self.old.class.now × ((from ≤ to) × (to ≤ length self.old.order.now)) }
        ensures same_lists { SameLists self.old self.new }
        ensures kept { Unmoved self.old self.new × EndsKept self.old self.new }
        ensures renumbered { Renumbered self.old.order.now self.old.class.now self.new.class.now (length self.old.order.now) from to z }
    {
        for p in from..to {
            let r = self.order[p] as usize;
            self.class[r] = z;
        }
    }

    // The rows at the places from `from` to `to` become class `many`, of that stretch.
    fn name(&mut self, from: usize, to: usize, many: usize)
        requires once { Once self.old.order.now self.old.class.now }
        requires places { (from ≤ to) × (to ≤ length self.old.order.now) }
        requires room { (many < length self.old.start.now) × (many < length self.old.end.now) × (many < rows_most) }
        ensures same_lists { SameLists self.old self.new }
        ensures unmoved { Unmoved self.old self.new }
        ensures renumbered { Renumbered self.old.order.now self.old.class.now self.new.class.now (length self.old.order.now) from to many }
        ensures start { self.new.start.now ≡ set self.old.start.now many from }
        ensures end { self.new.end.now ≡ set self.old.end.now many to }
    {
        self.start[many] = from as u16;
        self.end[many] = to as u16;
        self.renumber(from, to, many as u16);
    }

    // Class c is cut at a place of its stretch, and the shorter part becomes class `many`; how many classes there are then.
    pub fn cut(&mut self, c: usize, at: usize, many: usize) -> usize
        requires { Stretches_in self.old (length self.old.order.now) many × Inside_in self.old c at many }
        ensures same_lists { SameLists self.old self.new }
        ensures stretches { Stretches_in self.new (length self.old.order.now) result }
        ensures cut { CutAt_in self.old self.new (length self.old.order.now) c at many result }
        ensures unmoved { Unmoved self.old self.new }
    {
        let from = self.start[c] as usize;
        let to = self.end[c] as usize;
        if at == from || at == to {
            return many;
        }
        if to - at <= at - from {
            self.end[c] = at as u16;
            self.name(at, to, many);
            return many + 1;
        }
        self.start[c] = at as u16;
        self.name(from, at, many);
        many + 1
    }
}
