// The runs of a row's cells: bytes beside each other that lead to one row.
ghost use Rattle.std.specs.Prelude.{◌≡◌, ◌≤◌, ◌<◌, length};
ghost use Rattle.writing.specs.Runs.{RunEnds};

use kinds::Row;

// The bytes from lo to hi lead to one row.
#[derive(Clone, Copy)]
pub struct Run {
    pub lo: u8,
    pub hi: u8,
    pub to: Row,
}

// The runs of a row's cells from a byte on.
#[derive(Drop)]
pub struct Runs<'c> {
    pub cells: &'c [u16],
    pub from: usize,
    ghost of_bytes: { length cells.now ≤ 256 },
}

// The last place of the longest run that begins at a place.
pub fn run_end(cells: &[u16], lo: usize) -> usize
    requires { lo < length cells.now }
    ensures { RunEnds cells.now lo result }
{
    for hi in lo..cells.len() - 1 {
        if cells[hi + 1] != cells[lo] {
            return hi;
        }
    }
    cells.len() - 1
}

impl<'c> Runs<'c> {
    ghost use Rattle.rules.specs.Listing.{runs};
    ghost use Rattle.writing.specs.RunsLeft.{runs_left};

    pub fn of(cells: &'c [u16]) -> Runs<'c>
        requires { length cells.now ≡ 256 }
        ensures { runs_left result ≡ runs cells.now }
    {
        Runs { cells, from: 0 }
    }
}

impl Iterator for Runs<'_> {
    ghost use Rattle.std.specs.Iterator.{YieldsFirstBy, item_count};
    ghost use Rattle.writing.specs.RunsLeft.{run_view, runs_left};

    type Item = Run;

    ghost next_gives = { YieldsFirstBy run_view runs_left };

    ghost remaining = { item_count runs_left };

    fn next(&mut self) -> Option<Run> {
        let lo = self.from;
        if self.cells.len() <= lo {
            return None;
        }
        let hi = run_end(self.cells, lo);
        self.from = hi + 1;
        Some(Run {
            lo: lo as u8,
            hi: hi as u8,
            to: Row(self.cells[lo]),
        })
    }
}
