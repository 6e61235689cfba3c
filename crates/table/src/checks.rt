// What every matcher asks first of what it is lent.
ghost use Rattle.std.specs.Prelude.{◌≡◌, MatchResult};
ghost use Rattle.table.specs.Lent.{lent_table};
ghost use Rattle.table.specs.Checks.{IsTurnedAway, Passed};

use crate::Lent;
use kinds::{Refusal, TEXT_MOST};

// A table that is well formed, and a text within the limit.
#[derive(Clone, Copy)]
pub struct Checked<'t> {
    pub table: Lent<'t>,
    pub text: &'t [u8],
    pub ghost passed: { Passed (lent_table table) text.now },
}

impl<'t> Checked<'t> {
    // Refusal 13, then 12.
    pub fn of(table: &Lent<'t>, text: &'t [u8]) -> Result<Checked<'t>, Refusal>
        ensures { MatchResult result (λ checked. (checked.table ≡ table.now) × (checked.text.now ≡ text.now)) (IsTurnedAway (lent_table table.now) text.now) }
    {
        if !table.is_well_formed() {
            return Err(Refusal::NotFormed);
        }
        if TEXT_MOST < text.len() {
            return Err(Refusal::LongText);
        }
        Ok(Checked {
            table: *table,
            text,
        })
    }
}
