// First, and first as a part of the text, of anything that is lent. No text makes them quadratic.
#![tactic(auto)]

ghost use Rattle.std.specs.Prelude.{◌≡◌};
ghost use Rattle.rules.specs.Table as rule;
ghost use Rattle.rules.specs.Matchers.{first_answer, part_answer};
ghost use Rattle.table.specs.Lent.{lent_table};
ghost use Rattle.answers.specs.Answers.{first_of};
ghost use Rattle.passing.specs.Run.{found_of};
ghost use Rattle.first.specs.Parts.{HandsBack};

use ahead::Search;
use kinds::Refusal;
use passing::read_on;
use table::{Checked, Lent};
use tries::{Tried, last_match, try_each};

mod tries;

// First: by trying each start, or where that gets dear, with the list of rows from there on.
fn find(checked: &Checked<'_>) -> Option<(u32, u32)>
    ensures { found_of result ≡ rule.first (lent_table checked.now.table) checked.now.text.now }
{
    let search = Search::of(checked);
    match try_each(&search) {
        Tried::Start(s) => last_match(&search, s),
        Tried::NoneBelow(s) => {
            if search.text.len() < s {
                return None;
            }
            read_on(&search, s)
        }
    }
}

// First, of anything that is lent.
#[tactic(auto, using(table::proofs::CheckLaws::turned_away), unfolding(rules::specs::Matchers::first_answer))]
pub fn first(table: &Lent<'_>, text: &[u8]) -> Result<Option<(u32, u32)>, Refusal>
    ensures { first_of result ≡ first_answer (lent_table table.now) text.now }
{
    Ok(find(&Checked::of(table, text)?))
}

// First as a part of the text itself, borrowed from the text and never from the table; and the number of what came of it: one
// number that the caller lends, since the rules give this form so.
pub fn first_part<'t>(table: &Lent<'_>, text: &'t [u8], outcome: &mut u8) -> &'t [u8]
    ensures { HandsBack text.entry result outcome.new (part_answer (lent_table table.now) text.now) }
{
    match first(table, text) {
        Ok(Some((start, end))) => {
            *outcome = 0;
            &text[start as usize..end as usize]
        }
        Ok(None) => {
            *outcome = 1;
            &text[text.len()..]
        }
        Err(refusal) => {
            *outcome = refusal.number() as u8;
            &text[..0]
        }
    }
}
