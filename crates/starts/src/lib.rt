// All starts, of anything that is lent. No text makes them quadratic.
#![tactic(auto)]

ghost use Rattle.std.specs.Prelude.{◌≡◌};
ghost use Rattle.rules.specs.Matchers.{starts_answer};
ghost use Rattle.table.specs.Lent.{lent_table};
ghost use Rattle.answers.specs.Answers.{listed_of};

use ahead::Search;
use back::{count_starts, list_starts};
use kinds::Refusal;
use table::{Checked, Lent};

mod back;

// All starts, of anything that is lent. Where the list has a place for every start that could be, they are not counted first.
#[tactic(auto, using(table::proofs::CheckLaws::turned_away), unfolding(rules::specs::Matchers::starts_answer, rules::specs::Matchers::starts_found, rules::specs::Matchers::listed_in))]
pub fn starts(table: &Lent<'_>, text: &[u8], list: &mut [u32]) -> Result<u32, Refusal>
    ensures { listed_of result list.new ≡ starts_answer (lent_table table.now) text.now list.old }
{
    let search = Search::of(&Checked::of(table, text)?);
    if list.len() <= text.len() {
        let count = count_starts(&search);
        if list.len() < count {
            return Err(Refusal::FewPlaces(count as u32));
        }
    }
    Ok(list_starts(&search, list))
}
