// What comes of two patterns that were compiled, by whether their tables are the same, and what is said of it.
#![tactic(auto)]

ghost use Rattle.std.specs.Prelude.{◌≡◌};
ghost use Rattle.findings.specs.Said.{said_of_answers};
ghost use Rattle.findings.specs.Lent.{answer_in, HoldsAnswer, said_of_finding};

use kinds::Refusal;
use table::Lent;
use tables::same_table;

mod tables;
pub mod texts;

// What comes of an input; `said_of_finding` sets out each case.
#[derive(Drop)]
pub enum Finding {
    Same,
    Different,
    First(Refusal),
    Second(Refusal),
    Both(Refusal, Refusal),
    NotTwo,
}

// What comes of two patterns that were compiled, each with its table in cells and marks of its own.
pub fn judge(first: &Result<Lent<'_>, Refusal>, second: &Result<Lent<'_>, Refusal>) -> Finding
    requires first { HoldsAnswer first.now }
    requires second { HoldsAnswer second.now }
    ensures { said_of_finding result ≡ said_of_answers (answer_in first.now) (answer_in second.now) }
{
    match (first, second) {
        (Ok(table), Ok(other)) => {
            if same_table(table, other) {
                Finding::Same
            } else {
                Finding::Different
            }
        }
        (Err(r), Ok(_)) => Finding::First(*r),
        (Ok(_), Err(s)) => Finding::Second(*s),
        (Err(r), Err(s)) => Finding::Both(*r, *s),
    }
}
