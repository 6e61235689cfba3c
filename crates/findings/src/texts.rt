// What is said of a finding.
ghost use Rattle.std.specs.Prelude.{◌++◌, ◌≤◌, length};
ghost use Rattle.rules.specs.Answers.{refused};
ghost use Rattle.rules.specs.Listing.{listing};
ghost use Rattle.kinds.specs.Refusals.{refusal_of};
ghost use Rattle.writing.specs.Writing.{Puts};
ghost use Rattle.findings.specs.Said.{comparison_most};
ghost use Rattle.findings.specs.Lent.{said_of_finding};

use crate::Finding;
use kinds::Refusal;
use lines::put_refused;
use writing::Page;

// The line of a refusal, after the name of the pattern.
fn put_named(page: &mut Page<'_>, name: &[u8], refusal: Refusal)
    ensures puts { Puts page.old (name.now ++ listing (refused (refusal_of refusal))) page.new }
    ensures short { length (listing (refused (refusal_of refusal))) ≤ 33 }
{
    page.put_all(name);
    put_refused(page, refusal.number(), refusal.place());
}

pub fn put_finding(page: &mut Page<'_>, finding: Finding)
    ensures puts { Puts page.old (said_of_finding finding) page.new }
    ensures short { length (said_of_finding finding) ≤ comparison_most }
{
    match finding {
        Finding::Same => page.put_all(b"same\n"),
        Finding::Different => page.put_all(b"not the same\n"),
        Finding::First(r) => put_named(page, b"first ", r),
        Finding::Second(s) => put_named(page, b"second ", s),
        Finding::Both(r, s) => {
            put_named(page, b"first ", r);
            put_named(page, b"second ", s);
        }
        Finding::NotTwo => page.put_all(b"expected two patterns, one a line\n"),
    }
}
