// A pattern as a line of an input, and the line of a refusal, written into a lent buffer.
#![tactic(auto)]

ghost use Rattle.std.specs.Prelude.{◌≡◌, Ok};
ghost use Rattle.rules.specs.Answers.{refusal, refused, given};
ghost use Rattle.rules.specs.Listing.{listing};
ghost use Rattle.kinds.specs.Refusals.{refusal_of};
ghost use Rattle.writing.specs.Writing.{Puts};
ghost use Rattle.writing.specs.Texts.{shown, shown_in};
ghost use Rattle.lines.specs.Inputs.{PatternPart};

use answers::Written;
use kinds::Refusal;
use writing::Page;

// The input less one final byte 10, as a part of the input itself.
pub fn pattern_of(input: &[u8]) -> &[u8]
    ensures { PatternPart input.entry result }
{
    if input.ends_with(b"\n") {
        &input[..input.len() - 1]
    } else {
        input
    }
}

// The line of a refusal, of its number and its place.
pub fn put_refused(page: &mut Page<'_>, number: u32, place: u32)
    ensures { Puts page.old (listing (refused (refusal number place))) page.new }
{
    page.put_all(b"refused ");
    page.put_number(number);
    page.put_all(b" at ");
    page.put_number(place);
    page.put(b'\n');
}

// The line of a refusal with any number and any place.
pub fn write_refused(number: u32, place: u32, out: &mut [u8]) -> Written
    ensures { shown (Ok result) out.new ≡ shown_in out.old (given (listing (refused (refusal number place)))) }
{
    let mut page = Page::on(out);
    put_refused(&mut page, number, place);
    page.written()
}

// The line of a refusal.
pub fn write_refusal(refusal: Refusal, out: &mut [u8]) -> Written
    ensures { shown (Ok result) out.new ≡ shown_in out.old (given (listing (refused (refusal_of refusal)))) }
{
    write_refused(refusal.number(), refusal.place(), out)
}
