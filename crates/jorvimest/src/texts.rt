// The listing of a table and the line of a refusal, over numbers and slices.
ghost use Rattle.std.specs.Prelude.{◌≡◌};
ghost use Rattle.rules.specs.Answers.{refusal, refused, given};
ghost use Rattle.rules.specs.Listing as rule;
ghost use Rattle.table.specs.Lent.{table_of};
ghost use Rattle.writing.specs.Texts.{shown_in};
ghost use Rattle.listing.specs.Lines.{listing_of};
ghost use Rattle.codes.specs.Codes.{text_code, text_length};

use crate::lent;
use codes::put_text;

// The listing is put into the lent buffer, as far as it reaches, and the listing's length into the lent number.
#[unsafe(no_mangle)]
pub extern "C" fn jorvimest_listing(
    rows: u16,
    head: u16,
    cells: &[u16],
    marks: &[u8],
    out: &mut [u8],
    length: &mut u32,
) -> u32
    ensures code { result ≡ text_code (shown_in out.old (listing_of (table_of rows head marks.now cells.now))).answer }
    ensures length { length.new ≡ text_length length.old (shown_in out.old (listing_of (table_of rows head marks.now cells.now))).answer }
    ensures out { out.new ≡ (shown_in out.old (listing_of (table_of rows head marks.now cells.now))).buffer }
{
    let answer = listing::write_table(&lent(rows, head, cells, marks), out);
    put_text(answer, length)
}

// The same of the line of a refusal with any number and any place.
#[unsafe(no_mangle)]
pub extern "C" fn jorvimest_refusal(
    number: u32,
    place: u32,
    out: &mut [u8],
    length: &mut u32,
) -> u32
    ensures code { result ≡ text_code (shown_in out.old (given (rule.listing (refused (refusal number place))))).answer }
    ensures length { length.new ≡ text_length length.old (shown_in out.old (given (rule.listing (refused (refusal number place))))).answer }
    ensures out { out.new ≡ (shown_in out.old (given (rule.listing (refused (refusal number place))))).buffer }
{
    let answer = lines::write_refused(number, place, out);
    put_text(Ok(answer), length)
}
