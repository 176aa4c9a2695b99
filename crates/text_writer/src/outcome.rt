//! The line that tells the outcome of a check.

ghost use Rattle.std.specs.Prelude.{◌≡◌, ◌≤◌, true, length, is_ok};
ghost use Rattle.text_writer.specs.Outcomes.{Checks, Lays, no_line, ok_line};

use crate::sheet::{Sheet, width};
use faults::report::Report;
use text::fault::TextFault;
use text::tally::Tally;
use text::whole::tally;

/// Checks a text, writes the line that tells the outcome to the start of a lent buffer, and says how long the line is.
/// 46 bytes are room for every line. A refused call writes nothing.
pub fn check_text(text: &[u8], line: &mut [u8]) -> Result<usize, TextFault>
    ensures checks { Checks text.now (length line.old) line.old result line.new }
    ensures enough { 46 ≤ length line.old → is_ok result ≡ true }
{
    match tally(text) {
        Ok(counted) => put_ok(line, counted),
        Err(fault) => put_no(line, Report::from(fault)),
    }
}

// Written by hand: the contract of `write!` does not say when it succeeds, so with an `ArrayString` it stays open that 46 bytes are
// enough. Two functions, since the lines have different fields.
fn put_ok(line: &mut [u8], counted: Tally) -> Result<usize, TextFault>
    ensures lays { Lays (ok_line counted.records counted.bytes) (length line.old) line.old result line.new }
    ensures enough { 46 ≤ length line.old → is_ok result ≡ true }
{
    let records = counted.records as u64;
    let bytes = counted.bytes as u64;
    let room = line.len();
    if room < width(records) + width(bytes) + 5 {
        return Err(TextFault::Short(room));
    }
    let mut sheet = Sheet::new(line);
    sheet.put(b"ok,");
    sheet.put_number(records, b',');
    sheet.put_number(bytes, b'\n');
    Ok(sheet.written)
}

fn put_no(line: &mut [u8], told: Report) -> Result<usize, TextFault>
    ensures lays { Lays (no_line told) (length line.old) line.old result line.new }
    ensures enough { 46 ≤ length line.old → is_ok result ≡ true }
{
    let number = told.number as u64;
    let table = told.table as u64;
    let room = line.len();
    if room < width(number) + width(table) + width(told.place) + 6 {
        return Err(TextFault::Short(room));
    }
    let mut sheet = Sheet::new(line);
    sheet.put(b"no,");
    sheet.put_number(number, b',');
    sheet.put_number(table, b',');
    sheet.put_number(told.place, b'\n');
    Ok(sheet.written)
}
