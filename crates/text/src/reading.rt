//! The text reader's calls.

ghost use Rattle.std.specs.Prelude.{◌≡◌};
ghost use Rattle.text.specs.Laws.{EndsWithItsRecords, OneAnswer, ReadsInOrder, RefusesTheWhole};
ghost use Rattle.text.specs.Readings.{Hands};

use crate::fault::TextFault;
use crate::lent::LentRecord;
use crate::reader::TextReader;
use crate::scan::scan;

impl<'a> TextReader<'a> {
    /// A reader at the start of a text.
    pub fn new(text: &'a [u8]) -> TextReader<'a>
        ensures stands { (result.text.now ≡ text.now) × (result.place ≡ 0) }
        ensures order { ReadsInOrder text.now }
        ensures ends { EndsWithItsRecords text.now }
        ensures refuses { RefusesTheWhole text.now }
        ensures one { OneAnswer text.now }
    {
        TextReader { text, place: 0 }
    }

    /// The next record, or none at the end of the text. A refused reader stays put, and so does one at the end.
    // No `Iterator`: a refused reader refuses again, so its items would not end.
    pub fn next(&mut self) -> Result<Option<LentRecord<'a>>, TextFault>
        ensures hands { Hands self.old.text.now self.old.place result self.new.place }
        ensures same { self.new.text.now ≡ self.old.text.now }
    {
        let text = self.text;
        let Some(span) = scan(text, self.place)? else {
            return Ok(None);
        };
        let key_len = span.key as usize;
        let data_len = span.data as usize;
        let data_end = span.next - 1;
        let key_end = data_end - (data_len + 2);
        self.place = span.next;
        Ok(Some(LentRecord {
            key: &text[key_end - key_len..key_end],
            data: &text[data_end - data_len..data_end],
        }))
    }
}
