//! Inner: a lent buffer that is written from its start on. The callers prove that what they write fits.

ghost use Rattle.std.specs.Prelude.{◌≡◌, ◌+◌, ◌^◌, ◌<◌, ◌≤◌, [], ◌∷◌, ◌++◌, length, decimal};
ghost use Rattle.byte_lists.specs.Bytes.{laid};
ghost use Rattle.text_writer.specs.Sheets.{Adds};

use byte_lists::slices::lay_over;

/// A lent buffer, and how many bytes at its start are written.
// Lent bytes with a count, since there is no heap, and the library's writer to a slice does not say which bytes it has written.
#[derive(Drop)]
pub struct Sheet<'a> {
    pub buffer: &'a mut [u8],
    pub written: usize,
}

impl<'a> Sheet<'a> {
    /// A sheet on which nothing is written.
    pub fn new(buffer: &'a mut [u8]) -> Sheet<'a>
        ensures same_reference { result.buffer.ghost_name ≡ buffer.entry.ghost_name }
        ensures blank { (result.buffer.now ≡ buffer.old) × (result.written ≡ 0) }
    {
        Sheet { buffer, written: 0 }
    }

    /// Writes bytes.
    pub fn put(&mut self, bytes: &[u8])
        requires { self.old.written + length bytes.now ≤ length self.old.buffer.now }
        ensures { Adds bytes.now self.old self.new }
    {
        let buffer = &mut *self.buffer;
        lay_over(buffer, self.written, bytes);
        self.written += bytes.len();
    }

    /// Writes a number's digits, and a byte behind them.
    pub fn put_number(&mut self, number: u64, end: u8)
        requires { self.old.written + (length (decimal number) + 1) ≤ length self.old.buffer.now }
        ensures { Adds (decimal number ++ (end ∷ [])) self.old self.new }
    {
        self.put_digits(number);
        self.put(&[end]);
    }

    /// Writes a number's digits.
    fn put_digits(&mut self, number: u64)
        requires { self.old.written + length (decimal number) ≤ length self.old.buffer.now }
        ensures { Adds (decimal number) self.old self.new }
    {
        let buffer = &mut *self.buffer;
        self.written = lay_digits(buffer, self.written, number);
    }
}

// Digits by hand, right into the buffer. Tried: with the kit's `itoa` the text of many short records takes twice the time.

/// How many digits a number has.
pub fn width(number: u64) -> usize
    ensures is { result ≡ length (decimal number) }
    ensures small { result ≤ 20 }
    ensures word { number < 2 ^ 32 → result ≤ 10 }
{
    let mut rest = number;
    let mut n: usize = 1;
    while rest >= 10 {
        rest /= 10;
        n += 1;
    }
    n
}

/// Lays a number's digits into a buffer, from the last on; the place behind them.
fn lay_digits(buffer: &mut [u8], at: usize, number: u64) -> usize
    requires { at + length (decimal number) ≤ length buffer.old }
    ensures place { result ≡ at + length (decimal number) }
    ensures after { buffer.new ≡ laid buffer.old at (decimal number) }
{
    let end = at + width(number);
    let mut rest = number;
    let mut place = end;
    while rest >= 10 {
        place -= 1;
        buffer[place] = b'0' + (rest % 10) as u8;
        rest /= 10;
    }
    buffer[at] = b'0' + rest as u8;
    end
}
