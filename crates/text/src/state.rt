//! Inner: the lexer. Its state and the byte decide what is taken.

ghost use Rattle.std.specs.Prelude.{◌≡◌, ◌≤◌, MatchOption};
ghost use Rattle.text.specs.Lexing.{Dead, Grows, Longer, skip};

/// What the lexer has seen since the start of a record. The numbers are lengths of key and data; one that is being read is none before its first digit.
#[derive(Clone, Copy)]
pub enum State {
    /// Nothing: a record or the end follows.
    Start,
    /// A plus sign and digits of the key's length.
    KeyLength(Option<u32>),
    /// The key's length, a comma and digits of the data's length.
    DataLength(u32, Option<u32>),
    /// Both lengths, a colon and the key.
    Key(u32, u32),
    /// All that, and the dash of the arrow.
    Arrow(u32, u32),
    /// All that, the arrow and the data.
    Data(u32, u32),
    /// A whole record, with its line feed.
    Record(u32, u32),
    /// The line feed that ends a text.
    End,
}

/// The number that one more digit makes, if it has no leading zero and is a word.
fn longer(number: Option<u32>, byte: u8) -> Option<u32>
    requires { (48 ≤ byte) × (byte ≤ 57) }
    ensures { Longer number byte result }
{
    let digit = (byte - b'0') as u32;
    match number {
        None => Some(digit),
        Some(n) => {
            let grown = n as u64 * 10 + digit as u64;
            if n == 0 || grown > u32::MAX as u64 {
                return None;
            }
            Some(grown as u32)
        }
    }
}

impl State {
    /// The state behind the byte, or none where no text goes on with it.
    pub(crate) fn after(self, byte: u8) -> Option<State>
        ensures { MatchOption result (Dead self byte) (λ next. Grows self byte next) }
    {
        let next = match (self, byte) {
            (State::Start, b'+') => State::KeyLength(None),
            (State::Start, b'\n') => State::End,
            (State::KeyLength(length), b'0'..=b'9') => {
                State::KeyLength(Some(longer(length, byte)?))
            }
            (State::KeyLength(Some(k)), b',') => State::DataLength(k, None),
            (State::DataLength(k, length), b'0'..=b'9') => {
                State::DataLength(k, Some(longer(length, byte)?))
            }
            (State::DataLength(k, Some(d)), b':') => State::Key(k, d),
            (State::Key(k, d), b'-') => State::Arrow(k, d),
            (State::Arrow(k, d), b'>') => State::Data(k, d),
            (State::Data(k, d), b'\n') => State::Record(k, d),
            _ => return None,
        };
        Some(next)
    }

    /// How many bytes stand before the next byte that the state looks at: those of the key or of the data.
    pub(crate) fn skips(self) -> usize
        ensures { result ≡ skip self }
    {
        match self {
            State::Key(k, _) => k as usize,
            State::Data(_, d) => d as usize,
            _ => 0,
        }
    }
}
