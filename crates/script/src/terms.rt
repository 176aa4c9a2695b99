//! Inner: the words behind a verb, one by one. The callers prove that each word has a byte.

ghost use Rattle.std.specs.Prelude.{◌≡◌, ◌≢◌, ◌^◌, ◌<◌, ℕ, [], ◌∷◌, length, map, MatchResult, decimal};
ghost use Rattle.script.specs.Sayings.{Writes, Numeral, tear_word};

use crate::command::Tear;
use crate::reason::Reason;
use itoa::Buffer;
use std::num::IntErrorKind;
use std::str;

/// The one word that is wanted.
pub(crate) fn one<'a>(words: &[&'a [u8]]) -> Result<&'a [u8], Reason>
    ensures { MatchResult result (λ a. map (λ w. w.now) words.now ≡ a.now ∷ []) (λ _. length (map (λ w. w.now) words.now) ≢ 1) }
{
    match words {
        [a] => Ok(*a),
        _ => Err(wrong_count(words.len(), 1)),
    }
}

/// The two words that are wanted.
pub(crate) fn two<'a>(words: &[&'a [u8]]) -> Result<(&'a [u8], &'a [u8]), Reason>
    ensures { MatchResult result (λ p. map (λ w. w.now) words.now ≡ p.0.now ∷ p.1.now ∷ []) (λ _. length (map (λ w. w.now) words.now) ≢ 2) }
{
    match words {
        [a, b] => Ok((*a, *b)),
        _ => Err(wrong_count(words.len(), 2)),
    }
}

/// The three words that are wanted.
pub(crate) fn three<'a>(words: &[&'a [u8]]) -> Result<(&'a [u8], &'a [u8], &'a [u8]), Reason>
    ensures { MatchResult result (λ p. map (λ w. w.now) words.now ≡ p.0.now ∷ p.1.now ∷ p.2.now ∷ []) (λ _. length (map (λ w. w.now) words.now) ≢ 3) }
{
    match words {
        [a, b, c] => Ok((*a, *b, *c)),
        _ => Err(wrong_count(words.len(), 3)),
    }
}

/// Why so many words are not as many as wanted.
pub(crate) fn wrong_count(count: usize, wanted: usize) -> Reason {
    if count < wanted {
        Reason::TooFewWords
    } else {
        Reason::TooManyWords
    }
}

/// The bytes of a key or of data.
pub(crate) fn bytes_of<'a>(word: &'a [u8]) -> &'a [u8]
    requires { 0 < length word.now }
    ensures { Writes word.now result.now }
{
    match word {
        b"\"\"" => &[],
        _ => word,
    }
}

/// Why a word is refused as a number.
fn why_no_number(kind: IntErrorKind) -> Reason {
    match kind {
        IntErrorKind::PosOverflow => Reason::NumberTooLarge,
        _ => Reason::NotNumber,
    }
}

/// The number that a word writes.
pub(crate) fn number(word: &[u8]) -> Result<u32, Reason>
    ensures { MatchResult result (λ n. Numeral word.now n) (λ _. (n : ℕ) → Numeral word.now n → ⊥) }
{
    let Ok(text) = str::from_utf8(word) else {
        return Err(Reason::NotNumber);
    };
    let number = match text.parse::<u32>() {
        Ok(number) => number,
        Err(fault) => return Err(why_no_number(*fault.kind())),
    };
    // A number is written as it is printed: without a sign, without a leading zero.
    let mut digits = Buffer::new();
    if digits.format(number).as_bytes() != word {
        return Err(Reason::NotNumber);
    }
    Ok(number)
}

/// What a word says of a torn write.
pub(crate) fn tear(word: &[u8]) -> Result<Tear, Reason>
    ensures { MatchResult result (λ t. word.now ≡ tear_word t) (λ _. (t : Tear) → word.now ≢ tear_word t) }
{
    match word {
        b"all" => Ok(Tear::All),
        b"nothing" => Ok(Tear::Nothing),
        _ => Err(Reason::NotTear),
    }
}
