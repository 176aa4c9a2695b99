//! Inner: a verb and the words behind it. The callers prove that each word has a byte.

ghost use Rattle.std.specs.Prelude.{ℕ, ◌≤◌, map, MatchResult};
ghost use Rattle.std.specs.List.{AllByRecursion};
ghost use Rattle.script.specs.Words.{HasByte};
ghost use Rattle.script.specs.Sayings.{Act, Alone, Behind, Numeral, Said, Takes, act, said};
ghost use Rattle.script.specs.declared.verb.Verb.TheVariants as verb;

use crate::command::{Command, Sizes, Statement};
use crate::reason::Reason;
use crate::terms::{bytes_of, number, one, tear, three, two, wrong_count};
use crate::verb::Verb;

/// The most sectors that a device has: its bytes are counted in words of 32 bits.
const MOST_SECTORS: u32 = 8_388_607;

/// The entries of an entry memory of which a script does not say how many they are.
const USUAL_ENTRIES: u32 = 1000;

fn sector_count(word: &[u8]) -> Result<u32, Reason>
    ensures { MatchResult result (λ n. Numeral word.now n × (n ≤ 8388607)) (λ _. (n : ℕ) → Numeral word.now n → n ≤ 8388607 → ⊥) }
{
    let sectors = number(word)?;
    if sectors > MOST_SECTORS {
        return Err(Reason::NumberTooLarge);
    }
    Ok(sectors)
}

fn device<'a>(words: &[&'a [u8]]) -> Result<Statement<'a>, Reason>
    ensures { Takes verb.Device (map (λ w. w.now) words.now) result }
{
    let (sectors, entries) = match words {
        [sectors] => (sector_count(sectors)?, USUAL_ENTRIES),
        [sectors, entries] => (sector_count(sectors)?, number(entries)?),
        _ => return Err(wrong_count(words.len(), 1)),
    };
    Ok(Statement::Device(Sizes { sectors, entries }))
}

/// A command that has nothing behind its verb.
fn alone<'a>(words: &[&'a [u8]], command: Command<'a>) -> Result<Statement<'a>, Reason>
    ensures { MatchResult result (λ s. Alone (act command.entry) (map (λ w. w.now) words.now) (said s)) (λ _. (o : Said) → Alone (act command.entry) (map (λ w. w.now) words.now) o → ⊥) }
{
    match words {
        [] => Ok(Statement::Command(command)),
        _ => Err(Reason::TooManyWords),
    }
}

fn add<'a>(words: &[&'a [u8]]) -> Result<Statement<'a>, Reason>
    requires { AllByRecursion HasByte (map (λ w. w.now) words.now) }
    ensures { Takes verb.Add (map (λ w. w.now) words.now) result }
{
    let (key, data) = two(words)?;
    Ok(Statement::Command(Command::Add(bytes_of(key), bytes_of(data))))
}

fn get<'a>(words: &[&'a [u8]]) -> Result<Statement<'a>, Reason>
    requires { AllByRecursion HasByte (map (λ w. w.now) words.now) }
    ensures { Takes verb.Get (map (λ w. w.now) words.now) result }
{
    Ok(Statement::Command(Command::Get(bytes_of(one(words)?))))
}

fn mark<'a>(words: &[&'a [u8]]) -> Result<Statement<'a>, Reason>
    ensures { Takes verb.Mark (map (λ w. w.now) words.now) result }
{
    Ok(Statement::Command(Command::Mark(number(one(words)?)?)))
}

fn cut<'a>(words: &[&'a [u8]]) -> Result<Statement<'a>, Reason>
    ensures { Takes verb.Cut (map (λ w. w.now) words.now) result }
{
    let (writes, word) = two(words)?;
    Ok(Statement::Command(Command::Cut(number(writes)?, tear(word)?)))
}

fn scribble<'a>(words: &[&'a [u8]]) -> Result<Statement<'a>, Reason>
    ensures { Takes verb.Scribble (map (λ w. w.now) words.now) result }
{
    let (index, hash, place) = three(words)?;
    Ok(Statement::Command(Command::Scribble(number(index)?, number(hash)?, number(place)?)))
}

impl Verb {
    /// What the verb says with these words behind it.
    pub(crate) fn statement<'a>(self, words: &[&'a [u8]]) -> Result<Statement<'a>, Reason>
        requires { AllByRecursion HasByte (map (λ w. w.now) words.now) }
        ensures { Takes self (map (λ w. w.now) words.now) result }
    {
        match self {
            Verb::Device => device(words),
            Verb::Format => alone(words, Command::Format),
            Verb::Open => alone(words, Command::Open),
            Verb::Begin => alone(words, Command::Begin),
            Verb::Add => add(words),
            Verb::Finish => alone(words, Command::Finish),
            Verb::Publish => alone(words, Command::Publish),
            Verb::Abandon => alone(words, Command::Abandon),
            Verb::Get => get(words),
            Verb::Mark => mark(words),
            Verb::Cut => cut(words),
            Verb::Power => alone(words, Command::Power),
            Verb::Scribble => scribble(words),
        }
    }
}
