//! One line of a script.

ghost use Rattle.script.specs.Sayings.{Answers, OneSaying};

use crate::command::Statement;
use crate::reason::Reason;
use crate::verb::Verb;
use crate::words::split_words;

/// What a line says, or none if it is empty or a comment.
pub fn parse_line<'a>(line: &'a [u8]) -> Result<Option<Statement<'a>>, Reason>
    ensures says { Answers line.now result }
    ensures one { OneSaying line.now }
{
    let words = split_words(line)?;
    let Some((name, others)) = words.split_first() else {
        return Ok(None);
    };
    let verb = Verb::named(name).ok_or(Reason::UnknownCommand)?;
    let statement = verb.statement(others)?;
    Ok(Some(statement))
}
