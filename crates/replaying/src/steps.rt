//! The steps that the commands of a script make.

ghost use Rattle.std.specs.Prelude.{◌≡◌, IfOk};
ghost use Rattle.replaying.specs.Replays.{root_tear, step_for, steps_for};

use crate::bed::Turn;
use building::entries::Entry;
use history::calls::Call;
use memory::writing::RootTear;
use playing::steps::Step;
use script::command::{Command, Tear};
use script::whole::Line;
use std::alloc::{AllocError, Global};

fn root_tear(tear: Tear) -> RootTear
    ensures { result ≡ root_tear tear }
{
    match tear {
        Tear::All => RootTear::All,
        Tear::Nothing => RootTear::Nothing,
    }
}

/// The step that a command makes.
pub fn step_of<'a>(command: Command<'a>) -> Step<'a, Turn>
    ensures { result ≡ step_for command.entry }
{
    match command {
        Command::Format => Step::Format,
        Command::Open => Step::Call(Call::Open),
        Command::Begin => Step::Call(Call::Begin),
        Command::Add(key, data) => Step::Call(Call::Add(key, data)),
        Command::Finish => Step::Call(Call::Finish),
        Command::Publish => Step::Call(Call::Publish),
        Command::Abandon => Step::Call(Call::Abandon),
        Command::Get(key) => Step::Get(key),
        Command::Mark(sector) => Step::Turn(Turn::Mark(sector)),
        Command::Cut(writes, tear) => Step::Turn(Turn::Cut(writes, root_tear(tear))),
        Command::Power => Step::Remount(Turn::Power),
        Command::Scribble(index, hash, place) => {
            Step::Scribble(index as usize, Entry { hash, place })
        }
    }
}

/// The steps that the lines of a script make.
pub fn steps_of<'a>(alloc: Global, lines: &[Line<'a>]) -> Result<Vec<Step<'a, Turn>>, AllocError>
    ensures { IfOk result (λ v. v.items ≡ steps_for lines.now) }
{
    lines
        .iter()
        .map(|line| step_of(line.command))
        .collect(alloc)
}
