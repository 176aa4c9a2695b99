//! Runs of steps on a device, and the laws of the histories in them.

ghost use Rattle.std.specs.Prelude.{◌≡◌};
ghost use Rattle.history.specs.Laws.{HistoriesKeepPublished, OnlyPublicationsChangeLive, OpenFindsTheShelf};
ghost use Rattle.history.specs.Lookups.{LookupsGivePublished};
ghost use Rattle.playing.specs.Laws.{GetsGivePublished, Runs, RunsAreHistories};

use crate::bench::Bench;
use crate::laws::know_gets;
use crate::making::{Stage, make};
use crate::steps::{Outcome, Step};
use building::entries::Entry;
use device::device::WritableDevice;
use history::calls::State;
use history::laws::know_laws;
use std::alloc::{AllocError, Global};

/// The device and the state after the steps of a run, and what each answered.
#[derive(Drop)]
pub struct Ran<D> {
    pub device: D,
    pub state: State,
    pub log: Vec<Outcome>,
}

/// Makes steps one after the other on a device of which nothing is known, with another device and some entry memory.
pub fn run<D: Bench + Drop, E: WritableDevice>(
    alloc: Global,
    device: D,
    other: &mut E,
    entries: &mut [Entry],
    steps: &[Step<'_, D::Turn>],
) -> Result<Ran<D>, AllocError>
    ensures runs { Runs D.Bench.turns D.Bench.starts D.Device.meaning (D.Device.meaning device) (E.Device.meaning other.old) entries.old steps.now result (E.Device.meaning other.new) entries.new }
    ensures histories { RunsAreHistories D.Bench.turns D.Bench.starts }
    ensures keep { HistoriesKeepPublished }
    ensures stay { OnlyPublicationsChangeLive }
    ensures opens { OpenFindsTheShelf }
    ensures lookups { LookupsGivePublished }
    ensures gets { GetsGivePublished }
{
    know_laws();
    know_gets();
    let mut stage = Stage {
        device,
        state: State::Ended,
    };
    let mut log = Vec::new(alloc);
    for step in steps {
        let made = make(alloc, stage, other, entries, step)?;
        stage = made.stage;
        log.push(made.outcome)?;
    }
    Ok(Ran {
        device: stage.device,
        state: stage.state,
        log,
    })
}
