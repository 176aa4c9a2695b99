//! The device of a script.

ghost use Rattle.replaying.specs.Beds.{bed_meaning, cache_meaning, Marks, SetsTear, Starts, Turns};
ghost use Rattle.replaying.specs.Turning.{starts_across, turns_inside};

use device::device::{Device, WritableDevice};
use faults::device::DeviceFault;
use faults::report::Report;
use memory::writing::{Budget, RootTear};
use playing::bench::{Bench, Turned};
use stacks::over_memory::{CacheOverMarks, OverMemory};

/// A device of whose sectors some are marked, and which can lose power.
// A type of its own, since neither the bench nor the layers are this crate's.
#[derive(Drop)]
pub struct Bed<D>(pub D);

/// What can become of such a device between two calls.
#[derive(Clone, Copy)]
pub enum Turn {
    /// A sector goes bad.
    Mark(u32),
    /// So many writes are left; the next one is torn, and the power goes.
    Cut(u32, RootTear),
    /// The power comes back, if the mount ends.
    Power,
}

impl<D: Device> Device for Bed<D> {
    ghost meaning = { λ b. D.Device.meaning b.0 };

    ghost whole = { λ b. D.Device.whole b.0 };

    fn size(&self) -> u32 {
        self.0.size()
    }

    fn state(&mut self, sector: u32) -> Result<(), DeviceFault> {
        self.0.state(sector)
    }

    fn read(&mut self, place: u32, piece: &mut [u8]) -> Result<(), DeviceFault> {
        self.0.read(place, piece)
    }
}

impl<D: WritableDevice> WritableDevice for Bed<D> {
    fn write(&mut self, place: u32, piece: &[u8]) -> Result<(), DeviceFault> {
        self.0.write(place, piece)
    }
}

impl<'a> Bench for Bed<CacheOverMarks<'a>> {
    type Turn = Turn;

    ghost turns = { Turns };

    ghost starts = { Starts };

    ghost inside = { turns_inside };

    ghost across = { starts_across };

    fn turn(self, turn: &Turn) -> Turned<Bed<CacheOverMarks<'a>>>
        ensures turns { Turns turn.now (bed_meaning self.entry) result.answer (bed_meaning result.device) }
        ensures tear { SetsTear turn.now result.device }
    {
        let Bed(mut cache) = self;
        match turn {
            Turn::Mark(sector) => {
                let answer = mark(&mut cache, *sector);
                Turned {
                    device: Bed(cache),
                    answer,
                }
            }
            Turn::Cut(writes, tear) => Turned {
                device: Bed(cache.with_writes(Budget::Count(*writes), *tear)),
                answer: Ok(()),
            },
            Turn::Power => Turned {
                device: Bed(cache),
                answer: Ok(()),
            },
        }
    }

    fn remount(self, turn: &Turn) -> Turned<Bed<CacheOverMarks<'a>>>
        ensures starts { Starts turn.now (bed_meaning self.entry) result.answer (bed_meaning result.device) }
        ensures tear { SetsTear turn.now result.device }
    {
        if let Turn::Power = turn {
            let Bed(cache) = self;
            return Turned {
                device: Bed(cache.restart(Budget::Endless, RootTear::All)),
                answer: Ok(()),
            };
        }
        self.turn(turn)
    }
}

/// Marks a sector, and tells a refusal as it is printed.
fn mark(cache: &mut CacheOverMarks<'_>, sector: u32) -> Result<(), Report>
    ensures { Marks (cache_meaning cache.old) sector result (cache_meaning cache.new) }
{
    match cache.mark(sector) {
        Ok(()) => Ok(()),
        Err(fault) => Err(Report::from(fault)),
    }
}
