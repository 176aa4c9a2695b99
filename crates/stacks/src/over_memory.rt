//! Devices over memory for writing, with any layers between: each is made over lent bytes, set anew and started again.

ghost use Rattle.std.specs.Prelude.{◌≡◌, true, List, ℕ, [], ◌∷◌};
ghost use Rattle.std.specs.List.{AllByRecursion};
ghost use Rattle.memory.specs.Memories.{memory};
ghost use Rattle.memory.specs.Writing.{writes, with_left};
ghost use Rattle.memory.specs.declared.writing.RootTear.{RootTear as Tear};
ghost use Rattle.marks.specs.Layers as marked;
ghost use Rattle.cache.specs.Caches as cached;
ghost use Rattle.stacks.specs.Stacks.{restarted, IsEmpty, tear_of};

use cache::layer::Cache;
use device::device::{Device, WritableDevice};
use marks::layer::Marked;
use memory::writing::{Budget, RootTear, WriteMemory};

/// A cache over marks over memory for writing.
pub type CacheOverMarks<'a> = Cache<Marked<WriteMemory<'a>>>;

/// Marks over a cache over memory for writing.
pub type MarksOverCache<'a> = Marked<Cache<WriteMemory<'a>>>;

/// Memory for writing, or layers over it.
pub trait OverMemory<'a>: WritableDevice {
    /// What its torn write of sector 0 stores.
    ghost root_tear: { Self → Tear };

    /// The marks of each of its bad-sector layers, from the highest on.
    ghost marks: { Self → List (List ℕ) };

    /// Such a device over some bytes, with no sector marked and every page empty.
    fn over(bytes: &'a mut [u8], left: Budget, tear: RootTear) -> Self
        ensures meaning { Self.Device.meaning result ≡ memory bytes.old true (writes left) }
        ensures marks { AllByRecursion IsEmpty (marks result) }
        ensures tear { root_tear result ≡ tear };

    /// The device with other writes left.
    fn with_writes(self, left: Budget, tear: RootTear) -> Self
        ensures meaning { Self.Device.meaning result ≡ with_left (Self.Device.meaning self) (writes left) }
        ensures marks { marks result ≡ marks self }
        ensures tear { root_tear result ≡ tear };

    /// The device with power on again, on the bytes that it had and with its marks.
    fn restart(self, left: Budget, tear: RootTear) -> Self
        ensures meaning { Self.Device.meaning result ≡ restarted (Self.Device.meaning self) (writes left) }
        ensures marks { marks result ≡ marks self }
        ensures tear { root_tear result ≡ tear };
}

impl<'a> OverMemory<'a> for WriteMemory<'a> {
    ghost root_tear = { tear_of };

    ghost marks = { λ _. [] };

    fn over(bytes: &'a mut [u8], left: Budget, tear: RootTear) -> WriteMemory<'a> {
        WriteMemory::new(bytes, left, tear)
    }

    fn with_writes(mut self, left: Budget, tear: RootTear) -> WriteMemory<'a> {
        self.set_writes(left, tear);
        self
    }

    fn restart(self, left: Budget, tear: RootTear) -> WriteMemory<'a> {
        WriteMemory::new(self.into_bytes(), left, tear)
    }
}

impl<'a, D: OverMemory<'a>> OverMemory<'a> for Marked<D> {
    ghost root_tear = { λ d. D.root_tear (marked.below_of d) };

    ghost marks = { λ d. marked.marks_of d ∷ D.marks (marked.below_of d) };

    fn over(bytes: &'a mut [u8], left: Budget, tear: RootTear) -> Marked<D> {
        Marked::new(D::over(bytes, left, tear))
    }

    fn with_writes(self, left: Budget, tear: RootTear) -> Marked<D> {
        let (below, marks) = self.into_parts();
        Marked::with_marks(below.with_writes(left, tear), marks)
    }

    fn restart(self, left: Budget, tear: RootTear) -> Marked<D> {
        let (below, marks) = self.into_parts();
        Marked::with_marks(below.restart(left, tear), marks)
    }
}

impl<'a, D: OverMemory<'a>> OverMemory<'a> for Cache<D> {
    ghost root_tear = { λ d. D.root_tear (cached.below_of d) };

    ghost marks = { λ d. D.marks (cached.below_of d) };

    fn over(bytes: &'a mut [u8], left: Budget, tear: RootTear) -> Cache<D> {
        Cache::new(D::over(bytes, left, tear))
    }

    fn with_writes(self, left: Budget, tear: RootTear) -> Cache<D> {
        Cache::new(self.into_below().with_writes(left, tear))
    }

    fn restart(self, left: Budget, tear: RootTear) -> Cache<D> {
        Cache::new(self.into_below().restart(left, tear))
    }
}
