//! Inner: a file that is known to be readable, so that nothing here can be refused.

ghost use Rattle.std.specs.Prelude.{◌≡◌, ℕ, ◌+◌, ◌-◌, ◌*◌, ◌/◌, ◌%◌, ◌^◌, ◌<◌, ◌≤◌, length, Decides, fold};
ghost use Rattle.std.proofs.Props.{props};
ghost use Rattle.byte_lists.specs.Bytes.{part};
ghost use Rattle.cdb.specs.Records.{hash_of, hash_step};
ghost use Rattle.file.specs.Extents.{Ready, WordsAt};

use crate::extents::Extent;
use crate::reading::read_part;
use crate::words::Words;
use byte_lists::slices::equal;
use cdb::hashing::hash_on;
use device::device::Device;
use device::pieces::Pieces;

/// A file in an extent of a device, none of whose bytes can be refused.
// That a call leaves the file is a clause of each function: reading takes the device by `&mut`.
#[derive(Drop)]
pub struct ReadableFile<'a, D: Device> {
    pub device: &'a mut D,
    pub extent: Extent,
    ghost ready: { Ready (D.Device.meaning device.now) extent } by { Prim.hlevel props },
}

impl<D: Device> ReadableFile<'_, D> {
    ghost use Rattle.file.specs.ReadableFiles.{contents, SameFile};

    /// The number of its bytes.
    pub fn len(&self) -> u32
        ensures { result ≡ length (contents self.now) }
    {
        self.extent.len
    }

    /// Fills a piece with the part at `p`.
    pub fn part(&mut self, p: u32, piece: &mut [u8])
        requires { p + length piece.old ≤ length (contents self.old) }
        ensures piece { piece.new ≡ part (contents self.old) p (length piece.old) }
        ensures same { SameFile self.old self.new }
    {
        let _ = read_part(self.device, self.extent.start + p, piece);
    }

    /// The two words at `p`.
    pub fn words(&mut self, p: u32) -> Words
        requires { p + 8 ≤ length (contents self.old) }
        ensures words { WordsAt (contents self.old) p result }
        ensures same { SameFile self.old self.new }
    {
        let mut bytes = [0; 8];
        self.part(p, &mut bytes);
        Words::from(bytes)
    }

    /// The hash that a part makes of the hash of what stands before it; `bytes` is as long as the part.
    fn hash_piece(&mut self, p: u32, start: u32, bytes: &mut [u8]) -> u32
        requires { p + length bytes.old ≤ length (contents self.old) }
        ensures hash { result ≡ fold hash_step start (part (contents self.old) p (length bytes.old)) }
        ensures same { SameFile self.old self.new }
    {
        self.part(p, bytes);
        hash_on(start, bytes)
    }

    /// The hash of the key of `n` bytes at `p`, by one read for each sector.
    pub fn hash(&mut self, p: u32, n: u32) -> u32
        requires { p + n ≤ length (contents self.old) }
        ensures hash { result ≡ hash_of (part (contents self.old) p n) }
        ensures same { SameFile self.old self.new }
    {
        let mut bytes = [0; 512];
        let mut hash = 5381;
        for piece in Pieces::new(self.extent.start + p, n as usize) {
            let front = &mut bytes[..piece.to - piece.from];
            hash = self.hash_piece(p + piece.from as u32, hash, front);
        }
        hash
    }

    /// Whether two parts, as long as the buffers, are equal.
    fn same_piece(&mut self, p: u32, q: u32, a: &mut [u8], b: &mut [u8]) -> bool
        requires long { length b.old ≡ length a.old }
        requires within { (p + length a.old ≤ length (contents self.old)) × (q + length a.old ≤ length (contents self.old)) }
        ensures answer { Decides result (part (contents self.old) p (length a.old) ≡ part (contents self.old) q (length a.old)) }
        ensures same { SameFile self.old self.new }
    {
        self.part(p, a);
        self.part(q, b);
        equal(a, b)
    }

    /// Whether two parts, of `n` bytes, are equal.
    pub fn same(&mut self, p: u32, q: u32, n: u32) -> bool
        requires { (p + n ≤ length (contents self.old)) × (q + n ≤ length (contents self.old)) }
        ensures answer { Decides result (part (contents self.old) p n ≡ part (contents self.old) q n) }
        ensures same { SameFile self.old self.new }
    {
        let mut a = [0; 512];
        let mut b = [0; 512];
        for piece in Pieces::new(self.extent.start + p, n as usize) {
            let (from, count) = (piece.from as u32, piece.to - piece.from);
            if !self.same_piece(p + from, q + from, &mut a[..count], &mut b[..count]) {
                return false;
            }
        }
        true
    }
}
