//! What programs do with a file that is read whole.

ghost use Rattle.std.specs.Prelude.{◌≡◌, ◌+◌, ◌*◌, ◌≤◌, length, take};
ghost use Rattle.byte_lists.specs.Bytes.{part};
ghost use Rattle.c_calls.specs.InMemory.{Fits};
ghost use Rattle.whole_files.specs.Wholes.{bytes_of, Dumped, GivesData, Holds, Looked};

use crate::fault::WholeFault;
use crate::whole::WholeFile;
use c_calls::in_memory::find_in_memory;
use dumping::dumping::{dump, dump_len};
use faults::file::FileFault;
use lookup::cursors::Found;
use std::alloc::Global;

/// The bytes of the largest device: no file is longer.
const MOST: usize = 4294966784;

impl WholeFile {
    /// A file of these bytes; refuses 11 where no device is as large.
    pub fn new(file: Vec<u8>) -> Result<WholeFile, WholeFault>
        ensures { Holds file.items result }
    {
        if file.len() > MOST {
            return Err(WholeFault::Refused(FileFault::Range));
        }
        let len = file.len() as u32;
        let mut memory = file;
        // Memory is read in whole sectors, and the last one of a file is seldom full.
        memory.extend_from_slice(&[0; 512])?;
        Ok(WholeFile { memory, len })
    }

    /// The text of its records, or the audit's refusal.
    pub fn dump(&self, heap: Global) -> Result<Vec<u8>, WholeFault>
        ensures { Dumped self.now result }
    {
        let len = dump_len(&self.memory, self.len)?;
        let mut text = vec![in heap; 0u8; len]?;
        // The text has room, and the file was just accepted.
        dump(&self.memory, self.len, &mut text).unwrap();
        Ok(text)
    }

    /// The data of record `n` of a key, counted from 0, or none where the key has no such record; refuses as a lookup does.
    pub fn get(&self, key: &[u8], n: u32) -> Result<Option<&[u8]>, FileFault>
        ensures answer { Looked self.now.memory.items self.now.len key.now n result }
        ensures law { GivesData (bytes_of self.now) key.now n result }
    {
        find_data(&self.memory, self.len, key, n)
    }
}

/// The same in the file of `len` bytes that some sectors begin with.
fn find_data<'a>(
    memory: &'a [u8],
    len: u32,
    key: &[u8],
    n: u32,
) -> Result<Option<&'a [u8]>, FileFault>
    requires { Fits memory.now len }
    ensures answer { Looked memory.now len key.now n result }
    ensures law { GivesData (take len memory.now) key.now n result }
{
    match find_in_memory(memory, len, key, n)? {
        None => Ok(None),
        Some(data) => Ok(Some(found_part(&memory[..len as usize], data))),
    }
}

/// The part of a file that was found.
fn found_part(file: &[u8], data: Found) -> &[u8]
    requires { «data».place + «data».len ≤ length file.now }
    ensures { result.now ≡ part file.now «data».place «data».len }
{
    let start = data.place as usize;
    &file[start..start + data.len as usize]
}

#[cfg(test)]
mod tests {
    use super::*;
    use std::test::Fail;

    /// A file with the records a → 1 and a → 2, in a table of four slots. The hash of `a` is 177604, so they fill slots 1 and 2.
    fn two_records(heap: Global) -> Result<Vec<u8>, Fail> {
        let mut file = Vec::new(heap);
        for table in 0u32..256 {
            let position: u32 = if table <= 196 { 2068 } else { 2100 };
            let slots: u32 = if table == 196 { 4 } else { 0 };
            file.extend_from_slice(&position.to_le_bytes())?;
            file.extend_from_slice(&slots.to_le_bytes())?;
        }
        file.extend_from_slice(b"\x01\0\0\0\x01\0\0\0a1\x01\0\0\0\x01\0\0\0a2")?;
        file.extend_from_slice(&[0; 8])?;
        file.extend_from_slice(b"\xc4\xb5\x02\0\x00\x08\0\0")?;
        file.extend_from_slice(b"\xc4\xb5\x02\0\x0a\x08\0\0")?;
        file.extend_from_slice(&[0; 8])?;
        Ok(file)
    }

    #[test]
    fn dumps_and_gets(rt: HostRuntime) -> Result<(), Fail> {
        let file = WholeFile::new(two_records(rt.alloc())?)?;
        assert_eq!(rt;
            file.dump(rt.alloc())?.as_slice(),
            b"+1,1:a->1\n+1,1:a->2\n\n".as_slice()
        );
        assert_eq!(rt; file.get(b"a", 0), Ok(Some(b"1".as_slice())));
        assert_eq!(rt; file.get(b"a", 1), Ok(Some(b"2".as_slice())));
        assert_eq!(rt; file.get(b"a", 2), Ok(None));
        assert_eq!(rt; file.get(b"b", 0), Ok(None));
        Ok(())
    }

    // The filled slots are exchanged, so a search meets the second record first.
    #[test]
    fn refuses_an_exchange(rt: HostRuntime) -> Result<(), Fail> {
        let mut bytes = two_records(rt.alloc())?;
        assert_eq!(rt; bytes.len(), 2100);
        bytes.swap(2080, 2088);
        let file = WholeFile::new(bytes)?;
        let fault = file.dump(rt.alloc()).err();
        assert_eq!(rt;
            fault,
            Some(WholeFault::Refused(FileFault::Order(196, 2058)))
        );
        Ok(())
    }
}
