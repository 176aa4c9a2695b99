//! Files that are made in memory.

use auditing::auditing::audit;
use auditing::audits::Counts;
use building::entries::Entry;
use c_calls::in_memory::find_in_memory;
use checks::{check, check_eq};
use dumping::dumping::dump;
use faults::file::FileFault;
use file::extents::Extent;
use making::fault::MakeFault;
use making::in_memory::make_in_memory;
use making::sizes::{FileSize, file_size};
use memory::reading::ReadMemory;
use std::alloc::Global;
use std::test::Fail;
use text::fault::TextFault;

const BLANK: Entry = Entry { hash: 0, place: 0 };

/// The length of the file that is made in so much memory, with so many entries.
fn made(memory: &mut [u8], entries: &mut [Entry], text: &[u8]) -> Result<usize, MakeFault> {
    Ok(make_in_memory(memory, entries, text)?.len())
}

#[test]
fn a_text_without_records() -> Result<(), Fail> {
    let mut memory = [7u8; 2048];
    check_eq(made(&mut memory, &mut [], b"\n"), Ok(2048))?;
    for t in 0..256 {
        check_eq(&memory[8 * t..8 * t + 8], &[0, 8, 0, 0, 0, 0, 0, 0])?;
    }
    Ok(())
}

#[test]
fn refusals() -> Result<(), Fail> {
    let text = b"+1,1:a->1\n+1,1:a->2\n\n";
    let mut memory = [7u8; 2560];
    let mut short = [7u8; 2559];
    let mut entries = [BLANK; 2];
    check_eq(
        file_size(text),
        Ok(FileSize {
            records: 2,
            len: 2100,
        }),
    )?;
    check_eq(
        made(&mut memory, &mut entries, b""),
        Err(MakeFault::Text(TextFault::Malformed(0))),
    )?;
    let cut_short = &text[..20];
    check_eq(
        made(&mut memory, &mut entries, cut_short),
        Err(MakeFault::Text(TextFault::Malformed(20))),
    )?;
    check_eq(
        made(&mut memory, &mut entries[..1], text),
        Err(MakeFault::Entries),
    )?;
    check_eq(
        made(&mut short, &mut entries, text),
        Err(MakeFault::Long(2048)),
    )?;
    check_eq(memory, [7u8; 2560])?;
    check_eq(short, [7u8; 2559])?;
    check_eq(entries, [BLANK; 2])?;
    check_eq(made(&mut memory, &mut entries, text), Ok(2100))?;
    check_eq(
        entries,
        [
            Entry {
                hash: 177604,
                place: 2048,
            },
            Entry {
                hash: 177604,
                place: 2058,
            },
        ],
    )?;
    check_eq(audited(&memory, 2100), Some((2, 4, 3)))
}

/// The records, slots and probes of a file that is accepted.
fn audited(memory: &[u8], len: u32) -> Option<(u32, u32, u64)> {
    let extent = Extent::new(0, len).ok()?;
    let Counts {
        records,
        slots,
        probes,
    } = audit(&mut ReadMemory::new(memory), extent).ok()?;
    Some((records, slots, probes))
}

/// The text of the records with six digits as key and as data, up to a number.
fn numbered(heap: Global, many: u32) -> Result<Vec<u8>, Fail> {
    let mut text = Vec::new(heap);
    for n in 0..many {
        let mut line = *b"+6,6:000000->000000\n";
        let mut rest = n;
        for i in 0..6 {
            let digit = b'0' + (rest % 10) as u8;
            line[10 - i] = digit;
            line[18 - i] = digit;
            rest /= 10;
        }
        text.extend_from_slice(&line)
            .map_err(|_| Fail::new("memory"))?;
    }
    text.push(b'\n').map_err(|_| Fail::new("memory"))?;
    Ok(text)
}

#[test]
fn a_hundred_thousand_records(rt: HostRuntime) -> Result<(), Fail> {
    let heap = rt.alloc();
    let text = numbered(heap, 100_000)?;
    let Ok(size) = file_size(&text) else {
        return Err(Fail::new("refused"));
    };
    check_eq(size.records, 100_000)?;
    check_eq(size.len, 2048 + 100_000 * 36)?;
    let (Ok(mut memory), Ok(mut entries)) = (
        vec![in heap; 0u8; size.memory()],
        vec![in heap; BLANK; size.records],
    ) else {
        return Err(Fail::new("memory"));
    };
    check_eq(
        made(&mut memory, &mut entries, &text),
        Ok(size.len as usize),
    )?;
    let counts = audited(&memory, size.len).map(|(records, slots, _)| (records, slots));
    check_eq(counts, Some((100_000, 200_000)))?;
    let Ok(mut dumped) = vec![in heap; 0u8; text.len()] else {
        return Err(Fail::new("memory"));
    };
    check_eq(dump(&memory, size.len, &mut dumped), Ok(text.len()))?;
    check(dumped == text)?;
    check_eq(
        found(&memory, size.len, b"000000"),
        Ok(Some(b"000000".as_slice())),
    )?;
    check_eq(
        found(&memory, size.len, b"099999"),
        Ok(Some(b"099999".as_slice())),
    )?;
    check_eq(found(&memory, size.len, b"100000"), Ok(None))
}

/// The data of the first record of a key in a file that was made.
fn found<'a>(memory: &'a [u8], len: u32, key: &[u8]) -> Result<Option<&'a [u8]>, FileFault> {
    let Some(data) = find_in_memory(memory, len, key, 0)? else {
        return Ok(None);
    };
    let start = data.place as usize;
    Ok(memory.get(start..start.saturating_add(data.len as usize)))
}
