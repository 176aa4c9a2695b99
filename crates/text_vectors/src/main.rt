//! Reads the texts that two other makers were given, and the files that they made of them, looks every key up, and tells
//! what was found.
#![tactic(auto)]

use anyhow::anyhow;
use building::entries::Entry;
use c_calls::in_memory::find_in_memory;
use faults::file::FileFault;
use faults::report::Report;
use making::in_memory::make_in_memory;
use making::sizes::file_size;
use records::placed::PlacedRecord;
use records::reader::RecordReader;
use std::fs;
use text::lent::LentRecord;
use text::tally::Tally;
use text::whole::{read_records, tally};
use text_writer::writing::write_text;

fn main(rt: HostRuntime) -> anyhow::Result<()> {
    for name in [
        "none",
        "one",
        "repeat",
        "collide",
        "services",
        "subscribers",
    ] {
        both(&rt, name)?;
    }
    for name in [
        "made-1-19",
        "made-1-6",
        "made-1-63",
        "made-2-13",
        "made-2-3",
        "made-2-8",
        "made-3-1",
        "made-3-2",
        "made-3-3",
        "made-4-22",
        "made-8-7",
        "made-ok-1",
    ] {
        alone(&rt, name)?;
    }
    Ok(())
}

/// A text and the file that was made of it: they have the same records, and both give the text back.
fn both(rt: &HostRuntime, name: &str) -> anyhow::Result<()> {
    let text = fs::read(rt, format!(in rt.alloc(); "{name}.txt")?)?;
    let file = fs::read(rt, format!(in rt.alloc(); "{name}.cdb")?)?;
    let counted = compared(rt, &text, &file)?;
    let records = counted.records;
    let bytes = counted.bytes;
    Ok(println!(rt; "{name}: ok,{records},{bytes}, same records, same text, same file, all found")?)
}

fn compared<'a>(rt: &HostRuntime, text: &'a [u8], file: &'a [u8]) -> anyhow::Result<Tally> {
    let Ok(counted) = tally(text) else {
        return Err(anyhow!("the text is refused"));
    };
    let mut from_text = vec![in rt.alloc(); LentRecord {
        key: b"",
        data: b""
    }; counted.records]?;
    let mut from_file = vec![in rt.alloc(); PlacedRecord {
        place: 0,
        key: b"",
        data: b"",
        data_place: 0
    }; counted.records]?;
    let read = read_records(text, &mut from_text);
    let filled = RecordReader::new(file).fill(&mut from_file);
    if read != Ok(counted.records) || filled != Ok(counted.records) {
        return Err(anyhow!("not all records are read"));
    }
    let again = lent(rt, &from_file)?;
    if from_text != again || !in_place(&from_file, file) {
        return Err(anyhow!("the records differ"));
    }
    if !written(rt, &from_text, text)? || !written(rt, &again, text)? {
        return Err(anyhow!("the text does not come back"));
    }
    if !looked_up(rt, &from_file, file)? {
        return Err(anyhow!("a lookup gives other data"));
    }
    if !made_again(rt, text, file)? {
        return Err(anyhow!("another file is made"));
    }
    Ok(counted)
}

/// The records without their places.
// No `From`: neither `records` nor `text` rests on the other, and this program owns neither type.
fn lent<'a>(rt: &HostRuntime, records: &[PlacedRecord<'a>]) -> anyhow::Result<Vec<LentRecord<'a>>> {
    let list = records
        .iter()
        .map(|record| LentRecord {
            key: record.key,
            data: record.data,
        })
        .collect(rt.alloc())?;
    Ok(list)
}

/// Whether keys and data stand in the file at the places that were told.
fn in_place(records: &[PlacedRecord<'_>], file: &[u8]) -> bool {
    records.iter().all(|record| {
        stands(file, record.place as usize + 8, record.key)
            && stands(file, record.data_place as usize, record.data)
    })
}

fn stands(file: &[u8], place: usize, part: &[u8]) -> bool {
    file.get(place..place.saturating_add(part.len())) == Some(part)
}

/// Whether the records are written as this text.
fn written(rt: &HostRuntime, records: &[LentRecord<'_>], text: &[u8]) -> anyhow::Result<bool> {
    let mut buffer = vec![in rt.alloc(); 0u8; text.len()]?;
    let written = write_text(records, &mut buffer);
    Ok(written == Ok(text.len()) && buffer.as_slice() == text)
}

/// Whether the file that is made of the text is this one, byte for byte.
fn made_again(rt: &HostRuntime, text: &[u8], file: &[u8]) -> anyhow::Result<bool> {
    let Ok(size) = file_size(text) else {
        return Err(anyhow!("the text is refused"));
    };
    let mut memory = vec![in rt.alloc(); 0u8; size.memory()]?;
    let mut entries = vec![in rt.alloc(); Entry { hash: 0, place: 0 }; size.records]?;
    Ok(make_in_memory(&mut memory, &mut entries, text).is_ok_and(|made| made == file))
}

/// Whether each record's data are found under its key, by the record's number among those of the key, and none after the last.
fn looked_up(rt: &HostRuntime, records: &[PlacedRecord<'_>], file: &[u8]) -> anyhow::Result<bool> {
    if file.len() > 4294966784 {
        return Err(anyhow!("the file is too long"));
    }
    let len = file.len() as u32;
    let mut memory = Vec::new(rt.alloc());
    memory.extend_from_slice(file)?;
    // Memory is read in whole sectors, and the last one of a file is seldom full.
    memory.extend_from_slice(&[0; 512])?;
    Ok(
        records.iter().all(|record| {
            let before = count_before(records, record.key, record.place);
            let all = count_before(records, record.key, len);
            finds(&memory, len, record, before) && ends(&memory, len, record.key, all)
        }),
    )
}

/// How many records of a key stand before a place.
fn count_before(records: &[PlacedRecord<'_>], key: &[u8], place: u32) -> u32 {
    let count = records
        .iter()
        .filter(|record| record.place < place && record.key == key)
        .count();
    u32::try_from(count).unwrap_or(u32::MAX)
}

fn finds(memory: &[u8], len: u32, record: &PlacedRecord<'_>, n: u32) -> bool {
    let Ok(Some(found)) = find_in_memory(memory, len, record.key, n) else {
        return false;
    };
    found.place == record.data_place && found.len as usize == record.data.len()
}

fn ends(memory: &[u8], len: u32, key: &[u8], n: u32) -> bool {
    matches!(find_in_memory(memory, len, key, n), Ok(None))
}

/// A file alone: how many records it has, or how it is refused.
fn alone(rt: &HostRuntime, name: &str) -> anyhow::Result<()> {
    let file = fs::read(rt, format!(in rt.alloc(); "{name}.cdb")?)?;
    match counted(&file) {
        Ok(Tally { records, bytes }) => Ok(println!(rt; "{name}: {records},{bytes}")?),
        Err(fault) => {
            let report = Report::from(fault);
            Ok(println!(rt; "{name}: no,{report}")?)
        }
    }
}

/// How many records a file has, and how many bytes of keys and data.
// As `tally` of `text` does with a reader of its own; `records` and `text` do not rest on each other.
fn counted(file: &[u8]) -> Result<Tally, FileFault> {
    let mut reader = RecordReader::new(file);
    let mut records = 0usize;
    let mut bytes = 0usize;
    // Each record takes bytes of the file, so there are no more records than bytes. That a reader ends is not in its promise.
    for _ in 0..file.len() {
        let Some(record) = reader.next()? else {
            break;
        };
        records = records.saturating_add(1);
        bytes = bytes
            .saturating_add(record.key.len())
            .saturating_add(record.data.len());
    }
    Ok(Tally { records, bytes })
}
