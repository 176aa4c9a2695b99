//! Lookups on worked files, on damaged ones and beside bad sectors.
#![tactic(auto)]

ghost use Rattle.std.specs.Prelude.{◌+◌, ◌*◌, ◌^◌, ◌<◌, ◌≤◌};

#[cfg(test)]
mod tests {
    use checks::put_word;
    use device::device::Device;
    use faults::device::DeviceFault;
    use faults::file::{FileFault, Located};
    use file::extents::Extent;
    use lookup::calls::{fetch, next, start};
    use lookup::cursors::Cursor;
    use marks::layer::Marked;
    use memory::reading::ReadMemory;
    use std::test::Fail;

    // The place of the data that a next gives, if it gives any.
    fn place_of<D: Device>(
        d: &mut D,
        cursor: &mut Cursor,
        key: &[u8],
    ) -> Result<Option<u32>, FileFault> {
        Ok(next(d, cursor, key)?.map(|found| found.place))
    }

    // A header whose only table with slots is `table`, at `position`.
    fn header(file: &mut [u8; 3072], table: usize, position: u32, slots: u32) -> Result<(), Fail>
        requires { position + 8 * slots < 2 ^ 32 }
    {
        let end = position + 8 * slots;
        for t in 0..256 {
            put_word(file, 8 * t, if t <= table { position } else { end })?;
            put_word(file, 8 * t + 4, if t == table { slots } else { 0 })?;
        }
        Ok(())
    }

    // Two records of the key `a`, with the data `1` and `2`, in four slots of table 196: 2,100 bytes.
    fn twice_a() -> Result<[u8; 3072], Fail> {
        let mut file = [0; 3072];
        header(&mut file, 196, 2068, 4)?;
        put_word(&mut file, 2048, 1)?;
        put_word(&mut file, 2052, 1)?;
        file[2056] = b'a';
        file[2057] = b'1';
        put_word(&mut file, 2058, 1)?;
        put_word(&mut file, 2062, 1)?;
        file[2066] = b'a';
        file[2067] = b'2';
        put_word(&mut file, 2076, 177604)?;
        put_word(&mut file, 2080, 2048)?;
        put_word(&mut file, 2084, 177604)?;
        put_word(&mut file, 2088, 2058)?;
        Ok(file)
    }

    #[test]
    fn gives_all_data_of_a_key_then_none(rt: HostRuntime) -> Result<(), Fail> {
        let file = twice_a()?;
        let mut d = ReadMemory::new(&file);
        let extent = Extent::new(0, 2100)?;
        let mut cursor = start(&mut d, extent, b"a")?;
        assert_eq!(rt; place_of(&mut d, &mut cursor, b"a")?, Some(2057));
        assert_eq!(rt; place_of(&mut d, &mut cursor, b"a")?, Some(2067));
        assert_eq!(rt; place_of(&mut d, &mut cursor, b"a")?, None);
        assert_eq!(rt; place_of(&mut d, &mut cursor, b"a")?, None);
        Ok(())
    }

    #[test]
    fn fetches_what_was_found(rt: HostRuntime) -> Result<(), Fail> {
        let file = twice_a()?;
        let mut d = ReadMemory::new(&file);
        let extent = Extent::new(0, 2100)?;
        let mut cursor = start(&mut d, extent, b"a")?;
        let Some(found) = next(&mut d, &mut cursor, b"a")? else {
            return Err(Fail::new("none"));
        };
        let mut data = [0];
        fetch(&mut d, extent, found, 0, &mut data)?;
        assert_eq!(rt; data[0], b'1');
        let mut none = [];
        fetch(&mut d, extent, found, 1, &mut none)?;
        assert_eq!(rt;
            fetch(&mut d, extent, found, 1, &mut data),
            Err(FileFault::Range)
        );
        assert_eq!(rt; data[0], b'1');
        Ok(())
    }

    #[test]
    fn misses_an_absent_key_and_an_empty_table(rt: HostRuntime) -> Result<(), Fail> {
        let file = twice_a()?;
        let mut d = ReadMemory::new(&file);
        let extent = Extent::new(0, 2100)?;
        let mut cursor = start(&mut d, extent, b"")?;
        assert_eq!(rt; place_of(&mut d, &mut cursor, b"")?, None);
        Ok(())
    }

    #[test]
    fn refuses_another_key_and_stays(rt: HostRuntime) -> Result<(), Fail> {
        let file = twice_a()?;
        let mut d = ReadMemory::new(&file);
        let extent = Extent::new(0, 2100)?;
        let mut cursor = start(&mut d, extent, b"a")?;
        assert_eq!(rt;
            place_of(&mut d, &mut cursor, b"b"),
            Err(FileFault::OtherKey)
        );
        assert_eq!(rt; cursor.probed, 0);
        assert_eq!(rt; place_of(&mut d, &mut cursor, b"a")?, Some(2057));
        Ok(())
    }

    #[test]
    fn goes_on_at_the_first_slot_after_the_last(rt: HostRuntime) -> Result<(), Fail> {
        let mut file = [0; 3072];
        header(&mut file, 5, 2066, 11)?;
        put_word(&mut file, 2052, 1)?;
        file[2056] = b'1';
        put_word(&mut file, 2061, 1)?;
        file[2065] = b'2';
        put_word(&mut file, 2066, 5381)?;
        put_word(&mut file, 2070, 2057)?;
        put_word(&mut file, 2146, 5381)?;
        put_word(&mut file, 2150, 2048)?;
        let mut d = ReadMemory::new(&file);
        let extent = Extent::new(0, 2154)?;
        let mut cursor = start(&mut d, extent, b"")?;
        assert_eq!(rt; place_of(&mut d, &mut cursor, b"")?, Some(2056));
        assert_eq!(rt; place_of(&mut d, &mut cursor, b"")?, Some(2065));
        assert_eq!(rt; place_of(&mut d, &mut cursor, b"")?, None);
        Ok(())
    }

    #[test]
    fn refuses_a_slot_past_the_end(rt: HostRuntime) -> Result<(), Fail> {
        let mut file = twice_a()?;
        header(&mut file, 196, 2097, 4)?;
        let mut d = ReadMemory::new(&file);
        let extent = Extent::new(0, 2100)?;
        let mut cursor = start(&mut d, extent, b"a")?;
        assert_eq!(rt;
            place_of(&mut d, &mut cursor, b"a"),
            Err(FileFault::Past(196, 2105))
        );
        assert_eq!(rt; cursor.probed, 0);
        Ok(())
    }

    #[test]
    fn refuses_a_record_past_the_end(rt: HostRuntime) -> Result<(), Fail> {
        let mut file = twice_a()?;
        put_word(&mut file, 2052, 44)?;
        let mut d = ReadMemory::new(&file);
        let extent = Extent::new(0, 2100)?;
        let mut cursor = start(&mut d, extent, b"a")?;
        assert_eq!(rt;
            place_of(&mut d, &mut cursor, b"a"),
            Err(FileFault::Past(196, 2048))
        );
        Ok(())
    }

    #[test]
    fn refuses_a_short_file_and_one_that_is_not_there(rt: HostRuntime) -> Result<(), Fail> {
        let file = twice_a()?;
        let mut d = ReadMemory::new(&file);
        let short = Extent::new(0, 2047)?;
        assert_eq!(rt;
            start(&mut d, short, b"a").err(),
            Some(FileFault::Short(2047))
        );
        let outside = Extent::new(1000, 2100)?;
        assert_eq!(rt; start(&mut d, outside, b"a").err(), Some(FileFault::Range));
        Ok(())
    }

    #[test]
    fn meets_a_bad_header_sector_only_where_it_looks(rt: HostRuntime) -> Result<(), Fail> {
        let file = twice_a()?;
        let extent = Extent::new(0, 2100)?;
        let mut d = Marked::new(ReadMemory::new(&file));
        d.mark(3)?;
        let bad = Located {
            fault: DeviceFault::Bad(1536),
            table: 196,
            place: 1568,
        };
        assert_eq!(rt;
            start(&mut d, extent, b"a").err(),
            Some(FileFault::Device(bad))
        );
        let mut cursor = start(&mut d, extent, b"")?;
        assert_eq!(rt; place_of(&mut d, &mut cursor, b"")?, None);
        Ok(())
    }
}
