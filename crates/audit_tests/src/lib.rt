//! The limit of the audit program, and the lines that it prints.
#![tactic(auto)]

#[cfg(test)]
mod tests {
    use answering::input::audit_input;
    use answering::line::line;
    use auditing::audits::Counts;
    use faults::report::Report;
    use std::test::Fail;

    #[test]
    fn takes_as_much_as_the_limit(rt: HostRuntime) -> Result<(), Fail> {
        let zeros = vec![in rt.alloc(); 0u8; 61440]?;
        assert_eq!(rt;
            audit_input(&zeros).map_err(Report::from),
            Err(Report::in_table(2, 0, 0))
        );
        Ok(())
    }

    #[test]
    fn refuses_a_byte_more(rt: HostRuntime) -> Result<(), Fail> {
        let zeros = vec![in rt.alloc(); 0u8; 61441]?;
        assert_eq!(rt;
            audit_input(&zeros).map_err(Report::from),
            Err(Report::placed(27, 61440))
        );
        Ok(())
    }

    #[test]
    fn refuses_no_bytes_as_short(rt: HostRuntime) {
        assert_eq!(rt;
            audit_input(b"").map_err(Report::from),
            Err(Report::bare(1))
        );
    }

    #[test]
    fn tells_counts_and_refusals(rt: HostRuntime) -> Result<(), Fail> {
        let heap = rt.alloc();
        let ok = line(
            heap,
            Ok(Counts {
                records: 2,
                slots: 4,
                probes: 3,
            }),
        )?;
        assert_eq!(rt; ok.as_str(), "ok,2,4,3\n");
        let no = line(heap, Err(Report::in_table(8, 196, 2058)))?;
        assert_eq!(rt; no.as_str(), "no,8,196,2058\n");
        Ok(())
    }
}
