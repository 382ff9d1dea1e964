// Examples of the format: sheets that read to their end, damaged ones, and records that are written.
// The helpers answer plain numbers, 0 where there is no fault, so that a test is a line of values.
#![tactic(auto)]

#[cfg(test)]
mod tests {
    use sheet::{Reader, SheetFault};
    use sheet_write::{round, write_heading, write_record};

    const OPEN: [u8; 6] = [0x42, 0x42, 0x31, 1, 5, 2];

    // How many records a sheet holds, up to eight.
    fn count(bytes: &[u8]) -> Result<usize, SheetFault> {
        let mut reader = Reader::open(bytes)?;
        let (_, _) = reader.heading_number()?;
        let (_, _) = reader.heading_number()?;
        let (n, _) = reader.heading_number()?;
        reader.begin(n);
        for k in 0..8usize {
            if reader.next()?.is_none() {
                return Ok(k);
            }
        }
        Ok(8)
    }

    // The number of a sheet's first fault, its byte and its record; zeros where there is none.
    fn fault(bytes: &[u8]) -> (u8, usize, usize) {
        match count(bytes) {
            Ok(_) => (0, 0, 0),
            Err(f) => (f.number(), f.byte(), f.record()),
        }
    }

    #[test]
    fn six_kinds_read(rt: HostRuntime) {
        let bytes = [
            0x42, 0x42, 0x31, 1, 5, 2, 1, 2, 3, 4, 2, 0, 3, 5, 0, 1, 7, 0xAC, 2, 4, 0, 5, 4, 1, 7,
            0, 1, 6, 2, 1, 0,
        ];
        assert_eq!(rt; fault(&bytes), (0, 0, 0));
        assert!(rt; count(&bytes).unwrap_or(0) == 6);
    }

    #[test]
    fn headings_are_judged(rt: HostRuntime) {
        assert_eq!(rt; fault(&OPEN), (0, 0, 0));
        assert_eq!(rt; fault(&[0x42, 0x42, 0x30, 1, 5, 2]), (21, 0, 0));
        assert_eq!(rt; fault(&[0x42, 0x42]), (21, 0, 0));
        assert_eq!(rt; fault(&[0x42, 0x42, 0x31, 1, 0x80, 0, 2]), (19, 4, 0));
        assert_eq!(rt; fault(&[0x42, 0x42, 0x31, 1, 5, 0x80]), (18, 5, 0));
        assert_eq!(rt; fault(&[0x42, 0x42, 0x31, 0x80, 0x80, 0x80, 1]), (20, 3, 0));
    }

    #[test]
    fn damaged_records_are_placed(rt: HostRuntime) {
        assert_eq!(rt; fault(&[0x42, 0x42, 0x31, 1, 5, 2, 7, 0]), (22, 6, 1));
        assert_eq!(rt; fault(&[0x42, 0x42, 0x31, 1, 5, 2, 1, 3, 1, 1]), (23, 6, 1));
        assert_eq!(rt; fault(&[0x42, 0x42, 0x31, 1, 5, 2, 1, 1, 3]), (18, 9, 1));
        assert_eq!(rt;
            fault(&[0x42, 0x42, 0x31, 1, 5, 2, 1, 3, 3, 4, 5]),
            (23, 6, 1)
        );
        assert_eq!(rt; fault(&[0x42, 0x42, 0x31, 1, 5, 2, 2, 1, 0]), (23, 6, 1));
        assert_eq!(rt;
            fault(&[0x42, 0x42, 0x31, 1, 5, 2, 4, 0, 1, 2, 3, 0x80, 4, 0]),
            (18, 11, 2)
        );
        assert_eq!(rt;
            fault(&[0x42, 0x42, 0x31, 1, 5, 2, 1, 3, 0x80, 2, 1]),
            (20, 8, 1)
        );
    }

    // The example sheets: one with a byte more than it should have, the sound one, and one with a byte less.
    #[test]
    fn examples_are_judged(rt: HostRuntime) {
        let bytes = [
            0x42, 0x42, 0x31, 0, 3, 1, 1, 1, 0, 1, 1, 1, 2, 0, 3, 4, 2, 1, 2, 0, 4, 0, 5, 3, 1, 1,
            3, 0x0A,
        ];
        assert_eq!(rt; fault(&bytes), (22, 27, 7));
        assert_eq!(rt; fault(&bytes[..27]), (0, 0, 0));
        assert_eq!(rt; fault(&bytes[..26]), (23, 22, 6));
    }

    #[test]
    fn records_are_written(rt: HostRuntime) {
        let mut out = [9u8; 8];
        assert!(rt; write_record(2, 1, &[3, 4], &mut out).unwrap_or(0) == 4);
        assert_eq!(rt; out, [1, 2, 3, 4, 9, 9, 9, 9]);
        assert!(rt; round(2, 3, &[0, 1, 7, 300], &mut out).unwrap_or(false));
        assert_eq!(rt; out, [3, 5, 0, 1, 7, 0xAC, 2, 9]);
    }

    // The number of the fault of a record that is not written, or 0; the output is as it was.
    fn refused(n: u16, kind: u16, numbers: &[u16]) -> (u8, bool) {
        let mut out = [9u8; 4];
        match write_record(n, kind, numbers, &mut out) {
            Ok(_) => (0, false),
            Err(f) => (f.number(), out == [9, 9, 9, 9]),
        }
    }

    #[test]
    fn bad_records_are_refused(rt: HostRuntime) {
        assert_eq!(rt; refused(9, 7, &[1]), (1, true));
        assert_eq!(rt; refused(2, 7, &[1]), (22, true));
        assert_eq!(rt; refused(2, 1, &[1]), (23, true));
        assert_eq!(rt; refused(2, 5, &[1, 7, 0]), (23, true));
        assert_eq!(rt; refused(2, 1, &[1, 256]), (20, true));
        assert_eq!(rt; refused(2, 6, &[1, 128]), (24, true));
    }

    #[test]
    fn headings_are_written(rt: HostRuntime) {
        let mut out = [0u8; 6];
        assert!(rt; write_heading(1, 5, 2, &mut out).unwrap_or(0) == 6);
        assert_eq!(rt; out, OPEN);
    }
}
