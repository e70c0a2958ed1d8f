//! Worked cases of the format, as one fact.
#![tactic(auto)]

ghost use Rattle.std.specs.Prelude.{◌≡◌};
ghost use Rattle.worked.specs.Worked.{Worked};

/// The strings, refusals, table entries and rows that are worked.
const STRINGS: usize = 6;

const REFUSALS: usize = 3;

const ENTRIES: usize = 2;

const ROWS: usize = 2;

/// How many cases are worked; that each comes out as it is written holds for the definitions that all contracts rest on.
pub fn worked_cases() -> usize
    ensures count { result ≡ 13 }
    ensures cases { Worked }
{
    STRINGS + REFUSALS + ENTRIES + ROWS
}

#[cfg(test)]
mod tests {
    use charts::cell::MarkedCell;
    use charts::cells::Cells;
    use charts::levels::write_levels;
    use charts::overlay::Overlay;
    use charts::recoding::Recoding;
    use charts::window::Window;
    use format::fault::Start;
    use loader::holder::Loader;
    use loader::packed::Packed;
    use runs::reading::RunString;
    use std::test::Fail;

    const MESSAGE: &[u8] = b"GRIB\xff\xff\x00\x02\x00\x00\x00\x00\x00\x00\x00\xb7\
        \x00\x00\x00\x15\x01\x00\x22\x00\x00\x02\x01\x00\x07\xe0\x02\x1d\x11\x1e\x00\x00\x00\
        \x00\x00\x00\x48\x03\x00\x00\x00\x00\x05\x00\x00\x00\x00\x04\xff\xff\xff\xff\xff\x01\x03\xcd\x39\xfa\x01\x03\xc9\xf6\xa3\
        \x00\x00\x00\x05\x00\x00\x00\x01\x00\x00\x00\x00\xff\xff\xff\xff\x02\x16\x0e\xc0\x08\x0b\xef\xc0\x30\
        \x02\x16\x0e\xc0\x08\x0c\xb3\x10\x00\x00\x30\xd4\x00\x00\x20\x8d\x00\
        \x00\x00\x00\x22\x04\x00\x00\x00\x00\x01\xd7\x00\x96\xff\x00\x00\x0a\x00\x00\x00\x00\x00\x01\xff\xff\xff\xff\xff\xff\xff\xff\xff\xff\xff\
        \x00\x00\x00\x15\x05\x00\x00\x00\x05\x00\xc8\x08\x00\x02\x00\x02\x01\x00\x0a\x00\x14\
        \x00\x00\x00\x06\x06\xff\x00\x00\x00\x09\x07\x00\x05\x02\x047777";

    fn string(octets: &[u8], v: u8) -> RunString<'_> {
        RunString { octets, v }
    }

    #[test]
    fn strings(rt: HostRuntime) -> Result<(), Fail> {
        let start = Start {
            place: 100,
            fields: 0,
        };
        assert!(rt; string(&[0, 5, 2, 4], 2).check(5, start).is_ok());
        assert!(rt; string(&[0, 0, 0, 2, 3, 2], 2).canonical_length() == Some(4));
        let Err(fault) = string(&[0, 4], 2).check(3, start) else {
            return Err(Fail::new("a string that is over early"));
        };
        assert!(rt; fault.at.place == 102 && fault.cells == 2);
        Ok(())
    }

    #[test]
    fn held_after_a_refusal(rt: HostRuntime) {
        let mut loader = Loader::new();
        assert!(rt; loader.count() == 0);
        assert!(rt; loader.load(MESSAGE).is_ok());
        assert!(rt; loader.load(b"GRIB").is_err());
        assert!(rt; loader.count() == 1);
    }

    #[test]
    fn a_pile_of_charts(rt: HostRuntime) {
        let mut loader = Loader::new();
        assert!(rt; loader.load(MESSAGE).is_ok());
        let mut field = Packed::new();
        assert!(rt; field.open(&loader, 0).is_ok());
        let mut recoding = Recoding::over(field);
        recoding.set(0, 9);
        recoding.set(2, 3);
        let mut part = Window::over(recoding);
        assert!(rt; part.place(4, 2, 2, 0).is_ok());
        let marks = [
            MarkedCell { rain: 5, cause: 1 },
            MarkedCell { rain: 7, cause: 1 },
            MarkedCell { rain: 8, cause: 0 },
            MarkedCell { rain: 4, cause: 1 },
        ];
        let mut cells = Cells::new();
        assert!(rt; cells.open(&marks, 2, 2).is_ok());
        let mut pile = Overlay::over(part, cells);
        let mut levels = [0; 8];
        assert!(rt; write_levels(&mut pile, &mut levels).is_ok());
        assert!(rt; levels == [9, 7, 3, 0, 0, 4, 0, 0]);
    }

    #[test]
    fn a_lent_chart(rt: HostRuntime) {
        let octets = [1, 5, 2, 2];
        let mut cells = Cells::new();
        assert!(rt; cells.open(&octets, 2, 2).is_ok());
        let mut part = Window::over(&mut cells);
        assert!(rt; part.place(1, 2, 0, 0).is_ok());
        let mut column = [0; 2];
        assert!(rt; write_levels(&mut part, &mut column).is_ok());
        assert!(rt; column == [1, 2]);
        let mut levels = [0; 4];
        assert!(rt; write_levels(&mut cells, &mut levels).is_ok());
        assert!(rt; levels == octets);
    }
}
