// Fault lines of refused texts.

use crate::printing::printed;
use std::test::Fail;

#[test]
fn odd_texts(rt: HostRuntime) -> Result<(), Fail> {
    let heap = rt.alloc();
    let cases = [
        ("", "E 2 1 1 - -\n"),
        ("\0", "E 2 1 1 - -\n"),
        ("LGM 2\n", "E 2 1 1 - -\n"),
        ("LGM 1\r\n", "E 2 1 1 - -\n"),
        ("LGM 1", "E 3 1 1 - -\n"),
        ("LGM 1\n", "E 4 2 2 - -\n"),
        ("LGM 1\n\0\n", "E 3 1 2 - -\n"),
        ("LGM 1\n\n", "E 3 1 2 - -\n"),
        ("LGM 1\nP F\n", "E 4 2 2 - -\n"),
        ("LGM 1\nP X\n", "E 3 1 2 - -\n"),
        ("LGM 1\nM U 2 64 0 1", "E 3 1 2 - -\n"),
        ("LGM 1\nM U 2 64 0 1\r\n", "E 3 1 2 - -\n"),
        ("LGM 1\nM U 2 4294967295 0 1\n", "E 4 2 3 - -\n"),
        ("LGM 1\nM U 2 4294967296 0 1\n", "E 3 1 2 - -\n"),
        ("LGM 1\nM U 2 64 0 3\nP F\nA 0 04\n", "E 5 2 2 - -\n"),
    ];
    for (text, expected) in cases {
        let found = printed(heap, text.as_bytes())?;
        assert_eq!(rt; found.as_str(), expected, "{}", text);
    }
    Ok(())
}

#[test]
fn faulty_lines(rt: HostRuntime) -> Result<(), Fail> {
    let heap = rt.alloc();
    let cases = [
        ("", "E 4 2 4 - -\n"),
        ("A 0 04\n", "E 3 1 4 - -\n"),
        ("A 2 16777217\n", "E 5 2 4 - -\n"),
        ("A 2 4\n", "E 6 2 4 - -\n"),
        ("A 0 4\nF 0 0 1\n", "E 8 2 5 - -\n"),
        ("A 0 4\nA 1 4\nS 0 1\n", "E 9 2 6 - -\n"),
        ("A 0 4\nA 1 4\nF 0 1 1\nF 1 0 1\n", "E 10 2 7 - -\n"),
    ];
    for (lines, expected) in cases {
        let text = format!(in heap; "LGM 1\nM U 2 64 0 1\nP F\n{lines}")?;
        let found = printed(heap, text.as_bytes())?;
        assert_eq!(rt; found.as_str(), expected, "{}", lines);
    }
    Ok(())
}

#[test]
fn long_texts(rt: HostRuntime) -> Result<(), Fail> {
    let heap = rt.alloc();
    let cases = [(65_536, "E 2 1 1 - -\n"), (65_537, "E 1 1 - - -\n")];
    for (length, expected) in cases {
        let text = vec![in heap; b'x'; length]?;
        let found = printed(heap, text.as_slice())?;
        assert_eq!(rt; found.as_str(), expected);
    }
    Ok(())
}
