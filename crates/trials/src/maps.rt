// Maps of the two samples and their variants.

use crate::printing::printed;
use std::test::Fail;

const HEAD: &str = "LGM 1\nM U 2 64 0 1\nP F\n";

// The actors and FIFOs of sample A.
const LINES_A: &str = "A 0 0\nA 0 0\nA 1 0\nA 1 4\nF 0 1 10\nF 1 2 6\nF 2 3 8\nF 0 2 5\n";

// The places in sample A, whatever the bank's capacity.
const PLACES_A: &str = "O 0 0 8\nO 1 0 0\nO 2 0 10\nO 3 0 0\nO 4 0 16\n";

#[test]
fn sample_a_on_machines(rt: HostRuntime) -> Result<(), Fail> {
    let heap = rt.alloc();
    let roomy = format!(in heap; "LGM 1\nB 0 21 64\n{PLACES_A}")?;
    let tight = format!(in heap; "LGM 1\nB 0 21 21\n{PLACES_A}")?;
    let cases = [
        ("M U 2 64 0 1", roomy.as_str()),
        ("M U 2 21 0 1", tight.as_str()),
        ("M U 2 20 0 1", "E 11 3 - 4 0\n"),
        (
            "M U 2 64 0 8",
            "LGM 1\nB 0 29 64\nO 0 0 8\nO 1 0 0\nO 2 0 16\nO 3 0 0\nO 4 0 24\n",
        ),
        (
            "M H 2 64 64 1",
            "LGM 1\nB 0 11 64\nB 1 10 64\nB 2 12 64\nO 0 2 8\nO 1 1 0\nO 2 0 0\nO 3 2 0\nO 4 0 6\n",
        ),
    ];
    for (machine, expected) in cases {
        let text = format!(in heap; "LGM 1\n{machine}\nP F\n{LINES_A}")?;
        let found = printed(heap, text.as_bytes())?;
        assert_eq!(rt; found.as_str(), expected, "{}", machine);
    }
    Ok(())
}

#[test]
fn samples_with_further_lines(rt: HostRuntime) -> Result<(), Fail> {
    let heap = rt.alloc();
    let delayed = format!(in heap; "LGM 1\nB 0 23 64\n{PLACES_A}O 5 0 21\n")?;
    let cases = [
        (LINES_A, "D 3 0 2\n", delayed.as_str()),
        ("A 0 4\nA 0 6\n", "", "LGM 1\nB 0 10 64\nO 0 0 6\nO 1 0 0\n"),
        (
            "A 0 4\nA 0 6\n",
            "S 0 1\n",
            "LGM 1\nB 0 6 64\nO 0 0 0\nO 1 0 0\n",
        ),
        ("A 0 4\nA 0 4\n", "", "LGM 1\nB 0 8 64\nO 0 0 0\nO 1 0 4\n"),
    ];
    for (lines, more, expected) in cases {
        let text = format!(in heap; "{HEAD}{lines}{more}")?;
        let found = printed(heap, text.as_bytes())?;
        assert_eq!(rt; found.as_str(), expected, "{}", more);
    }
    Ok(())
}
