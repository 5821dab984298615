// A sheet that a caller's own rule places on the caller's own fabric.

use crate::printing::placed;
use own::{LastFit, TwinBanks};
use std::test::Fail;

// Three working areas, of which the first and the last do not exclude each other, and a FIFO between the cores.
const SHEET: &str = "LGM 1\nM U 2 64 0 1\nP F\nA 0 10\nA 1 8\nA 0 4\nD 0 1 3\nS 0 2\n";

#[test]
fn placed_by_a_callers_own(rt: HostRuntime) -> Result<(), Fail> {
    let heap = rt.alloc();
    // cores, the capacities of both banks, and what is printed
    let cases = [
        (
            2,
            64,
            32,
            "LGM 1\nB 0 22 64\nB 1 3 32\nO 0 0 0\nO 1 0 10\nO 2 0 18\nO 3 1 0\n",
        ),
        (2, 64, 2, "E 11 3 - 3 1\n"),
        (1, 64, 32, "E 6 3 - - -\n"),
    ];
    for (cores, lone, joint, expected) in cases {
        let banks = TwinBanks::new(cores, lone, joint);
        let found = placed(heap, SHEET.as_bytes(), &LastFit, &banks)?;
        assert_eq!(rt; found.as_str(), expected);
    }
    Ok(())
}
