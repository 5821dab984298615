// Lines, and the calls that are found in them.

use crate::call_lines::call_of;
use run::call::Call;
use std::test::Fail;

#[test]
fn calls(rt: HostRuntime) -> Result<(), Fail> {
    let cases = [
        ("start 0", Call::Start(0)),
        ("start 4294967295", Call::Start(4_294_967_295)),
        ("finish 10", Call::Finish(10)),
        ("order 0 1", Call::Order(0, 1)),
        ("order 63 63", Call::Order(63, 63)),
        ("round", Call::Round),
    ];
    for (line, call) in cases {
        assert_eq!(rt; call_of(line.as_bytes()), Some(call), "{}", line);
    }
    Ok(())
}

#[test]
fn no_calls(rt: HostRuntime) -> Result<(), Fail> {
    let cases = [
        "",
        " ",
        "start",
        "start ",
        "start 0 ",
        "start  0",
        " start 0",
        "start\t0",
        "start 0\r",
        "start 0\0",
        "start 00",
        "start +1",
        "start 4294967296",
        "start 99999999999999999999",
        "start 0 1",
        "start0",
        "Start 0",
        "order 0",
        "order 0 1 2",
        "order 0  1",
        "rounds",
        "round 0",
        "finis 0",
        "A 0 0",
    ];
    for line in cases {
        assert_eq!(rt; call_of(line.as_bytes()), None, "{}", line);
    }
    Ok(())
}
