// Any rule and any fabric do where those of a sheet do.
use crate::{LastFit, TwinBanks};
use fabric::Fabric;
use fit::{FitRule, Low, Snug, ask};
use rules::memory::Stretch;
use words::lowest;

// Where the rule puts an object of 5 bytes.
fn place<R: FitRule>(rule: &R) -> Option<u32> {
    let gaps = [
        Stretch { start: 0, end: 10 },
        Stretch { start: 20, end: 25 },
        Stretch {
            start: 40,
            end: 100,
        },
        Stretch {
            start: 110,
            end: 114,
        },
    ];
    ask(rule, &gaps, 5, 1)
        .ok()
        .flatten()
        .map(|(place, _)| place)
}

#[test]
fn takes_the_highest(rt: HostRuntime) {
    let below = Low {
        line: 39,
        rule: LastFit,
    };
    let tight = Snug {
        limit: 5,
        rule: LastFit,
    };
    let lowest = Low {
        line: 10,
        rule: tight,
    };
    assert_eq!(rt; place(&LastFit), Some(40));
    assert_eq!(rt; place(&below), Some(20));
    assert_eq!(rt; place(&tight), Some(20));
    assert_eq!(rt; place(&lowest), Some(0));
}

// The capacity of an object's lowest home.
fn room<F: Fabric>(fabric: &F, touching: u64) -> Option<u32> {
    lowest(fabric.homes(touching)).map(|bank| fabric.capacity(bank))
}

#[test]
fn keeps_joint_objects_apart(rt: HostRuntime) {
    let banks = TwinBanks::new(4, 64, 32);
    assert_eq!(rt; room(&banks, 0b100), Some(64));
    assert_eq!(rt; room(&banks, 0b101), Some(32));
}
