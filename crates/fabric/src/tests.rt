// Homes of an object that core 2 alone touches, and of one that cores 0 and 2 touch.
use crate::{Fabric, SheetFabric};
use rules::sheet::{Kind, Machine};

// The homes in a fabric of each kind.
fn homes(touching: u64) -> [u64; 3] {
    [Kind::Unified, Kind::Private, Kind::Hybrid].map(|kind| {
        let machine = Machine {
            kind,
            cores: 4,
            shared: 64,
            private: 32,
            grain: 1,
        };
        SheetFabric::of(&machine).homes(touching)
    })
}

#[test]
fn homes_of_one_core(rt: HostRuntime) {
    assert_eq!(rt; homes(0b100), [0b1, 0b100, 0b1000]);
}

#[test]
fn homes_of_two_cores(rt: HostRuntime) {
    assert_eq!(rt; homes(0b101), [0b1, 0b101, 0b1]);
}
