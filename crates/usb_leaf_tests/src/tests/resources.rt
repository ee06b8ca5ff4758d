//! Addresses taken and given back, and the power of ports.
use usb_port::{Address, AddressPool, supply};

/// The number of the address that is taken, and whether it is free then.
fn taken(pool: &mut AddressPool) -> Option<(u8, bool)> {
    match pool.take() {
        Some(address) => Some((address.number(), pool.is_free(address))),
        None => None,
    }
}

#[test]
fn each_address_once(rt: HostRuntime) {
    let mut pool = AddressPool::new();
    for number in 1..129u8 {
        let want = if number < 128 {
            Some((number, false))
        } else {
            None
        };
        assert_eq!(rt; taken(&mut pool), want, "at {number}");
    }
}

/// What is done to a pool of which the addresses 1, 2 and 3 are taken.
#[derive(Clone, Copy, Debug)]
enum Step {
    ReleaseSecond,
    Take,
}

struct StepRow {
    step: Step,
    /// The address that the step gives.
    taken: Option<u8>,
    /// Which of the three addresses are free then.
    free: [bool; 3],
}

const STEPS: &[StepRow] = &[
    StepRow {
        step: Step::ReleaseSecond,
        taken: None,
        free: [false, true, false],
    },
    StepRow {
        step: Step::ReleaseSecond,
        taken: None,
        free: [false, true, false],
    },
    StepRow {
        step: Step::Take,
        taken: Some(2),
        free: [false; 3],
    },
    StepRow {
        step: Step::Take,
        taken: Some(4),
        free: [false; 3],
    },
];

/// The address that the step gives, and which of the first three are free then.
fn after_step(pool: &mut AddressPool, first: [Address; 3], step: Step) -> (Option<u8>, [bool; 3]) {
    let number = match step {
        Step::ReleaseSecond => {
            pool.release(first[1]);
            None
        }
        Step::Take => match pool.take() {
            Some(address) => Some(address.number()),
            None => None,
        },
    };
    let free = [
        pool.is_free(first[0]),
        pool.is_free(first[1]),
        pool.is_free(first[2]),
    ];
    (number, free)
}

#[test]
fn the_least_free_address_again(rt: HostRuntime) {
    let mut pool = AddressPool::new();
    let (Some(one), Some(two), Some(three)) = (pool.take(), pool.take(), pool.take()) else {
        assert!(rt; false);
        return;
    };
    assert!(rt; one < two && two < three);
    for row in STEPS {
        let told = after_step(&mut pool, [one, two, three], row.step);
        assert_eq!(rt; told, (row.taken, row.free), "{:?}", row.step);
    }
}

struct SupplyRow {
    is_root: bool,
    self_powered: bool,
    supply: u16,
}

const SUPPLIES: &[SupplyRow] = &[
    SupplyRow {
        is_root: true,
        self_powered: false,
        supply: 500,
    },
    SupplyRow {
        is_root: true,
        self_powered: true,
        supply: 500,
    },
    SupplyRow {
        is_root: false,
        self_powered: true,
        supply: 500,
    },
    SupplyRow {
        is_root: false,
        self_powered: false,
        supply: 100,
    },
];

#[test]
fn power_of_ports(rt: HostRuntime) {
    for row in SUPPLIES {
        let told = supply(row.is_root, row.self_powered);
        assert_eq!(rt;
            told,
            row.supply,
            "root {}, self powered {}",
            row.is_root, row.self_powered
        );
    }
}
