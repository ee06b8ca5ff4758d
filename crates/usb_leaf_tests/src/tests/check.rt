//! The two check fields of packets.
use usb_check::{check5, check16};

struct TokenRow {
    field: u16,
    check: u8,
}

const TOKENS: &[TokenRow] = &[
    TokenRow { field: 0, check: 2 },
    TokenRow {
        field: 1,
        check: 29,
    },
    TokenRow {
        field: 0x53a,
        check: 7,
    },
    TokenRow {
        field: 0x81,
        check: 11,
    },
];

struct DataRow {
    bytes: &'static [u8],
    check: u16,
}

const DATA: &[DataRow] = &[
    DataRow {
        bytes: &[],
        check: 0,
    },
    DataRow {
        bytes: &[0, 1, 2, 3],
        check: 0x7aef,
    },
    DataRow {
        bytes: &[0x80, 6, 0, 1, 0, 0, 0x40, 0],
        check: 0x94dd,
    },
];

#[test]
fn checks_of_tokens(rt: HostRuntime) {
    for row in TOKENS {
        // a field has eleven bits
        let check = if row.field < 2048 {
            check5(row.field)
        } else {
            0xff
        };
        assert_eq!(rt; check, row.check, "at {}", row.field);
    }
}

#[test]
fn checks_of_data(rt: HostRuntime) {
    for row in DATA {
        assert_eq!(rt; check16(row.bytes), row.check, "at {:?}", row.bytes);
    }
}
