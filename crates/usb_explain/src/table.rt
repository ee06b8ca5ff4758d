//! The requests that have names, and the words of each.
use crate::field::SetupField::{
    Index, IndexHigh, IndexLow, Kind, Length, RequestCode, RequestType, Value, ValueHigh, ValueLow,
};
use crate::phrase::Named;
use crate::phrase::Phrase::{self, Byte, Digits, Endpoint, Is, Name, Number, Request, Word};

/// Bits 6 and 5 of bmRequestType (table 9-2).
const KINDS: [Named; 4] = [
    (0, "standard"),
    (1, "class"),
    (2, "vendor"),
    (3, "reserved"),
];

/// Descriptors of which a device has one (table 9-5).
const WHOLE_DESCRIPTORS: [Named; 2] = [(1, "device"), (6, "device qualifier")];

/// Descriptors that have an index and no language (table 9-5).
const INDEXED_DESCRIPTORS: [Named; 2] = [(2, "configuration"), (7, "other speed configuration")];

/// Features of a hub (table 11-17).
const HUB_FEATURES: [Named; 2] = [(0, "C_HUB_LOCAL_POWER"), (1, "C_HUB_OVER_CURRENT")];

/// Features of a hub's port (table 11-17).
const PORT_FEATURES: [Named; 12] = [
    (0, "PORT_CONNECTION"),
    (1, "PORT_ENABLE"),
    (2, "PORT_SUSPEND"),
    (3, "PORT_OVER_CURRENT"),
    (4, "PORT_RESET"),
    (8, "PORT_POWER"),
    (9, "PORT_LOW_SPEED"),
    (16, "C_PORT_CONNECTION"),
    (17, "C_PORT_ENABLE"),
    (18, "C_PORT_SUSPEND"),
    (19, "C_PORT_OVER_CURRENT"),
    (20, "C_PORT_RESET"),
];

/// Features of a hub's port that have a selector (table 11-17).
const SELECTED_FEATURES: [Named; 2] = [(21, "PORT_TEST"), (22, "PORT_INDICATOR")];

/// Descriptors of a HID's interface (HID 1.11, section 7.1).
const HID_DESCRIPTORS: [Named; 3] = [(0x21, "HID"), (0x22, "report"), (0x23, "physical")];

/// Types of a HID's reports (HID 1.11, section 7.2.1).
const REPORT_TYPES: [Named; 3] = [(1, "input"), (2, "output"), (3, "feature")];

/// Protocols of a HID (HID 1.11, section 7.2.5).
const PROTOCOLS: [Named; 2] = [(0, "boot"), (1, "report")];

/// A row each request: its words are those of the first row that fits. The last one fits any.
pub(crate) const ROWS: [&[Phrase]; 46] = [
    // clear feature, set feature (9.4.1, 9.4.9)
    &[
        Request(0x00, 0x01),
        Is(Value, 1),
        Is(Index, 0),
        Is(Length, 0),
        Word("CLEAR_FEATURE DEVICE_REMOTE_WAKEUP"),
    ],
    &[
        Request(0x02, 0x01),
        Is(Value, 0),
        Is(Length, 0),
        Word("CLEAR_FEATURE ENDPOINT_HALT, endpoint "),
        Endpoint,
    ],
    &[
        Request(0x00, 0x03),
        Is(Value, 1),
        Is(Index, 0),
        Is(Length, 0),
        Word("SET_FEATURE DEVICE_REMOTE_WAKEUP"),
    ],
    &[
        Request(0x00, 0x03),
        Is(Value, 2),
        Is(IndexLow, 0),
        Is(Length, 0),
        Word("SET_FEATURE TEST_MODE selector "),
        Number(IndexHigh),
    ],
    &[
        Request(0x02, 0x03),
        Is(Value, 0),
        Is(Length, 0),
        Word("SET_FEATURE ENDPOINT_HALT, endpoint "),
        Endpoint,
    ],
    // configurations and interfaces (9.4.2, 9.4.4, 9.4.7, 9.4.10)
    &[
        Request(0x80, 0x08),
        Is(Value, 0),
        Is(Index, 0),
        Is(Length, 1),
        Word("GET_CONFIGURATION"),
    ],
    &[
        Request(0x00, 0x09),
        Is(ValueHigh, 0),
        Is(Index, 0),
        Is(Length, 0),
        Word("SET_CONFIGURATION "),
        Number(ValueLow),
    ],
    &[
        Request(0x81, 0x0A),
        Is(Value, 0),
        Is(Length, 1),
        Word("GET_INTERFACE interface "),
        Number(Index),
    ],
    &[
        Request(0x01, 0x0B),
        Is(Length, 0),
        Word("SET_INTERFACE interface "),
        Number(Index),
        Word(", setting "),
        Number(Value),
    ],
    // descriptors (9.4.3, 9.4.8)
    &[
        Request(0x80, 0x06),
        Is(ValueLow, 0),
        Is(Index, 0),
        Word("GET_DESCRIPTOR "),
        Name(ValueHigh, &WHOLE_DESCRIPTORS),
        Word(", "),
        Number(Length),
        Word(" bytes"),
    ],
    &[
        Request(0x80, 0x06),
        Is(Index, 0),
        Word("GET_DESCRIPTOR "),
        Name(ValueHigh, &INDEXED_DESCRIPTORS),
        Word(" "),
        Number(ValueLow),
        Word(", "),
        Number(Length),
        Word(" bytes"),
    ],
    &[
        Request(0x80, 0x06),
        Is(Value, 0x0300),
        Is(Index, 0),
        Word("GET_DESCRIPTOR string 0"),
        Word(", "),
        Number(Length),
        Word(" bytes"),
    ],
    &[
        Request(0x80, 0x06),
        Is(ValueHigh, 3),
        Word("GET_DESCRIPTOR string "),
        Number(ValueLow),
        Word(", language "),
        Digits(Index),
        Word(", "),
        Number(Length),
        Word(" bytes"),
    ],
    &[
        Request(0x00, 0x07),
        Is(ValueLow, 0),
        Is(Index, 0),
        Word("SET_DESCRIPTOR "),
        Name(ValueHigh, &WHOLE_DESCRIPTORS),
        Word(", "),
        Number(Length),
        Word(" bytes"),
    ],
    &[
        Request(0x00, 0x07),
        Is(Index, 0),
        Word("SET_DESCRIPTOR "),
        Name(ValueHigh, &INDEXED_DESCRIPTORS),
        Word(" "),
        Number(ValueLow),
        Word(", "),
        Number(Length),
        Word(" bytes"),
    ],
    &[
        Request(0x00, 0x07),
        Is(Value, 0x0300),
        Is(Index, 0),
        Word("SET_DESCRIPTOR string 0"),
        Word(", "),
        Number(Length),
        Word(" bytes"),
    ],
    &[
        Request(0x00, 0x07),
        Is(ValueHigh, 3),
        Word("SET_DESCRIPTOR string "),
        Number(ValueLow),
        Word(", language "),
        Digits(Index),
        Word(", "),
        Number(Length),
        Word(" bytes"),
    ],
    // status, address, synch frame (9.4.5, 9.4.6, 9.4.11)
    &[
        Request(0x80, 0x00),
        Is(Value, 0),
        Is(Index, 0),
        Is(Length, 2),
        Word("GET_STATUS device"),
    ],
    &[
        Request(0x81, 0x00),
        Is(Value, 0),
        Is(Length, 2),
        Word("GET_STATUS interface "),
        Number(Index),
    ],
    &[
        Request(0x82, 0x00),
        Is(Value, 0),
        Is(Length, 2),
        Word("GET_STATUS endpoint "),
        Endpoint,
    ],
    &[
        Request(0x00, 0x05),
        Is(Index, 0),
        Is(Length, 0),
        Word("SET_ADDRESS "),
        Number(Value),
    ],
    &[
        Request(0x82, 0x0C),
        Is(Value, 0),
        Is(Length, 2),
        Word("SYNCH_FRAME endpoint "),
        Endpoint,
    ],
    // features of hubs and ports (11.24.2.1, 11.24.2.2, 11.24.2.12, 11.24.2.13)
    &[
        Request(0x20, 0x01),
        Is(Index, 0),
        Is(Length, 0),
        Word("CLEAR_FEATURE "),
        Name(Value, &HUB_FEATURES),
        Word(", hub"),
    ],
    &[
        Request(0x23, 0x01),
        Is(IndexHigh, 0),
        Is(Length, 0),
        Word("CLEAR_FEATURE "),
        Name(Value, &PORT_FEATURES),
        Word(", port "),
        Number(IndexLow),
    ],
    &[
        Request(0x23, 0x01),
        Is(Length, 0),
        Word("CLEAR_FEATURE "),
        Name(Value, &SELECTED_FEATURES),
        Word(" selector "),
        Number(IndexHigh),
        Word(", port "),
        Number(IndexLow),
    ],
    &[
        Request(0x20, 0x03),
        Is(Index, 0),
        Is(Length, 0),
        Word("SET_FEATURE "),
        Name(Value, &HUB_FEATURES),
        Word(", hub"),
    ],
    &[
        Request(0x23, 0x03),
        Is(IndexHigh, 0),
        Is(Length, 0),
        Word("SET_FEATURE "),
        Name(Value, &PORT_FEATURES),
        Word(", port "),
        Number(IndexLow),
    ],
    &[
        Request(0x23, 0x03),
        Is(Length, 0),
        Word("SET_FEATURE "),
        Name(Value, &SELECTED_FEATURES),
        Word(" selector "),
        Number(IndexHigh),
        Word(", port "),
        Number(IndexLow),
    ],
    // descriptor and status of hubs (11.24.2.5, 11.24.2.6, 11.24.2.7, 11.24.2.10)
    &[
        Request(0xA0, 0x06),
        Is(Value, 0x2900),
        Is(Index, 0),
        Word("GET_DESCRIPTOR hub"),
        Word(", "),
        Number(Length),
        Word(" bytes"),
    ],
    &[
        Request(0x20, 0x07),
        Is(Value, 0x2900),
        Is(Index, 0),
        Word("SET_DESCRIPTOR hub"),
        Word(", "),
        Number(Length),
        Word(" bytes"),
    ],
    &[
        Request(0xA0, 0x00),
        Is(Value, 0),
        Is(Index, 0),
        Is(Length, 4),
        Word("GET_STATUS hub"),
    ],
    &[
        Request(0xA3, 0x00),
        Is(Value, 0),
        Is(Length, 4),
        Word("GET_STATUS port "),
        Number(Index),
    ],
    // transaction translators (11.24.2.3, 11.24.2.8, 11.24.2.9, 11.24.2.11)
    &[
        Request(0x23, 0x08),
        Is(Length, 0),
        Word("CLEAR_TT_BUFFER "),
        Digits(Value),
        Word(", port "),
        Number(Index),
    ],
    &[
        Request(0x23, 0x09),
        Is(Value, 0),
        Is(Length, 0),
        Word("RESET_TT port "),
        Number(Index),
    ],
    &[
        Request(0xA3, 0x0A),
        Word("GET_TT_STATE flags "),
        Digits(Value),
        Word(", port "),
        Number(Index),
        Word(", "),
        Number(Length),
        Word(" bytes"),
    ],
    &[
        Request(0x23, 0x0B),
        Is(Value, 0),
        Is(Length, 0),
        Word("STOP_TT port "),
        Number(Index),
    ],
    // HID (HID 1.11, sections 7.1 and 7.2)
    &[
        Request(0x81, 0x06),
        Word("GET_DESCRIPTOR "),
        Name(ValueHigh, &HID_DESCRIPTORS),
        Word(" "),
        Number(ValueLow),
        Word(", interface "),
        Number(Index),
        Word(", "),
        Number(Length),
        Word(" bytes"),
    ],
    &[
        Request(0xA1, 0x01),
        Word("GET_REPORT "),
        Name(ValueHigh, &REPORT_TYPES),
        Word(" "),
        Number(ValueLow),
        Word(", interface "),
        Number(Index),
        Word(", "),
        Number(Length),
        Word(" bytes"),
    ],
    &[
        Request(0x21, 0x09),
        Word("SET_REPORT "),
        Name(ValueHigh, &REPORT_TYPES),
        Word(" "),
        Number(ValueLow),
        Word(", interface "),
        Number(Index),
        Word(", "),
        Number(Length),
        Word(" bytes"),
    ],
    &[
        Request(0xA1, 0x02),
        Is(ValueHigh, 0),
        Is(Length, 1),
        Word("GET_IDLE report "),
        Number(ValueLow),
        Word(", interface "),
        Number(Index),
    ],
    &[
        Request(0x21, 0x0A),
        Is(Length, 0),
        Word("SET_IDLE duration "),
        Number(ValueHigh),
        Word(", report "),
        Number(ValueLow),
        Word(", interface "),
        Number(Index),
    ],
    &[
        Request(0xA1, 0x03),
        Is(Value, 0),
        Is(Length, 1),
        Word("GET_PROTOCOL interface "),
        Number(Index),
    ],
    &[
        Request(0x21, 0x0B),
        Is(Length, 0),
        Word("SET_PROTOCOL "),
        Name(Value, &PROTOCOLS),
        Word(", interface "),
        Number(Index),
    ],
    // mass storage (Bulk-Only Transport 1.0, sections 3.1 and 3.2)
    &[
        Request(0xA1, 0xFE),
        Is(Value, 0),
        Is(Length, 1),
        Word("GET_MAX_LUN interface "),
        Number(Index),
    ],
    &[
        Request(0x21, 0xFF),
        Is(Value, 0),
        Is(Length, 0),
        Word("BULK_ONLY_RESET interface "),
        Number(Index),
    ],
    // any other request
    &[
        Name(Kind, &KINDS),
        Word(" request 0x"),
        Byte(RequestCode),
        Word(", bmRequestType 0x"),
        Byte(RequestType),
        Word(", wValue 0x"),
        Digits(Value),
        Word(", wIndex 0x"),
        Digits(Index),
        Word(", wLength "),
        Number(Length),
    ],
];
