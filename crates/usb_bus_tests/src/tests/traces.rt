//! Parts of traces: the attempts that make a function at root port 1 ready.

/// A function is plugged, and the first 8 bytes of its device descriptor are asked for.
pub(super) const HEAD_ASKED: &str = "plug 1 fn
1 SETUP 0.0 / DATA0 8006000100000800 / ACK
";

/// These bytes come, and address 1 is asked for.
pub(super) const HEAD_GIVEN: &str = "2 IN 0.0 / DATA1 1201000200000040 / ACK
3 OUT 0.0 / DATA1 - / ACK
4 SETUP 0.0 / DATA0 0005010000000000 / ACK
";

/// The address is taken, the device descriptor comes, and the head of the configuration is asked for.
pub(super) const ADDRESSED: &str = "5 IN 0.0 / DATA1 - / ACK
6 SETUP 1.0 / DATA0 8006000100001200 / ACK
7 IN 1.0 / DATA1 120100020000004034127856000100000001 / ACK
8 OUT 1.0 / DATA1 - / ACK
9 SETUP 1.0 / DATA0 8006000200000900 / ACK
";

/// That comes, and so does all of it; the configuration is asked for.
pub(super) const DESCRIBED: &str = "10 IN 1.0 / DATA1 090212000101008032 / ACK
11 OUT 1.0 / DATA1 - / ACK
12 SETUP 1.0 / DATA0 8006000200001200 / ACK
13 IN 1.0 / DATA1 0902120001010080320904000000FF000000 / ACK
14 OUT 1.0 / DATA1 - / ACK
15 SETUP 1.0 / DATA0 0009010000000000 / ACK
";

/// The configuration is set.
pub(super) const CONFIGURED: &str = "16 IN 1.0 / DATA1 - / ACK
";

/// The same of a function at low speed, up to the first packet of its device descriptor.
pub(super) const LOW_BEGUN: &str = "plug 1 low
1 SETUP 0.0 / DATA0 8006000100000800 / ACK
2 IN 0.0 / DATA1 1201100100000008 / ACK
3 OUT 0.0 / DATA1 - / ACK
4 SETUP 0.0 / DATA0 0005010000000000 / ACK
5 IN 0.0 / DATA1 - / ACK
6 SETUP 1.0 / DATA0 8006000100001200 / ACK
7 IN 1.0 / DATA1 1201100100000008 / ACK
";

/// All behind that descriptor, which took three attempts.
pub(super) const LOW_ENDED: &str = "10 OUT 1.0 / DATA1 - / ACK
11 SETUP 1.0 / DATA0 8006000200000900 / ACK
12 IN 1.0 / DATA1 0902120001010080 / ACK
13 IN 1.0 / DATA0 32 / ACK
14 OUT 1.0 / DATA1 - / ACK
15 SETUP 1.0 / DATA0 8006000200001200 / ACK
16 IN 1.0 / DATA1 0902120001010080 / ACK
17 IN 1.0 / DATA0 320904000000FF00 / ACK
18 IN 1.0 / DATA1 0000 / ACK
19 OUT 1.0 / DATA1 - / ACK
20 SETUP 1.0 / DATA0 0009010000000000 / ACK
21 IN 1.0 / DATA1 - / ACK
";
