//! Devices of Linux with the files beside their descriptors, names that no word spells, and a writer that fails.
use super::ends::frail;
use std::alloc::Global;
use std::test::Fail;
use usb_entry::{EntryFault, Notes, Source, write_entries};
use usb_plan::{Plan, read_plan};
use usb_watch::Watched;

/// The texts of the files `speed` and `product`, and the lines of the table that come of them.
const NOTES: [(&str, &str, &str); 9] = [
    (
        "",
        "",
        "# 1234:5678 vendor-specific\n[[device]]\nname = \"d\"\nspeed = \"low\" # no packet has more than 8 bytes; \"full\" if the device is of full speed\n",
    ),
    (
        "12\n",
        "",
        "# 1234:5678 vendor-specific\n[[device]]\nname = \"d\"\nspeed = \"full\"\n",
    ),
    (
        "480\n",
        "Disk\n",
        "# 1234:5678 vendor-specific, product \"Disk\"\n[[device]]\nname = \"d\"\nspeed = \"full\"\n",
    ),
    (
        "1.5\n",
        "\n",
        "# 1234:5678 vendor-specific\n[[device]]\nname = \"d\"\nspeed = \"low\"\n",
    ),
    // no speed of a plan, and a line of product that would end the comment
    (
        "5000\n",
        "a \"b\"\n[[event]]\n",
        "# 1234:5678 vendor-specific, product \"a \\\"b\\\"\\u000A[[event]]\"\n[[device]]\nname = \"d\"\nspeed = \"low\" # no packet has more than 8 bytes; \"full\" if the device is of full speed\n",
    ),
    (
        "12",
        "Disk",
        "# 1234:5678 vendor-specific\n[[device]]\nname = \"d\"\nspeed = \"low\" # no packet has more than 8 bytes; \"full\" if the device is of full speed\n",
    ),
    (
        "1.5\n12\n",
        "Maus gr\u{f6}\u{df}er\n",
        "# 1234:5678 vendor-specific, product \"Maus gr\u{f6}\u{df}er\"\n[[device]]\nname = \"d\"\nspeed = \"low\" # no packet has more than 8 bytes; \"full\" if the device is of full speed\n",
    ),
    (
        " 12\n",
        " \n",
        "# 1234:5678 vendor-specific, product \" \"\n[[device]]\nname = \"d\"\nspeed = \"low\" # no packet has more than 8 bytes; \"full\" if the device is of full speed\n",
    ),
    (
        "12\n",
        "a\\b\u{7f}\n",
        "# 1234:5678 vendor-specific, product \"a\\\\b\\u007F\"\n[[device]]\nname = \"d\"\nspeed = \"full\"\n",
    ),
];

/// A device of which all packets have 8 bytes at most.
const SMALL: &str = "1201000200000008341278560001000000010902120001010080320904000000FF000000";

/// A device named `d` with these bytes, and what Linux says of it.
fn noted<'a>(speed: &'a str, product: &'a str, bytes: &'a [u8]) -> Source<'a> {
    Source {
        name: "d",
        notes: Notes::of_texts(speed, product),
        bytes,
    }
}

/// A device with this name and these bytes, of which Linux has no more.
fn plain<'a>(name: &'a str, bytes: &'a [u8]) -> Source<'a> {
    Source {
        name,
        notes: Notes::NONE,
        bytes,
    }
}

/// What is written of devices, and how that ends.
fn written_of(
    alloc: Global,
    ports: u8,
    sources: &[Source<'_>],
) -> (Vec<u8>, Result<(), (usize, EntryFault)>) {
    let mut writer = Watched::new(Vec::new(alloc));
    let result = write_entries(alloc, ports, sources, &mut writer);
    (writer.into_inner(), result)
}

#[test]
fn notes_of_linux(rt: HostRuntime) -> Result<(), Fail> {
    let bytes = hex::decode(rt.alloc(), SMALL)?;
    for (speed, product, lines) in NOTES {
        let sources = [noted(speed, product, bytes.as_slice())];
        let (written, _) = written_of(rt.alloc(), 7, sources.as_slice());
        let starts = written.as_slice().starts_with(lines.as_bytes());
        assert!(rt; starts, "{speed} {product}");
    }
    Ok(())
}

/// Names, and how the table spells them. A plan with the table has a device of the name.
const NAMES: [(&str, &str); 2] = [
    (
        "\u{1}\u{8}\t\n\u{b}\u{c}\r\u{1f}\u{7f}",
        "\nname = \"\\u0001\\u0008\\u0009\\u000A\\u000B\\u000C\\u000D\\u001F\\u007F\"\n",
    ),
    (
        "\"QEMU\" USB\tHub",
        "\nname = \"\\\"QEMU\\\" USB\\u0009Hub\"\n",
    ),
];

/// Whether the plan has one device, of this name.
fn is_named(plan: &Plan, name: &str) -> bool {
    let [device] = plan.devices() else {
        return false;
    };
    device.name() == name
}

#[test]
fn names_that_no_word_spells(rt: HostRuntime) -> Result<(), Fail> {
    let bytes = hex::decode(rt.alloc(), SMALL)?;
    for (name, line) in NAMES {
        let sources = [plain(name, bytes.as_slice())];
        let (written, _) = written_of(rt.alloc(), 7, sources.as_slice());
        let table = str::from_utf8(written.as_slice())?;
        assert!(rt; table.contains(line), "{table}");
        let text = format!(in rt.alloc(); "limit = 1\nroots = 1\n{table}")?;
        let plan = read_plan(rt.alloc(), text.as_str())?;
        assert!(rt; is_named(&plan, name), "{table}");
    }
    Ok(())
}

#[test]
fn a_writer_that_fails(rt: HostRuntime) -> Result<(), Fail> {
    let bytes = hex::decode(rt.alloc(), SMALL)?;
    let mut writer = Watched::new(frail(rt.alloc(), 0));
    let sources = [Source {
        name: "d",
        notes: Notes::NONE,
        bytes: bytes.as_slice(),
    }];
    let result = write_entries(rt.alloc(), 7, sources.as_slice(), &mut writer);
    assert!(rt; result == Err((1, EntryFault::Write)) && writer.failed());
    Ok(())
}
