//! Names of devices in the trace.

use super::plans::ONE_PORT;
use super::row::went;
use super::step::Step;
use std::test::Fail;

/// A device's name as TOML spells it, and the line of its plug.
#[derive(Clone, Copy)]
struct Named {
    name: &'static str,
    line: &'static str,
}

const NAMES: &[Named] = &[
    Named {
        name: "front left",
        line: "plug 1 front left\n",
    },
    Named {
        name: r"a\n1 IN 0.0 / NAK",
        line: "plug 1 a\\u000A1 IN 0.0 / NAK\n",
    },
    Named {
        name: r"\u000A",
        line: "plug 1 \\u000A\n",
    },
    Named {
        name: r"\\u000A",
        line: "plug 1 \\u005Cu000A\n",
    },
    Named {
        name: r"\u0001\u001F\u0020~\u007F",
        line: "plug 1 \\u0001\\u001F ~\\u007F\n",
    },
    Named {
        name: r"\u0080\u009F\u00A0",
        line: "plug 1 \\u0080\\u009F\u{a0}\n",
    },
    Named {
        name: r"\u2027\u2028\u2029\u202A",
        line: "plug 1 \u{2027}\\u2028\\u2029\u{202a}\n",
    },
    Named {
        name: r#"\"é\U0001F600"#,
        line: "plug 1 \"é\u{1f600}\n",
    },
];

const BEHIND_NAME: &str = r#""
speed = "full"
descriptor = "120100020000004034127856000100000001"
configs = []

[[event]]
do = "plug"
path = "1"
device = ""#;

#[test]
fn a_name_stays_on_its_line(rt: HostRuntime) -> Result<(), Fail> {
    for row in NAMES {
        let head = "\n[[device]]\nname = \"";
        let plan = [ONE_PORT, head, row.name, BEHIND_NAME, row.name, "\"\n"];
        let trace = went(rt.alloc(), &plan, &[], &[], &[(Step::Event, "changed")])?;
        assert_eq!(rt; trace.as_str(), row.line, "of {}", row.name);
    }
    Ok(())
}
