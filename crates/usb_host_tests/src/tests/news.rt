//! What a host reports of devices that left and arrived, and their numbers.
use super::devices::OLD_FUNCTION;
use std::alloc::Global;
use std::test::Fail;
use usb_host::{Host, News, Round};
use usb_sim::{SimBus, Untraced};
use usb_testbus::untraced_of;

/// A hub of seven ports and a function.
const DEVICES: &[&str] = &[
    "limit = 1000000
roots = 2
[[device]]
name = \"hub\"
speed = \"full\"
descriptor = \"120100020900004001000200000100000001\"
configs = [\"09021900010100C000090400000109000000070581030100FF\"]
ports = 7
self_powered = true
",
    OLD_FUNCTION,
];

#[derive(Clone, Copy, Debug)]
enum Step {
    /// The next event comes: a device at a path, or none any longer.
    Plug(&'static str, &'static str),
    Unplug(&'static str),
    /// Rounds until one is quiet.
    Rounds,
    /// News until there is none.
    News,
}

struct Row {
    about: &'static str,
    steps: &'static [Step],
    /// Each arrival with the number of the device.
    news: &'static str,
}

const ROWS: &[Row] = &[
    Row {
        about: "a device that arrives is reported once",
        steps: &[
            Step::Plug("1", "fn"),
            Step::News,
            Step::Rounds,
            Step::News,
            Step::News,
        ],
        news: "; +1 128;;",
    },
    Row {
        about: "a hub and all below it, by rising path",
        steps: &[
            Step::Plug("2", "fn"),
            Step::Plug("1", "hub"),
            Step::Plug("1.2", "fn"),
            Step::Plug("1.1", "fn"),
            Step::Rounds,
            Step::News,
            Step::Unplug("1"),
            Step::Rounds,
            Step::News,
        ],
        news: " +1 128 +1.1 130 +1.2 131 +2 129; -1 -1.1 -1.2;",
    },
    Row {
        about: "a device swapped for one that is alike left and arrived",
        steps: &[
            Step::Plug("1", "fn"),
            Step::Rounds,
            Step::News,
            Step::Unplug("1"),
            Step::Plug("1", "fn"),
            Step::Rounds,
            Step::News,
        ],
        news: " +1 128; -1 +1 129;",
    },
    Row {
        about: "what came and left between two questions is not reported",
        steps: &[
            Step::Plug("1", "fn"),
            Step::Rounds,
            Step::Unplug("1"),
            Step::Rounds,
            Step::News,
        ],
        news: ";",
    },
    Row {
        about: "what left comes before what arrived",
        steps: &[
            Step::Plug("2", "fn"),
            Step::Rounds,
            Step::News,
            Step::Unplug("2"),
            Step::Plug("1", "fn"),
            Step::Rounds,
            Step::News,
        ],
        news: " +2 128; -2 +1 129;",
    },
];

/// The plan of a row's events. None comes by itself before its step.
fn plan(alloc: Global, steps: &[Step]) -> Result<String, Fail> {
    let mut text = DEVICES.concat(alloc)?;
    let mut after = 0;
    for step in steps {
        match step {
            Step::Plug(path, device) => {
                write!(text, "[[event]]\ndo = \"plug\"\nafter = {after}\n")?;
                write!(text, "path = \"{path}\"\ndevice = \"{device}\"\n")?;
                after = 0;
            }
            Step::Unplug(path) => {
                write!(text, "[[event]]\ndo = \"unplug\"\nafter = {after}\n")?;
                write!(text, "path = \"{path}\"\n")?;
                after = 0;
            }
            Step::Rounds | Step::News => after = 90000,
        }
    }
    Ok(text)
}

type TestHost = Host<SimBus<Untraced>>;

/// News until there is none.
fn put_news(text: &mut String, host: &mut TestHost) -> Result<(), Fail> {
    'news: for _ in 0..300 {
        match host.next_news() {
            Some(News::Left(path)) => write!(text, " -{}", path.text())?,
            Some(News::Arrived(path)) => {
                let number = match host.device(&path) {
                    Some(device) => device.number(),
                    None => 0,
                };
                write!(text, " +{} {number}", path.text())?;
            }
            None => break 'news,
        }
    }
    Ok(())
}

/// Takes a step.
fn take_step(text: &mut String, host: &mut TestHost, step: Step) -> Result<(), Fail> {
    match step {
        Step::Plug(..) | Step::Unplug(_) => {
            host.bus_mut().apply_next_event()?;
        }
        Step::Rounds => {
            let mut round = Round::Worked;
            for _ in 0..300 {
                if round == Round::Worked {
                    round = host.round()?;
                }
            }
        }
        Step::News => {
            put_news(text, host)?;
            text.push_str(";")?;
        }
    }
    Ok(())
}

/// The news after each step that asks for it.
fn news_of(alloc: Global, steps: &[Step]) -> Result<String, Fail> {
    let plan = plan(alloc, steps)?;
    let mut host = Host::new(alloc, untraced_of(alloc, plan.as_str())?);
    let mut text = String::new(alloc);
    for step in steps {
        take_step(&mut text, &mut host, *step)?;
    }
    Ok(text)
}

#[test]
fn news(rt: HostRuntime) -> Result<(), Fail> {
    for row in ROWS {
        let news = news_of(rt.alloc(), row.steps)?;
        assert_eq!(rt; news.as_str(), row.news, "{}", row.about);
    }
    Ok(())
}

/// The number of devices below a root hub of seven hubs of seven hubs, and of functions below those, up to 127.
const MOST: usize = 127;

/// A plan that plugs a hub, seven hubs below it, seven below each of those, and functions below these.
fn full_plan(alloc: Global) -> Result<String, Fail> {
    let mut text = DEVICES.concat(alloc)?;
    let mut count = 0;
    let head = "[[event]]\ndo = \"plug\"\nafter = 0\n";
    write!(text, "{head}path = \"1\"\ndevice = \"hub\"\n")?;
    for i in 1..8u8 {
        write!(text, "{head}path = \"1.{i}\"\ndevice = \"hub\"\n")?;
        for j in 1..8u8 {
            write!(text, "{head}path = \"1.{i}.{j}\"\ndevice = \"hub\"\n")?;
            for k in 1..3u8 {
                if count < 70 {
                    write!(text, "{head}path = \"1.{i}.{j}.{k}\"\ndevice = \"fn\"\n")?;
                    count += 1;
                }
            }
        }
    }
    Ok(text)
}

/// Each address is taken, and each device is reported once.
#[test]
fn all_addresses(rt: HostRuntime) -> Result<(), Fail> {
    let alloc = rt.alloc();
    let plan = full_plan(alloc)?;
    let mut host = Host::new(alloc, untraced_of(alloc, plan.as_str())?);
    for _ in 0..MOST {
        host.bus_mut().apply_next_event()?;
    }
    let mut ignored = String::new(alloc);
    take_step(&mut ignored, &mut host, Step::Rounds)?;
    let mut arrived = 0;
    'news: for count in 0..200usize {
        if host.next_news().is_none() {
            arrived = count;
            break 'news;
        }
    }
    assert_eq!(rt; arrived, MOST);
    Ok(())
}
