//! The words after the program's name.
ghost use Rattle.std.specs.Prelude.{◌≡◌, IfOk, IfSome, List, map, true, false};
ghost use Rattle.clap.specs.Simple.{app_of, subcommand_of, subcommand_rows_of, with_subcommand};
ghost use Rattle.clap.specs.Matches.{found_of};
ghost use Rattle.clap.specs.Walk.{Text, one_of, rows_of, rule_of};
ghost use Rattle.usb_words.specs.CommandLine.{AreNamedFiles, GivesPorts, IsDevice, IsExplain, IsFar, IsLive, GivesNumber, ReadsWords, device_app, devices_rule, draw_app, explain_app, far_app, judge_rule, attempts_rule, rounds_rule, first_app, limit_rule, live_app, only_rule, plain_app, ports_rule, program_app, run_app, text_app, text_rule, wide_rule, with_text};

use crate::selection::{Selection, selection_of};
use clap::builder::ValueParser;
use clap::error::ErrorKind;
use clap::{Arg, ArgAction, ArgMatches, Command, Error};
use std::alloc::{AllocError, Global};

/// The program's version.
const VERSION: &str = "0.2.0";

/// What the words ask for.
#[derive(Debug, Drop)]
pub enum Words<'a> {
    /// No words: a packet's digits on standard input.
    Stdin,
    /// A packet, by its digits.
    Packet(&'a str),
    /// What a plan holds, or what is wrong with it, by the plan's file.
    Check(&'a str),
    /// The tree that a plan's run ends in, by the plan's file.
    Tree(&'a str),
    /// The same as a drawing: whether it is of ASCII alone, and the plan's file.
    Draw(bool, &'a str),
    /// A plan's run, by the plan's file.
    Run(&'a str),
    /// A run with its requests in words.
    Explain(ExplainWords<'a>),
    /// A plan's run as a page of HTML, by the plan's file.
    Page(&'a str),
    /// The packets of a run, by the file of its text.
    Pcap(&'a str),
    /// The entries of a plan that devices make.
    Device(DeviceWords<'a>),
    /// The far end of a bus, played from a plan.
    Far(FarWords<'a>),
    /// A host before a far end.
    Live(LiveWords),
}

/// What of a run is printed with its requests in words.
#[derive(Debug, Drop)]
pub struct ExplainWords<'a> {
    /// What of the run.
    pub selection: Selection,
    /// The file of the run's text.
    pub file: &'a str,
}

/// What entries devices make.
#[derive(Debug, Drop)]
pub struct DeviceWords<'a> {
    /// The devices in the order of the words, at least one.
    pub devices: Vec<NamedFile<'a>>,
    /// How many ports each has that is a hub, 1 to 7.
    pub ports: u8,
}

/// A device that makes an entry.
#[derive(Clone, Copy, Debug)]
pub struct NamedFile<'a> {
    /// The entry's name.
    pub name: &'a str,
    /// The file of the device's descriptors, or the folder that has it.
    pub file: &'a str,
}

/// How a plan is played to a host.
#[derive(Clone, Copy, Debug)]
pub struct FarWords<'a> {
    /// The plan's file.
    pub file: &'a str,
    /// Whether the host is judged.
    pub judge: bool,
    /// The most attempts that it may make; None: those that the plan allows.
    pub limit: Option<u64>,
    /// The most attempts that it may make without a `wait`; None: any number.
    pub rounds: Option<u64>,
}

/// What host is before a far end.
#[derive(Clone, Copy, Debug)]
pub struct LiveWords {
    /// The most questions that it asks.
    pub limit: u64,
    /// Whether it takes hubs of 8 to 15 ports, and status endpoints of any number (11.23).
    pub wide_hubs: bool,
}

/// Why the words ask for nothing.
#[derive(Debug, Drop, thiserror::Error)]
pub enum WordFault {
    /// They are no command of the program, or ask for its help or its version.
    #[error("{0}")]
    Refused(Error),
    /// Memory was refused.
    #[error("out of memory")]
    Memory,
}

/// Reads the words after the program's name: `packet HEX`, `check FILE`, `tree FILE`, `draw [--ascii] FILE`,
/// `run FILE`, `explain [--only WHAT] FILE`, `page FILE`, `pcap FILE`, `device NAME FILE [NAME FILE].. [--ports N]`,
/// `far [--judge] [--limit N] [--rounds N] FILE`, `live [--limit N] [--wide-hubs]` or none.
///
/// # Errors
///
/// - `Refused`: `clap` reads no such command, is asked for the help or the version, WHAT names no selection, or the
///   last NAME has no FILE.
/// - `Memory`: memory was refused.
pub fn read_words<'a>(alloc: Global, words: &'a [&'a str]) -> Result<Words<'a>, WordFault>
    ensures { IfOk result (λ asked. ReadsWords (map (λ s. s.now) words.entry.now) asked) }
{
    let matches = match matches_of(alloc, words) {
        Ok(matches) => matches,
        Err(error) if error.kind() == ErrorKind::OutOfMemory => return Err(WordFault::Memory),
        Err(error) => return Err(WordFault::Refused(error)),
    };
    match words_of(alloc, &matches) {
        Ok(Some(asked)) => Ok(asked),
        Ok(None) => Err(refusal(alloc, &matches)),
        Err(_) => Err(WordFault::Memory),
    }
}

/// What the program's subcommand asks for, if it is one of the program's and has its texts.
fn words_of<'a>(alloc: Global, matches: &ArgMatches<'a>) -> Result<Option<Words<'a>>, AllocError>
    ensures { IfOk result (λ found. IfSome found (λ asked. (words : List Text)
        → subcommand_rows_of matches.now ≡ subcommand_of program_app words
        → ReadsWords words asked)) }
{
    match matches.subcommand() {
        Some(("device", found)) => Ok(device_words(alloc, found)?.map(Words::Device)),
        _ => Ok(plain_words(matches)),
    }
}

/// What the program's subcommand asks for, if it is one of the program's but `device` and has its text.
fn plain_words<'a>(matches: &ArgMatches<'a>) -> Option<Words<'a>>
    ensures { IfSome result (λ asked. (words : List Text)
        → subcommand_rows_of matches.now ≡ subcommand_of program_app words
        → ReadsWords words asked) }
{
    match matches.subcommand() {
        None => Some(Words::Stdin),
        Some(("packet", found)) => Some(Words::Packet(found.get_str("text")?)),
        Some(("check", found)) => Some(Words::Check(found.get_str("text")?)),
        Some(("tree", found)) => Some(Words::Tree(found.get_str("text")?)),
        Some(("draw", found)) => {
            Some(Words::Draw(found.get_flag("ascii"), found.get_str("text")?))
        }
        Some(("run", found)) => Some(Words::Run(found.get_str("text")?)),
        Some(("explain", found)) => Some(Words::Explain(explain_words(found)?)),
        Some(("page", found)) => Some(Words::Page(found.get_str("text")?)),
        Some(("pcap", found)) => Some(Words::Pcap(found.get_str("text")?)),
        Some(("far", found)) => Some(Words::Far(far_words(found)?)),
        Some(("live", found)) => Some(Words::Live(live_words(found)?)),
        Some(_) => None,
    }
}

/// What `device` asks for.
fn device_words<'a>(
    alloc: Global,
    found: &ArgMatches<'a>,
) -> Result<Option<DeviceWords<'a>>, AllocError>
    ensures { IfOk result (λ read. IfSome read (λ asked.
        IsDevice (rows_of (found_of found.now)) asked)) }
{
    let Some(ports) = ports_of(found) else {
        return Ok(None);
    };
    let Some(words) = found.get_strs("devices") else {
        return Ok(None);
    };
    match named_files(alloc, words)? {
        Some(devices) => Ok(Some(DeviceWords { devices, ports })),
        None => Ok(None),
    }
}

/// The number of ports of each hub whose entry `device` makes.
fn ports_of(found: &ArgMatches<'_>) -> Option<u8>
    ensures { IfSome result (λ ports. GivesPorts (rows_of (found_of found.now)) ports) }
{
    let ports = found.get_one::<u8>("ports")?;
    if ports < 1 || ports > 7 {
        return None;
    }
    Some(ports)
}

/// The devices whose names and files the words are, in turn. None if there is none, or the last has no file.
fn named_files<'a>(
    alloc: Global,
    words: &[&'a str],
) -> Result<Option<Vec<NamedFile<'a>>>, AllocError>
    ensures { IfOk result (λ read. IfSome read (λ files.
        AreNamedFiles (map (λ s. s.now) words.now) files.items)) }
{
    let mut files = Vec::new(alloc);
    let mut rest = words;
    'pairs: while let [name, file, more @ ..] = rest {
        files.push(NamedFile { name, file })?;
        rest = more;
    }
    if files.is_empty() || !rest.is_empty() {
        return Ok(None);
    }
    Ok(Some(files))
}

/// What `far` asks for.
fn far_words<'a>(found: &ArgMatches<'a>) -> Option<FarWords<'a>>
    ensures { IfSome result (λ asked. IsFar (rows_of (found_of found.now)) asked) }
{
    let file = found.get_str("text")?;
    let limit = number_of(found, "limit")?;
    let rounds = number_of(found, "rounds")?;
    let judge = found.get_flag("judge");
    Some(FarWords {
        file,
        judge,
        limit,
        rounds,
    })
}

/// A number that may be left out. None if there is a text in its place that is none.
fn number_of(found: &ArgMatches<'_>, id: &str) -> Option<Option<u64>>
    ensures { IfSome result (λ read.
        GivesNumber (one_of id.now (rows_of (found_of found.now))) read) }
{
    if let Some(number) = found.get_one::<u64>(id) {
        return Some(Some(number));
    }
    match found.get_str(id) {
        Some(_) => None,
        None => Some(None),
    }
}

/// What `live` asks for.
fn live_words(found: &ArgMatches<'_>) -> Option<LiveWords>
    ensures { IfSome result (λ asked. IsLive (rows_of (found_of found.now)) asked) }
{
    let limit = found.get_one::<u64>("limit")?;
    let wide_hubs = found.get_flag("wide-hubs");
    Some(LiveWords { limit, wide_hubs })
}

/// What `explain` asks for.
fn explain_words<'a>(found: &ArgMatches<'a>) -> Option<ExplainWords<'a>>
    ensures { IfSome result (λ asked. IsExplain (rows_of (found_of found.now)) asked) }
{
    let file = found.get_str("text")?;
    let only = found.get_str("only")?;
    let selection = selection_of(only)?;
    Some(ExplainWords { selection, file })
}

/// The fault of words that `clap` reads and that ask for nothing.
fn refusal(alloc: Global, matches: &ArgMatches<'_>) -> WordFault {
    let error = match matches.subcommand() {
        Some(("explain", found)) => no_selection(alloc, found.get_str("only").unwrap_or("")),
        Some(("device", found)) => no_file(alloc, found.get_strs("devices").unwrap_or(&[])),
        _ => no_command(alloc),
    };
    match error {
        Ok(error) => WordFault::Refused(error),
        Err(_) => WordFault::Memory,
    }
}

/// The error of words that are no command.
fn no_command(alloc: Global) -> Result<Error, AllocError> {
    program(alloc)?.error(ErrorKind::InvalidSubcommand, "no such command")
}

/// The error of a text that names no selection.
fn no_selection(alloc: Global, text: &str) -> Result<Error, AllocError> {
    let message = format!(in alloc;
        "invalid value '{text}' for '--only <WHAT>': \
         it is a path as path:1.2, an address as address:5, setup, damage or all"
    )?;
    let mut explain = explain_command(alloc)?.bin_name("usbplan explain")?;
    explain.error(ErrorKind::ValueValidation, message.as_str())
}

/// The error of names and files in turn, of which the last name has no file.
fn no_file(alloc: Global, words: &[&str]) -> Result<Error, AllocError> {
    let name = words.last().copied().unwrap_or("");
    let message = format!(in alloc; "'{name}' has no file: each device has a name and a file")?;
    let mut device = device_command(alloc)?.bin_name("usbplan device")?;
    device.error(ErrorKind::WrongNumberOfValues, message.as_str())
}

/// What the words say by the commands of the program. Err says what is wrong with them.
fn matches_of<'a>(alloc: Global, words: &'a [&'a str]) -> Result<ArgMatches<'a>, Error>
    ensures { IfOk result (λ m. subcommand_rows_of m
        ≡ subcommand_of program_app (map (λ s. s.now) words.entry.now)) }
{
    program(alloc)?.try_get_matches_from(words)
}

/// All commands of the program, with their words and their help.
fn program<'a>(alloc: Global) -> Result<Command<'a>, AllocError>
    ensures { IfOk result (λ c. app_of c ≡ program_app) }
{
    let with_run = run_commands(alloc)?;
    let explain = explain_command(alloc)?;
    let with_explain = with_command(with_run, explain)?;
    let with_page = with_text_command(
        alloc,
        with_explain,
        "page",
        "Runs a plan, and writes a page of HTML that shows the run",
        plan_file(alloc),
    )?;
    let with_pcap = with_text_command(
        alloc,
        with_page,
        "pcap",
        "Writes the packets of a run as a pcap file, for Wireshark",
        run_file(alloc),
    )?;
    let device = device_command(alloc)?;
    let with_device = with_command(with_pcap, device)?;
    let far = far_command(alloc)?;
    let with_far = with_command(with_device, far)?;
    let live = live_command(alloc)?;
    with_command(with_far, live)
}

/// The program with its commands up to `run`.
fn run_commands<'a>(alloc: Global) -> Result<Command<'a>, AllocError>
    ensures { IfOk result (λ c. app_of c ≡ run_app) }
{
    let first = first_commands(alloc)?;
    let draw = draw_command(alloc)?;
    let with_draw = with_command(first, draw)?;
    with_text_command(
        alloc,
        with_draw,
        "run",
        "Runs a plan, and prints each plug, each attempt and the devices that the host found",
        plan_file(alloc),
    )
}

/// The program with its first three commands.
fn first_commands<'a>(alloc: Global) -> Result<Command<'a>, AllocError>
    ensures { IfOk result (λ c. app_of c ≡ first_app) }
{
    let plain = plain_program(alloc)?;
    let with_packet = with_text_command(
        alloc,
        plain,
        "packet",
        "Prints the packet that bytes spell, and the bytes",
        text(alloc, "HEX", "The bytes, in hexadecimal digits"),
    )?;
    let with_check = with_text_command(
        alloc,
        with_packet,
        "check",
        "Tells what a plan holds, or what is wrong with it and where",
        plan_file(alloc),
    )?;
    with_text_command(
        alloc,
        with_check,
        "tree",
        "Runs a plan, and prints the devices that the host found",
        plan_file(alloc),
    )
}

/// The program before its commands.
fn plain_program<'a>(alloc: Global) -> Result<Command<'a>, AllocError>
    ensures { IfOk result (λ c. app_of c ≡ plain_app) }
{
    let named = Command::new(alloc, "usbplan").bin_name("usbplan")?;
    Ok(
        named
            .no_binary_name(true)
            .version(VERSION)
            .about("Runs a USB host on a simulated bus, as a plan says, or prints one packet")
            .after_help(
                "With no command it does what `packet` does, with the digits on standard input.\n\n\
                 One packet: usbplan packet 2D0010\n\
                 What is wrong with a plan: usbplan check plan.toml\n\
                 Devices at the end of a run: usbplan tree plan.toml\n\
                 The same as trees, in plain letters: usbplan draw --ascii plan.toml\n\
                 All packets of a run: usbplan run plan.toml\n\
                 The same with requests in words: usbplan run plan.toml | usbplan explain -\n\
                 The same as a page for a browser: usbplan page plan.toml > plan.html\n\
                 The same for Wireshark: usbplan run plan.toml | usbplan pcap - > plan.pcap\n\
                 A device of Linux for a plan: usbplan device mouse \
                 /sys/bus/usb/devices/1-1 >> plan.toml\n\
                 What a host asks on standard input, answered: usbplan far plan.toml\n\
                 A host before such a far end: usbplan live < answers > questions\n\n\
                 Status: 0 done, 1 refused, 2 no such command, or help or version, 3 limit reached,\n\
                 4 memory, input or output failed.\n\n\
                 Plans are described in docs/PLANS.md, what is written in docs/OUTPUT.md.",
            ),
    )
}

/// The program with one more command.
fn with_command<'a>(program: Command<'a>, command: Command<'a>) -> Result<Command<'a>, AllocError>
    requires { (app_of command).top.is_plain ≡ true }
    ensures { IfOk result (λ c. app_of c
        ≡ with_subcommand (app_of program.entry) (app_of command.entry).top) }
{
    let whole = program.subcommand(command)?;
    Ok(whole)
}

/// The program with one more command, that wants one text.
fn with_text_command<'a>(
    alloc: Global,
    program: Command<'a>,
    name: &'a str,
    purpose: &'a str,
    text: Arg<'a>,
) -> Result<Command<'a>, AllocError>
    requires local { text.global ≡ false }
    requires rule { rule_of text ≡ text_rule }
    ensures { IfOk result (λ c. app_of c ≡ with_text (app_of program.entry) name.entry.now) }
{
    let command = command(alloc, name, purpose, text)?;
    with_command(program, command)
}

/// A command that wants one text.
fn command<'a>(
    alloc: Global,
    name: &'a str,
    purpose: &'a str,
    text: Arg<'a>,
) -> Result<Command<'a>, AllocError>
    requires local { text.global ≡ false }
    requires rule { rule_of text ≡ text_rule }
    ensures { IfOk result (λ c. app_of c ≡ text_app name.entry.now) }
{
    Command::new(alloc, name).about(purpose).arg(text)
}

/// The command that draws, with its flag.
fn draw_command<'a>(alloc: Global) -> Result<Command<'a>, AllocError>
    ensures { IfOk result (λ c. app_of c ≡ draw_app) }
{
    let plain = command(
        alloc,
        "draw",
        "Runs a plan, and draws the devices that the host found as trees",
        plan_file(alloc),
    )?;
    let ascii = Arg::new(alloc, "ascii")
        .long("ascii")
        .action(ArgAction::SetTrue)
        .help("Draws in plain letters, of ASCII alone, in place of lines");
    plain.arg(ascii)
}

/// The command that puts the requests of a run into words.
fn explain_command<'a>(alloc: Global) -> Result<Command<'a>, AllocError>
    ensures { IfOk result (λ c. app_of c ≡ explain_app) }
{
    let plain = command(
        alloc,
        "explain",
        "Prints a run with its requests in words",
        run_file(alloc),
    )?;
    plain.arg(only(alloc))
}

/// What of a run `explain` prints.
fn only<'a>(alloc: Global) -> Arg<'a>
    ensures local { result.global ≡ false }
    ensures rule { rule_of result ≡ only_rule }
{
    Arg::new(alloc, "only")
        .long("only")
        .action(ArgAction::Set)
        .value_name("WHAT")
        .default_value("all")
        .help("Prints only the attempts to path:1.2 or to address:5, those of setup or of damage")
}

/// The command that makes the entries of devices.
fn device_command<'a>(alloc: Global) -> Result<Command<'a>, AllocError>
    ensures { IfOk result (λ c. app_of c ≡ device_app) }
{
    let plain = Command::new(alloc, "device").about(
        "Writes the `[[device]]` tables of a plan, from devices' descriptors in Linux",
    );
    let named = plain.arg(devices(alloc))?;
    named.arg(ports(alloc))
}

/// The names and files of the devices whose entries `device` makes, in turn.
fn devices<'a>(alloc: Global) -> Arg<'a>
    ensures local { result.global ≡ false }
    ensures rule { rule_of result ≡ devices_rule }
{
    Arg::new(alloc, "devices")
        .required(true)
        .action(ArgAction::Append)
        .value_name("NAME FILE")
        .help(
            "The name that the plan gives a device, and its folder in sysfs, or its file `descriptors`; \
             `-` is standard input",
        )
}

/// How many ports each hub has whose entry `device` makes.
fn ports<'a>(alloc: Global) -> Arg<'a>
    ensures local { result.global ≡ false }
    ensures rule { rule_of result ≡ ports_rule }
{
    Arg::new(alloc, "ports")
        .long("ports")
        .action(ArgAction::Set)
        .value_name("N")
        .value_parser(ValueParser::unsigned(1, 7))
        .default_value("7")
        .help("How many ports each has that is a hub: 1 to 7")
}

/// The command that plays a plan to a host.
fn far_command<'a>(alloc: Global) -> Result<Command<'a>, AllocError>
    ensures { IfOk result (λ c. app_of c ≡ far_app) }
{
    let plain = command(
        alloc,
        "far",
        "Answers a host, line by line, as the devices of a plan would",
        text(alloc, "FILE", "The plan's file"),
    )?;
    let judged = plain.arg(judge(alloc))?;
    let limited = judged.arg(attempts(alloc))?;
    limited.arg(rounds(alloc))
}

/// Whether `far` judges the host.
fn judge<'a>(alloc: Global) -> Arg<'a>
    ensures local { result.global ≡ false }
    ensures rule { rule_of result ≡ judge_rule }
{
    Arg::new(alloc, "judge")
        .long("judge")
        .action(ArgAction::SetTrue)
        .help("Judges each listing of the host, and what it does on the bus")
}

/// The most attempts of a host that `far` answers.
fn attempts<'a>(alloc: Global) -> Arg<'a>
    ensures local { result.global ≡ false }
    ensures rule { rule_of result ≡ attempts_rule }
{
    Arg::new(alloc, "limit")
        .long("limit")
        .action(ArgAction::Set)
        .value_name("N")
        .value_parser(ValueParser::unsigned(0, 100000000000000))
        .help("How many attempts the host may make at most, in place of the plan's limit")
}

/// The most attempts of a host without a `wait`.
fn rounds<'a>(alloc: Global) -> Arg<'a>
    ensures local { result.global ≡ false }
    ensures rule { rule_of result ≡ rounds_rule }
{
    Arg::new(alloc, "rounds")
        .long("rounds")
        .action(ArgAction::Set)
        .value_name("N")
        .value_parser(ValueParser::unsigned(1, 100000000000000))
        .help("How many attempts the host may make without a wait")
}

/// The command that is a host before a far end.
fn live_command<'a>(alloc: Global) -> Result<Command<'a>, AllocError>
    ensures { IfOk result (λ c. app_of c ≡ live_app) }
{
    let plain = Command::new(alloc, "live").about(
        "Asks a far end on standard input and output, line by line, and tells it what the host found",
    );
    let limited = plain.arg(limit(alloc))?;
    limited.arg(wide_hubs(alloc))
}

/// The most questions that `live` asks.
fn limit<'a>(alloc: Global) -> Arg<'a>
    ensures local { result.global ≡ false }
    ensures rule { rule_of result ≡ limit_rule }
{
    Arg::new(alloc, "limit")
        .long("limit")
        .action(ArgAction::Set)
        .value_name("N")
        .value_parser(ValueParser::unsigned(0, 9223372036854775807))
        .default_value("9223372036854775807")
        .help("How many questions it asks at most")
}

/// Whether the host that `live` is takes wide hubs.
fn wide_hubs<'a>(alloc: Global) -> Arg<'a>
    ensures local { result.global ≡ false }
    ensures rule { rule_of result ≡ wide_rule }
{
    Arg::new(alloc, "wide-hubs")
        .long("wide-hubs")
        .action(ArgAction::SetTrue)
        .help("Takes hubs of up to 15 ports, and status endpoints of any number")
}

/// The file of a command that reads a plan.
fn plan_file<'a>(alloc: Global) -> Arg<'a>
    ensures local { result.global ≡ false }
    ensures rule { rule_of result ≡ text_rule }
{
    text(alloc, "FILE", "The plan's file; `-` is standard input")
}

/// The file of a command that reads what `run` wrote.
fn run_file<'a>(alloc: Global) -> Arg<'a>
    ensures local { result.global ≡ false }
    ensures rule { rule_of result ≡ text_rule }
{
    text(alloc, "FILE", "What `run` wrote; `-` is standard input")
}

/// The one text that a command wants, and what help says of it.
fn text<'a>(alloc: Global, value: &'a str, purpose: &'a str) -> Arg<'a>
    ensures local { result.global ≡ false }
    ensures rule { rule_of result ≡ text_rule }
{
    Arg::new(alloc, "text")
        .required(true)
        .action(ArgAction::Set)
        .value_name(value)
        .help(purpose)
}
