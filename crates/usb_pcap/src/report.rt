//! The lines of a run that are of no attempt.
ghost use Rattle.std.specs.Prelude.{◌≡◌, map};
ghost use Rattle.usb_pcap.specs.Grammar.{fits_form, piece_of};
ghost use Rattle.usb_pcap.specs.Report.{has_form, plug_form, report_forms};

use crate::part::Part::{self, Bytes, Endpoint, Name, Number, OneOf, Path, Text, Word};
use crate::part::fits_form;

/// Why a device was refused.
const CAUSES: [&str; 13] = [
    "silent",
    "busy",
    "stalled device",
    "stalled address",
    "stalled config",
    "stalled set config",
    "bad device",
    "too deep",
    "too large",
    "no power",
    "bad hub",
    "lost",
    "no address",
];

/// Why a transfer was not done.
const FAILURES: [&str; 6] = [
    "no device",
    "no endpoint",
    "stalled",
    "busy",
    "no answer",
    "broken",
];

/// `plug PATH NAME`.
const PLUG: [Part; 4] = [Word("plug "), Path, Word(" "), Name];

/// An unplug, the lines of a listing, the lines of transfers, looks and news, a bound.
const REPORTS: [&[Part]; 33] = [
    &[Word("unplug "), Path],
    &[Word("listing "), Number],
    &[Word("end")],
    &[
        Path,
        Word(" address "),
        Number,
        OneOf(&[" full ", " low "]),
        Bytes,
    ],
    &[Path, Word(" config "), Number, Word(" "), Bytes],
    &[Path, Word(" config "), Number, Word(" "), Bytes, Word(" *")],
    &[
        Path,
        Word(" hub "),
        Number,
        Word(" ports "),
        Number,
        Word(" mA"),
    ],
    &[
        Path,
        OneOf(&[" manufacturer \"", " product \"", " serial \""]),
        Text,
        Word("\""),
    ],
    &[Path, Word(" refused "), OneOf(&CAUSES)],
    &[Path, Word(" refused bad configuration "), Number],
    &[Path, Word(" said "), Bytes],
    &[Word("send "), Path, Word(" done "), Number],
    &[Word("receive "), Path, Word(" done "), Bytes],
    &[Word("clear "), Path, Word(" done")],
    &[
        OneOf(&["send ", "receive ", "clear "]),
        Path,
        Word(" failed "),
        OneOf(&FAILURES),
    ],
    &[
        Word("send "),
        Path,
        Word(" "),
        Endpoint,
        Word(" done "),
        Number,
    ],
    &[
        OneOf(&["receive ", "interrupt "]),
        Path,
        Word(" "),
        Endpoint,
        Word(" done "),
        Bytes,
    ],
    &[
        Word("interrupt "),
        Path,
        Word(" "),
        Endpoint,
        Word(" nothing"),
    ],
    &[Word("clear "), Path, Word(" "), Endpoint, Word(" done")],
    &[
        OneOf(&["send ", "receive ", "interrupt ", "clear "]),
        Path,
        Word(" "),
        Endpoint,
        Word(" failed "),
        OneOf(&FAILURES),
    ],
    &[
        Word("interface "),
        Path,
        Word(" "),
        Number,
        Word(" "),
        Number,
        OneOf(&[" done", " failed no interface"]),
    ],
    &[
        Word("interface "),
        Path,
        Word(" "),
        Number,
        Word(" "),
        Number,
        Word(" failed "),
        OneOf(&FAILURES),
    ],
    &[Word("control "), Path, Word(" in done "), Bytes],
    &[
        Word("control "),
        Path,
        OneOf(&[" in failed ", " out failed "]),
        OneOf(&FAILURES),
    ],
    &[Word("control "), Path, Word(" out done "), Number],
    &[Word("control "), Path, Word(" out failed reserved")],
    &[Word("look "), Path, OneOf(&[" found", " empty"])],
    &[Word("look "), Path, Word(" refused "), OneOf(&CAUSES)],
    &[
        Word("look "),
        Path,
        Word(" refused bad configuration "),
        Number,
    ],
    &[Word("look "), Path, Word(" failed no port")],
    &[Word("news")],
    &[OneOf(&["left ", "arrived "]), Path],
    &[Word("bound "), Number],
];

/// Whether a line is that of a plug.
pub(crate) fn is_plug(line: &[u8]) -> bool
    ensures { result ≡ fits_form plug_form line.now }
{
    fits_form(&PLUG, line)
}

/// Whether a line is of another event, a listing, a transfer, a look, news or a bound.
pub(crate) fn is_report(line: &[u8]) -> bool
    ensures { result ≡ has_form report_forms line.now }
{
    has_form(&REPORTS, line)
}

/// Whether a line has one of these forms.
fn has_form(forms: &[&[Part]], line: &[u8]) -> bool
    ensures { result ≡ has_form (map (λ f. map piece_of f.now) forms.now) line.now }
{
    let [form, forms @ ..] = forms else {
        return false;
    };
    fits_form(form, line) || has_form(forms, line)
}
