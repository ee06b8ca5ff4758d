//! What a host reports of devices that left and arrived.
ghost use Rattle.std.specs.Prelude.{◌≡◌, ◌↔◌, IsTrue};
ghost use Rattle.usb_host.specs.NewsReports.{IsLeftAt};

use crate::Host;
use usb_bus::Bus;
use usb_port::PortPath;

/// An accepted device left, or one arrived.
#[derive(Debug, PartialEq, Eq, Drop)]
pub enum News {
    /// The device at the path is not listed there any longer.
    Left(PortPath),
    /// A device was accepted at the path.
    Arrived(PortPath),
}

impl News {
    /// Whether the news is that the device at a path left.
    pub fn is_left(&self, path: &PortPath) -> bool
        ensures { IsTrue result ↔ IsLeftAt path.now self.now }
    {
        match self {
            News::Left(at) => at == path,
            News::Arrived(_) => false,
        }
    }
}

impl<B: Bus> Host<B> {
    ghost use Rattle.std.specs.Prelude.{◌≡◌, ◌<◌, ℕ, IfNone, IfSome, List};
    ghost use Rattle.usb_table.specs.Findings.{is_accepted};
    ghost use Rattle.usb_table.specs.NextEntries.{IsLast, IsNext};
    ghost use Rattle.usb_host.specs.NewsReports.{HasArrived, IsFirstLeft, IsNextUnreported, NoneLeft, ReportsNews, news_left, number_in};
    ghost use Rattle.usb_host.specs.Numbers.{NumbersFit};
    ghost use Rattle.usb_host.specs.Progress.{known_in};
    ghost use Rattle.usb_host.specs.Reported.{ReportedRise};

    /// The next change of the accepted devices, hubs too, that was not reported yet: first those
    /// that left, then those that arrived, each by rising path. `None` if there is none.
    ///
    /// A device that was enumerated again left and arrived. A device that came and left between two
    /// calls is not reported. A host that has stopped reports what it lists. No memory is needed.
    pub fn next_news(&mut self) -> Option<News>
        ensures reports { ReportsNews self.old result self.new }
        ensures numbers { NumbersFit (known_in self.old) }
        ensures fewer { IfSome result (λ _. news_left self.new < news_left self.old) }
    {
        // for the checker: no number was given twice
        let _more = self.numbers.has_next();
        if let Some(place) = self.first_left() {
            return Some(News::Left(self.reported.take(place)));
        }
        match self.next_unreported() {
            Some((path, number)) => {
                self.reported.enter(path.duplicate(), number);
                Some(News::Arrived(path))
            }
            None => None,
        }
    }

    /// The place of the first reported device that is no longer at its path.
    fn first_left(&self) -> Option<usize>
        ensures some { IfSome result (IsFirstLeft (known_in self.now)) }
        ensures none { IfNone result (NoneLeft (known_in self.now)) }
        ensures rises { ReportedRise self.now.reported }
    {
        'reported: for (place, device) in self.reported.devices().iter().enumerate() {
            if self.number_at(&device.path) != Some(device.number) {
                return Some(place);
            }
        }
        None
    }

    /// The least path of an accepted device that was not reported, with its number.
    fn next_unreported(&self) -> Option<(PortPath, u64)>
        ensures some { IfSome result (IsNextUnreported (known_in self.now)) }
        ensures none { IfNone result ((path : List ℕ) → HasArrived (known_in self.now) path → ⊥) }
    {
        let mut last: Option<PortPath> = None;
        'devices: while let Some(path) = self.next_accepted(&last) {
            // for the checker: a path has one to seven numbers
            let _numbers = path.numbers();
            if !self.reported.has(&path) {
                return match self.number_at(&path) {
                    Some(number) => Some((path, number)),
                    // an accepted device has a number
                    None => unreachable!(),
                };
            }
            last = Some(path);
        }
        None
    }

    /// The least path of an accepted device after the last one, or of all.
    fn next_accepted(&self, last: &Option<PortPath>) -> Option<PortPath>
        ensures some { IfSome result (IsNext is_accepted last.now self.now.entries) }
        ensures none { IfNone result (IsLast is_accepted last.now self.now.entries) }
    {
        self.table.next_accepted(last.as_ref())
    }

    /// The number of the accepted device at a path.
    fn number_at(&self, path: &PortPath) -> Option<u64>
        ensures value { result ≡ number_in path.now (known_in self.now) }
    {
        Some(self.device(path)?.number())
    }
}
