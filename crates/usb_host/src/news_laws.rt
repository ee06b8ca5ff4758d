//! What a driver that reads the news knows of its device.
//!
//! The call does nothing; what it ensures is for proofs to cite.
ghost use Rattle.std.specs.Prelude.{◌≡◌, ◌≢◌, ℕ, List, Some};
ghost use Rattle.usb_host.specs.declared.news.News.{News};
ghost use Rattle.usb_host.specs.HostStates.{HostState};
ghost use Rattle.usb_host.specs.NewsReports.{NoNews, ReportsNews, path_of_news};
ghost use Rattle.usb_host.specs.Numbers.{KnownDevice, NumbersFit, device_in};
ghost use Rattle.usb_host.specs.Progress.{KeepsNumbers, known_in};
ghost use Rattle.usb_host.specs.Reported.{reported_at};

/// News of one path leaves what was reported of another, and all else that a host has.
///
/// A device is at a path when no news is left, the host works, and later no news is left again. If
/// none of the news in between was of the path, the same device is there, and was there at each
/// call in between. So no call at the path has spoken to another device.
pub fn device_stays()
    ensures others { (path : List ℕ) (news : News) (old new : HostState)
        → ReportsNews old (Some news) new → path_of_news news ≢ path
        → (new ≡ record old { reported = new.reported })
        × (reported_at path new.reported ≡ reported_at path old.reported) }
    ensures same { (path : List ℕ) (device : KnownDevice) (first between last ended : HostState)
        → NumbersFit (known_in first) → NoNews first → device_in path (known_in first) ≡ Some device
        → KeepsNumbers first between → KeepsNumbers between last
        → ended ≡ record last { reported = ended.reported } → NoNews ended
        → reported_at path ended.reported ≡ reported_at path last.reported
        → (device_in path (known_in between) ≡ Some device)
        × (device_in path (known_in ended) ≡ Some device) }
{}
