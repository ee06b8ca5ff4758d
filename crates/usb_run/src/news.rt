//! All news of a host.
ghost use Rattle.std.specs.Prelude.{IfOk, OnErr};
ghost use Rattle.usb_run.specs.NewsCalls.{AllNews, SomeNews};

use std::alloc::{AllocError, Global};
use usb_bus::Bus;
use usb_host::{Host, News};

/// Which devices left and which arrived since this was last asked: first those that left, then
/// those that arrived, each by rising path.
///
/// # Errors
///
/// Memory was refused. The news that were returned until then are lost.
pub fn all_news<B: Bus>(alloc: Global, host: &mut Host<B>) -> Result<Vec<News>, AllocError>
    ensures all { IfOk result (λ news. AllNews host.old news.items host.new) }
    ensures cut { OnErr result (SomeNews host.old host.new) }
{
    let mut all = Vec::new(alloc);
    'questions: while let Some(news) = host.next_news() {
        all.push(news)?;
    }
    Ok(all)
}
