//! The control transfer in progress (8.5.3), by the attempts alone.

ghost use Rattle.std.specs.Prelude.{◌≡◌, option_map};
ghost use Rattle.usb_places.specs.Deeds.{answer_if, begins, begun, follows, goes_to, has_data, is_again, is_answered, is_begun, is_data, is_in, is_out, is_setup_again, is_status, moment_in, onward, reads, transfer_after, transfer_past};

use crate::request::same_setup;
use crate::seen::{Deed, Token, Try};
use crate::when::Moment;
use usb_port::PortPath;
use usb_request::Setup;
use usb_request::endpoint_address::DIRECTION_IN;

/// How far a control transfer is.
#[derive(Clone, Copy, Debug)]
pub(crate) enum Stage {
    /// Its setup data were sent.
    Setup,
    /// An attempt of its data stage was made.
    Data,
    /// An attempt of its status stage was made.
    Status,
}

/// A control transfer in progress.
#[derive(Debug, Drop)]
pub(crate) struct Transfer {
    /// The address that it goes to.
    pub(crate) address: u8,
    pub(crate) setup: Setup,
    /// The path of the port whose device had that address.
    pub(crate) path: Option<PortPath>,
    pub(crate) stage: Stage,
}

/// Whether the data go to the host (9.3.1).
fn reads(setup: Setup) -> bool
    ensures { result ≡ reads setup }
{
    setup.request_type >= DIRECTION_IN
}

/// Whether there is a data stage: wLength is not 0 (9.3.5).
fn has_data(setup: Setup) -> bool
    ensures { result ≡ has_data setup }
{
    setup.length != 0
}

/// Whether a token is IN.
fn is_in(token: Token) -> bool
    ensures { result ≡ is_in token }
{
    matches!(token, Token::In)
}

/// Whether a token is OUT.
fn is_out(token: Token) -> bool
    ensures { result ≡ is_out token }
{
    matches!(token, Token::Out)
}

/// Whether only the setup data were sent.
fn is_begun(stage: Stage) -> bool
    ensures { result ≡ is_begun stage }
{
    matches!(stage, Stage::Setup)
}

/// Whether an attempt of the status stage was made.
fn is_answered(stage: Stage) -> bool
    ensures { result ≡ is_answered stage }
{
    matches!(stage, Stage::Status)
}

/// The part that begins with the status stage, if that begins.
fn answer_if(found: bool) -> Option<Moment>
    ensures { result ≡ answer_if found }
{
    if found { Some(Moment::Answer) } else { None }
}

impl Transfer {
    /// Whether the attempt is to endpoint 0 of the same address.
    fn goes_to(&self, tried: Try) -> bool
        ensures { result ≡ goes_to self.now tried }
    {
        tried.endpoint == 0 && tried.address == self.address
    }

    /// Whether the attempt is of its data stage.
    fn is_data(&self, tried: Try) -> bool
        ensures { result ≡ is_data self.now tried }
    {
        let fits = if reads(self.setup) {
            is_in(tried.token)
        } else {
            is_out(tried.token)
        };
        self.goes_to(tried) && has_data(self.setup) && fits
    }

    /// Whether the attempt is of its status stage.
    fn is_status(&self, tried: Try) -> bool
        ensures { result ≡ is_status self.now tried }
    {
        let fits = if reads(self.setup) && has_data(self.setup) {
            is_out(tried.token)
        } else {
            is_in(tried.token)
        };
        self.goes_to(tried) && fits
    }

    /// Whether SETUP with these data is tried again.
    fn is_setup_again(&self, tried: Try, setup: Setup) -> bool
        ensures { result ≡ is_setup_again self.now tried setup }
    {
        is_begun(self.stage) && self.goes_to(tried) && same_setup(self.setup, setup)
    }

    /// Which part of it begins with an attempt.
    #[tactic(auto, unfolding(crate::specs::Deeds::follows))]
    fn follows(&self, tried: Try) -> Option<Moment>
        ensures { result ≡ follows self.now tried }
    {
        match self.stage {
            Stage::Setup => {
                if self.is_data(tried) {
                    Some(Moment::Data)
                } else {
                    answer_if(self.is_status(tried))
                }
            }
            Stage::Data => answer_if(self.is_status(tried)),
            Stage::Status => {
                if self.is_status(tried) {
                    None
                } else {
                    Some(Moment::After)
                }
            }
        }
    }

    /// Which part of it begins with a deed, or behind it.
    #[tactic(auto, unfolding(crate::specs::Deeds::moment_in))]
    pub(crate) fn moment_in(&self, deed: &Deed) -> Option<Moment>
        ensures { result ≡ moment_in self.now deed.now }
    {
        match deed {
            Deed::Attempt(tried, _) => self.follows(*tried),
            Deed::Call(_, _) => {
                if is_answered(self.stage) {
                    Some(Moment::After)
                } else {
                    None
                }
            }
            Deed::Status(_) | Deed::Wait => None,
        }
    }

    /// The same transfer in a later stage.
    fn in_stage(self, stage: Stage) -> Transfer
        ensures { result ≡ record self { stage = stage } }
    {
        Transfer {
            address: self.address,
            setup: self.setup,
            path: self.path,
            stage,
        }
    }

    /// The transfer behind the begin of that part.
    fn onward(self, moment: Option<Moment>) -> Option<Transfer>
        ensures { result ≡ onward self moment }
    {
        match moment {
            None | Some(Moment::Token) => Some(self),
            Some(Moment::Data) => Some(self.in_stage(Stage::Data)),
            Some(Moment::Answer) => Some(self.in_stage(Stage::Status)),
            Some(Moment::After) => None,
        }
    }
}

/// Whether SETUP with these data is tried again, in the transfer in progress.
fn is_again(transfer: Option<&Transfer>, tried: Try, setup: Setup) -> bool
    ensures { result ≡ is_again (option_map (λ t. t.now) transfer.entry) tried setup }
{
    match transfer {
        None => false,
        Some(transfer) => transfer.is_setup_again(tried, setup),
    }
}

/// The setup data of a request that begins with the attempt, beside the transfer in progress.
#[tactic(auto, unfolding(crate::specs::Deeds::begins))]
pub(crate) fn begins(transfer: Option<&Transfer>, tried: Try) -> Option<Setup>
    ensures { result ≡ begins (option_map (λ t. t.now) transfer.entry) tried }
{
    match tried.token {
        Token::Setup(setup) => {
            if tried.endpoint == 0 && !is_again(transfer, tried, setup) {
                Some(setup)
            } else {
                None
            }
        }
        Token::Out | Token::In => None,
    }
}

/// The transfer in progress after an attempt that begins no request.
#[tactic(auto, unfolding(crate::specs::Deeds::transfer_past))]
fn transfer_past(transfer: Option<Transfer>, tried: Try) -> Option<Transfer>
    ensures { result ≡ transfer_past transfer tried }
{
    match transfer {
        None => None,
        Some(transfer) => {
            let moment = transfer.follows(tried);
            transfer.onward(moment)
        }
    }
}

/// The same path in memory of its own.
fn copied(path: &Option<PortPath>) -> Option<PortPath>
    ensures { result ≡ path.now }
{
    match path {
        None => None,
        Some(path) => Some(path.duplicate()),
    }
}

/// The transfer in progress after an attempt.
fn begun(
    transfer: Option<Transfer>,
    tried: Try,
    path: &Option<PortPath>,
    setup: Option<Setup>,
) -> Option<Transfer>
    ensures { result ≡ begun transfer tried path.now setup }
{
    match setup {
        None => transfer_past(transfer, tried),
        Some(setup) => Some(Transfer {
            address: tried.address,
            setup,
            path: copied(path),
            stage: Stage::Setup,
        }),
    }
}

/// The transfer in progress after a deed.
#[tactic(auto, unfolding(crate::specs::Deeds::transfer_after))]
pub(crate) fn transfer_after(transfer: Option<Transfer>, deed: &Deed) -> Option<Transfer>
    ensures { result ≡ transfer_after transfer deed.now }
{
    match deed {
        Deed::Attempt(tried, path) => {
            let setup = begins(transfer.as_ref(), *tried);
            begun(transfer, *tried, path, setup)
        }
        Deed::Call(_, _) => None,
        Deed::Status(_) | Deed::Wait => transfer,
    }
}
