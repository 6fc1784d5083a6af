//! How a run ends.

ghost use Rattle.std.specs.Prelude.{◌≡◌};
ghost use Rattle.run_inputs.specs.Status.{number_of};

use artery_model::Refusal;
use branch_tree::Stop;
use certificate_checker::Reject;
use half_integer::HalfEnd;
use link_proof::LinkReject;
use plan_text::BadText;
use second_plan::PlanEnd;
use time_space::Failing;

/// The number of the status for words that the system doesn't give as text. It is none of a cause: no run ends with it.
pub const NO_WORDS: u8 = 12;

/// Why a run ends with its status. `file` is 1 for the first file that the command reads, 2 for the second, and so on.
#[derive(Drop)]
pub enum Cause {
    /// The work was done. For `solve`, `links` and `trial`: the timing that was found is a best one.
    Done,
    /// There is no good timing, or of `links` no good link timing, on any grid.
    NoTiming,
    /// The search stopped, by work or because a number left its width: no good timing, or of `links` no good link timing, is worth more
    /// than the bound that was found.
    Stopped(Stop),
    /// The first file doesn't describe an artery, or of `timing` the second no plan of it: what is wrong first, and where.
    Refused(Refusal),
    /// A file that the command reads as a timing, or as a certificate of either kind, isn't the text of one: its first bad line.
    BadText(BadText),
    /// The timing breaks a rule that the command asks of it: the first of these that it breaks.
    Fails(Failing),
    /// The certificate is refused: the first refusal, which is never want of memory.
    Rejected(Reject),
    /// The certificate of link timings is refused: the first refusal, which is never want of memory.
    LinkRejected(LinkReject),
    /// The words are none of the usages.
    Words,
    /// A read of this file failed, and was counted.
    ReadFault { file: u8 },
    /// The put of the file that the command puts (a certificate, a timing, a picture or a table), or a write of its lines, failed and was
    /// counted.
    WriteFault,
    /// Memory was wanting.
    Memory,
    /// This file has more bytes than its limit.
    TooLong { file: u8 },
    /// No plan in whole seconds is made, of the accepted certificate's timing or of another one: the first reason.
    Unplanned(PlanEnd),
    /// The file is a certificate without a timing, so there is none to draw.
    Untimed,
    /// The timing has no half-cycle plan: the first reason.
    Unmatched(HalfEnd),
    /// The typed plan has so many ticks, which are too many for a timing.
    TooFine { ticks: u128 },
}

/// How a run ends: a number for the system, and the cause.
#[derive(Drop)]
pub struct Status {
    pub number: u8,
    pub cause: Cause,
}

impl Cause {
    /// The number of the status with this cause.
    pub fn number(&self) -> u8
        ensures { result ≡ number_of self.now }
    {
        match self {
            Cause::Done => 0,
            Cause::NoTiming => 1,
            Cause::Stopped(_) => 2,
            Cause::Refused(_) | Cause::BadText(_) => 3,
            Cause::Fails(_) | Cause::Rejected(_) | Cause::LinkRejected(_) => 4,
            Cause::Words => 5,
            Cause::ReadFault { .. } => 6,
            Cause::WriteFault => 7,
            Cause::Memory => 8,
            Cause::TooLong { .. } => 9,
            Cause::Unplanned(_) | Cause::Untimed => 10,
            Cause::Unmatched(_) | Cause::TooFine { .. } => 11,
        }
    }
}
