//! The kinds of files.

ghost use Rattle.std.specs.Prelude.{◌≡◌, ◌<◌, ◌^◌};
ghost use Rattle.run_inputs.specs.{Labels.{reader_label}, Reading.{most_bytes}};

/// As what a file is read.
#[derive(Clone, Copy)]
pub enum ReadAs {
    /// The description of an artery.
    Description,
    Timing,
    Certificate,
    /// A certificate of link timings.
    LinkCertificate,
    /// A timing or a certificate, of which its timing is taken.
    Timed,
    /// A plan as people type it, in seconds.
    TypedPlan,
    /// A file of any kind, as its bytes.
    AnyFile,
}

/// What stands for a word in a usage, and what that word is.
pub type Label = (&'static str, &'static str);

pub const DESCRIPTION: Label = ("STREET", "a description of a street");

pub const TIMING: Label = ("TIMING", "a timing");

pub const CERTIFICATE: Label = ("CERT", "a certificate of solve, in either format");

pub const LINK_CERTIFICATE: Label = ("CERT", "a certificate of links");

pub const TIMED: Label = (
    "FILE",
    "a timing or a certificate of solve, of which the timing is taken",
);

pub const TYPED_PLAN: Label = ("PLAN", "a plan typed in seconds");

pub const ANY_FILE: Label = (
    "FILE",
    "a description, a timing or a typed plan of at most 1048576 bytes, or a certificate of either kind",
);

/// The most bytes of a description, a timing or a typed plan.
pub(crate) const SHORT_FILE: u64 = 1_048_576;

/// The most bytes of a certificate of either kind.
const LONG_FILE: u64 = 268_435_456;

impl ReadAs {
    /// What stands for such a file in a usage, and what it is.
    pub fn label(self) -> Label
        ensures name { result.0.now ≡ (reader_label self).name }
        ensures text { result.1.now ≡ (reader_label self).text }
    {
        match self {
            ReadAs::Description => DESCRIPTION,
            ReadAs::Timing => TIMING,
            ReadAs::Certificate => CERTIFICATE,
            ReadAs::LinkCertificate => LINK_CERTIFICATE,
            ReadAs::Timed => TIMED,
            ReadAs::TypedPlan => TYPED_PLAN,
            ReadAs::AnyFile => ANY_FILE,
        }
    }

    /// The most bytes of such a file.
    pub fn most_bytes(self) -> u64
        ensures most { result ≡ most_bytes self }
        ensures few { result < 2 ^ 63 }
    {
        match self {
            ReadAs::Description | ReadAs::Timing | ReadAs::TypedPlan => SHORT_FILE,
            ReadAs::Certificate | ReadAs::LinkCertificate => LONG_FILE,
            ReadAs::Timed | ReadAs::AnyFile => LONG_FILE,
        }
    }
}
