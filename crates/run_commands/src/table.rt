//! The commands, a row each.

ghost use Rattle.std.specs.Prelude.{◌≡◌};
ghost use Rattle.run_commands.specs.{Rows.{row_view, page_view}, Table.{row, page}};

use crate::settings::Setting;
use run_inputs::ReadAs;

/// A command: its first word, the files that it reads, whether the next word names a file that it may put, what the other words say, whether
/// any of several best answers may be told, what it does, and what stands for the file that it may put.
#[derive(Clone, Copy)]
pub struct CommandRow {
    pub word: &'static str,
    pub reads: &'static [ReadAs],
    pub puts: bool,
    pub settings: &'static [Setting],
    pub chooses: bool,
    pub does: &'static str,
    pub put_name: &'static str,
}

/// More of a command: what the file is that it may put, what it prints by status, and examples.
#[derive(Clone, Copy)]
pub struct Page {
    pub put: &'static str,
    pub prints: &'static str,
    pub examples: &'static str,
}

#[derive(Clone, Copy)]
pub enum Usage {
    Solve,
    Check,
    Bands,
    Round,
    RoundFrom,
    Whole,
    Half,
    TimingOf,
    Draw,
    Sheet,
    Renew,
    Links,
    CheckLinks,
    Hold,
    Show,
    Explain,
    Narrow,
    Widen,
    Make,
    Trial,
    Sweep,
    Sensitivity,
    Help,
    Version,
}

/// In the order of the help.
pub const USAGES: [Usage; 24] = [
    Usage::Solve,
    Usage::Check,
    Usage::Bands,
    Usage::Round,
    Usage::RoundFrom,
    Usage::Whole,
    Usage::Half,
    Usage::TimingOf,
    Usage::Draw,
    Usage::Sheet,
    Usage::Renew,
    Usage::Links,
    Usage::CheckLinks,
    Usage::Hold,
    Usage::Show,
    Usage::Explain,
    Usage::Narrow,
    Usage::Widen,
    Usage::Make,
    Usage::Trial,
    Usage::Sweep,
    Usage::Sensitivity,
    Usage::Help,
    Usage::Version,
];

/// The parts of a row, in this order: a constant with these has a name in `specs/`, where one of a struct that holds references has none.
pub type RowParts = (
    &'static str,
    &'static [ReadAs],
    bool,
    &'static [Setting],
    bool,
    &'static str,
    &'static str,
);

/// Those of a page. They stand apart, since longer parts are dear to prove.
pub type PageParts = (&'static str, &'static str, &'static str);

pub const SOLVE: RowParts = (
    "solve",
    &[ReadAs::Description],
    true,
    &[Setting::Work],
    true,
    "search for a best timing, and put its certificate",
    "NEW",
);

pub const SOLVE_PAGE: PageParts = (
    "the certificate of what is found, also where that is a bound or nothing",
    "0 verdict best, and the report: no good timing is wider, on any grid of time
1 verdict none: no timing is good
2 verdict open, and the report: the search stopped, and no good timing is above the bound
",
    "maxband solve examples/broadway.toml broadway-certificate.txt
maxband solve examples/near.toml near-certificate.txt all
",
);

pub const CHECK: RowParts = (
    "check",
    &[ReadAs::Description, ReadAs::Certificate],
    false,
    &[],
    false,
    "check what a certificate claims",
    "",
);

pub const CHECK_PAGE: PageParts = (
    "",
    "0 accepted best X, accepted none or accepted open bound X ..: what is claimed is so
4 rejected REASON: it isn't proved
",
    "maxband check examples/near.toml examples/near-best.txt
maxband check examples/near.toml examples/near-weak.txt
",
);

pub const BANDS: RowParts = (
    "bands",
    &[ReadAs::Description, ReadAs::Timing],
    false,
    &[],
    false,
    "measure the widest bands on a timing's offsets",
    "",
);

pub const BANDS_PAGE: PageParts = (
    "",
    "0 band out X = D first N or no band out, and the same of in: X is a part of the cycle
4 fails RULE: a rule that speaks of no band
",
    "maxband bands examples/market.toml examples/market-good.txt
maxband bands examples/broadway.toml examples/broadway-today.txt
",
);

pub const ROUND: RowParts = (
    "round",
    &[ReadAs::Description, ReadAs::Certificate],
    true,
    &[],
    false,
    "put a plan in whole seconds of a certified timing",
    "NEW",
);

pub const ROUND_PAGE: PageParts = (
    "the timing of the plan",
    "0 cycle N, a line of each signal and band, weighted X = D and loss X: no good timing is wider by more than the loss
4 rejected REASON: what the certificate claims isn't proved
10 no plan ..: why, and nothing is put
",
    "maxband round examples/near.toml examples/near-best.txt near-plan.txt
maxband round examples/near.toml examples/near-renewed.txt near-plan.txt
",
);

pub const ROUND_FROM: RowParts = (
    "round-from",
    &[ReadAs::Description, ReadAs::Certificate, ReadAs::Timed],
    true,
    &[],
    false,
    "put such a plan of another timing, held against a certificate",
    "NEW",
);

pub const ROUND_FROM_PAGE: PageParts = (
    "the timing of the plan",
    "0 the lines of round: no good timing is wider than the plan of FILE by more than the loss
4 rejected REASON: what the certificate claims isn't proved; fails RULE: the timing of FILE breaks this rule
10 no plan ..: why, and nothing is put
",
    "maxband round-from examples/near.toml examples/near-best.txt examples/near-renewed.txt near-plan.txt
maxband round-from examples/near.toml examples/near-renewed.txt examples/near-best.txt near-plan.txt
",
);

pub const WHOLE: RowParts = (
    "whole",
    &[ReadAs::Description, ReadAs::Certificate],
    true,
    &[Setting::WholeCycles],
    true,
    "put a plan in whole seconds, with offsets and speeds that widen it",
    "NEW",
);

pub const WHOLE_PAGE: PageParts = (
    "the timing of the plan",
    "0 cycle N, a line of each signal, link and band, weighted X = D and loss X: no good timing is wider by more than the loss
4 rejected REASON: what the certificate claims isn't proved
10 no plan ..: why, and nothing is put
",
    "maxband whole examples/near.toml examples/near-best.txt near-whole.txt
maxband whole examples/near.toml examples/near-renewed.txt near-whole.txt 100
",
);

pub const HALF: RowParts = (
    "half",
    &[ReadAs::Description, ReadAs::Timing],
    true,
    &[],
    true,
    "put the half-cycle plan with the widest equal bands",
    "NEW",
);

pub const HALF_PAGE: PageParts = (
    "the timing of the plan",
    "0 equal band X = D, and a line of each signal; or no equal band, and nothing is put
4 fails RULE: a rule that speaks of no band
11 uneven signal I, unequal link I or ticks N: the timing can have no such plan
",
    "maxband half examples/downtown.toml examples/downtown-good.txt downtown-half.txt
maxband half examples/school.toml examples/school-good.txt school-half.txt
",
);

pub const TIMING_OF: RowParts = (
    "timing",
    &[ReadAs::Description, ReadAs::TypedPlan],
    true,
    &[],
    false,
    "put the timing of a plan typed in seconds",
    "NEW",
);

pub const TIMING_OF_PAGE: PageParts = (
    "the timing, whichever rules it breaks",
    "0 the lines of bands, weighted X = D, and holds or fails RULE
3 refused CountMismatch PLACE: the plan has more or fewer numbers than the street asks for
11 ticks N: a number of the timing would be 2^80 or more
",
    "maxband timing examples/broadway.toml examples/broadway-today.plan broadway-today.txt
maxband timing examples/measured.toml examples/broadway-today.plan measured-today.txt
",
);

pub const DRAW: RowParts = (
    "draw",
    &[ReadAs::Description, ReadAs::Timed],
    true,
    &[Setting::Title],
    false,
    "put a picture of the timing of a timing or certificate",
    "SVG",
);

pub const DRAW_PAGE: PageParts = (
    "the picture",
    "0 drawn, and fails RULE where the timing breaks a rule
4 fails shape: the timing has another number of signals
10 no plan timing: the certificate has none
",
    "maxband draw examples/market.toml examples/market-good.txt market.svg
maxband draw examples/near.toml examples/near-best.txt near.svg 'Church Street'
",
);

pub const SHEET: RowParts = (
    "sheet",
    &[ReadAs::Description, ReadAs::Timed],
    true,
    &[Setting::Reference],
    false,
    "put a timing as a table of seconds, for controllers and spreadsheets",
    "SHEET",
);

pub const SHEET_PAGE: PageParts = (
    "the table, comma-separated values, a header and a record for each signal",
    "0 cycle D s, the bands in seconds, weighted X = D, and holds or fails RULE
4 fails shape: the timing has another number of signals
10 no plan timing: the certificate has none
",
    "maxband sheet examples/market.toml examples/market-good.txt market.csv
maxband sheet examples/near.toml examples/near-best.txt near.csv green_out
",
);

pub const RENEW: RowParts = (
    "renew",
    &[ReadAs::Certificate],
    true,
    &[],
    false,
    "put a certificate in the second format",
    "NEW",
);

pub const RENEW_PAGE: PageParts = (
    "the certificate, in the second format",
    "0 renewed: whether it proves anything, check says
",
    "maxband renew examples/near-best.txt near-renewed.txt
maxband renew examples/near-renewed.txt near-again.txt
",
);

pub const LINKS: RowParts = (
    "links",
    &[ReadAs::Description],
    true,
    &[Setting::Work],
    true,
    "search for best bands of each link, and put their certificate",
    "NEW",
);

pub const LINKS_PAGE: PageParts = (
    "the certificate of links of what is found, also where that is a bound or nothing",
    "0 verdict best, and the report: no good link timing is wider, on any grid of time
1 verdict none: no link timing is good
2 verdict open, and the report: the search stopped, and no good link timing is above the bound
",
    "maxband links examples/bridge.toml bridge-certificate.txt
maxband links examples/near.toml near-links.txt all
",
);

pub const CHECK_LINKS: RowParts = (
    "check-links",
    &[ReadAs::Description, ReadAs::LinkCertificate],
    false,
    &[],
    false,
    "check what a certificate of links claims",
    "",
);

pub const CHECK_LINKS_PAGE: PageParts = (
    "",
    "0 accepted best X, accepted none or accepted open bound X ..: what is claimed is so
4 rejected REASON: it isn't proved
",
    "maxband check-links examples/bridge.toml examples/bridge-links.txt
maxband check-links examples/near.toml examples/bridge-links.txt
",
);

pub const HOLD: RowParts = (
    "hold",
    &[ReadAs::Description, ReadAs::Timing],
    false,
    &[],
    false,
    "test a timing tick by tick",
    "",
);

pub const HOLD_PAGE: PageParts = (
    "",
    "0 holds, and weighted X: the timing is good
4 fails RULE: the first rule that it breaks
",
    "maxband hold examples/market.toml examples/market-good.txt
maxband hold examples/market.toml examples/market-queue.txt
",
);

pub const SHOW: RowParts = (
    "show",
    &[ReadAs::Description],
    false,
    &[],
    false,
    "write the canonical description",
    "",
);

pub const SHOW_PAGE: PageParts = (
    "",
    "0 the description with every key, in one form
",
    "maxband show examples/market.toml
maxband show examples/valley.toml
",
);

pub const EXPLAIN: RowParts = (
    "explain",
    &[ReadAs::AnyFile],
    false,
    &[],
    false,
    "say in words what stands in a file, or what is wrong with it",
    "",
);

pub const EXPLAIN_PAGE: PageParts = (
    "",
    "0 what the file is and what stands in it, with warnings
3 the line that other commands print, then where it is, what stands there and what is wanted
",
    "maxband explain examples/broadway.toml
maxband explain examples/near-best.txt
",
);

pub const NARROW: RowParts = (
    "narrow",
    &[ReadAs::Description],
    true,
    &[],
    false,
    "put the street with its limits of speed moved inwards to short numbers",
    "NEW",
);

pub const NARROW_PAGE: PageParts = (
    "the street with the moved limits, in the canonical form",
    "0 narrowed N, how many limits are others, and a line of each direction of a link that stays: each timing that is good for NEW is good for STREET
",
    "maxband narrow examples/measured.toml narrowed.toml
maxband solve narrowed.toml narrowed-certificate.txt
",
);

pub const WIDEN: RowParts = (
    "widen",
    &[ReadAs::Description],
    true,
    &[],
    false,
    "put the street with its limits of speed moved outwards to short numbers",
    "NEW",
);

pub const WIDEN_PAGE: PageParts = (
    "the street with the moved limits, in the canonical form",
    "0 widened N, how many limits are others, and a line of each direction of a link that stays: each timing that is good for STREET is good for NEW
",
    "maxband widen examples/measured.toml widened.toml
maxband solve widened.toml widened-certificate.txt
",
);

pub const MAKE: RowParts = (
    "make",
    &[],
    false,
    &[Setting::Signals, Setting::Seed],
    false,
    "write the description of a street made from a seed",
    "",
);

pub const MAKE_PAGE: PageParts = (
    "",
    "0 the description with every key, in one form
",
    "maxband make 8 5
maxband make 16 0
",
);

pub const TRIAL: RowParts = (
    "trial",
    &[],
    false,
    &[Setting::Signals, Setting::Seed, Setting::Limit],
    true,
    "search such a street, and check the certificate",
    "",
);

pub const TRIAL_PAGE: PageParts = (
    "",
    "0 the summary with verdict best: no good timing is wider, on any grid of time
1 the summary with verdict none: no timing is good
2 the summary with verdict open: the search stopped, and no good timing is above the bound
",
    "maxband trial 8 5 100000
maxband trial 4 7 all
",
);

pub const SWEEP: RowParts = (
    "sweep",
    &[ReadAs::Description],
    true,
    &[Setting::Limit, Setting::Cycles],
    false,
    "search at each cycle, and put a table",
    "TABLE",
);

pub const SWEEP_PAGE: PageParts = (
    "comma-separated values, a header and a record for each cycle",
    "0 rows N: of each of the N cycles, whatever its verdict is
",
    "maxband sweep examples/broadway.toml broadway-cycles.csv 100000 70 80 90 100
maxband sweep examples/near.toml near-cycles.csv all 100
",
);

pub const SENSITIVITY: RowParts = (
    "sensitivity",
    &[ReadAs::Description],
    true,
    &[Setting::Limit],
    true,
    "let out one limit at a time, search, and put a table",
    "TABLE",
);

pub const SENSITIVITY_PAGE: PageParts = (
    "comma-separated values, a header and a record for the street as it is and for each change",
    "0 verdict V, weighted X = D or no timing, rows N, and a line of each change with a gain: whatever the verdicts are
",
    "maxband sensitivity examples/market.toml market-limits.csv 100000
maxband sensitivity examples/near.toml near-limits.csv all
",
);

pub const HELP: RowParts = (
    "--help",
    &[],
    false,
    &[Setting::Word],
    false,
    "write these lines, or more of one command",
    "",
);

pub const HELP_PAGE: PageParts = (
    "",
    "0 a line of each command; or of one command what you read here
",
    "maxband --help
maxband --help solve
",
);

pub const VERSION: RowParts = (
    "--version",
    &[],
    false,
    &[],
    false,
    "write the versions of the program and of what it reads",
    "",
);

pub const VERSION_PAGE: PageParts = (
    "",
    "0 the version of the program, and those of descriptions, plans, timings and certificates
",
    "maxband --version
maxband --help --version
",
);

/// The row of these parts.
fn row_of(parts: RowParts) -> CommandRow
    ensures { row_view result ≡ record { word = parts.entry.0.now; reads = parts.entry.1.now; puts = parts.entry.2; settings = parts.entry.3.now; chooses = parts.entry.4; does = parts.entry.5.now; put_name = parts.entry.6.now } }
{
    let (word, reads, puts, settings, chooses, does, put_name) = parts;
    CommandRow {
        word,
        reads,
        puts,
        settings,
        chooses,
        does,
        put_name,
    }
}

/// The page of these parts.
fn page_of(parts: PageParts) -> Page
    ensures { page_view result ≡ record { put = parts.entry.0.now; prints = parts.entry.1.now; examples = parts.entry.2.now } }
{
    let (put, prints, examples) = parts;
    Page {
        put,
        prints,
        examples,
    }
}

impl Usage {
    /// Its row.
    pub fn row(self) -> CommandRow
        ensures { row_view result ≡ row self }
    {
        match self {
            Usage::Solve => row_of(SOLVE),
            Usage::Check => row_of(CHECK),
            Usage::Bands => row_of(BANDS),
            Usage::Round => row_of(ROUND),
            Usage::RoundFrom => row_of(ROUND_FROM),
            Usage::Whole => row_of(WHOLE),
            Usage::Half => row_of(HALF),
            Usage::TimingOf => row_of(TIMING_OF),
            Usage::Draw => row_of(DRAW),
            Usage::Sheet => row_of(SHEET),
            Usage::Renew => row_of(RENEW),
            Usage::Links => row_of(LINKS),
            Usage::CheckLinks => row_of(CHECK_LINKS),
            Usage::Hold => row_of(HOLD),
            Usage::Show => row_of(SHOW),
            Usage::Explain => row_of(EXPLAIN),
            Usage::Narrow => row_of(NARROW),
            Usage::Widen => row_of(WIDEN),
            Usage::Make => row_of(MAKE),
            Usage::Trial => row_of(TRIAL),
            Usage::Sweep => row_of(SWEEP),
            Usage::Sensitivity => row_of(SENSITIVITY),
            Usage::Help => row_of(HELP),
            Usage::Version => row_of(VERSION),
        }
    }

    /// Its page.
    pub fn page(self) -> Page
        ensures { page_view result ≡ page self }
    {
        match self {
            Usage::Solve => page_of(SOLVE_PAGE),
            Usage::Check => page_of(CHECK_PAGE),
            Usage::Bands => page_of(BANDS_PAGE),
            Usage::Round => page_of(ROUND_PAGE),
            Usage::RoundFrom => page_of(ROUND_FROM_PAGE),
            Usage::Whole => page_of(WHOLE_PAGE),
            Usage::Half => page_of(HALF_PAGE),
            Usage::TimingOf => page_of(TIMING_OF_PAGE),
            Usage::Draw => page_of(DRAW_PAGE),
            Usage::Sheet => page_of(SHEET_PAGE),
            Usage::Renew => page_of(RENEW_PAGE),
            Usage::Links => page_of(LINKS_PAGE),
            Usage::CheckLinks => page_of(CHECK_LINKS_PAGE),
            Usage::Hold => page_of(HOLD_PAGE),
            Usage::Show => page_of(SHOW_PAGE),
            Usage::Explain => page_of(EXPLAIN_PAGE),
            Usage::Narrow => page_of(NARROW_PAGE),
            Usage::Widen => page_of(WIDEN_PAGE),
            Usage::Make => page_of(MAKE_PAGE),
            Usage::Trial => page_of(TRIAL_PAGE),
            Usage::Sweep => page_of(SWEEP_PAGE),
            Usage::Sensitivity => page_of(SENSITIVITY_PAGE),
            Usage::Help => page_of(HELP_PAGE),
            Usage::Version => page_of(VERSION_PAGE),
        }
    }
}
