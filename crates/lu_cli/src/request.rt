//! What the words of a command line ask for.

use lu_parallel::Options;
use lu_report::Bounds;
use lu_spec::Marks;
use lu_trace::Detail;

/// Which threads the matrices of a campaign have, and what each takes its calls from.
#[derive(Clone, Copy, Debug, PartialEq, Eq)]
pub enum CampaignThreads {
    /// This many threads; each takes its calls from the one list of candidates.
    Alike(u8),

    /// Those of the bundle's matrix; each takes its calls from its own line.
    Own,
}

/// What is asked of a campaign.
#[derive(Clone, Copy, Debug, PartialEq, Eq)]
pub enum CampaignPart {
    /// To try all its matrices.
    Whole,

    /// To try those with the numbers `from` to `upto - 1`, counted from 0.
    Slice { from: u64, upto: u64 },

    /// How many there are.
    Count,
}

/// What is asked of each matrix of a campaign.
#[derive(Clone, Copy, Debug, PartialEq, Eq)]
pub enum CampaignTrial {
    /// That it passes a check.
    Checked,

    /// That the component is certified to be linearizable on it.
    Certified,

    /// Which kind of certificate the component has on it.
    Surveyed,
}

/// The options of a campaign.
#[derive(Clone, Copy, Debug, PartialEq, Eq)]
pub struct CampaignOptions {
    pub bounds: Bounds,

    pub threads: CampaignThreads,

    /// The calls of each thread that has candidates.
    pub calls: u8,

    pub part: CampaignPart,

    pub trial: CampaignTrial,
}

/// The options of a certificate.
#[derive(Clone, Copy, Debug, PartialEq, Eq)]
pub struct CertifyOptions {
    /// Those of the check of each cut.
    pub options: Options,

    /// How many local instructions run with a move, up to 16, where the component says fewer.
    pub local: u16,

    /// How many nodes of a cut are kept at most.
    pub nodes: u32,
}

/// What is asked of `lineup lint`.
#[derive(Clone, Copy, Debug, PartialEq, Eq)]
pub struct LintRequest {
    /// The bound on serial runs. The bound on schedules is not used.
    pub bounds: Bounds,

    /// Whether the entries of a specification may have marks.
    pub marks: Marks,
}

/// Where a trace begins.
#[derive(Clone, Copy, Debug, PartialEq, Eq)]
pub enum TraceStart {
    /// At the first move of the schedule.
    FirstMove,

    /// At the matrix's setup.
    Setup,
}

/// Where a trace begins, and which steps it shows.
#[derive(Clone, Copy, Debug, PartialEq, Eq)]
pub struct Tracing {
    pub start: TraceStart,
    pub detail: Detail,
}

/// What is printed of recorded histories that a component shows.
#[derive(Clone, Copy, Debug, PartialEq, Eq)]
pub enum Showing {
    /// How many they are.
    Count,

    /// How many they are, and a schedule of each.
    Schedules,
}

/// What the words of a command line ask for.
#[derive(Clone, Copy, Debug, PartialEq, Eq)]
pub enum Request {
    /// `lineup commands`: list the commands and their options. No bundle is read.
    Commands,

    /// `lineup lint`: report every fault of a bundle in words.
    Lint(LintRequest),

    /// A command over the parts of a bundle.
    Bundle(BundleCommand),

    /// A command, with `--source`: where the bundle begins with a source, over the bundle with the
    /// source's component in its place.
    BundleWithSource(BundleCommand),
}

/// How often each thread makes its line of calls, where one verdict covers all matrices that are
/// unrolled so. It may stop anywhere.
#[derive(Clone, Copy, Debug, PartialEq, Eq)]
pub enum Repetition {
    /// `--rounds N`: up to this many times.
    UpTo(u16),

    /// `--forever`: any number of times.
    Forever,
}

/// A command over the parts of a bundle, with its options.
#[derive(Clone, Copy, Debug, PartialEq, Eq)]
pub enum BundleCommand {
    /// `lineup replay`: play a schedule of a component and a matrix.
    Replay,

    /// `lineup trace`: show what each move of a schedule does; with `--setup`, before it what the
    /// matrix's setup does and leaves; with `--brief`, only what other threads may see.
    Trace(Tracing),

    /// `lineup draw`: show a schedule as a picture.
    Draw,

    /// `lineup draw --explain`: the same, with what explains its history. The bound of schedules is
    /// not used.
    DrawExplained(Bounds),

    /// `lineup explain`: show why the history of a schedule has no serial witness, or its witness.
    /// The bound of schedules is not used.
    Explain(Bounds),

    /// `lineup explain --spec`: the same by a specification.
    ExplainAgainst(Marks),

    /// `lineup serial`: show the serial histories of a component and a matrix.
    Serial(Bounds),

    /// `lineup witness`: judge recorded histories by the serial histories of a component and a
    /// matrix. The bound of schedules is used for the line of a report alone.
    Witness(Bounds),

    /// `lineup witness --spec`: judge recorded histories by a specification.
    WitnessAgainst(Marks),

    /// `lineup conform`: ask of recorded histories whether some schedule of a component shows them.
    Conform(Showing),

    /// `lineup spec`: write a specification that a person wrote as this program spells it.
    Spec,

    /// `lineup check`: report the first fault of a component and a matrix.
    Check(Options),

    /// `lineup check --spec`: report the first fault of a component and a matrix against a
    /// specification.
    CheckAgainst(Options, Marks),

    /// `lineup certify`: decide whether a component is linearizable on a matrix.
    Certify(CertifyOptions),

    /// `lineup certify --rounds`, `lineup certify --forever`: decide whether a component is
    /// linearizable on all matrices that are unrolled from one. Of the options, the bound on serial
    /// runs and the number of nodes count.
    CertifyUnrolled(CertifyOptions, Repetition),

    /// `lineup refute`: show where a component that fails does not meet a specification.
    Refute,

    /// `lineup shrink`: take calls away from a matrix that fails.
    Shrink(Bounds),

    /// `lineup campaign`: check or certify all small matrices over some calls.
    Campaign(CampaignOptions),

    /// `lineup campaign --spec`: hold a component against a trusted one on all small matrices over
    /// some calls. The matrices are not certified.
    CampaignAgainst(CampaignOptions),

    /// `lineup compile`: write the component of a source in the place of the source.
    Compile,
}

/// Why a command line asks for nothing.
#[derive(Clone, Copy, Debug, PartialEq, Eq)]
pub enum ArgsFault {
    /// The words are refused.
    Refused,

    /// There was no memory to read them with.
    Memory,
}
