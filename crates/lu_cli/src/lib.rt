//! The program `lineup`, over any reader and writer: from words and bytes to bytes and an exit
//! status.
#![tactic(auto)]

mod answer;
mod args;
mod at_once;
mod by_matrix;
mod campaign;
mod campaign_against;
mod certify;
mod check;
mod commands;
mod compile;
mod conform;
mod counted;
mod explain;
mod explanation;
mod failing;
mod help;
mod input;
mod lint;
mod output;
mod pictures;
mod program;
mod refusal;
mod refute;
mod replay;
mod request;
mod runs;
mod serial;
mod shown;
mod shown_gate;
mod shrink;
mod sources;
mod spec;
mod table;
mod terminal;
mod texts;
mod trace;
mod unrolled;
mod witness;
mod worded;

pub use answer::Answer;
pub use args::read_request;
pub use compile::strings_of;
pub use counted::Counted;
pub use lu_certify::{Progress, Silent};
pub use lu_source_lint::is_near;
pub use lu_wording::hint_on;
pub use program::{answer_alone, answer_request, run, run_with_progress};
pub use request::{
    ArgsFault, BundleCommand, CampaignOptions, CampaignPart, CampaignThreads, CertifyOptions,
    LintRequest, Repetition, Request, Showing, TraceStart, Tracing,
};
pub use table::{CommandRow, Kind, OptionRow, commands as command_rows, options as option_rows};
pub use terminal::{Display, Measure, Terminal};
pub use texts::{Case, Fault, check_texts, check_texts_against, read_texts};
