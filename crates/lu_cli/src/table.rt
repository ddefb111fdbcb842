//! The table of the commands and their options.

ghost use Rattle.std.specs.Prelude.{◌≡◌};
ghost use Rattle.lu_cli.specs.Table as spec;
ghost use Rattle.lu_cli.specs.Table.{commands_said, options_said};

/// What an option takes.
#[derive(Clone, Copy)]
pub enum Kind {
    /// Nothing.
    Flag,

    /// A number from `least` to `most`.
    Number { least: u32, most: u32 },

    /// A number of 64 bits.
    Long,
}

/// A command.
#[derive(Clone, Copy)]
pub struct CommandRow {
    pub name: &'static str,

    /// The parts of the bundle that it takes.
    pub parts: &'static str,

    /// What it answers.
    pub words: &'static str,
}

/// An option `--NAME` of some commands. Where commands differ in it, each of them has a row.
#[derive(Clone, Copy)]
pub struct OptionRow {
    pub name: &'static str,

    /// The letter that stands for its number; nothing for a flag.
    pub letter: &'static str,

    pub kind: Kind,

    /// What is taken where a number is left out.
    pub default: Option<&'static str>,

    pub words: &'static str,

    /// The names of the commands that take it.
    pub commands: &'static [&'static str],
}

static COMMANDS: [CommandRow; 16] = [
    CommandRow {
        name: "certify",
        parts: "component, matrix",
        words: "whether it is linearizable, for schedules of any length",
    },
    CommandRow {
        name: "check",
        parts: "component, matrix",
        words: "the report: pass, or the first fault within the bound",
    },
    CommandRow {
        name: "explain",
        parts: "component, matrix, report",
        words: "why no serial history explains the schedule",
    },
    CommandRow {
        name: "trace",
        parts: "component, matrix, report",
        words: "what each move of the schedule does",
    },
    CommandRow {
        name: "draw",
        parts: "component, matrix, report",
        words: "the schedule as a picture (SVG)",
    },
    CommandRow {
        name: "replay",
        parts: "component, matrix, schedule",
        words: "the history of a schedule",
    },
    CommandRow {
        name: "serial",
        parts: "component, matrix",
        words: "the serial histories",
    },
    CommandRow {
        name: "lint",
        parts: "component [matrix [more parts]]",
        words: "errors and warnings, each with its line",
    },
    CommandRow {
        name: "shrink",
        parts: "component, matrix",
        words: "a smaller matrix that fails",
    },
    CommandRow {
        name: "campaign",
        parts: "component, matrix",
        words: "the first small matrix of the given calls that fails",
    },
    CommandRow {
        name: "witness",
        parts: "component, matrix, histories",
        words: "whether recorded histories have serial witnesses",
    },
    CommandRow {
        name: "conform",
        parts: "component, matrix, histories",
        words: "whether the component can produce recorded histories",
    },
    CommandRow {
        name: "spec",
        parts: "component, matrix, specification",
        words: "a specification in its canonical form",
    },
    CommandRow {
        name: "refute",
        parts: "component, matrix, report, spec",
        words: "a schedule that violates the specification",
    },
    CommandRow {
        name: "compile",
        parts: "source [more parts]",
        words: "the component that a source compiles to",
    },
    CommandRow {
        name: "commands",
        parts: "",
        words: "this text",
    },
];

static OPTIONS: [OptionRow; 32] = [
    OptionRow {
        name: "bound",
        letter: "N",
        kind: Kind::Number {
            least: 0,
            most: 256,
        },
        default: Some("40"),
        words: "maximum number of moves in a schedule",
        commands: &["serial", "check", "witness", "shrink"],
    },
    OptionRow {
        name: "bound",
        letter: "N",
        kind: Kind::Number {
            least: 0,
            most: 256,
        },
        default: Some("256"),
        words: "maximum number of moves in a schedule",
        commands: &["certify"],
    },
    OptionRow {
        name: "bound",
        letter: "N",
        kind: Kind::Number {
            least: 0,
            most: 256,
        },
        default: None,
        words: "maximum number of moves in a schedule; by default 40, or 256 with --certify",
        commands: &["campaign"],
    },
    OptionRow {
        name: "serial",
        letter: "S",
        kind: Kind::Number {
            least: 1,
            most: 256,
        },
        default: Some("40"),
        words: "maximum number of moves of an operation that runs alone",
        commands: &[
            "lint", "serial", "check", "witness", "explain", "draw", "shrink",
        ],
    },
    OptionRow {
        name: "serial",
        letter: "S",
        kind: Kind::Number {
            least: 1,
            most: 256,
        },
        default: Some("256"),
        words: "maximum number of moves of an operation that runs alone",
        commands: &["certify"],
    },
    OptionRow {
        name: "serial",
        letter: "S",
        kind: Kind::Number {
            least: 1,
            most: 256,
        },
        default: None,
        words: "maximum number of moves of an operation that runs alone; by default 40, or 256 with --certify",
        commands: &["campaign"],
    },
    OptionRow {
        name: "rounds",
        letter: "N",
        kind: Kind::Number {
            least: 1,
            most: 65535,
        },
        default: None,
        words: "each thread repeats its line of calls up to N times",
        commands: &["certify"],
    },
    OptionRow {
        name: "forever",
        letter: "",
        kind: Kind::Flag,
        default: None,
        words: "each thread repeats its line of calls any number of times",
        commands: &["certify"],
    },
    OptionRow {
        name: "nodes",
        letter: "N",
        kind: Kind::Number {
            least: 1,
            most: 4_294_967_295,
        },
        default: Some("8388608"),
        words: "maximum number of states to search in each cut; in total with --rounds or --forever",
        commands: &["certify"],
    },
    OptionRow {
        name: "memory",
        letter: "M",
        kind: Kind::Number {
            least: 1,
            most: 65535,
        },
        default: None,
        words: "no more states than fit in M MiB, at 512 bytes each",
        commands: &["certify"],
    },
    OptionRow {
        name: "local",
        letter: "L",
        kind: Kind::Number { least: 0, most: 16 },
        default: Some("0"),
        words: "least number of local instructions that may run as part of a move; replaces a smaller `local` of the component",
        commands: &["certify"],
    },
    OptionRow {
        name: "workers",
        letter: "W",
        kind: Kind::Number { least: 1, most: 16 },
        default: Some("1"),
        words: "number of worker threads",
        commands: &["check", "certify"],
    },
    OptionRow {
        name: "depth",
        letter: "D",
        kind: Kind::Number { least: 0, most: 8 },
        default: None,
        words: "split the search by the first D moves, so that workers share it (by default, one worker searches alone at first, and then D is 4)",
        commands: &["check", "certify"],
    },
    OptionRow {
        name: "spec",
        letter: "",
        kind: Kind::Flag,
        default: None,
        words: "judge by a specification, the third part",
        commands: &["check", "witness"],
    },
    OptionRow {
        name: "spec",
        letter: "",
        kind: Kind::Flag,
        default: None,
        words: "judge by a specification, the fourth part",
        commands: &["explain"],
    },
    OptionRow {
        name: "marks",
        letter: "",
        kind: Kind::Flag,
        default: None,
        words: "entries of a specification may have the mark `?`",
        commands: &["lint", "check", "witness", "explain"],
    },
    OptionRow {
        name: "show",
        letter: "",
        kind: Kind::Flag,
        default: None,
        words: "print a schedule for each history",
        commands: &["conform"],
    },
    OptionRow {
        name: "explain",
        letter: "",
        kind: Kind::Flag,
        default: None,
        words: "number the calls that a serial history explains",
        commands: &["draw"],
    },
    OptionRow {
        name: "setup",
        letter: "",
        kind: Kind::Flag,
        default: None,
        words: "begin the trace with the setup",
        commands: &["trace"],
    },
    OptionRow {
        name: "brief",
        letter: "",
        kind: Kind::Flag,
        default: None,
        words: "show calls, returns, and steps on shared words and locks",
        commands: &["trace"],
    },
    OptionRow {
        name: "threads",
        letter: "T",
        kind: Kind::Number { least: 1, most: 8 },
        default: None,
        words: "number of threads in each matrix; by default 2",
        commands: &["campaign"],
    },
    OptionRow {
        name: "calls",
        letter: "C",
        kind: Kind::Number { least: 1, most: 8 },
        default: Some("1"),
        words: "number of calls of each thread",
        commands: &["campaign"],
    },
    OptionRow {
        name: "by-thread",
        letter: "",
        kind: Kind::Flag,
        default: None,
        words: "each thread chooses from its own line of calls; not with --threads",
        commands: &["campaign"],
    },
    OptionRow {
        name: "from",
        letter: "I",
        kind: Kind::Long,
        default: Some("0"),
        words: "number of the first matrix, counted from 0",
        commands: &["campaign"],
    },
    OptionRow {
        name: "upto",
        letter: "J",
        kind: Kind::Long,
        default: Some("18446744073709551615"),
        words: "number of the matrix after the last one",
        commands: &["campaign"],
    },
    OptionRow {
        name: "count",
        letter: "",
        kind: Kind::Flag,
        default: None,
        words: "print only the number of matrices",
        commands: &["campaign"],
    },
    OptionRow {
        name: "certify",
        letter: "",
        kind: Kind::Flag,
        default: None,
        words: "certify each matrix",
        commands: &["campaign"],
    },
    OptionRow {
        name: "all",
        letter: "",
        kind: Kind::Flag,
        default: None,
        words: "continue after a matrix that is not linearizable; only with --certify",
        commands: &["campaign"],
    },
    OptionRow {
        name: "spec",
        letter: "",
        kind: Kind::Flag,
        default: None,
        words: "compare with a trusted component, the third part",
        commands: &["campaign"],
    },
    OptionRow {
        name: "progress",
        letter: "",
        kind: Kind::Flag,
        default: None,
        words: "show on standard error how far the campaign has come, also without a terminal",
        commands: &["campaign"],
    },
    OptionRow {
        name: "source",
        letter: "",
        kind: Kind::Flag,
        default: None,
        words: "the component may be a source",
        commands: &[
            "serial", "check", "certify", "witness", "conform", "replay", "shrink", "campaign",
            "spec", "refute",
        ],
    },
    OptionRow {
        name: "hints",
        letter: "",
        kind: Kind::Flag,
        default: None,
        words: "explain refusals and cut schedules on standard error",
        commands: &[
            "compile", "lint", "serial", "check", "certify", "witness", "conform", "explain",
            "draw", "trace", "replay", "shrink", "campaign", "spec", "refute", "commands",
        ],
    },
];

/// The commands, in the order in which they are printed.
pub fn commands() -> &'static [CommandRow]
    ensures { commands_said result.now ≡ spec.commands }
{
    &COMMANDS
}

/// The options, in the order of the help.
pub fn options() -> &'static [OptionRow]
    ensures { options_said result.now ≡ spec.options }
{
    &OPTIONS
}
