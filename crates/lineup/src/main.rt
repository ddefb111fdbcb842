//! The program `lineup`: its arguments, standard input and output, and the exit status. On a
//! terminal, or with `--progress`, it shows on standard error how far the command has come. With
//! `--hints` it says there what a refusal means, and how many schedules a check left out.
#![tactic(auto)]

ghost use Rattle.std.specs.Prelude.{◌<◌, ◌-◌, ◌^◌};

mod head;
mod memory;
mod mistake;
mod ticker;

use head::Head;
use lu_cli::{Counted, Display, Measure, Terminal, hint_on, run_with_progress};
use memory::with_memory;
use mistake::{mistake_in, parts_in};
use std::io::{IsTerminal, Read, Write};
use std::process::ExitCode;
use std::sync::Wait;
use std::thread::Threads;
use std::time::Clock;
use std::{io, thread};
use ticker::{Ticker, watch};

/// Prints a refusal, and returns its status, or 4 where it could not be printed.
fn refuse(rt: &impl Print, text: &str, status: u8) -> ExitCode {
    match rt.print(text) {
        Ok(()) => ExitCode::from(status),
        Err(_) => ExitCode::from(4),
    }
}

/// Whether one of the words is this option.
fn asks_for(words: &[String], option: &str) -> bool {
    words.iter().any(|word| word.as_str() == option)
}

/// Says on standard error what there is to add to the answer to these words, which begins with these
/// bytes. What can't be shown is left out.
fn show_hint(rt: &(impl AllocGlobal + Eprint), words: &[String], answer: &[u8]) {
    if answer == b"refused command line\n".as_slice() {
        if let Ok(mistake) = mistake_in(rt.alloc(), words) {
            drop(eprint!(rt; "lineup: error: {mistake}\n"));
        }
    } else if let Ok(Some(parts)) = parts_in(rt.alloc(), words, answer) {
        drop(eprint!(rt; "lineup: error: {parts}\n"));
    } else if let Ok(Some(hint)) = hint_on(rt.alloc(), answer) {
        drop(eprint!(rt; "{hint}"));
    }
}

/// Where it is shown how far the command of these words has come.
fn display_for(is_terminal: bool, words: &[String]) -> Display {
    if is_terminal {
        Display::OneLine
    } else if asks_for(words, "--progress") {
        Display::Lines
    } else {
        Display::Nothing
    }
}

/// By what it is shown how far the command of these words has come.
fn measure_for(words: &[String]) -> Measure {
    match words.first().map(|word| word.as_str()) {
        Some("campaign") => Measure::Matrices,
        Some("check") => Measure::Schedules,
        _ => Measure::States,
    }
}

/// Runs the program on these words, and shows meanwhile how far it has come.
fn run_shown<X: AllocGlobal + Threads + Wait + Clock + Eprint + Sync, I: Read, W: Write>(
    rt: &X,
    display: Display,
    words: &[String],
    input: &mut Counted<I>,
    output: &mut Counted<W>,
) -> u8
    requires reads { input.old.failures < 2 ^ 64 - 1 }
    requires writes { output.old.failures < 2 ^ 64 - 1 }
{
    let terminal = Terminal::new(rt, display, measure_for(words));
    if display == Display::Nothing {
        return run_with_progress(rt, &terminal, words, input, output);
    }
    let ticker = Ticker::new();
    let (watched, shown) = (&ticker, &terminal);
    thread::scope(
        thread::scope_env(),
        rt,
        |scope| -> u8
            requires reads { input.now.failures < 2 ^ 64 - 1 }
            requires writes { output.now.failures < 2 ^ 64 - 1 }
        {
            // Without a thread nothing is shown.
            drop(scope.spawn(move || watch(rt, watched, shown)));
            let status = run_with_progress(rt, shown, words, input, output);
            watched.end(rt);
            status
        },
    )
}

fn main(rt: HostRuntime) -> ExitCode {
    let arguments = match std::env::args(&rt) {
        Ok(arguments) => arguments,
        Err(error) if error.kind() == io::ErrorKind::OutOfMemory => {
            return refuse(&rt, "refused memory\n", 4);
        }
        Err(_) => return refuse(&rt, "refused command line\n", 2),
    };
    let words: Vec<String> = match arguments.skip(1).collect(rt.alloc()) {
        Ok(words) => words,
        Err(_) => return refuse(&rt, "refused memory\n", 4),
    };
    let Ok(asked) = with_memory(&rt, &words) else {
        return refuse(&rt, "refused memory\n", 4);
    };
    let display = display_for(rt.stderr().is_terminal(), &words);
    let mut input = Counted::new(rt.reader());
    let mut output = Counted::new(Head::new(io::writer(&rt)));
    let status = run_shown(&rt, display, &asked, &mut input, &mut output);
    if asks_for(&words, "--hints") {
        let head = output.into_inner();
        show_hint(&rt, &words, head.bytes());
    }
    ExitCode::from(status)
}
