// The program on a bench: images scanned as a meter scans them, landmark lists, and their words found in images.
#![tactic(auto)]

mod cuts;
mod find;
mod input;
mod listing;
mod options;
mod scanning;
mod table;

use anyhow::bail;
use find::Method;
use listing::{Verdict, print_lines};
use std::env;
use std::process::ExitCode;

const SCAN: &str = "yivalondo scan [--blocks N,N,..|--seed N] [--entry K] LIST IMAGE";

const FIND: &str = "yivalondo find [--finder link|shift|both] LIST IMAGE";

const LISTS: &str = "yivalondo check|show|table|dot [LIST]";

// One line a command.
fn help(rt: &HostRuntime) -> anyhow::Result<()> {
    println!(rt; "{SCAN}")?;
    println!(rt; "{FIND}")?;
    println!(rt; "{LISTS}")?;
    Ok(())
}

// One line with the list's counts, or with its first fault.
fn check(rt: &HostRuntime, list: &[u8]) -> anyhow::Result<()> {
    let verdict = Verdict(landmark::read_list(list));
    println!(rt; "{verdict}")?;
    Ok(())
}

// One line an element up to the first fault, and then what `check` prints.
fn show(rt: &HostRuntime, list: &[u8]) -> anyhow::Result<()> {
    print_lines(rt, list)?;
    check(rt, list)
}

// Scans the image in blocks, and says where it is entered.
fn scan_files(rt: &HostRuntime, words: &[String]) -> anyhow::Result<()> {
    let [options @ .., list, image] = words else {
        bail!("usage: {SCAN}");
    };
    let options = options::read_options(options)?;
    let row = cuts::row(rt, options.blocks, options.seed)?;
    let list = input::read_file(rt, list.as_str())?;
    let image = input::read_file(rt, image.as_str())?;
    scanning::scan_image(
        rt,
        row.as_slice(),
        options.entry,
        list.as_slice(),
        image.as_slice(),
    )
}

// The places of the image at which words of the list end, by the finder that is asked for.
fn find_words(rt: &HostRuntime, words: &[String]) -> anyhow::Result<()> {
    let (method, files) = match words {
        [option, name, files @ ..] if option.as_str() == "--finder" => (name.parse(), files),
        _ => (Ok(Method::Link), words),
    };
    let (Ok(method), [list, image]) = (method, files) else {
        bail!("usage: {FIND}");
    };
    let list = input::read_file(rt, list.as_str())?;
    let image = input::read_file(rt, image.as_str())?;
    find::find(rt, method, list.as_slice(), image.as_slice())
}

// What a command does with one list, which is a file or standard input.
fn with_list<F: FnOnce(&HostRuntime, &[u8]) -> anyhow::Result<()>>(
    rt: &HostRuntime,
    words: &[String],
    command: F,
) -> anyhow::Result<()>
    requires { F.IsAlwaysCallable command }
{
    let list = match words {
        [] => input::read_input(rt)?,
        [list] => input::read_file(rt, list.as_str())?,
        _ => bail!("usage: {LISTS}"),
    };
    command(rt, list.as_slice())
}

fn run(rt: &HostRuntime) -> anyhow::Result<()> {
    let words: Vec<String> = env::args(rt)?.skip(1).collect(rt.alloc())?;
    let [command, rest @ ..] = words.as_slice() else {
        bail!("no command: `yivalondo help` lists them");
    };
    match command.as_str() {
        "scan" => scan_files(rt, rest),
        "find" => find_words(rt, rest),
        "check" => with_list(rt, rest, check),
        "show" => with_list(rt, rest, show),
        "table" => with_list(rt, rest, table::print_table),
        "dot" => with_list(rt, rest, table::print_drawing),
        "help" => help(rt),
        name => bail!("no command '{name}': `yivalondo help` lists them"),
    }
}

// Ends with status 1 where a command failed, and says why in one line.
fn main(rt: HostRuntime) -> ExitCode {
    match run(&rt) {
        Ok(()) => ExitCode::SUCCESS,
        Err(why) => {
            // where standard error cannot be written, the status alone tells
            let _ = eprintln!(rt; "yivalondo: {why}");
            ExitCode::FAILURE
        }
    }
}
