// Runs a script of commands on a map's labels, one command to a line: `labelplan [FILE]`.
#![tactic(auto)]

use pile::{Editable, Pile};
use session::Session;
use std::env;
use std::fs::File;
use std::io::{BufRead, BufReader};
use std::str::from_utf8;

mod forwarding;
mod pile;
mod plan;
mod query;
mod session;

// What a line says: the text before its comment, without the blanks around it.
fn said(line: &str) -> &str {
    match line.split_once('#') {
        Some((before, _)) => before.trim(),
        None => line.trim(),
    }
}

// Echoes each line of the script that says something, and prints what comes of it. The plans at hand are of the type `P`.
fn follow<P: Editable, R: BufRead + Drop>(rt: &HostRuntime, script: R) -> anyhow::Result<()> {
    let mut session: Session<P> = Session::new(rt);
    for (number, line) in (1..u64::MAX).zip(script.split(rt.alloc(), b'\n')) {
        let line = line?;
        let Ok(text) = from_utf8(line.as_slice()) else {
            println!(rt; "line {number}: expected text in UTF-8")?;
            continue;
        };
        let text = said(text);
        if !text.is_empty() {
            println!(rt; "> {text}")?;
            rt.println(session.answer(number, text)?)?;
        }
    }
    Ok(())
}

// Follows the script in the file that the first argument names, or else on standard input, with plans at hand of the type
// `P`.
fn run<P: Editable>(rt: &HostRuntime) -> anyhow::Result<()> {
    match env::args(rt)?.nth(1) {
        Some(path) => follow::<P, _>(rt, BufReader::new(rt.alloc(), File::open(rt, path)?)?),
        None => follow::<P, _>(rt, BufReader::new(rt.alloc(), rt.stdin())?),
    }
}

fn main(rt: HostRuntime) -> anyhow::Result<()> {
    run::<Pile>(&rt)
}
