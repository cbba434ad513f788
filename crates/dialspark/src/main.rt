// Lists a captured line, or a log: a file that is named, or standard input, to its end, in pieces as they come. The listing goes to
// standard output; what went wrong is told on standard error.
#![tactic(auto)]

mod failure;
mod help;
mod lines;
mod logs;
mod reads;
mod words;

use command_line::{Asked, Source, Wanted};
use failure::Failure;
use logs::Rows;
use std::io;
use std::io::{Read, Write};
use std::rt::{Env, Files};
use trailer::Order;

fn list<S: Read, W: Write>(wanted: Wanted, source: &mut S, to: &mut W) -> Result<(), Failure> {
    match wanted {
        Wanted::Line => lines::list(Order::AsPrinted, source, to),
        Wanted::Exchanged => lines::list(Order::Exchanged, source, to),
        Wanted::Telegrams => logs::list(Rows::Telegrams, source, to),
        Wanted::Blocks => logs::list(Rows::Blocks, source, to),
    }
}

fn list_source<R: Env + Files + Input + Print>(
    rt: &R,
    wanted: Wanted,
    source: Source,
) -> Result<(), Failure> {
    let mut to = io::writer(rt);
    match source {
        Source::Input => list(wanted, &mut rt.reader(), &mut to),
        Source::File(place) => list(wanted, &mut words::open(rt, place)?, &mut to),
    }
}

fn run<R: Env + Files + Input + Print>(rt: &R) -> Result<(), Failure> {
    match words::read(rt)? {
        Asked::Listing(wanted, source) => list_source(rt, wanted, source),
        Asked::Help => help::help(&mut io::writer(rt)),
        Asked::Version => help::version(&mut io::writer(rt)),
    }
}

// A failure gives no status of its own. Where standard error takes nothing either, nobody is left to be told.
fn main(rt: HostRuntime) {
    if let Err(failure) = run(&rt) {
        let _ = failure.tell(&rt, &mut rt.stderr());
    }
}
