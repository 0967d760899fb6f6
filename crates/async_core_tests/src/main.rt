//! Plays scripts: events of the core of a kit that serves several jobs at once. Each row of input is printed with what came of it.
#![tactic(auto)]

mod beginnings;
mod events;
mod replies;

use ann_key::NoMemory;
use kit_async_core::KitCore;
use std::alloc::Global;
use std::io;

// The first word, and what stands after its blank.
fn cut(text: &str) -> (&str, &str) {
    match text.split_once(' ') {
        Some(parts) => parts,
        None => (text, ""),
    }
}

// Adds the reply to the event of a row that begins with who tells it. Other rows are headings.
fn tell(alloc: Global, out: &mut String, core: &mut KitCore, row: &str) -> Result<(), NoMemory> {
    let (by, rest) = cut(row);
    let Ok(by) = by.parse::<u32>() else {
        return Ok(());
    };
    match events::event(alloc, rest)? {
        Some(event) => {
            let reply = core.step(by, event)?;
            let told = replies::tell(out, &reply);
            drop(reply);
            Ok(told?)
        }
        None => Ok(write!(out, " => no event")?),
    }
}

// Begins a core, or adds what comes of a row.
fn play(
    alloc: Global,
    out: &mut String,
    stage: &mut Option<KitCore>,
    row: &str,
) -> Result<(), NoMemory> {
    match row {
        "new" => drop(stage.replace(beginnings::silent(alloc)?)),
        "new told" => drop(stage.replace(beginnings::told(alloc)?)),
        _ => {
            if let Some(core) = stage {
                tell(alloc, out, core, row)?;
            }
        }
    }
    Ok(())
}

fn print_row(
    rt: &(impl Print + AllocGlobal),
    stage: &mut Option<KitCore>,
    row: &str,
) -> io::Result<()> {
    let mut out = String::new(rt.alloc());
    match play(rt.alloc(), &mut out, stage, row) {
        Ok(()) => println!(rt; "{row}{out}"),
        Err(_) => println!(rt; "{row} takes memory that is not there"),
    }
}

fn print_rows(
    rt: &(impl Input + Print + AllocGlobal),
    stage: &mut Option<KitCore>,
) -> io::Result<()> {
    for row in rt.lines(rt.alloc()) {
        print_row(rt, stage, row?.as_str())?;
    }
    Ok(())
}

fn main(rt: HostRuntime) -> io::Result<()> {
    let mut stage = None;
    let printed = print_rows(&rt, &mut stage);
    // (a call is proved once, and a drop in place at each way out)
    drop(stage);
    printed
}
