//! Plays scripts: events of a core, and talks. Each row of input is printed with what came of it.
#![tactic(auto)]

mod cores;
mod ends;
mod entry_text;
mod openings;
mod requests;
mod talks;
mod words;

use ann_key::NoMemory;
use cores::Stage;
use std::alloc::Global;
use std::io;
use talks::Talking;

// What the rows so far have made.
#[derive(Drop)]
struct Scene {
    stage: Stage,
    talking: Talking,
}

// Adds what comes of a row; nothing of one that is no script's.
fn play(
    alloc: Global,
    out: &mut String,
    scene: &mut Scene,
    word: &str,
    rest: &str,
) -> Result<(), NoMemory> {
    match word {
        "core" => scene.stage.play(alloc, out, rest),
        "talk" => scene.talking.begin(alloc, out, rest),
        "hear" => scene.talking.hear(out, rest),
        "heard" => talks::heard(alloc, out, rest),
        _ => Ok(()),
    }
}

fn print_row(rt: &(impl Print + AllocGlobal), scene: &mut Scene, row: &str) -> io::Result<()> {
    let (word, rest) = words::cut(row);
    let mut out = String::new(rt.alloc());
    match play(rt.alloc(), &mut out, scene, word, rest) {
        Ok(()) => println!(rt; "{row}{out}"),
        Err(_) => println!(rt; "{row} takes memory that is not there"),
    }
}

fn print_rows(rt: &(impl Input + Print + AllocGlobal), scene: &mut Scene) -> io::Result<()> {
    for row in rt.lines(rt.alloc()) {
        print_row(rt, scene, row?.as_str())?;
    }
    Ok(())
}

fn main(rt: HostRuntime) -> io::Result<()> {
    let mut scene = Scene {
        stage: Stage::new(rt.alloc()),
        talking: Talking::new(),
    };
    let printed = print_rows(&rt, &mut scene);
    // (a call is proved once, and a drop in place at each way out)
    drop(scene);
    printed
}
