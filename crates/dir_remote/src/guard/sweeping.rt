// Clears the folder of temporary files of what stores of ended processes left behind.
ghost use Rattle.std.specs.Prelude.{◌≡◌};
ghost use Rattle.dir_remote.specs.Guard.Gates.{under};
ghost use Rattle.dir_remote.specs.Guard.LeftFiles.{is_left};
ghost use Rattle.dir_remote.specs.Guard.Sweeps.{ClearsRest, ClearsStep, Lists, SweepsBy};
ghost use Rattle.dir_remote.specs.Guard.Steps.{AddsSome};

use crate::guard::gates::below;
use crate::guard::left::is_left;
use crate::guard::place::{Place, Seen, Want, What};
use ann_key::{NoMemory, Text};
use std::alloc::Global;

// Looks at one file, and removes it where it is old.
fn clear<P: Place>(alloc: Global, place: &mut P, folder: &str, name: &str) -> Result<(), NoMemory>
    ensures { AddsSome (P.steps place.old) (P.steps place.new) (ClearsStep folder.now name.now result) }
{
    let left = is_left(alloc, name.as_bytes())?;
    if !left {
        return Ok(());
    }
    let file = below(alloc, folder, name)?;
    let path = file.view();
    match place.meet(path)? {
        What::OldFile => {
            let _ = place.remove(path)?;
            Ok(())
        }
        What::Else => Ok(()),
    }
}

fn clear_all<P: Place>(
    alloc: Global,
    place: &mut P,
    folder: &str,
    names: &[Text],
) -> Result<(), NoMemory>
    ensures { AddsSome (P.steps place.old) (P.steps place.new) (ClearsRest folder.now names.now result) }
{
    for name in names {
        clear(alloc, place, folder, name.view())?;
    }
    Ok(())
}

// Goes through the names of the folder.
fn clear_listed<P: Place>(alloc: Global, place: &mut P, folder: &str) -> Result<(), NoMemory>
    ensures { AddsSome (P.steps place.old) (P.steps place.new) (Lists folder.now result) }
{
    let names = place.list(folder)?;
    clear_all(alloc, place, folder, names.view())
}

/// Removes the files of DIRECTORY/tmp that a store left behind, and that nobody has written to for a day.
pub fn sweep<P: Place>(alloc: Global, place: &mut P, directory: &str) -> Result<(), NoMemory>
    ensures { AddsSome (P.steps place.old) (P.steps place.new) (λ steps. SweepsBy directory.now steps result) }
{
    let folder = below(alloc, directory, "tmp")?;
    let path = folder.view();
    match place.stand(Want::Way, path)? {
        Seen::Fits => clear_listed(alloc, place, path),
        _ => Ok(()),
    }
}
