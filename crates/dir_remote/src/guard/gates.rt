// The folders that have to stand before a call goes on.
ghost use Rattle.std.specs.Prelude.{◌≡◌, ◌∷◌, [], IfOk, IfSome, IfErr, IsTrue, OnErr, codes, take, None, Some, ⊤};
ghost use Rattle.std.specs.Option.{option_copied};
ghost use Rattle.ann_key.specs.KeyRefs.{text_of};
ghost use Rattle.kit_serve.specs.Kit.Calls.{is_line_said};
ghost use Rattle.dir_remote.specs.Guard.Gates.{Admits, AreGates, IsFolder, StopsBy, looks, removal_gates, store_gates, is_whole, under};
ghost use Rattle.dir_remote.specs.Guard.Guards.{IsLook};
ghost use Rattle.dir_remote.specs.Guard.Sentences.{sentence_of};
ghost use Rattle.dir_remote.specs.declared.guard.place.Want.TheVariants.{Founded};

use crate::guard::place::{Place, Seen, Want};
use crate::guard::sentences::sentence;
use ann_digest::lower;
use ann_key::{KeyRef, NoMemory, Text};
use kit_serve::kit::Said;
use std::alloc::Global;
use std::str;

/// A folder, and what is wanted of it.
#[derive(Drop)]
pub struct Gate {
    pub want: Want,
    pub path: Text,
}

/// Whether the path goes from the root.
pub fn is_whole(path: &[u8]) -> bool
    ensures { result ≡ is_whole path.now }
{
    match path {
        [] => false,
        [first, ..] => *first == b'/',
    }
}

// The folder of that path.
fn make_gate(alloc: Global, want: Want, path: &str) -> Result<Gate, NoMemory>
    ensures { IfOk result (λ gate. gate ≡ record { want = want; path = path.now }) }
{
    let path = Text::copy(alloc, path)?;
    Ok(Gate { want, path })
}

// The folder of that name below another.
fn make_gate_below(alloc: Global, want: Want, directory: &str, name: &str) -> Result<Gate, NoMemory>
    ensures { IfOk result (λ gate. gate ≡ record { want = want; path = under directory.now name.now }) }
{
    let path = below(alloc, directory, name)?;
    Ok(Gate { want, path })
}

/// The path of a name in a folder.
pub fn below(alloc: Global, directory: &str, name: &str) -> Result<Text, NoMemory>
    ensures { IfOk result (λ path. path ≡ under directory.now name.now) }
{
    let mut path = String::from_str(alloc, directory)?;
    path.push_str("/")?;
    path.push_str(name)?;
    Ok(Text::from_string(path))
}

// A whole DIRECTORY has to be there.
fn looks(alloc: Global, directory: &str) -> Result<Vec<Gate>, NoMemory>
    ensures looks { IfOk result (λ gates. gates.items ≡ looks directory.now) }
    ensures whole { OnErr result (IsTrue (is_whole directory.now)) }
{
    let mut gates = Vec::new(alloc);
    if is_whole(directory.as_bytes()) {
        gates.push(make_gate(alloc, Want::Full, directory)?)?;
    }
    Ok(gates)
}

// What a store wants: DIRECTORY, where contents are put together, and the two folders of the key's content.
fn for_store(
    alloc: Global,
    directory: &str,
    outer: &str,
    inner: &str,
) -> Result<Vec<Gate>, NoMemory>
    requires { outer.now ≡ take 3 inner.now }
    ensures { IfOk result (λ gates. gates.items ≡ store_gates directory.now inner.now) }
{
    let want = if is_whole(directory.as_bytes()) {
        Want::Full
    } else {
        Want::Whole
    };
    let mut gates = Vec::new(alloc);
    gates.push(make_gate(alloc, want, directory)?)?;
    gates.push(make_gate_below(alloc, Want::Made, directory, "tmp")?)?;
    gates.push(make_gate_below(alloc, Want::Made, directory, outer)?)?;
    gates.push(make_gate_below(alloc, Want::Made, directory, inner)?)?;
    Ok(gates)
}

// What a removal wants: DIRECTORY, and no link in the place of the two folders.
fn for_removal(
    alloc: Global,
    directory: &str,
    outer: &str,
    inner: &str,
) -> Result<Vec<Gate>, NoMemory>
    requires { outer.now ≡ take 3 inner.now }
    ensures { IfOk result (λ gates. gates.items ≡ removal_gates directory.now inner.now) }
{
    let mut gates = looks(alloc, directory)?;
    gates.push(make_gate_below(alloc, Want::Way, directory, outer)?)?;
    gates.push(make_gate_below(alloc, Want::Way, directory, inner)?)?;
    Ok(gates)
}

// The folders of the key, as text.
fn inner_of<'a>(key: KeyRef<'_>, folder: &'a [u8; 7]) -> &'a str
    requires { IsFolder (text_of key) folder.now }
    ensures { result.now ≡ folder.now }
{
    let _ = key;
    match str::from_utf8(folder) {
        Ok(inner) => inner,
        Err(_) => unreachable!(),
    }
}

fn outer_of<'a>(key: KeyRef<'_>, folder: &'a [u8; 7]) -> &'a str
    requires { IsFolder (text_of key) folder.now }
    ensures { result.now ≡ take 3 folder.now }
{
    let _ = key;
    match str::from_utf8(&folder[..3]) {
        Ok(outer) => outer,
        Err(_) => unreachable!(),
    }
}

// What is said at one of them, if it stops the call.
fn stop(alloc: Global, gate: &Gate, seen: Seen) -> Result<Option<Said>, NoMemory>
    ensures stops { StopsBy (sentence_of gate.now.want gate.now.path seen) result }
    ensures line { IfOk result (λ said. IfSome said (λ s. IsTrue (is_line_said s))) }
{
    match sentence(alloc, gate.want, gate.path.view(), seen)? {
        Some(text) => {
            let said = Said::failure(alloc, text.view().as_bytes())?;
            Ok(Some(said))
        }
        None => Ok(None),
    }
}

// Asks for each of them, in order, until one stops the call.
fn pass<P: Place>(alloc: Global, place: &mut P, gates: &[Gate]) -> Result<Option<Said>, NoMemory>
    ensures passed { Admits (λ asked. asked ≡ gates.now) (P.steps place.old) (P.steps place.new) result }
    ensures line { IfOk result (λ said. IfSome said (λ s. IsTrue (is_line_said s))) }
{
    for gate in gates {
        let seen = place.stand(gate.want, gate.path.view())?;
        if let Some(said) = stop(alloc, gate, seen)? {
            return Ok(Some(said));
        }
    }
    Ok(None)
}

/// Looks whether DIRECTORY is there, where one was given that is whole.
pub fn enter<P: Place>(
    alloc: Global,
    place: &mut P,
    directory: Option<&str>,
) -> Result<Option<Said>, NoMemory>
    ensures passed { Admits (IsLook (option_copied directory.entry)) (P.steps place.old) (P.steps place.new) result }
    ensures line { IfOk result (λ said. IfSome said (λ s. IsTrue (is_line_said s))) }
{
    let Some(directory) = directory else {
        return Ok(None);
    };
    let gates = looks(alloc, directory)?;
    pass(alloc, place, &gates)
}

/// Makes DIRECTORY, where its parent stands, and leaves its sign in it.
pub fn found<P: Place>(
    alloc: Global,
    place: &mut P,
    directory: &str,
) -> Result<Option<Said>, NoMemory>
    ensures passed { Admits (λ gates. gates ≡ record { want = Founded; path = directory.now } ∷ []) (P.steps place.old) (P.steps place.new) result }
    ensures line { IfOk result (λ said. IfSome said (λ s. IsTrue (is_line_said s))) }
{
    let mut gates = Vec::new(alloc);
    gates.push(make_gate(alloc, Want::Founded, directory)?)?;
    pass(alloc, place, &gates)
}

/// Asks for what a store wants.
pub fn enter_to_store<P: Place>(
    alloc: Global,
    place: &mut P,
    directory: Option<&str>,
    key: KeyRef<'_>,
) -> Result<Option<Said>, NoMemory>
    ensures passed { Admits (AreGates store_gates (option_copied directory.entry) (text_of key.entry)) (P.steps place.old) (P.steps place.new) result }
    ensures line { IfOk result (λ said. IfSome said (λ s. IsTrue (is_line_said s))) }
{
    let Some(directory) = directory else {
        return Ok(None);
    };
    let folder = lower(key);
    let gates = for_store(
        alloc,
        directory,
        outer_of(key, &folder),
        inner_of(key, &folder),
    )?;
    pass(alloc, place, &gates)
}

/// Asks for what a removal wants.
pub fn enter_to_remove<P: Place>(
    alloc: Global,
    place: &mut P,
    directory: Option<&str>,
    key: KeyRef<'_>,
) -> Result<Option<Said>, NoMemory>
    ensures passed { Admits (AreGates removal_gates (option_copied directory.entry) (text_of key.entry)) (P.steps place.old) (P.steps place.new) result }
    ensures line { IfOk result (λ said. IfSome said (λ s. IsTrue (is_line_said s))) }
{
    let Some(directory) = directory else {
        return Ok(None);
    };
    let folder = lower(key);
    let gates = for_removal(
        alloc,
        directory,
        outer_of(key, &folder),
        inner_of(key, &folder),
    )?;
    pass(alloc, place, &gates)
}
