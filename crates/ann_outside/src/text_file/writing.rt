ghost use Rattle.std.specs.Prelude.{◌≡◌, None, Err, IfOk};
ghost use Rattle.ann_outside.specs.DeskCauses.{HasCauses};
ghost use Rattle.ann_outside.specs.Files.{WhereTold};
ghost use Rattle.ann_outside.specs.TextFile.Writes.{AppendsAll, GrowsBy, Replaces, IsReplacedBy, new_name};

use crate::{Desk, DeskError};
use ann_key::{NoMemory, Text};
use std::alloc::Global;

const STEP: usize = 65536;

// The name that a text has while it is written.
fn new_name(alloc: Global, name: &str) -> Result<Text, NoMemory>
    ensures { IfOk result (λ text. text ≡ new_name name.now) }
{
    let mut text = String::from_str(alloc, name)?;
    text.push_str(".new")?;
    Ok(Text::from_string(text))
}

// Adds the text at the end of the file.
fn append_all<D: Desk>(desk: &mut D, name: &str, text: &[u8]) -> Result<(), DeskError>
    ensures calls { AppendsAll (D.told desk.old).log (D.told desk.new).log name.now text.now result }
    ensures files { WhereTold (D.told desk.old).files (D.told desk.new).files (GrowsBy name.now text.now result) }
    ensures causes { HasCauses (D.told desk.old).counts (D.told desk.new).counts result }
{
    let mut at = 0;
    while at < text.len() {
        let end = at + (text.len() - at).min(STEP);
        desk.append(name, &text[at..end])?;
        at = end;
    }
    Ok(())
}

// Puts the text in the place of the file, by way of a file of that other name.
fn replace_by<D: Desk>(desk: &mut D, name: &str, fresh: &str, text: &[u8]) -> Result<(), DeskError>
    requires { fresh.now ≡ new_name name.now }
    ensures calls { Replaces (D.told desk.old).log (D.told desk.new).log name.now text.now result }
    ensures files { WhereTold (D.told desk.old).files (D.told desk.new).files (IsReplacedBy name.now text.now result) }
    ensures causes { HasCauses (D.told desk.old).counts (D.told desk.new).counts result }
    ensures found { result ≡ Err DeskError.Missing → (D.told desk.old).files ≡ None }
{
    desk.create(fresh)?;
    append_all(desk, fresh, text)?;
    desk.rename(fresh, name)
}

/// Puts the text in the place of the file: it is written as a file with `.new` after the name, which then gets the name. After a
/// refusal the file is as before, and what was written may lie there under the other name.
pub fn replace_file<D: Desk>(
    alloc: Global,
    desk: &mut D,
    name: &str,
    text: &[u8],
) -> Result<(), DeskError>
    ensures calls { Replaces (D.told desk.old).log (D.told desk.new).log name.now text.now result }
    ensures files { WhereTold (D.told desk.old).files (D.told desk.new).files (IsReplacedBy name.now text.now result) }
    ensures causes { HasCauses (D.told desk.old).counts (D.told desk.new).counts result }
    ensures found { result ≡ Err DeskError.Missing → (D.told desk.old).files ≡ None }
{
    match new_name(alloc, name) {
        Ok(fresh) => replace_by(desk, name, fresh.view(), text),
        Err(NoMemory) => Err(DeskError::NoMemory),
    }
}
