// The settings of `init`.
ghost use Rattle.std.specs.Prelude.{◌≡◌, IfOk, IsTrue};
ghost use Rattle.std.specs.List.{list_all};
ghost use Rattle.registers.specs.Registers.{is_line, is_word};
ghost use Rattle.cli_words.specs.Values.{texts_of};
ghost use Rattle.cli_words.specs.Settings.{is_setting, setting_in, settings_in, set_all};

use ann_key::{NoMemory, Text};
use registers::Registers;
use std::alloc::Global;
use std::marker::Model;

/// A config value and its name.
#[derive(Drop)]
pub struct Setting {
    pub name: Text,
    pub value: Text,
}

/// Config values in the order in which they are set.
#[derive(Drop)]
pub struct Settings {
    list: Vec<Setting>,
}

impl Model for Settings {
    ghost use Rattle.std.specs.Prelude.{List};
    ghost use Rattle.cli_words.specs.declared.settings.Setting.{Setting};

    ghost Value = { List Setting };

    ghost view = { λ s. s.list.items };
}

impl Settings {
    /// These settings. It takes no memory.
    pub fn new(list: Vec<Setting>) -> Settings
        ensures { result ≡ list.items }
    {
        Settings { list }
    }

    /// The settings, lent.
    pub fn view(&self) -> &[Setting]
        ensures { result.now ≡ self.now }
    {
        self.list.as_slice()
    }

    /// The registers with these config values, of which a later one of the same name counts.
    pub fn set_in(&self, registers: Registers) -> Result<Registers, NoMemory>
        requires { IsTrue (list_all is_setting self.now) }
        ensures { IfOk result (λ r. r ≡ set_all registers self.now) }
    {
        let mut registers = registers;
        for setting in self.list.as_slice() {
            let name = setting.name.view().as_bytes();
            registers.set_config(name, setting.value.view().as_bytes())?;
        }
        Ok(registers)
    }
}

fn is_setting(name: &str, value: &str) -> bool
    ensures { result ≡ is_setting (record { name = name.now; value = value.now }) }
{
    !name.is_empty() && is_word(name.as_bytes()) && is_line(value.as_bytes())
}

fn is_word(bytes: &[u8]) -> bool
    ensures { result ≡ is_word bytes.now }
{
    bytes.iter().all(|b| !(*b == b'\n' || *b == b' '))
}

fn is_line(bytes: &[u8]) -> bool
    ensures { result ≡ is_line bytes.now }
{
    bytes.iter().all(|b| *b != b'\n')
}

// The setting that the word spells, if it spells one.
fn setting_in(alloc: Global, word: &str) -> Result<Option<Setting>, NoMemory>
    ensures { IfOk result (λ s. s ≡ setting_in word.now) }
{
    let Some((name, value)) = word.split_once('=') else {
        return Ok(None);
    };
    if !is_setting(name, value) {
        return Ok(None);
    }
    Ok(Some(Setting {
        name: Text::copy(alloc, name)?,
        value: Text::copy(alloc, value)?,
    }))
}

/// The settings that the words spell, if each of them spells one.
pub(super) fn settings_in(alloc: Global, words: &[String]) -> Result<Option<Settings>, NoMemory>
    ensures { IfOk result (λ s. s ≡ settings_in (texts_of words.now)) }
{
    let mut list = Vec::new(alloc);
    for word in words {
        let Some(setting) = setting_in(alloc, word.as_str())? else {
            return Ok(None);
        };
        list.push(setting)?;
    }
    Ok(Some(Settings { list }))
}
