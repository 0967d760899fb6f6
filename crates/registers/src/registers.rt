// The registers.
ghost use Rattle.std.specs.Prelude.{◌≡◌, ◌++◌, map, IsTrue, IfOk, IfSome, OnOk, OnErr, option_map, slice_get};
ghost use Rattle.ann_key.specs.Keys.{is_key};

use crate::line::RegLine;
use crate::links::Links;
use crate::logins::Logins;
use crate::table::Table;
use ann_key::NoMemory;
use std::alloc::Global;
use std::marker::Model;

/// The registers of a remote: config values by name, users and passwords by setting, the wanted
/// expression, states and URLs by key. Readers take no memory, and a setter that finds none has
/// changed nothing.
///
/// <https://git-annex.branchable.com/design/external_special_remote_protocol/> says what a remote
/// may set and ask for.
#[derive(Drop)]
pub struct Registers {
    alloc: Global,
    config: Table,
    creds: Logins,
    wanted: Vec<u8>,
    state: Table,
    urls: Links,
}

impl Model for Registers {
    ghost use Rattle.registers.specs.Registers.{RegisterFile, IsKept};

    ghost Value = { RegisterFile };

    ghost view = { λ r. record { config = r.config; creds = r.creds; wanted = r.wanted.items; state = r.state; urls = r.urls } };

    ghost invariant = { λ r. IsKept (record { config = r.config; creds = r.creds; wanted = r.wanted.items; state = r.state; urls = r.urls }) };
}

impl Registers {
    ghost use Rattle.registers.specs.Registers.{nothing_set, config_of, creds_of, state_of, urls_of, is_line, is_word, IsKept};
    ghost use Rattle.registers.specs.Registers.{with_config, with_creds, with_wanted, with_state, with_url, SetsConfig, SetsCreds, SetsWanted, SetsState, SetsUrl};
    ghost use Rattle.registers.specs.RegLines.{ConfigLine, StateLine, UrlLine, line_of, lines_of, wanted_lines, later_lines_of, keyed_lines_of};

    /// Nothing is set. It takes no memory.
    pub fn new(alloc: Global) -> Registers
        ensures { result ≡ nothing_set }
    {
        Registers {
            alloc,
            config: Table::new(alloc),
            creds: Logins::new(alloc),
            wanted: Vec::new(alloc),
            state: Table::new(alloc),
            urls: Links::new(alloc),
        }
    }

    /// Equal registers, creds included.
    pub fn copy(&self) -> Result<Registers, NoMemory>
        ensures { IfOk result (λ copy. copy ≡ self.now) }
    {
        Ok(Registers {
            alloc: self.alloc,
            config: self.config.copy()?,
            creds: self.creds.copy()?,
            wanted: Vec::from_slice(self.alloc, self.wanted.as_slice())?,
            state: self.state.copy()?,
            urls: self.urls.copy()?,
        })
    }

    /// The config value of the name, empty where it is unset.
    pub fn config(&self, name: &[u8]) -> &[u8]
        ensures value { result.now ≡ config_of self.now name.now }
        ensures kept { IsKept self.now }
    {
        self.config.get(name)
    }

    /// Sets the config value of the name.
    pub fn set_config(&mut self, name: &[u8], value: &[u8]) -> Result<(), NoMemory>
        requires name { IsTrue (is_word name.now) }
        requires value { IsTrue (is_line value.now) }
        ensures ok { OnOk result (self.new ≡ with_config self.old name.now value.now) }
        ensures err { OnErr result (self.new ≡ self.old) }
        ensures alone { OnOk result (SetsConfig self.old self.new name.now value.now) }
    {
        self.config.put(self.alloc, name, value)
    }

    /// The user and the password of the setting, two empty ones where they are unset.
    pub fn creds(&self, setting: &[u8]) -> (&[u8], &[u8])
        ensures value { (result.0.now, result.1.now) ≡ creds_of self.now setting.now }
        ensures kept { IsKept self.now }
    {
        self.creds.get(setting)
    }

    /// Sets the user and the password of the setting.
    pub fn set_creds(
        &mut self,
        setting: &[u8],
        user: &[u8],
        password: &[u8],
    ) -> Result<(), NoMemory>
        requires setting { IsTrue (is_word setting.now) }
        requires user { IsTrue (is_word user.now) }
        requires password { IsTrue (is_line password.now) }
        ensures ok { OnOk result (self.new ≡ with_creds self.old setting.now user.now password.now) }
        ensures err { OnErr result (self.new ≡ self.old) }
        ensures alone { OnOk result (SetsCreds self.old self.new setting.now user.now password.now) }
    {
        self.creds.put(self.alloc, setting, user, password)
    }

    /// The wanted expression, empty where it is unset.
    pub fn wanted(&self) -> &[u8]
        ensures value { result.now ≡ self.now.wanted }
        ensures kept { IsKept self.now }
    {
        self.wanted.as_slice()
    }

    /// Sets the wanted expression; an empty one is none.
    pub fn set_wanted(&mut self, expression: &[u8]) -> Result<(), NoMemory>
        requires { IsTrue (is_line expression.now) }
        ensures ok { OnOk result (self.new ≡ with_wanted self.old expression.now) }
        ensures err { OnErr result (self.new ≡ self.old) }
        ensures alone { OnOk result (SetsWanted self.old self.new expression.now) }
    {
        self.wanted = Vec::from_slice(self.alloc, expression)?;
        Ok(())
    }

    /// The state of the key, empty where it is unset.
    pub fn state(&self, key: &[u8]) -> &[u8]
        ensures value { result.now ≡ state_of self.now key.now }
        ensures kept { IsKept self.now }
    {
        self.state.get(key)
    }

    /// Sets the state of the key; an empty one is none.
    pub fn set_state(&mut self, key: &[u8], value: &[u8]) -> Result<(), NoMemory>
        requires key { IsTrue (is_key key.now) }
        requires word { IsTrue (is_word key.now) }
        requires value { IsTrue (is_line value.now) }
        ensures ok { OnOk result (self.new ≡ with_state self.old key.now value.now) }
        ensures err { OnErr result (self.new ≡ self.old) }
        ensures alone { OnOk result (SetsState self.old self.new key.now value.now) }
    {
        if value.is_empty() {
            self.state.remove(key);
            return Ok(());
        }
        self.state.put(self.alloc, key, value)
    }

    /// The nth URL of the key that begins with the prefix, in rising byte order.
    pub fn url(&self, key: &[u8], prefix: &[u8], n: usize) -> Option<&[u8]>
        ensures value { option_map (λ url. url.now) result ≡ slice_get (urls_of self.now key.now prefix.now) n }
        ensures kept { IsKept self.now }
    {
        self.urls.url(key, prefix, n)
    }

    /// The URLs of the key that begin with the prefix, in the order of `url`, in one pass. The list takes memory; the texts in it are lent.
    pub fn urls<'a>(&'a self, key: &[u8], prefix: &[u8]) -> Result<Vec<&'a [u8]>, NoMemory>
        ensures value { IfOk result (λ urls. map (λ url. url.now) urls.items ≡ urls_of self.now key.now prefix.now) }
        ensures kept { IsKept self.now }
    {
        self.urls.urls(self.alloc, key, prefix)
    }

    /// Gives the key the URL, or takes it away.
    pub fn set_url(&mut self, key: &[u8], url: &[u8], present: bool) -> Result<(), NoMemory>
        requires key { IsTrue (is_key key.now) }
        requires word { IsTrue (is_word key.now) }
        requires url { IsTrue (is_line url.now) }
        ensures ok { OnOk result (self.new ≡ with_url self.old key.now url.now present) }
        ensures err { OnErr result (self.new ≡ self.old) }
        ensures alone { OnOk result (SetsUrl self.old self.new key.now url.now present) }
    {
        if present {
            return self.urls.add(self.alloc, key, url);
        }
        self.urls.remove(self.alloc, key, url)
    }

    /// The nth set register in the order of a kept file: config by name, the wanted expression,
    /// states by key, URLs by key and URL.
    pub fn line(&self, n: usize) -> Option<RegLine<'_>>
        ensures value { option_map line_of result ≡ slice_get (lines_of self.now) n }
        ensures kept { IsKept self.now }
    {
        let configs = self.config.len();
        if n < configs {
            return self.config_line(n);
        }
        self.later_line(n - configs)
    }

    /// All lines in the order of `line`, in one pass. The list takes memory; the texts in it are lent.
    pub fn lines(&self) -> Result<Vec<RegLine<'_>>, NoMemory>
        ensures value { IfOk result (λ lines. map line_of lines.items ≡ lines_of self.now) }
        ensures kept { IsKept self.now }
    {
        let mut lines = Vec::new(self.alloc);
        self.push_config(&mut lines)?;
        self.push_wanted(&mut lines)?;
        self.push_states(&mut lines)?;
        self.push_urls(&mut lines)?;
        Ok(lines)
    }

    fn push_config<'a>(&'a self, lines: &mut Vec<RegLine<'a>>) -> Result<(), NoMemory>
        ensures { OnOk result (map line_of lines.new.items ≡ map line_of lines.old.items ++ map (λ e. ConfigLine e.0 e.1) self.now.config) }
    {
        for (name, value) in self.config.all(self.alloc)? {
            lines.push(RegLine::Config { name, value })?;
        }
        Ok(())
    }

    fn push_wanted<'a>(&'a self, lines: &mut Vec<RegLine<'a>>) -> Result<(), NoMemory>
        ensures { OnOk result (map line_of lines.new.items ≡ map line_of lines.old.items ++ wanted_lines self.now.wanted) }
    {
        if !self.wanted.is_empty() {
            let value = self.wanted.as_slice();
            lines.push(RegLine::Wanted { value })?;
        }
        Ok(())
    }

    fn push_states<'a>(&'a self, lines: &mut Vec<RegLine<'a>>) -> Result<(), NoMemory>
        ensures { OnOk result (map line_of lines.new.items ≡ map line_of lines.old.items ++ map (λ e. StateLine e.0 e.1) self.now.state) }
    {
        for (key, value) in self.state.all(self.alloc)? {
            lines.push(RegLine::State { key, value })?;
        }
        Ok(())
    }

    fn push_urls<'a>(&'a self, lines: &mut Vec<RegLine<'a>>) -> Result<(), NoMemory>
        ensures { OnOk result (map line_of lines.new.items ≡ map line_of lines.old.items ++ map (λ e. UrlLine e.0 e.1) self.now.urls) }
    {
        for (key, url) in self.urls.all(self.alloc)? {
            lines.push(RegLine::Url { key, url })?;
        }
        Ok(())
    }

    fn config_line(&self, n: usize) -> Option<RegLine<'_>>
        ensures { option_map line_of result ≡ slice_get (map (λ e. ConfigLine e.0 e.1) self.now.config) n }
    {
        let (name, value) = self.config.entry(n)?;
        Some(RegLine::Config { name, value })
    }

    fn later_line(&self, n: usize) -> Option<RegLine<'_>>
        ensures { option_map line_of result ≡ slice_get (later_lines_of self.now) n }
    {
        if self.wanted.is_empty() {
            return self.keyed_line(n);
        }
        if n == 0 {
            return Some(RegLine::Wanted {
                value: self.wanted.as_slice(),
            });
        }
        self.keyed_line(n - 1)
    }

    fn keyed_line(&self, n: usize) -> Option<RegLine<'_>>
        ensures { option_map line_of result ≡ slice_get (keyed_lines_of self.now) n }
    {
        let states = self.state.len();
        if n < states {
            return self.state_line(n);
        }
        self.url_line(n - states)
    }

    fn state_line(&self, n: usize) -> Option<RegLine<'_>>
        ensures { option_map line_of result ≡ slice_get (map (λ e. StateLine e.0 e.1) self.now.state) n }
    {
        let (key, value) = self.state.entry(n)?;
        Some(RegLine::State { key, value })
    }

    fn url_line(&self, n: usize) -> Option<RegLine<'_>>
        ensures { option_map line_of result ≡ slice_get (map (λ e. UrlLine e.0 e.1) self.now.urls) n }
    {
        let (key, url) = self.urls.entry(n)?;
        Some(RegLine::Url { key, url })
    }
}
