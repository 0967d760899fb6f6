// Users and their passwords.
ghost use Rattle.std.specs.Prelude.{◌≡◌, [], IfOk, OnOk, OnErr};
ghost use Rattle.registers.specs.Tables.{put};

use ann_key::NoMemory;
use std::alloc::Global;
use std::collections::BTreeMap;
use std::marker::Model;

#[derive(Clone, Drop)]
struct Login {
    user: Vec<u8>,
    password: Vec<u8>,
}

/// A user and a password under each name, in the rising byte order of the names.
#[derive(Drop)]
pub(crate) struct Logins {
    entries: BTreeMap<Vec<u8>, Login>,
}

impl Model for Logins {
    ghost use Rattle.registers.specs.Tables.{Rises};
    ghost use Rattle.registers.specs.Logins.{Pairs, pairs_of};

    ghost Value = { Pairs };

    ghost view = { λ l. pairs_of l.entries.entries };

    ghost invariant = { λ l. Rises (pairs_of l.entries.entries) };
}

impl Logins {
    ghost use Rattle.registers.specs.Logins.{pair_at};

    pub(crate) fn new(alloc: Global) -> Logins
        ensures { result ≡ [] }
    {
        Logins {
            entries: BTreeMap::new(alloc),
        }
    }

    pub(crate) fn get(&self, name: &[u8]) -> (&[u8], &[u8])
        ensures { (result.0.now, result.1.now) ≡ pair_at self.now name.now }
    {
        match self.entries.get(name) {
            Some(login) => (login.user.as_slice(), login.password.as_slice()),
            None => (&[], &[]),
        }
    }

    pub(crate) fn put(
        &mut self,
        alloc: Global,
        name: &[u8],
        user: &[u8],
        password: &[u8],
    ) -> Result<(), NoMemory>
        ensures ok { OnOk result (self.new ≡ put self.old name.now (user.now, password.now)) }
        ensures err { OnErr result (self.new ≡ self.old) }
    {
        let name = Vec::from_slice(alloc, name)?;
        let user = Vec::from_slice(alloc, user)?;
        let password = Vec::from_slice(alloc, password)?;
        self.entries.insert(name, Login { user, password })?;
        Ok(())
    }

    pub(crate) fn copy(&self) -> Result<Logins, NoMemory>
        ensures { IfOk result (λ l. l ≡ self.now) }
    {
        let entries = self.entries.clone()?;
        Ok(Logins { entries })
    }
}
