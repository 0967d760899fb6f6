// The two ways between a host and a remote.
ghost use Rattle.std.specs.Prelude.{◌≡◌, ℕ, List, Option, Some, IfOk};
ghost use Rattle.plain_lines.specs.Words.Changes.{said_by_remote, said_by_host};
ghost use Rattle.plain_lines.specs.declared.words.question.Question.{Question};

use crate::words::Plain;
use ann_key::{Bytes, NoMemory};
use std::alloc::Global;
use std::sync::{Arc, Mutex, Wait};

/// What is passed on of the lines that come from one side.
pub trait Way {
    // what may be passed on of a line; None is nothing
    ghost passes: { List ℕ → Option (List ℕ) → Type 0 };

    /// What is passed on of the line.
    fn pass(&mut self, line: &[u8]) -> Result<Option<Bytes>, NoMemory>
        ensures { IfOk result (λ passed. passes line.now passed) };
}

/// From the remote to the host.
#[derive(Drop)]
pub struct FromRemote<R> {
    rt: R,
    plain: Arc<Mutex<Plain>, Global>,
}

impl<R: Wait> FromRemote<R> {
    pub fn new(rt: R, plain: Arc<Mutex<Plain>, Global>) -> FromRemote<R> {
        FromRemote { rt, plain }
    }
}

impl<R: Wait> Way for FromRemote<R> {
    ghost passes = { λ line passed. passed ≡ said_by_remote line };

    fn pass(&mut self, line: &[u8]) -> Result<Option<Bytes>, NoMemory> {
        let mut plain = self.plain.lock(&self.rt);
        plain.from_remote(line)
    }
}

/// From the host to the remote. Of a machine behind a lock it isn't known which question is open, so a clause says that there is
/// one, or none, by which the line was changed.
#[derive(Drop)]
pub struct FromHost<R> {
    rt: R,
    plain: Arc<Mutex<Plain>, Global>,
}

impl<R: Wait> FromHost<R> {
    pub fn new(rt: R, plain: Arc<Mutex<Plain>, Global>) -> FromHost<R> {
        FromHost { rt, plain }
    }
}

impl<R: Wait> Way for FromHost<R> {
    ghost passes = { λ line passed. (oldest : Option Question) × (passed ≡ Some (said_by_host oldest line)) };

    fn pass(&mut self, line: &[u8]) -> Result<Option<Bytes>, NoMemory> {
        let mut plain = self.plain.lock(&self.rt);
        plain.from_host(line)
    }
}
