// What holds the threads back until it is known which were started.
use std::sync::{Condvar, Mutex, Wait};

/// What has been said: whether the round begins, and which role has no thread.
#[derive(Clone, Copy)]
struct Word {
    begins: Option<bool>,
    refused: Option<usize>,
}

#[derive(Drop)]
pub(crate) struct Gate {
    word: Mutex<Word>,
    changed: Condvar,
}

fn is_shut(word: Word, at: usize) -> bool {
    word.begins.is_none() && word.refused != Some(at)
}

impl Gate {
    pub(crate) fn new() -> Gate {
        Gate {
            word: Mutex::new(Word {
                begins: None,
                refused: None,
            }),
            changed: Condvar::new(),
        }
    }

    /// Says whether the round begins.
    pub(crate) fn open(&self, rt: &impl Wait, begins: bool) {
        self.word.lock(rt).begins = Some(begins);
        self.changed.notify_all();
    }

    /// Lets the role at this place pass, with the answer that it stays.
    pub(crate) fn refuse(&self, rt: &impl Wait, at: usize) {
        self.word.lock(rt).refused = Some(at);
    }

    /// Waits until it is said whether the round begins, or that this role has no thread, and tells whether the role is to run.
    pub(crate) fn pass<R: Wait>(&self, rt: &R, at: usize) -> bool {
        let word = self
            .changed
            .wait_while(rt, self.word.lock(rt), |word| is_shut(*word, at));
        word.begins == Some(true)
    }
}
