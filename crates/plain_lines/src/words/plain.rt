ghost use Rattle.std.specs.Prelude.{◌≡◌, [], ◌∷◌, ◌++◌, if◌then◌else◌, drop, List, Some, IfOk, OnOk, OnErr, slice_get, option_to_list};
ghost use Rattle.plain_lines.specs.Words.Changes.{said_by_remote, said_by_host};
ghost use Rattle.plain_lines.specs.Words.Questions.{Came, FromRemote, FromHost, Follows, oldest_open, ends_answer, question_of};

use crate::words::host::said_by_host;
use crate::words::question::{Question, ends_answer, question_of};
use crate::words::remote::said_by_remote;
use ann_key::{Bytes, NoMemory};
use std::alloc::Global;
use std::collections::VecDeque;
use std::marker::Model;

/// What stands between a host and a remote: it is given each line that comes from either side, and says what is passed on.
///
/// Contracts see of it the questions of the remote that are open, the oldest first, and how they follow from the lines that came.
#[derive(Drop)]
pub struct Plain {
    alloc: Global,
    waiting: VecDeque<Question>,
}

impl Model for Plain {
    ghost use Rattle.std.specs.Prelude.{List};
    ghost use Rattle.plain_lines.specs.declared.words.question.Question.{Question};

    ghost Value = { List Question };

    ghost view = { λ p. p.waiting.items };
}

impl Plain {
    /// One to which no line came. It takes no memory.
    pub fn new(alloc: Global) -> Plain
        ensures { Follows result [] }
    {
        Plain {
            alloc,
            waiting: VecDeque::new(alloc),
        }
    }

    // Remembers the question that the line is, if it is one.
    fn ask(&mut self, line: &[u8]) -> Result<(), NoMemory>
        ensures ok { OnOk result (self.new ≡ self.old ++ option_to_list (question_of line.now)) }
        ensures err { OnErr result (self.new ≡ self.old) }
    {
        match question_of(line) {
            Some(question) => {
                self.waiting.push_back(question)?;
                Ok(())
            }
            None => Ok(()),
        }
    }

    // The question that waits the longest.
    fn oldest(&self) -> Option<Question>
        ensures { result ≡ slice_get self.now 0 }
    {
        self.waiting.front().copied()
    }

    // Forgets the oldest question, where the line ends its answer.
    fn settle(&mut self, oldest: Option<Question>, line: &[u8])
        ensures { self.new ≡ (if ends_answer oldest line.now then drop 1 self.old else self.old) }
    {
        if ends_answer(oldest, line) {
            self.waiting.pop_front();
        }
    }

    /// What is passed on to the host of a line of the remote, without its byte 10; None where nothing is.
    pub fn from_remote(&mut self, line: &[u8]) -> Result<Option<Bytes>, NoMemory>
        ensures passes { IfOk result (λ passed. passed ≡ said_by_remote line.now) }
        ensures follows { OnOk result ((came : List Came) → Follows self.old came → Follows self.new (FromRemote line.now ∷ came)) }
        ensures err { OnErr result (self.new ≡ self.old) }
    {
        let Some(said) = said_by_remote(line) else {
            return Ok(None);
        };
        let passed = Bytes::copy(self.alloc, said)?;
        self.ask(said)?;
        Ok(Some(passed))
    }

    /// What is passed on to the remote of a line of the host, without its byte 10. It is never None.
    pub fn from_host(&mut self, line: &[u8]) -> Result<Option<Bytes>, NoMemory>
        ensures passes { IfOk result (λ passed. (came : List Came) → Follows self.old came → passed ≡ Some (said_by_host (oldest_open came) line.now)) }
        ensures oldest { IfOk result (λ passed. passed ≡ Some (said_by_host (slice_get self.old 0) line.now)) }
        ensures follows { OnOk result ((came : List Came) → Follows self.old came → Follows self.new (FromHost line.now ∷ came)) }
        ensures err { OnErr result (self.new ≡ self.old) }
    {
        let oldest = self.oldest();
        let passed = said_by_host(self.alloc, oldest, line)?;
        self.settle(oldest, line);
        Ok(Some(passed))
    }
}
