// What a remote says of itself.
ghost use Rattle.std.specs.Prelude.{◌≡◌, not, IsTrue, IfOk};
ghost use Rattle.std.specs.List.{list_all};
ghost use Rattle.ann_key.specs.KeyRefs.{text_of};
ghost use Rattle.annex_model.specs.Messages.{is_sent_key};
ghost use Rattle.kit_serve.specs.Kit.Descriptions.{Description, is_config, is_pair, is_where};

use ann_key::{Bytes, KeyRef, NoMemory};
use std::alloc::Global;

/// A name, and what is said of it.
#[derive(Drop)]
pub struct Pair {
    pub name: Bytes,
    pub text: Bytes,
}

/// Where a remote can be reached from.
#[derive(Clone, Copy)]
pub enum Availability {
    /// From anywhere.
    Global,
    /// From this machine alone.
    Local,
}

/// Where a content is, in words for a user.
#[derive(Drop)]
pub enum Where {
    /// The remote doesn't say.
    Untold,
    /// Nowhere that is known.
    Nowhere,
    At(Bytes),
}

/// What a remote says of itself when a host asks. Each answer may be left out, and the host is told that the request isn't supported.
pub trait Describe {
    ghost description: { Self → Description };

    /// Its settings with their meaning; none leaves them out. A name holds no space, and neither holds a line end.
    fn configs(&self, alloc: Global) -> Result<Vec<Pair>, NoMemory>
        ensures told { IfOk result (λ pairs. pairs.items ≡ (description self.now).configs) }
        ensures lines { IsTrue (list_all is_config (description self.now).configs) };

    /// What its use costs: git-annex takes remotes of lower cost first. 100 is cheap, 200 expensive.
    fn cost(&self) -> Option<u64>
        ensures told { result ≡ (description self.now).cost };

    /// From where it can be reached.
    fn availability(&self) -> Option<Availability>
        ensures told { result ≡ (description self.now).availability };

    /// Facts for `git annex info`; none leaves them out. Neither a name nor a text holds a line end.
    fn info(&self, alloc: Global) -> Result<Vec<Pair>, NoMemory>
        ensures told { IfOk result (λ pairs. pairs.items ≡ (description self.now).info) }
        ensures lines { IsTrue (list_all is_pair (description self.now).info) };

    /// Where the content of the key is, for `git annex whereis`. It may say so without a look. A text holds no line end.
    fn whereis(&self, alloc: Global, key: KeyRef<'_>) -> Result<Where, NoMemory>
        requires key { IsTrue (is_sent_key (text_of key)) }
        ensures told { IfOk result (λ place. place ≡ (description self.now).whereis (text_of key.entry)) }
        ensures lines { IfOk result (λ place. IsTrue (is_where place)) };
}
