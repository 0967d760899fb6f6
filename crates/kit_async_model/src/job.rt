// A job of a kit: a request that isn't settled yet.
ghost use Rattle.std.specs.Prelude.{◌≡◌, IfOk, IfSome, option_copied, option_map};
ghost use Rattle.annex_model.specs.Messages.{IsAskable};
ghost use Rattle.ann_key.specs.KeyRefs.{text_of};
ghost use Rattle.wire_msg.specs.Shown.{host_shown};
ghost use Rattle.kit_async_model.specs.Jobs.{request_of, is_making_ready, next_name, is_awaiting, key_in, settles, prepares, prepared_after, is_worked_by};
ghost use Rattle.kit_async_model.specs.Standings.{new_job};
ghost use Rattle.kit_async_model.specs.Books.{most_calls};
ghost use Rattle.kit_serve.specs.Kit.Kits.{is_readying, is_prepare, is_yes};

use crate::setup::Setup;
use ann_key::{Bytes, KeyRef, NoMemory};
use kit_serve::kit::{Said, Values};
use std::alloc::Global;
use wire_msg::{HostMsg, read_host};

/// A request that was heard, and what was told and called for it since.
#[derive(Drop)]
pub struct Job {
    /// The tag of its lines, or 0 where they have none.
    pub number: u64,
    /// The request's line, without its tag.
    pub text: Bytes,
    /// Whether the kit was prepared when it was heard.
    pub prepared: bool,
    /// The values of settings that were told.
    pub values: Values,
    /// The remote that took it up.
    pub taken: Option<u32>,
    /// How many remotes were called for it.
    pub calls: u32,
    /// Whether what the last of them said settles it.
    pub settled: bool,
}

// Whether the remotes are to get ready.
fn is_readying(request: Option<HostMsg<'_>>) -> bool
    ensures { result ≡ is_readying (option_map host_shown request.entry) }
{
    matches!(request, Some(HostMsg::Prepare | HostMsg::Initremote))
}

// Whether it is done.
fn is_yes(said: &Said) -> bool
    ensures { result ≡ is_yes said.now }
{
    matches!(said, Said::Yes | Said::Set(_))
}

impl Job {
    /// A job that was just heard.
    pub fn new(alloc: Global, number: u64, text: &[u8], prepared: bool) -> Result<Job, NoMemory>
        ensures { IfOk result (λ job. job ≡ new_job number text.now prepared) }
    {
        let text = Bytes::copy(alloc, text)?;
        Ok(Job {
            number,
            text,
            prepared,
            values: Values::new(Vec::new(alloc)),
            taken: None,
            calls: 0,
            settled: false,
        })
    }

    /// Its request, each field of which is of its class.
    #[tactic(auto, using(annex_model::proofs::Readings::askable_of_spelled))]
    pub fn request(&self) -> Option<HostMsg<'_>>
        ensures reading { option_map host_shown result ≡ request_of self.now }
        ensures askable { IfSome result (λ m. IsAskable (host_shown m)) }
    {
        read_host(self.text.view())
    }

    pub(crate) fn is_making_ready(&self) -> bool
        ensures { result ≡ is_making_ready self.now }
    {
        is_readying(self.request())
    }

    /// The setting whose value comes next.
    pub(crate) fn next_name<'a>(&self, setup: &'a Setup) -> Option<&'a [u8]>
        ensures { option_copied result ≡ next_name setup.now self.now }
    {
        setup.name(self.values.len())
    }

    pub fn is_awaiting(&self, setup: &Setup) -> bool
        ensures { result ≡ is_awaiting setup.now self.now }
    {
        self.is_making_ready() && self.next_name(setup).is_some()
    }

    /// The key that it names, if a remote works on it.
    pub(crate) fn key(&self) -> Option<KeyRef<'_>>
        ensures { option_map text_of result ≡ key_in (request_of self.now) }
    {
        match self.request() {
            Some(HostMsg::Transfer(_, key, _)) => Some(key),
            Some(HostMsg::Checkpresent(key)) => Some(key),
            Some(HostMsg::Remove(key)) => Some(key),
            _ => None,
        }
    }

    /// Whether that remote took it up, and hasn't answered yet.
    pub(crate) fn is_worked_by(&self, remote: u32) -> bool
        ensures { result ≡ is_worked_by remote self.now }
    {
        self.taken == Some(remote) && self.calls == 0
    }

    /// Whether that word of a remote settles it.
    pub fn settles(&self, setup: &Setup, said: &Said) -> bool
        ensures { result ≡ settles setup.now self.now said.now }
    {
        !self.is_making_ready()
            || !is_yes(said)
            || u64::from(self.calls) + 1 == u64::from(setup.remotes)
    }

    /// Whether it is PREPARE.
    pub fn is_prepare(&self) -> bool
        ensures { result ≡ is_prepare (request_of self.now) }
    {
        matches!(self.request(), Some(HostMsg::Prepare))
    }

    // Whether the kit is prepared by that word.
    fn prepares(&self, setup: &Setup, said: &Said) -> bool
        ensures { result ≡ prepares setup.now self.now said.now }
    {
        self.is_prepare() && is_yes(said) && self.settles(setup, said)
    }

    /// Whether the kit is prepared then, which was so before or wasn't.
    pub fn prepared_after(&self, setup: &Setup, said: &Said, prepared: bool) -> bool
        ensures { result ≡ prepared_after setup.now self.now said.now prepared }
    {
        if self.is_making_ready() && !is_yes(said) {
            false
        } else {
            prepared || self.prepares(setup, said)
        }
    }

    /// How many calls are made for it in the end, at most.
    pub fn most_calls(&self, setup: &Setup) -> u32
        ensures { result ≡ most_calls setup.now self.now }
    {
        if self.is_making_ready() {
            setup.remotes
        } else {
            1
        }
    }
}
