// What a run goes by.
ghost use Rattle.std.specs.Prelude.{◌≡◌, ◌≤◌, ◌<◌, false};
ghost use Rattle.annex_model.specs.Lines.{has_newline};

use cli_words::RunWords;
use std::alloc::Global;

/// The runtime, the allocator and the words that a run goes by. The words are within their limits.
#[derive(Drop)]
pub(crate) struct Setting<'a, R> {
    pub(crate) rt: &'a R,
    pub(crate) alloc: Global,
    pub(crate) words: &'a RunWords,
    ghost jobs: { (0 < words.now.jobs) × (words.now.jobs ≤ 64) },
    ghost starts: { (0 < words.now.starts) × (words.now.starts ≤ 16) },
    ghost text: { has_newline words.now.work ≡ false },
}
