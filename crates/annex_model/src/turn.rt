ghost use Rattle.std.specs.Prelude.{◌≡◌};

/// Which of a child's jobs may ask a message.
#[derive(Clone, Copy, PartialEq, Eq, Debug)]
pub enum Turn {
    /// Job 0, which asks for its extensions.
    First,
    /// Job 1, which gets it ready or sets it up.
    Second,
    /// A later one.
    Later,
    /// None: it is a reply, or only a name.
    Never,
}

impl Turn {
    ghost use Rattle.annex_model.specs.Turns.{is_at};

    /// Whether the job of that number may.
    pub fn is_at(self, job: u64) -> bool
        ensures { result ≡ is_at self job }
    {
        match self {
            Turn::First => job == 0,
            Turn::Second => job == 1,
            Turn::Later => 1 < job,
            Turn::Never => false,
        }
    }
}
