// A role that comes back from its thread.
ghost use Rattle.std.specs.Prelude.{◌≡◌};
ghost use Rattle.std.specs.List.{list_any};
ghost use Rattle.threads.specs.Roles.BackRole.{has_run, role_of};

/// What came back: the role as it was, or as its run left it.
#[derive(Drop)]
pub enum Back<E> {
    Stayed(E),
    Ran(E),
}

impl<E> Back<E> {
    /// The role, whether it ran or stayed.
    pub fn role(self) -> E
        ensures { result ≡ role_of self }
    {
        match self {
            Back::Stayed(role) => role,
            Back::Ran(role) => role,
        }
    }

    /// Whether it ran.
    pub fn has_run(&self) -> bool
        ensures { result ≡ has_run self.now }
    {
        matches!(self, Back::Ran(_))
    }
}

/// Whether one of them ran.
pub fn any_ran<E>(backs: &[Back<E>]) -> bool
    ensures { result ≡ list_any has_run backs.now }
{
    backs.iter().any(|back| back.has_run())
}
