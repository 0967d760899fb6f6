ghost use Rattle.std.specs.Prelude.{◌≡◌, [], ◌∷◌, true, IsOk};
ghost use Rattle.child_link.specs.Doors.{Between, DoorView, IsSameDoor, Stepped, Waits};
ghost use Rattle.host_core.specs.Steps.{takes_no_memory};

use ann_key::NoMemory;
use host_core::{Core, Event, Reply};

/// The way of one role to the core: it steps the core under a number of its own.
pub trait Door {
    /// What it is a door of, as far as that stays the same.
    type Home;

    // what it is a door of, under which number, and what it has seen
    ghost view: { Self → DoorView Self.Home };

    /// Makes one event in the core. On an event that takes no memory it never answers `NoMemory`.
    fn step(&mut self, event: Event) -> Result<Reply, NoMemory>
        ensures stepped { Between Stepped (view self.old) (view self.new) event result }
        ensures free { takes_no_memory event ≡ true → IsOk result }
        ensures door { IsSameDoor (view self.old) (view self.new) };

    /// Waits until the journal may have grown, or returns sooner. Whoever has nothing to wait for would wait for ever.
    fn rest(&mut self)
        requires waits { Waits (view self.old).opening (view self.old).number (view self.old).seen }
        ensures { view self.new ≡ view self.old };
}

/// The main thread's door of a core that nobody else steps.
#[derive(Drop)]
pub struct OwnDoor<'a> {
    pub core: &'a mut Core,
}

impl<'a> Door for OwnDoor<'a> {
    type Home = ();

    ghost view = { λ d. record { opening = d.core.now.opening; number = 0; seen = d.core.now.journal; alone = true; loans = d.core.ghost_name ∷ []; home = tt } };

    fn step(&mut self, event: Event) -> Result<Reply, NoMemory> {
        self.core.step(0, event)
    }

    fn rest(&mut self) {}
}
