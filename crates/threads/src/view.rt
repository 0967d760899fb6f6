// What a seat knows, the rule, and what each step tells.
use crate::held::Held;
use atomic_table::{Join, Play, Seat, Shared, Split, TableRule};
use std::collections::LinkedList;
use std::snapshot::Snapshot;

/// One `act`, as proofs see it: the number that made it, and the entries that it appended. No value of it is made.
pub struct Link<E> {
    /// The number of the pass.
    pub by: u64,
    /// The entries, maybe none.
    pub group: LinkedList<E>,
}

/// What the pass of one number has seen.
pub struct Part<E> {
    pub by: u64,
    pub seen: LinkedList<Link<E>>,
}

/// Where a seat is.
pub enum Stage<E> {
    /// It was joined to another, and knows nothing any more.
    Spent,
    /// It has no turn.
    Out,
    /// It has the turn, and knows all links.
    Inside(LinkedList<Link<E>>),
}

/// What a seat at the table knows. No value of it is made.
pub struct View<E, F> {
    pub stage: Stage<E>,
    pub parts: LinkedList<Part<E>>,
    /// How many passes were made, if this one may make the next; else 0.
    pub made: u64,
    /// How many passes there are to be.
    pub seats: u64,
    /// The history that the value had at the beginning.
    pub start: LinkedList<E>,
    /// The value's fixed part; none in a seat that is spent.
    pub fixed: Option<F>,
}

// The key of the table: the value as it was at the beginning, and how many passes there are to be.
#[derive(Drop)]
pub struct Opening<V> {
    pub value: Snapshot<V>,
    pub seats: u32,
}

// The rule of the table.
pub struct Law;

impl<V: Held> TableRule<Option<V>, View<V::Entry, V::Fixed>, Opening<V>> for Law {
    ghost use Rattle.threads.specs.Rule.{Kept, first_view};
    ghost use Rattle.threads.specs.Log.{Allowed};

    ghost holds = { λ key. Kept V.history V.fixed (Allowed V.made_by V.may) key.value.value key.seats };

    ghost first = { λ key. first_view key.seats (V.history key.value.value) (V.fixed key.value.value) };
}

// A pass's seat at the table.
pub type Seated<V> = Seat<Option<V>, View<<V as Held>::Entry, <V as Held>::Fixed>>;

// Takes the turn, or finds it taken.
pub(crate) struct Takes;

impl<V: Held> Play<Option<V>, View<V::Entry, V::Fixed>> for Takes {
    ghost use Rattle.threads.specs.Rule.{taken};
    ghost use Rattle.threads.specs.Log.{Allowed};

    ghost then = { taken V.history V.fixed (Allowed V.made_by V.may) };
}

// Loads a word.
pub(crate) struct Looks;

impl<V: Held> Play<Option<V>, View<V::Entry, V::Fixed>> for Looks {
    ghost use Rattle.threads.specs.Rule.{looked};
    ghost use Rattle.threads.specs.Log.{Allowed};

    ghost then = { looked V.history V.fixed (Allowed V.made_by V.may) };
}

// Rings a bell.
pub(crate) struct Rings;

impl<V: Held> Play<Option<V>, View<V::Entry, V::Fixed>> for Rings {
    ghost use Rattle.threads.specs.Rule.{looked};
    ghost use Rattle.threads.specs.Log.{Allowed};

    ghost then = { looked V.history V.fixed (Allowed V.made_by V.may) };
}

// Notes a group by the length that the history has with it.
pub(crate) struct Notes;

impl<V: Held> Play<Option<V>, View<V::Entry, V::Fixed>> for Notes {
    ghost use Rattle.threads.specs.Rule.{noted};
    ghost use Rattle.threads.specs.Log.{Allowed};

    ghost then = { noted V.history V.fixed (Allowed V.made_by V.may) };
}

// Gives the turn back.
pub(crate) struct Gives;

impl<V: Held> Play<Option<V>, View<V::Entry, V::Fixed>> for Gives {
    ghost use Rattle.threads.specs.Rule.{given};
    ghost use Rattle.threads.specs.Log.{Allowed};

    ghost then = { given V.history V.fixed (Allowed V.made_by V.may) };
}

// Makes the next pass.
pub(crate) struct Deals;

impl<E, F> Split<View<E, F>> for Deals {
    ghost use Rattle.threads.specs.Rule.{made_one, next_one};

    ghost left = { made_one };

    ghost right = { next_one };
}

// Joins what two seats know.
pub(crate) struct Gathers;

impl<E, F> Join<View<E, F>> for Gathers {
    ghost use Rattle.threads.specs.Rule.{gathered, spent};

    ghost both = { gathered };

    ghost spent = { spent };
}

// What the passes share of the table.
pub type Board<V> = Shared<
    Option<V>,
    View<<V as Held>::Entry, <V as Held>::Fixed>,
    Opening<V>,
    Law,
>;
