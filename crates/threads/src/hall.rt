ghost use Rattle.std.specs.Prelude.{◌≡◌, ℕ, ◌+◌, ◌<◌, ◌≤◌, List, [], ◌∷◌, ◌++◌, length, Some, None, IfOk, OnErr, IfErr, IsOk, All, slice_get, vec_capacity, map};
ghost use Rattle.atomic_table.specs.Seated.{TableId};
ghost use Rattle.threads.specs.declared.view.Stage.TheVariants.{Out};
ghost use Rattle.threads.specs.Log.{part, seen};
ghost use Rattle.threads.specs.Passes.{AreDealt, IsPassOf, HasEntered, HasClosed, hall_of};
ghost use Rattle.threads.specs.Rule.{first_view};

use crate::held::Held;
use crate::steps::{bell_of, claim, give, look, note, put, ring};
use crate::view::{Board, Deals, Gathers, Law, Opening, Seated, View};
use ann_key::NoMemory;
use atomic_table::{Refused, Table};
use std::alloc::Global;
use std::marker::Model;
use std::snapshot::Snapshot;
use std::sync::Wait;
use std::time::Duration;

/// How long a pass that rests may sleep past a change that rang no bell of its, in milliseconds.
const LONGEST_REST: u64 = 50;

/// A value that its passes enter in turns, from any threads.
///
/// Contracts see of it its table, how many passes it has, and the history and the fixed part that its value had at [`begin`](Hall::begin).
#[derive(Drop)]
pub struct Hall<V: Held> {
    table: Table<Option<V>, View<<V as Held>::Entry, <V as Held>::Fixed>, Opening<V>, Law, Global>,
}

impl<V: Held> Model for Hall<V> {
    ghost use Rattle.std.specs.Prelude.{◌≡◌, ◌<◌};
    ghost use Rattle.threads.specs.Passes.{HallValue};

    ghost Value = { HallValue V.Entry V.Fixed };

    ghost view = { λ h. record {
      table = h.table.shared.table_id;
      seats = h.table.shared.key.seats;
      start = V.history h.table.shared.key.value.value;
      fixed = V.fixed h.table.shared.key.value.value;
    } };

    ghost invariant = { λ h. (h.table.shared.table_id.words ≡ 67) × (h.table.shared.table_id.slots ≡ 1) × (0 < h.table.shared.key.seats) };
}

/// The right to enter one hall by one number, and what was seen there. It takes part in no other hall.
///
/// Contracts see of it its hall, its number, and the groups that it has seen, each with the number that made it.
#[derive(Drop)]
pub struct Pass<V: Held> {
    number: u32,
    // how often its bell rang before its last turn
    rung: u64,
    seat: Seated<V>,
}

impl<V: Held> Model for Pass<V> {
    ghost use Rattle.threads.specs.Passes.{PassValue};
    ghost use Rattle.threads.specs.Log.{seen};
    ghost use Rattle.threads.specs.Resting.{IsResting};

    ghost Value = { PassValue V.Entry V.Fixed };

    ghost view = { λ p. record {
      table = p.seat.table_id;
      seats = p.seat.me.0.seats;
      start = p.seat.me.0.start;
      fixed = p.seat.me.0.fixed;
      number = p.number;
      links = seen p.seat.me.0.parts;
    } };

    ghost invariant = { λ p. IsResting p.number p.seat.me };
}

impl<V: Held> Pass<V> {
    /// The pass's number, from 1 on.
    pub fn number(&self) -> u32
        ensures { result ≡ self.now.number }
    {
        self.number
    }
}

impl<V: Held> Hall<V> {
    /// A hall round the value, and its passes, which have the numbers from 1 to `seats` in order. Where there is no memory, the value comes back.
    pub fn begin(alloc: Global, value: V, seats: u32) -> Result<(Hall<V>, Vec<Pass<V>>), V>
        requires { (0 < seats) × (seats ≤ 70) }
        ensures hall { IfOk result (λ h. (h.0.seats ≡ seats) × (h.0.start ≡ V.history value) × (h.0.fixed ≡ V.fixed value)) }
        ensures passes { IfOk result (λ h. (length h.1.items ≡ seats) × All (IsPassOf h.0) h.1.items) }
        ensures fresh { IfOk result (λ h. (k : ℕ) (p : _) → slice_get h.1.items k ≡ Some p → (p.number ≡ k + 1) × (p.links ≡ [])) }
        ensures err { IfErr result (λ v. v ≡ value) }
    {
        let amount = value.len();
        let opening = Opening {
            value: Snapshot::of(&value),
            seats,
        };
        let mut passes = Vec::new(alloc);
        if passes.reserve(seats as usize).is_err() {
            return Err(value);
        }
        let slots = in_slot(alloc, value)?;
        match Table::new(alloc, &first_words(amount), slots, &opening) {
            Ok((table, seat)) => {
                deal(&table.shared, &mut passes, seat, seats);
                Ok((Hall { table }, passes))
            }
            Err(Refused { slots }) => Err(out_of_slot(slots)),
        }
    }

    /// Lets the pass act once on the value, when its turn has come. It waits for that, asleep.
    ///
    /// At `NoMemory` the value and the pass are as before, and the turn is given back.
    pub fn enter<R: Wait>(
        &self,
        rt: &R,
        pass: &mut Pass<V>,
        op: V::Op,
    ) -> Result<V::Reply, NoMemory>
        requires { IsPassOf self.now pass.old }
        ensures pass { IsPassOf self.now pass.new × (pass.new.number ≡ pass.old.number) }
        ensures ok { IfOk result (λ r. HasEntered V.made_by V.may self.now pass.old pass.new op r) }
        ensures err { OnErr result (pass.new ≡ pass.old) }
        ensures free { V.is_free op → IsOk result }
    {
        let board = &self.table.shared;
        let mut value = claim(rt, board, &mut pass.seat, &mut pass.rung, pass.number);
        let answer = value.act(pass.number, op);
        let amount = value.len();
        let bells = value.bells();
        put(board, &mut pass.seat, value);
        match answer {
            Ok(reply) => {
                note(board, &mut pass.seat, amount);
                give(board, &mut pass.seat);
                ring(board, &mut pass.seat, bells);
                Ok(reply)
            }
            Err(failed) => {
                give(board, &mut pass.seat);
                Err(failed)
            }
        }
    }

    /// Waits, asleep, until an `act` after the pass's last one concerns the pass, or returns sooner. No longer than 50 milliseconds.
    ///
    /// How long it waits is not promised.
    pub fn rest<R: Wait>(&self, rt: &R, pass: &mut Pass<V>)
        requires { IsPassOf self.now pass.old }
        ensures { pass.new ≡ pass.old }
    {
        let limit = Some(Duration::from_millis(LONGEST_REST));
        let bell = bell_of(pass.number);
        let rung = pass.rung;
        look(rt, &self.table.shared, &mut pass.seat, bell, rung, limit);
    }

    /// The value, once every pass has come back. It takes no memory.
    pub fn close(self, passes: Vec<Pass<V>>) -> V
        requires own { All (IsPassOf self) passes.items }
        requires all { length passes.items ≡ self.seats }
        ensures { HasClosed V.made_by V.may self passes.items (V.history result) (V.fixed result) }
    {
        let Hall { table } = self;
        let seat = gather(&table.shared, passes);
        let mut closed = table.close_with(seat);
        let Some(value) = closed.take(0) else {
            unreachable!()
        };
        closed.free();
        value
    }
}

// The one slot of a table, with the value in it. Where there is no memory, the value comes back.
fn in_slot<V>(alloc: Global, value: V) -> Result<Vec<Option<V>>, V>
    ensures ok { IfOk result (λ slots. slots.items ≡ Some value ∷ []) }
    ensures err { IfErr result (λ v. v ≡ value) }
{
    let mut slots = Vec::new(alloc);
    if slots.reserve(1).is_err() {
        slots.destroy_empty();
        return Err(value);
    }
    slots.push_reserved(Some(value));
    Ok(slots)
}

// The value that a table's one slot holds.
fn out_of_slot<V>(slots: Vec<Option<V>>) -> V
    requires { (v : _) × (slots.items ≡ Some v ∷ []) }
    ensures { slots.items ≡ Some result ∷ [] }
{
    let mut slots = slots;
    let Some(Some(value)) = slots.pop() else {
        unreachable!()
    };
    slots.destroy_empty();
    value
}

// The words of a table: the turn, the history's length, 64 bells, and how many passes wait for the turn.
fn first_words(amount: u64) -> [u64; 67]
    ensures { (bells : List ℕ) × (result ≡ 0 ∷ amount ∷ bells) × (length result ≡ 67) }
{
    let mut words = [0; 67];
    words[1] = amount;
    words
}

// Cuts the passes off, in the order of their numbers.
fn deal<V: Held>(board: &Board<V>, passes: &mut Vec<Pass<V>>, seat: Seated<V>, seats: u32)
    requires table { 0 < board.now.table_id.words }
    requires seat { (seat.table_id ≡ board.now.table_id) × (seat.me ≡ (first_view board.now.key.seats (V.history board.now.key.value.value) (V.fixed board.now.key.value.value), [])) }
    requires seats { (0 < seats) × (board.now.key.seats ≡ seats) }
    requires room { (passes.old.items ≡ []) × (seats ≤ vec_capacity passes.old) }
    ensures { AreDealt (hall_of board.now.table_id board.now.key.seats (V.history board.now.key.value.value) (V.fixed board.now.key.value.value)) seats passes.new.items }
{
    let mut seat = seat;
    for number in 1..seats {
        let next = board.split_seat::<Deals>(&mut seat);
        passes.push_reserved(Pass {
            number,
            rung: 0,
            seat,
        });
        seat = next;
    }
    passes.push_reserved(Pass {
        number: seats,
        rung: 0,
        seat,
    });
}

// One seat that knows what each pass has seen.
fn gather<V: Held>(board: &Board<V>, mut passes: Vec<Pass<V>>) -> Seated<V>
    requires table { 0 < board.now.table_id.words }
    requires own { All (λ p. p.table ≡ board.now.table_id) passes.items }
    requires some { 0 < length passes.items }
    ensures { (result.table_id ≡ board.now.table_id) × (result.me.0.stage ≡ Out) × (result.me.0.parts ≡ map (λ p. part p.number p.links) passes.items) }
{
    let Some(pass) = passes.pop() else {
        unreachable!()
    };
    let Pass {
        number: _,
        rung: _,
        mut seat,
    } = pass;
    while let Some(pass) = passes.pop() {
        let Pass {
            number: _,
            rung: _,
            seat: other,
        } = pass;
        board.join_seat::<Gathers>(&mut seat, other);
    }
    seat
}
