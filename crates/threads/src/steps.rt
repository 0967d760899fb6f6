// The steps of one entry.
ghost use Rattle.std.specs.Prelude.{◌≡◌, ◌+◌, ◌<◌, [], ◌∷◌, ◌++◌, Some, None};
ghost use Rattle.atomic_table.specs.Seated.{TableId};
ghost use Rattle.threads.specs.declared.view.Stage.TheVariants.{Inside, Out};
ghost use Rattle.threads.specs.Log.{Allowed, part, flat, log_of, number, seen};
ghost use Rattle.threads.specs.Resting.{IsResting};
ghost use Rattle.threads.specs.Rule.{Claimed, HasAdded, Noted, at_stage};

use crate::held::Held;
use crate::view::{Board, Gives, Looks, Notes, Rings, Seated, Takes};
use std::hint::spin_loop;
use std::sync::Wait;
use std::time::Duration;

// How often a pass looks whether the turn is free before it sleeps.
const LOOKS: u32 = 100;

// Waits for the turn, asleep while another has it, and takes the value. `rung` is how often the pass's bell rang before.
pub(crate) fn claim<V: Held, R: Wait>(
    rt: &R,
    board: &Board<V>,
    seat: &mut Seated<V>,
    rung: &mut u64,
    number: u32,
) -> V
    requires table { (seat.old.table_id ≡ board.now.table_id) × (board.now.table_id.words ≡ 67) × (board.now.table_id.slots ≡ 1) }
    requires rests { IsResting number seat.old.me }
    ensures seat { (seat.new.table_id ≡ seat.old.table_id) × (seat.new.id ≡ seat.old.id) }
    ensures claimed { Claimed V.history V.fixed (Allowed V.made_by V.may) seat.old.me result seat.new.me }
{
    *rung = read(board, seat, bell_of(number));
    for _ in rt.forever() {
        let found = board.compare_exchange::<Takes>(seat, 0, 0, u64::from(number));
        if found == 0 {
            let Some(value) = board.exchange(seat, 0, None) else {
                unreachable!()
            };
            return value;
        }
        await_turn(rt, board, seat, found);
    }
    unreachable!()
}

// Waits until the turn may be free: at first awake, for an `act` mostly takes less time than to fall asleep and to be woken.
fn await_turn<V: Held, R: Wait>(rt: &R, board: &Board<V>, seat: &mut Seated<V>, found: u64)
    requires { (seat.old.table_id ≡ board.now.table_id) × (board.now.table_id.words ≡ 67) }
    ensures { (seat.new.table_id ≡ seat.old.table_id) × (seat.new.id ≡ seat.old.id) × (seat.new.me ≡ seat.old.me) }
{
    for _ in 0..LOOKS {
        if read(board, seat, 0) == 0 {
            return;
        }
        spin_loop();
    }
    sleep(rt, board, seat, found);
}

// Sleeps while the turn is that of the pass of this number. Meanwhile it counts as one that waits.
fn sleep<V: Held, R: Wait>(rt: &R, board: &Board<V>, seat: &mut Seated<V>, found: u64)
    requires { (seat.old.table_id ≡ board.now.table_id) × (board.now.table_id.words ≡ 67) }
    ensures { (seat.new.table_id ≡ seat.old.table_id) × (seat.new.id ≡ seat.old.id) × (seat.new.me ≡ seat.old.me) }
{
    board.fetch_add::<Rings>(seat, 66, 1);
    look(rt, board, seat, 0, found, None);
    board.fetch_sub::<Rings>(seat, 66, 1);
}

// Puts the value back into the slot, whose turn is still this pass's.
pub(crate) fn put<V: Held>(board: &Board<V>, seat: &mut Seated<V>, value: V)
    requires { (seat.old.table_id ≡ board.now.table_id) × (seat.old.me.1 ≡ (0, None) ∷ []) }
    ensures { (seat.new.table_id ≡ seat.old.table_id) × (seat.new.id ≡ seat.old.id) × (seat.new.me ≡ (seat.old.me.0, (0, Some value) ∷ [])) }
{
    let before = board.exchange(seat, 0, Some(value));
    let None = before else { unreachable!() };
}

// Notes the group that was added to the value in hand, and the value's length.
pub(crate) fn note<V: Held>(board: &Board<V>, seat: &mut Seated<V>, amount: u64)
    requires table { (seat.old.table_id ≡ board.now.table_id) × (board.now.table_id.words ≡ 67) }
    requires inside { (seat.old.me.0.stage ≡ Inside (log_of seat.old.me.0.stage)) × (seat.old.me.0.parts ≡ part (number seat.old.me.0.parts) (seen seat.old.me.0.parts) ∷ []) }
    requires group { HasAdded V.history V.fixed (Allowed V.made_by V.may) seat.old.me amount }
    ensures seat { (seat.new.table_id ≡ seat.old.table_id) × (seat.new.id ≡ seat.old.id) }
    ensures noted { Noted V.history V.fixed (Allowed V.made_by V.may) seat.old.me seat.new.me }
{
    board.store::<Notes>(seat, 1, amount);
}

// Gives the turn back, with the value in hand, and wakes one pass, where any waits for it.
pub(crate) fn give<V: Held>(board: &Board<V>, seat: &mut Seated<V>)
    requires table { (seat.old.table_id ≡ board.now.table_id) × (board.now.table_id.words ≡ 67) × (board.now.table_id.slots ≡ 1) }
    requires inside { (seat.old.me.0.stage ≡ Inside (log_of seat.old.me.0.stage)) }
    requires value { (x : V) × (seat.old.me.1 ≡ (0, Some x) ∷ []) × (V.history x ≡ seat.old.me.0.start ++ flat (log_of seat.old.me.0.stage)) × (seat.old.me.0.fixed ≡ Some (V.fixed x)) }
    ensures { (seat.new.table_id ≡ seat.old.table_id) × (seat.new.id ≡ seat.old.id) × (seat.new.me ≡ (at_stage Out seat.old.me.0, [])) }
{
    board.store::<Gives>(seat, 0, 0);
    if read(board, seat, 66) != 0 {
        board.wake_one(0);
    }
}

// The word that is the bell of the pass of that number. Passes whose numbers are 64 apart share one.
pub(crate) fn bell_of(number: u32) -> usize
    ensures { (1 < result) × (result < 66) }
{
    2 + (number % 64) as usize
}

// Rings the bell, and wakes those who sleep by it.
fn ring_one<V: Held>(board: &Board<V>, seat: &mut Seated<V>, bell: usize)
    requires table { seat.old.table_id ≡ board.now.table_id }
    requires bell { (1 < bell) × (bell < board.now.table_id.words) }
    ensures { (seat.new.table_id ≡ seat.old.table_id) × (seat.new.id ≡ seat.old.id) × (seat.new.me ≡ seat.old.me) }
{
    board.fetch_add::<Rings>(seat, bell, 1);
    board.wake_all(bell);
}

// Rings each bell whose bit is set.
pub(crate) fn ring<V: Held>(board: &Board<V>, seat: &mut Seated<V>, bells: u64)
    requires { (seat.old.table_id ≡ board.now.table_id) × (board.now.table_id.words ≡ 67) }
    ensures { (seat.new.table_id ≡ seat.old.table_id) × (seat.new.id ≡ seat.old.id) × (seat.new.me ≡ seat.old.me) }
{
    let mut left = bells;
    for bell in 2..66 {
        if left == 0 {
            return;
        }
        if left % 2 == 1 {
            ring_one(board, seat, bell);
        }
        left /= 2;
    }
}

// The word.
fn read<V: Held>(board: &Board<V>, seat: &mut Seated<V>, word: usize) -> u64
    requires { (seat.old.table_id ≡ board.now.table_id) × (word < board.now.table_id.words) }
    ensures { (seat.new.table_id ≡ seat.old.table_id) × (seat.new.id ≡ seat.old.id) × (seat.new.me ≡ seat.old.me) }
{
    board.load::<Looks>(seat, word)
}

// Loads the word, and parks if it is as expected: until it changes and its change is told, or until the time is over.
pub(crate) fn look<V: Held, R: Wait>(
    rt: &R,
    board: &Board<V>,
    seat: &mut Seated<V>,
    word: usize,
    expected: u64,
    limit: Option<Duration>,
)
    requires { (seat.old.table_id ≡ board.now.table_id) × (word < board.now.table_id.words) }
    ensures { (seat.new.table_id ≡ seat.old.table_id) × (seat.new.id ≡ seat.old.id) × (seat.new.me ≡ seat.old.me) }
{
    if read(board, seat, word) == expected {
        let low = (expected % (1 << 32)) as u32;
        match limit {
            Some(time) => board.park_timeout(rt, word, low, time),
            None => board.park(rt, word, low),
        }
    }
}
