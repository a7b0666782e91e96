//! The steps of one pass on the turn, the slot and the count.
ghost use Rattle.std.specs.Prelude.{◌≡◌, ℕ, ◌+◌, ◌<◌, true, false, [], ◌∷◌, ◌++◌, length, Some, None};
ghost use Rattle.pgw_registry.specs.Sequential.{Book, nothing, state_after, IsLegal};
ghost use Rattle.pgw_registry.specs.History.{Apart, Grown, Later, HasAll, Log, holding, at_rest, saw, halved, with_process, newcomer, both_of, appended, no_old, held, places};
ghost use Rattle.pgw_registry.specs.Passes.{IsDesk};
ghost use Rattle.pgw_registry.specs.Shares.{IsSomeShare};

use crate::held::Held;
use crate::registry::Registry;
use crate::sight::{Appends, Asked, Desk, LeavesTurn, Looks, Names, Passes, Place, TakesTurn};
use std::sync::Wait;
use std::thread;

/// Waits for the turn, and takes it with the slot. A caller writes to the word only where it has
/// read that no one has the turn.
pub(crate) fn enter<R: Wait>(rt: &R, desk: &Desk, place: &mut Place)
    requires desk { IsDesk desk.now.shared.table_id
        × (place.old.table_id ≡ desk.now.shared.table_id) }
    requires empty { place.old.me.1 ≡ [] }
    ensures desk { place.new.table_id ≡ place.old.table_id }
    ensures took { (log : Log) × Later place.old.me.0 log
        × (place.new.me.0 ≡ holding place.old.me.0 log)
        × (place.new.me.1 ≡ (0, Some (state_after nothing log)) ∷ []) }
    ensures events { place.new.me.0.state.events ≡ length place.new.me.0.seen }
{
    for _ in rt.forever() {
        if desk.shared.peek(0) == 0 && desk.shared.swap::<TakesTurn>(place, 0, 1) == 0 {
            return;
        }
        thread::yield_now();
    }
    unreachable!()
}

/// Takes the object out of the slot.
pub(crate) fn take_out(desk: &Desk, place: &mut Place) -> Box<Registry>
    requires desk { place.old.table_id ≡ desk.now.shared.table_id }
    requires full { (c : Book) × (place.old.me.1 ≡ (0, Some c) ∷ []) }
    ensures desk { (place.new.table_id ≡ place.old.table_id) × (place.new.me.0 ≡ place.old.me.0)
        × (place.new.me.1 ≡ (0, None) ∷ []) }
    ensures object { place.old.me.1 ≡ (0, Some result.value) ∷ [] }
{
    let Some(held) = desk.shared.exchange(place, 0, None) else {
        unreachable!()
    };
    let Held { registry } = held;
    registry
}

/// The number of events, where this seat has the turn.
pub(crate) fn count(desk: &Desk, place: &mut Place) -> u64
    requires desk { IsDesk desk.now.shared.table_id
        × (place.old.table_id ≡ desk.now.shared.table_id) }
    requires turn { place.old.me.0.turn ≡ true }
    ensures desk { (place.new.table_id ≡ place.old.table_id)
        × (place.new.me.0 ≡ saw place.old.me.0 place.old.me.0.seen)
        × (place.new.me.1 ≡ place.old.me.1) }
    ensures count { result ≡ length place.old.me.0.seen }
{
    desk.shared.load::<Looks>(place, 1)
}

/// Appends the call to the history.
pub(crate) fn commit<C: Asked>(desk: &Desk, place: &mut Place)
    requires desk { IsDesk desk.now.shared.table_id
        × (place.old.table_id ≡ desk.now.shared.table_id) }
    requires turn { (place.old.me.0.turn ≡ true)
        × (held place.old.me.0.own place.old.me.0.numbers ≡ true) }
    requires clear { (place.old.me.0.one ≡ no_old) × (place.old.me.0.two ≡ no_old) }
    requires room { length place.old.me.0.seen < 18446744073709551615 }
    ensures desk { (place.new.table_id ≡ place.old.table_id)
        × (place.new.me.0 ≡ appended place.old.me.0 C.call) × (place.new.me.1 ≡ place.old.me.1) }
    ensures legal { IsLegal place.new.me.0.seen }
    ensures all { HasAll place.old.me.0.share place.old.me.0.numbers place.old.me.0.seen →
        HasAll place.new.me.0.share place.new.me.0.numbers place.new.me.0.seen }
    ensures mine { places place.old.me.0.numbers place.new.me.0.seen
        ≡ places place.old.me.0.numbers place.old.me.0.seen ++ length place.old.me.0.seen ∷ [] }
{
    desk.shared.fetch_add::<Appends<C>>(place, 1, 1);
}

/// Puts the object back, and gives the turn back.
pub(crate) fn leave(desk: &Desk, place: &mut Place, registry: Box<Registry>)
    requires desk { IsDesk desk.now.shared.table_id
        × (place.old.table_id ≡ desk.now.shared.table_id) }
    requires turn { (place.old.me.0.turn ≡ true) × (place.old.me.1 ≡ (0, None) ∷ []) }
    requires object { registry.value ≡ place.old.me.0.state }
    ensures desk { (place.new.table_id ≡ place.old.table_id)
        × (place.new.me.0 ≡ at_rest place.old.me.0) × (place.new.me.1 ≡ []) }
{
    desk.shared.exchange(place, 0, Some(Held { registry }));
    desk.shared.store::<LeavesTurn>(place, 0, 0);
}

/// Loads the number of events.
pub(crate) fn look(desk: &Desk, place: &mut Place) -> u64
    requires desk { IsDesk desk.now.shared.table_id
        × (place.old.table_id ≡ desk.now.shared.table_id) }
    ensures desk { (place.new.table_id ≡ place.old.table_id) × (place.new.me.1 ≡ place.old.me.1) }
    ensures looked { (log : Log) × Later place.old.me.0 log
        × (place.new.me.0 ≡ saw place.old.me.0 log) × (result ≡ length log)
        × Grown place.old.me.0.one.seen place.old.me.0.one.numbers log
        × Grown place.old.me.0.two.seen place.old.me.0.two.numbers log
        × Apart place.old.me.0.one.numbers place.old.me.0.two.numbers }
{
    desk.shared.load::<Looks>(place, 1)
}

/// A new seat, which has seen as much and has its own number. Each has half of the share.
pub(crate) fn cut(desk: &Desk, place: &mut Place) -> Place
    requires desk { IsDesk desk.now.shared.table_id
        × (place.old.table_id ≡ desk.now.shared.table_id) }
    requires part { 0 < place.old.me.0.share.parts }
    ensures desk { (place.new.table_id ≡ place.old.table_id)
        × (place.new.me.0 ≡ halved place.old.me.0) × (place.new.me.1 ≡ place.old.me.1) }
    ensures made { (result.table_id ≡ place.old.table_id) × (result.me.1 ≡ [])
        × ((by : ℕ) × (result.me.0 ≡ with_process (newcomer place.old.me.0) by)
        × (places (by ∷ []) place.old.me.0.seen ≡ [])) }
{
    let mut made = desk.shared.split_seat::<Passes>(place);
    desk.shared.load::<Names>(&mut made, 1);
    made
}

/// Takes another seat in.
pub(crate) fn take_in(desk: &Desk, place: &mut Place, other: Place)
    requires desk { IsDesk desk.now.shared.table_id
        × (place.old.table_id ≡ desk.now.shared.table_id)
        × (other.table_id ≡ desk.now.shared.table_id) }
    requires idle { (place.old.me.0.turn ≡ false) × (other.me.0.turn ≡ false) × (other.me.1 ≡ []) }
    requires parts { IsSomeShare place.old.me.0.share × IsSomeShare other.me.0.share }
    ensures desk { (place.new.table_id ≡ place.old.table_id) × (place.new.me.1 ≡ place.old.me.1) }
    ensures met { (log : Log) × Later (both_of place.old.me.0 other.me.0) log
        × (place.new.me.0 ≡ saw (both_of place.old.me.0 other.me.0) log)
        × Grown place.old.me.0.seen place.old.me.0.numbers log
        × Grown other.me.0.seen other.me.0.numbers log
        × Apart place.old.me.0.numbers other.me.0.numbers }
    ensures count { (log : Log) → length (places (place.old.me.0.numbers ++ other.me.0.numbers) log)
        ≡ length (places place.old.me.0.numbers log) + length (places other.me.0.numbers log) }
{
    desk.shared.join_seat::<Passes>(place, other);
    desk.shared.load::<Looks>(place, 1);
}
