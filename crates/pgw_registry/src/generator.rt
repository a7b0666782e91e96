//! Process numbers and keys, which threads draw through seats of their own. No number stands twice in what a seat drew,
//! those of the seats that it took in among them.
ghost use Rattle.std.specs.Prelude.{◌≡◌, ℕ, ◌+◌, ◌<◌, ◌≤◌, true, leb, [], ◌∷◌, ◌++◌, IsOk, IfOk, IfErr, Result, ℤ, pos, ◌≤ℤ◌};
ghost use Rattle.pgw_registry.specs.declared.error.PidError.TheVariants.{PidsExhausted};
ghost use Rattle.pgw_registry.specs.Numbers.{IsDistinct, NoneBelow, DrewAll, above, saw, drew, with_seat_made, newcomer, both_of};
ghost use Rattle.pgw_registry.specs.Seats.{Numbers as Listing};
ghost use Rattle.pgw_registry.specs.Shares.{IsSomeShare, half};
ghost use Rattle.pgw_registry.specs.Generator.{unused, cut_from, IsNext, Generates, NoSeat, joint_numbers};

use crate::error::PidError;
use crate::key::key_for;
use crate::numbers::{Compares, Draws, DrawsForSeat, Looks, Place, Seats, Word};
use atomic_table::Table;
use pgw_types::context::ProtocolVersion;
use pgw_types::memory::OutOfMemory;
use pgw_wire::secret_key::SecretKey;
use std::alloc::Global;
use std::marker::Model;

/// The greatest process number.
pub const MOST: u64 = 2147483647;

/// Draws process numbers in turn. A contract sees which generator it is.
#[derive(Drop)]
pub struct RandomPidSecretKeyGenerator {
    word: Word,
    alloc: Global,
}

impl Model for RandomPidSecretKeyGenerator {
    ghost use Rattle.std.specs.Prelude.{◌≡◌};
    ghost use Rattle.atomic_table.specs.Seated.{TableId};

    ghost Value = { TableId };

    ghost view = { λ g. g.word.shared.table_id };

    ghost invariant = { λ g. g.word.shared.table_id.words ≡ 1 };
}

/// A thread's right to draw numbers.
#[derive(Drop)]
pub struct PidSeat {
    place: Place,
}

impl Model for PidSeat {
    ghost use Rattle.pgw_registry.specs.Seats.{Numbers, IsSeated};

    ghost Value = { Numbers };

    ghost view = { λ s. record {
      of = s.place.table_id;
      begins = s.place.me.0.begins;
      drawn
          = s.place.me.0.drawn;
      seen = s.place.me.0.seen;
      share = s.place.me.0.share;
    } };

    ghost invariant = { λ s. IsSeated s.place.me };
}

/// Where process numbers and keys come from.
pub trait PidSecretKeyGenerator {
    /// The seat comes from this generator.
    ghost fits: { Self → Listing → Type 0 };

    /// A process number that the seat has not drawn yet, and a key made of the words, which are to be
    /// random.
    fn generate(
        &self,
        seat: &mut PidSeat,
        version: ProtocolVersion,
        words: &[u8; 32],
    ) -> Result<(i32, SecretKey), PidError>
        requires { fits self.now seat.old }
        ensures fits { fits self.now seat.new }
        ensures generates { Generates seat.old version words.now seat.new result };
}

impl PidSecretKeyGenerator for RandomPidSecretKeyGenerator {
    ghost fits = { λ g s. s.of ≡ g };

    fn generate(
        &self,
        seat: &mut PidSeat,
        version: ProtocolVersion,
        words: &[u8; 32],
    ) -> Result<(i32, SecretKey), PidError> {
        if look(&self.word, &mut seat.place) > MOST {
            return Err(PidError::PidsExhausted);
        }
        let key = key_for(self.alloc, version, words)?;
        let number = draw(&self.word, &mut seat.place);
        if number > MOST {
            return Err(PidError::PidsExhausted);
        }
        Ok((number as i32, key))
    }
}

impl RandomPidSecretKeyGenerator {
    /// A generator and its first seat. The numbers begin at 100000.
    pub fn new(alloc: Global) -> Result<(RandomPidSecretKeyGenerator, PidSeat), OutOfMemory>
        ensures { IfOk result (λ r. r.1 ≡ unused r.0 100000) }
    {
        RandomPidSecretKeyGenerator::starting_at(alloc, 100_000)
    }

    /// A generator whose numbers begin at `first`.
    pub fn starting_at(
        alloc: Global,
        first: i32,
    ) -> Result<(RandomPidSecretKeyGenerator, PidSeat), OutOfMemory>
        requires { pos 0 ≤ℤ first }
        ensures { IfOk result (λ r. (n : ℕ) × (first ≡ pos n) × (r.1 ≡ unused r.0 n)) }
    {
        let first = first as u64;
        let (word, place) = Table::of_words(alloc, &[first], &first)?;
        Ok((
            RandomPidSecretKeyGenerator { word, alloc },
            PidSeat { place },
        ))
    }

    /// A new seat, for which `from` draws one number. Each has half of the share that `from` had. It
    /// takes no memory.
    pub fn seat(&self, from: &mut PidSeat) -> Result<PidSeat, PidError>
        requires { from.old.of ≡ self.now }
        ensures kept { (from.new.of ≡ from.old.of) × (from.new.begins ≡ from.old.begins)
            × (from.old.seen ≤ from.new.seen) }
        ensures distinct { IsDistinct from.new.drawn }
        ensures low { NoneBelow from.new.begins from.new.drawn }
        ensures ok { IfOk result (λ s. (s ≡ cut_from from.old)
            × (from.new.share ≡ half from.old.share) × (from.new.seen ≤ 2147483647)
            × (from.new.drawn ≡ from.old.drawn ++ from.new.seen ∷ [])
            × IsNext from.old from.new.seen) }
        ensures err { IfErr result (λ e. NoSeat e from.old from.new) }
    {
        if look(&self.word, &mut from.place) > MOST {
            return Err(PidError::PidsExhausted);
        }
        if draw_for_seat(&self.word, &mut from.place) > MOST {
            return Err(PidError::PidsExhausted);
        }
        Ok(PidSeat {
            place: cut(&self.word, &mut from.place),
        })
    }
}

impl PidSeat {
    /// Takes in the numbers and the share of another seat. It takes no memory.
    pub fn meet(
        &mut self,
        generator: &RandomPidSecretKeyGenerator,
        other: PidSeat,
    ) -> Result<(), PidSeat>
        requires { (self.old.of ≡ generator.now) × (other.of ≡ generator.now) }
        ensures done { IsOk result }
        ensures ok { IfOk result (λ _. (self.new ≡ joint_numbers self.old other) ×
            IsDistinct self.new.drawn
            × NoneBelow self.new.begins self.new.drawn) }
    {
        let PidSeat { place } = other;
        take_in(&generator.word, &mut self.place, place);
        Ok(())
    }
}

// Loads the word.
fn look(word: &Word, place: &mut Place) -> u64
    requires { (word.now.shared.table_id.words ≡ 1)
        × (place.old.table_id ≡ word.now.shared.table_id) }
    ensures place { (place.new.table_id ≡ place.old.table_id) × (place.new.me.1 ≡ place.old.me.1)
        × (place.new.me.0 ≡ saw place.old.me.0 result) }
    ensures told { (place.old.me.0.seen ≤ result)
        × (result ≤ 2147483647 → above place.old.me.0.drawn ≡ 0)
        × DrewAll place.old.me.0.begins place.old.me.0.drawn place.old.me.0.share result }
{
    word.shared.load::<Looks>(place, 0)
}

// Draws the number of the word.
fn draw(word: &Word, place: &mut Place) -> u64
    requires table { (word.now.shared.table_id.words ≡ 1)
        × (place.old.table_id ≡ word.now.shared.table_id) }
    requires room { (0 < place.old.me.0.seats) × (above place.old.me.0.drawn ≡ 0)
        × (0 < place.old.me.0.share.parts) }
    ensures place { (place.new.table_id ≡ place.old.table_id) × (place.new.me.1 ≡ place.old.me.1)
        × (place.new.me.0 ≡ drew place.old.me.0 result place.old.me.0.owes) }
    ensures told { (place.old.me.0.seen ≤ result) × IsDistinct place.new.me.0.drawn
        × NoneBelow place.new.me.0.begins place.new.me.0.drawn × (place.old.me.0.begins ≤ result)
        × DrewAll place.old.me.0.begins place.old.me.0.drawn place.old.me.0.share result }
{
    word.shared.fetch_add::<Draws>(place, 0, 1)
}

// Draws the number of the word for a seat, and marks that the seat is owed, if it is a process number.
fn draw_for_seat(word: &Word, place: &mut Place) -> u64
    requires table { (word.now.shared.table_id.words ≡ 1)
        × (place.old.table_id ≡ word.now.shared.table_id) }
    requires room { (0 < place.old.me.0.seats) × (above place.old.me.0.drawn ≡ 0)
        × (0 < place.old.me.0.share.parts) }
    ensures place { (place.new.table_id ≡ place.old.table_id) × (place.new.me.1 ≡ place.old.me.1)
        × (place.new.me.0 ≡ drew place.old.me.0 result (leb result 2147483647)) }
    ensures told { (place.old.me.0.seen ≤ result) × IsDistinct place.new.me.0.drawn
        × NoneBelow place.new.me.0.begins place.new.me.0.drawn × (place.old.me.0.begins ≤ result)
        × DrewAll place.old.me.0.begins place.old.me.0.drawn place.old.me.0.share result }
{
    word.shared.fetch_add::<DrawsForSeat>(place, 0, 1)
}

// Makes the seat that is owed.
fn cut(word: &Word, place: &mut Place) -> Place
    requires table { (word.now.shared.table_id.words ≡ 1)
        × (place.old.table_id ≡ word.now.shared.table_id) }
    requires owes { place.old.me.0.owes ≡ true }
    ensures place { (place.new.table_id ≡ place.old.table_id) × (place.new.me.1 ≡ place.old.me.1)
        × (place.new.me.0 ≡ with_seat_made place.old.me.0) }
    ensures made { (result.table_id ≡ place.old.table_id) × (result.me.1 ≡ [])
        × (result.me.0 ≡ newcomer place.old.me.0) }
{
    word.shared.split_seat::<Seats>(place)
}

// Takes the other's numbers in, and compares them.
fn take_in(word: &Word, place: &mut Place, other: Place)
    requires table { (word.now.shared.table_id.words ≡ 1)
        × (place.old.table_id ≡ word.now.shared.table_id)
        × (other.table_id ≡ word.now.shared.table_id) }
    requires other { other.me.1 ≡ [] }
    requires parts { IsSomeShare place.old.me.0.share × IsSomeShare other.me.0.share }
    ensures place { (place.new.table_id ≡ place.old.table_id) × (place.new.me.1 ≡ place.old.me.1)
        × (place.new.me.0 ≡ both_of place.old.me.0 other.me.0) }
    ensures told { IsDistinct place.new.me.0.drawn
        × NoneBelow place.new.me.0.begins place.new.me.0.drawn }
{
    word.shared.join_seat::<Seats>(place, other);
    word.shared.load::<Compares>(place, 0);
}
