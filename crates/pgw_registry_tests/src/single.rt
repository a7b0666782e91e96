//! One thread on the registry, and threads that draw numbers.
ghost use Rattle.std.specs.Prelude.{◌≡◌, IfSome};

use pgw_registry::error::{LookError, PidError, RegistryError};
use pgw_registry::generator::{PidSeat, PidSecretKeyGenerator, RandomPidSecretKeyGenerator};
use pgw_registry::registry::Registry;
use pgw_types::context::ProtocolVersion;
use pgw_types::memory::OutOfMemory;
use pgw_types::octets::Octets;
use pgw_wire::secret_key::SecretKey;
use std::alloc::Global;
use std::test::Fail;
use std::thread;
use std::thread::Threads;

// A call of a registry. Handles and queries are numbered from 1, each for itself.
#[derive(Clone, Copy)]
enum Act {
    Handle,
    Register(i32, &'static [u8]),
    Start(u64),
    CancelHandle(u64),
    Cancel(i32, &'static [u8]),
    Look(u64),
    Finish(u64),
    Close(u64),
    Release(i32, &'static [u8]),
}

fn number_word(answer: Result<u64, RegistryError>) -> &'static str {
    match answer {
        Ok(1) => "1",
        Ok(2) => "2",
        Ok(_) => "another number",
        Err(_) => "refused",
    }
}

fn canceled_word(answer: Result<bool, RegistryError>) -> &'static str {
    match answer {
        Ok(true) => "canceled",
        Ok(false) => "not canceled",
        Err(_) => "refused",
    }
}

fn looked_word(answer: Result<Option<()>, LookError>) -> &'static str {
    match answer {
        Ok(Some(())) => "fired",
        Ok(None) => "waits",
        Err(LookError::Canceled) => "over",
        Err(LookError::Exhausted) => "refused",
    }
}

fn done_word(answer: Result<(), RegistryError>) -> &'static str {
    match answer {
        Ok(()) => "done",
        Err(_) => "refused",
    }
}

fn register(
    alloc: Global,
    registry: &mut Registry,
    pid: i32,
    key: &[u8],
) -> Result<&'static str, OutOfMemory> {
    let key = Octets::from_slice(alloc, key)?;
    Ok(number_word(registry.register(pid, key)))
}

fn answer_to(
    alloc: Global,
    registry: &mut Registry,
    act: Act,
) -> Result<&'static str, OutOfMemory> {
    Ok(match act {
        Act::Handle => number_word(registry.new_handle()),
        Act::Register(pid, key) => register(alloc, registry, pid, key)?,
        Act::Start(handle) => number_word(registry.start_query(handle)),
        Act::CancelHandle(handle) => canceled_word(registry.cancel_handle(handle)),
        Act::Cancel(pid, key) => canceled_word(registry.cancel(pid, key)),
        Act::Look(query) => looked_word(registry.look(query)),
        Act::Finish(query) => done_word(registry.finish(query)),
        Act::Close(handle) => done_word(registry.close_handle(handle)),
        Act::Release(pid, key) => done_word(registry.release(pid, key)),
    })
}

const QUERIES: &[(Act, &str)] = &[
    (Act::Handle, "1"),
    (Act::Start(1), "1"),
    (Act::Start(1), "2"),
    (Act::Look(1), "over"),
    (Act::Look(2), "waits"),
    (Act::CancelHandle(1), "canceled"),
    (Act::Look(2), "fired"),
    (Act::Look(2), "over"),
    (Act::CancelHandle(1), "not canceled"),
    (Act::Finish(2), "done"),
];

// The number of the first act that is answered by another word.
fn first_other(alloc: Global, acts: &[(Act, &str)]) -> Result<Option<usize>, OutOfMemory> {
    let mut registry = Registry::new(alloc);
    for (number, (act, word)) in acts.iter().enumerate() {
        if answer_to(alloc, &mut registry, *act)? != *word {
            return Ok(Some(number));
        }
    }
    Ok(None)
}

#[test]
fn queries(rt: HostRuntime) -> Result<(), Fail> {
    assert_eq!(rt; first_other(rt.alloc(), QUERIES)?, None);
    Ok(())
}

const KEY: &[u8] = &[0, 0, 0, 1];

// A handle that is given up too often takes its pair with it.
const PAIRS: &[(Act, &str)] = &[
    (Act::Register(7, KEY), "1"),
    (Act::Register(7, KEY), "1"),
    (Act::Start(1), "1"),
    (Act::Cancel(7, KEY), "canceled"),
    (Act::Look(1), "fired"),
    (Act::Cancel(7, &[0, 0, 0, 2]), "not canceled"),
    (Act::Release(7, KEY), "done"),
    (Act::Cancel(7, KEY), "not canceled"),
    (Act::Cancel(999, &[0, 0, 0, 0]), "not canceled"),
    (Act::Register(7, KEY), "2"),
    (Act::Close(2), "done"),
    (Act::Cancel(7, KEY), "canceled"),
    (Act::Close(2), "done"),
    (Act::Cancel(7, KEY), "not canceled"),
];

#[test]
fn pairs(rt: HostRuntime) -> Result<(), Fail> {
    assert_eq!(rt; first_other(rt.alloc(), PAIRS)?, None);
    Ok(())
}

const WORDS: [u8; 32] = [
    0, 0, 0, 1, 0, 0, 0, 0, 0, 0, 0, 0, 0, 0, 0, 0, 0, 0, 0, 0, 0, 0, 0, 0, 0, 0, 0, 0, 0, 0, 0, 0,
];

// The number that is drawn with this key: 0 where there is none, and -1 where the key is another.
fn drawn(
    generator: &RandomPidSecretKeyGenerator,
    seat: &mut PidSeat,
    version: ProtocolVersion,
    key: &SecretKey,
) -> i32
    requires { seat.old.of ≡ generator.now }
    ensures { seat.new.of ≡ seat.old.of }
{
    match generator.generate(seat, version, &WORDS) {
        Ok((number, own)) => { if own == *key { number } else { -1 } }
        Err(_) => 0,
    }
}

fn short_drawn(generator: &RandomPidSecretKeyGenerator, seat: &mut PidSeat) -> i32
    requires { seat.old.of ≡ generator.now }
    ensures { seat.new.of ≡ seat.old.of }
{
    drawn(
        generator,
        seat,
        ProtocolVersion::PROTOCOL3_0,
        &SecretKey::I32(1),
    )
}

fn long_drawn(
    alloc: Global,
    generator: &RandomPidSecretKeyGenerator,
    seat: &mut PidSeat,
) -> Result<i32, OutOfMemory>
    requires { seat.old.of ≡ generator.now }
    ensures { seat.new.of ≡ seat.old.of }
{
    let key = SecretKey::Bytes(Octets::from_slice(alloc, &WORDS)?);
    Ok(drawn(generator, seat, ProtocolVersion::PROTOCOL3_2, &key))
}

// What two seats draw, and what one of them draws under a later version once they have met.
fn split(
    alloc: Global,
    generator: &RandomPidSecretKeyGenerator,
    mut first: PidSeat,
) -> Result<(i32, i32, i32), PidError>
    requires { first.of ≡ generator.now }
{
    let mut second = generator.seat(&mut first)?;
    let one = short_drawn(generator, &mut first);
    let two = short_drawn(generator, &mut second);
    match first.meet(generator, second) {
        Ok(()) => Ok((one, two, long_drawn(alloc, generator, &mut first)?)),
        Err(_) => Ok((one, two, -2)),
    }
}

#[test]
fn seats_split(rt: HostRuntime) -> Result<(), Fail> {
    let (generator, seat) = RandomPidSecretKeyGenerator::new(rt.alloc())?;
    assert_eq!(rt;
        split(rt.alloc(), &generator, seat)?,
        (100001, 100002, 100003)
    );
    Ok(())
}

fn pid_word<T: Drop>(answer: Result<T, PidError>) -> &'static str {
    match answer {
        Ok(_) => "drawn",
        Err(PidError::PidsExhausted) => "exhausted",
        Err(PidError::OutOfMemory) => "no memory",
    }
}

fn ended(
    generator: &RandomPidSecretKeyGenerator,
    mut seat: PidSeat,
) -> (i32, &'static str, &'static str)
    requires { seat.of ≡ generator.now }
{
    let last = short_drawn(generator, &mut seat);
    let version = ProtocolVersion::PROTOCOL3_0;
    let next = pid_word(generator.generate(&mut seat, version, &WORDS));
    (last, next, pid_word(generator.seat(&mut seat)))
}

#[test]
fn numbers_end(rt: HostRuntime) -> Result<(), Fail> {
    let (generator, seat) = RandomPidSecretKeyGenerator::starting_at(rt.alloc(), i32::MAX)?;
    assert_eq!(rt;
        ended(&generator, seat),
        (i32::MAX, "exhausted", "exhausted")
    );
    Ok(())
}

// What a thread draws.
fn many(
    alloc: Global,
    generator: &RandomPidSecretKeyGenerator,
    mut seat: PidSeat,
) -> Option<(PidSeat, Vec<i32>)>
    requires { seat.of ≡ generator.now }
    ensures { IfSome result (λ r. r.0.of ≡ seat.of) }
{
    let version = ProtocolVersion::PROTOCOL3_0;
    let mut numbers = Vec::new(alloc);
    for _ in 0..1000 {
        let (number, _) = generator.generate(&mut seat, version, &[0; 32]).ok()?;
        numbers.push(number).ok()?;
    }
    Some((seat, numbers))
}

// What two threads draw.
fn both(
    generator: &RandomPidSecretKeyGenerator,
    first: Option<(PidSeat, Vec<i32>)>,
    second: Option<(PidSeat, Vec<i32>)>,
) -> Option<(PidSeat, Vec<i32>)>
    requires first { IfSome first (λ r. r.0.of ≡ generator.now) }
    requires second { IfSome second (λ r. r.0.of ≡ generator.now) }
    ensures { IfSome result (λ r. r.0.of ≡ generator.now) }
{
    let (mut seat, mut numbers) = first?;
    let (other, others) = second?;
    seat.meet(generator, other).ok()?;
    numbers.extend_from_slice(others.as_slice()).ok()?;
    Some((seat, numbers))
}

fn two<R: Threads + Sync>(
    rt: &R,
    alloc: Global,
    generator: &RandomPidSecretKeyGenerator,
    first: PidSeat,
    second: PidSeat,
) -> Option<(PidSeat, Vec<i32>)>
    requires first { first.of ≡ generator.now }
    requires second { second.of ≡ generator.now }
    ensures { IfSome result (λ r. r.0.of ≡ generator.now) }
{
    let (first, second) = thread::join(
        rt,
        || -> Option<(PidSeat, Vec<i32>)>
            requires { first.of ≡ generator.now }
            ensures { IfSome result (λ r. r.0.of ≡ first.of) }
        { many(alloc, generator, first) },
        || -> Option<(PidSeat, Vec<i32>)>
            requires { second.of ≡ generator.now }
            ensures { IfSome result (λ r. r.0.of ≡ second.of) }
        { many(alloc, generator, second) },
    );
    both(generator, first, second)
}

// What two pairs of threads draw.
fn pairs_of_threads<R: Threads + Sync>(
    rt: &R,
    alloc: Global,
    generator: &RandomPidSecretKeyGenerator,
    left: (PidSeat, PidSeat),
    right: (PidSeat, PidSeat),
) -> Option<(PidSeat, Vec<i32>)>
    requires left { (left.0.of ≡ generator.now) × (left.1.of ≡ generator.now) }
    requires right { (right.0.of ≡ generator.now) × (right.1.of ≡ generator.now) }
{
    let (first, second) = left;
    let (third, fourth) = right;
    let (left, right) = thread::join(
        rt,
        || -> Option<(PidSeat, Vec<i32>)>
            requires { (first.of ≡ generator.now) × (second.of ≡ generator.now) }
            ensures { IfSome result (λ r. r.0.of ≡ generator.entry.now) }
        { two(rt, alloc, generator, first, second) },
        || -> Option<(PidSeat, Vec<i32>)>
            requires { (third.of ≡ generator.now) × (fourth.of ≡ generator.now) }
            ensures { IfSome result (λ r. r.0.of ≡ generator.entry.now) }
        { two(rt, alloc, generator, third, fourth) },
    );
    both(generator, left, right)
}

// A seat, and one that is cut from it.
fn cut(generator: &RandomPidSecretKeyGenerator, mut first: PidSeat) -> Option<(PidSeat, PidSeat)>
    requires { first.of ≡ generator.now }
    ensures { IfSome result (λ r. (r.0.of ≡ generator.now) × (r.1.of ≡ generator.now)) }
{
    let second = generator.seat(&mut first).ok()?;
    Some((first, second))
}

fn four<R: Threads + Sync>(rt: &R, alloc: Global) -> Option<Vec<i32>> {
    let (generator, seat) = RandomPidSecretKeyGenerator::new(alloc).ok()?;
    let (left, right) = cut(&generator, seat)?;
    let left = cut(&generator, left)?;
    let right = cut(&generator, right)?;
    Some(pairs_of_threads(rt, alloc, &generator, left, right)?.1)
}

#[test]
fn four_threads_draw_each_number_once(rt: HostRuntime) -> Result<(), Fail> {
    let mut numbers = four(&rt, rt.alloc()).ok_or("a thread drew nothing")?;
    numbers.sort()?;
    assert_eq!(rt; numbers.len(), 4000);
    assert!(rt; numbers.windows(2).all(|two| matches!(two, [a, b] if a < b)));
    Ok(())
}
