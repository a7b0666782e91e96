//! Many threads over few sessions.

use crate::shared::servers::{LEASE, name, start};
use pgw_client::{Answer, MemoryLink, PgWireClientResult, Request};
use pgw_pool_shared::{GivenBack, Numbers, SharedPool};
use std::alloc::Global;
use std::process::Abort;
use std::sync::atomic::{AtomicU64, Ordering};
use std::sync::{Mutex, Wait};
use std::test::Fail;
use std::thread;
use std::thread::Threads;
use std::time::{Clock, Duration};

const THREADS: usize = 4;

const LEASES: usize = 10;

const SESSIONS: usize = 2;

// What the threads did together.
#[derive(Drop)]
struct Done {
    numbers: Mutex<Vec<u64>>,
    answered: AtomicU64,
    kept: AtomicU64,
}

impl Done {
    fn note<R: Wait>(&self, rt: &R, number: u64) {
        let _noted = self.numbers.lock(rt).push(number);
    }

    fn count_answer(&self, came: &PgWireClientResult<Answer>) {
        if matches!(came, Ok(Answer::Responses(_))) {
            self.answered.fetch_add(1, Ordering::SeqCst);
        }
    }

    fn count_end(&self, given_back: &GivenBack) {
        if name(given_back) == "kept" {
            self.kept.fetch_add(1, Ordering::SeqCst);
        }
    }
}

// One lease: a request is asked in it, and it is given back.
fn lease_once<R: Wait + Clock>(
    rt: &R,
    pool: &SharedPool<MemoryLink>,
    request: &Request,
    done: &Done,
) {
    let Ok(mut lease) = pool.lend(rt, Some(Duration::from_secs(30))) else {
        return;
    };
    done.note(rt, lease.number());
    done.count_answer(&lease.run(request));
    thread::yield_now();
    done.count_end(&pool.give_back(rt, lease));
}

fn leases<R: Wait + Clock>(rt: &R, pool: &SharedPool<MemoryLink>, request: &Request, done: &Done) {
    for _ in 0..LEASES {
        lease_once(rt, pool, request, done);
    }
}

fn take_all<R: Threads + Wait + Clock + Sync>(
    rt: &R,
    pool: &SharedPool<MemoryLink>,
    request: &Request,
    done: &Done,
) {
    thread::scope(thread::scope_env(), rt, |scope| {
        for _ in 0..THREADS {
            if scope
                .spawn(move || leases(rt, pool, request, done))
                .is_err()
            {
                return;
            }
        }
    });
}

// What the threads do with one request.
fn leases_of_all<R: Threads + Wait + Clock + Sync>(
    rt: &R,
    alloc: Global,
    pool: &SharedPool<MemoryLink>,
) -> Result<Done, Fail> {
    let request = Request::simple(alloc, "SELECT 1")?;
    let done = Done {
        numbers: Mutex::new(Vec::new(alloc)),
        answered: AtomicU64::new(0),
        kept: AtomicU64::new(0),
    };
    take_all(rt, pool, &request, &done);
    Ok(done)
}

fn check<R: Abort>(rt: &R, numbers: Numbers, done: &Done) {
    let answered = done.answered.load(Ordering::SeqCst);
    let kept = done.kept.load(Ordering::SeqCst);
    assert_eq!(rt; (answered, kept), (40, 40));
    assert_eq!(rt;
        (numbers.ready, numbers.out, numbers.waiting),
        (SESSIONS, 0, 0)
    );
}

fn sorted(done: Done) -> Result<Vec<u64>, Fail> {
    let Done { numbers, .. } = done;
    let mut numbers = numbers.into_inner();
    numbers.sort()?;
    Ok(numbers)
}

// Each lease has its own number, from 1 on.
fn check_numbers<R: Abort>(rt: &R, numbers: &[u64]) {
    assert_eq!(rt; numbers.len(), THREADS * LEASES);
    for (place, number) in numbers.iter().enumerate() {
        assert_eq!(rt; *number, place as u64 + 1);
    }
}

fn check_leases<R: Abort + Threads + Wait + Clock + Sync>(
    rt: &R,
    alloc: Global,
    pool: &SharedPool<MemoryLink>,
) -> Result<(), Fail> {
    let done = leases_of_all(rt, alloc, pool)?;
    check(rt, pool.numbers(rt), &done);
    let numbers = sorted(done)?;
    check_numbers(rt, numbers.as_slice());
    Ok(())
}

#[test]
fn each_lease_is_answered_and_reset(rt: HostRuntime) -> Result<(), Fail> {
    let pool = start(rt.alloc(), &[(LEASE, 40); SESSIONS], THREADS)?;
    check_leases(&rt, rt.alloc(), &pool)?;
    let lent = pool.into_pool().lent();
    assert_eq!(rt; lent, 40);
    Ok(())
}
