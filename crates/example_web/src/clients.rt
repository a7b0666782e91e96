//! A few clients of one server, which are kept between the questions that they are asked.
ghost use Rattle.std.specs.Prelude.{IfOk};
ghost use Rattle.example_web.specs.Asked.{CanGoOn, WebStepGoesOn};

use futures::task::{Context, Poll};
use futures::{Future, ready};
use pgw_client::{Answer, Config, PgWireClientResult, Text};
use pgw_tokio::{
    Answered, Asking, AsyncClient, Connecting, LoggingIn, NotLoggedIn, connect, log_in,
};
use pgw_types::listed::Duplicate;
use rand::RngExt;
use rand::rngs::StdRng;
use std::alloc::{AllocError, AllocGlobal};
use std::cell::RefCell;
use std::io;
use std::io::Eprint;
use std::net::{Net, SocketAddr};
use std::random::RandomSource;
use std::rc::Rc;
use std::sync::Arc;
use std::time::Clock;
use tokio::net::TcpStream;
use tokio::runtime::Handle;
use tokio::sync::{OwnedSemaphorePermit, Semaphore};

type Client = AsyncClient<TcpStream>;

// So many questions are asked at a time, each of a client of its own.
const PLACES: usize = 8;

// The most bytes that a client reads. One that has read so many is replaced.
const LIMIT: u64 = 1_000_000_000;

/// What is needed of the runtime.
pub(crate) trait Host: Net + Clock + RandomSource + AllocGlobal + Eprint + Copy {}

impl<R: Net + Clock + RandomSource + AllocGlobal + Eprint + Copy> Host for R {}

/// The clients that are kept, and what it takes to connect more.
#[derive(Drop)]
pub(crate) struct Clients<R> {
    rt: R,
    handle: Handle,
    server: SocketAddr,
    config: Config,
    places: Arc<Semaphore>,
    idle: RefCell<Vec<Client>>,
}

impl<R: Host> Clients<R> {
    pub(crate) fn new(
        rt: R,
        handle: Handle,
        server: SocketAddr,
        config: Config,
    ) -> Result<Clients<R>, AllocError> {
        let alloc = rt.alloc();
        Ok(Clients {
            rt,
            handle,
            server,
            config,
            places: Arc::new(alloc, Semaphore::new(alloc, PLACES)?)?,
            idle: RefCell::new(Vec::new(alloc)),
        })
    }

    /// A place to ask a question, where one is free. Once it is let go it is free again.
    pub(crate) fn place(&self) -> Option<OwnedSemaphorePermit> {
        Semaphore::try_acquire_owned(Arc::try_clone(&self.places).ok()?).ok()
    }

    fn take_idle(&self) -> Option<Client> {
        self.idle.try_borrow_mut().ok()?.pop()
    }

    // Keeps a client for the next question. Where there is no memory for that it is let go.
    fn keep(&self, client: Client) {
        if let Ok(mut idle) = self.idle.try_borrow_mut() {
            let _ = idle.push(client);
        }
    }

    fn connect(&self) -> PgWireClientResult<Step>
        ensures { IfOk result CanGoOn }
    {
        let connecting = connect(&self.rt, &self.handle, self.server, &self.config)?;
        Ok(Step::Connecting(connecting))
    }

    fn log_in(&self, stream: TcpStream) -> PgWireClientResult<Step>
        ensures { IfOk result CanGoOn }
    {
        let rng: io::Result<StdRng> = rand::make_rng(&self.rt);
        let nonce: [u8; 18] = rng?.random();
        let config = self.config.duplicate()?;
        match log_in(self.rt.alloc(), stream, config, &nonce, LIMIT) {
            Ok(logging_in) => Ok(Step::LoggingIn(logging_in)),
            Err(refused) => Err(refused.error),
        }
    }
}

// How far a question has come.
#[derive(Drop)]
enum Step {
    Connecting(Connecting),
    LoggingIn(LoggingIn<TcpStream>),
    Asking(Asking<TcpStream>),
}

// What comes behind a step.
enum Next {
    Step(Step),
    Answer(Answer),
}

/// A question that is asked: a future of its answer.
///
/// A client that was kept may have lost its server since. So where such a client fails, the question is asked once
/// more, of a new one: it is to be a question that may be asked twice.
///
/// Where the future is let go before it has ended, its client and its place go with it. So a client whose answer is
/// still to come is never kept.
#[derive(Drop)]
pub(crate) struct Asked<R> {
    clients: Rc<Clients<R>>,
    place: OwnedSemaphorePermit,
    sql: Text,
    was_kept: bool,
    step: Step,
}

impl<R: Host> Asked<R> {
    pub(crate) fn new(
        clients: Rc<Clients<R>>,
        place: OwnedSemaphorePermit,
        sql: Text,
    ) -> PgWireClientResult<Asked<R>>
        ensures { IfOk result (λ asked. CanGoOn asked.step) }
    {
        let idle = clients.take_idle();
        let was_kept = idle.is_some();
        let step = match idle {
            Some(client) => Step::Asking(client.simple_query(sql.clone()?)),
            None => clients.connect()?,
        };
        Ok(Asked {
            clients,
            place,
            sql,
            was_kept,
            step,
        })
    }

    fn connected(&self, connected: io::Result<TcpStream>) -> PgWireClientResult<Next>
        ensures { IfOk result WebStepGoesOn }
    {
        Ok(Next::Step(self.clients.log_in(connected?)?))
    }

    fn logged_in(
        &self,
        logged_in: Result<Client, NotLoggedIn<TcpStream>>,
    ) -> PgWireClientResult<Next>
        ensures { IfOk result WebStepGoesOn }
    {
        match logged_in {
            Ok(client) => Ok(Next::Step(Step::Asking(client.simple_query(self.sql.clone()?)))),
            Err(refused) => Err(refused.error),
        }
    }

    // Once more, of a new client.
    fn ask_again(&mut self) -> PgWireClientResult<Next>
        ensures { IfOk result WebStepGoesOn }
    {
        self.was_kept = false;
        Ok(Next::Step(self.clients.connect()?))
    }

    fn answered(&mut self, answered: Answered<TcpStream>) -> PgWireClientResult<Next>
        ensures { IfOk result WebStepGoesOn }
    {
        let Answered { client, answer } = answered;
        if client.is_usable() {
            self.clients.keep(client);
        } else if self.was_kept {
            return self.ask_again();
        }
        Ok(Next::Answer(answer?))
    }
}

impl<R: Host> Future for Asked<R> {
    type Output = PgWireClientResult<Answer>;

    ghost can_poll = { λ asked. CanGoOn asked.step };

    fn poll(&mut self, cx: &mut Context<'_>) -> Poll<PgWireClientResult<Answer>> {
        let next = match &mut self.step {
            Step::Connecting(connecting) => {
                let connected = ready!(connecting.poll(cx));
                self.connected(connected)
            }
            Step::LoggingIn(logging_in) => {
                let logged_in = ready!(logging_in.poll(cx));
                self.logged_in(logged_in)
            }
            Step::Asking(asking) => {
                let answered = ready!(asking.poll(cx));
                self.answered(answered)
            }
        };
        match next {
            Ok(Next::Step(step)) => {
                self.step = step;
                // Polled again at once, at this step.
                cx.yield_now()
            }
            Ok(Next::Answer(answer)) => Poll::Ready(Ok(answer)),
            Err(error) => Poll::Ready(Err(error)),
        }
    }
}
