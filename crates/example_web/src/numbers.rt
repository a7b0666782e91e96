//! The route `/numbers`.
ghost use Rattle.std.specs.Prelude.{IfOk};
ghost use Rattle.example_web.specs.Asked.{CanGoOn};

use crate::clients::{Asked, Clients, Host};
use anyhow::{Context as _, Result};
use bytes::Bytes;
use futures::future::{Either, Ready};
use futures::task::{Context, Poll};
use futures::{Future, FutureExt, future, ready};
use http_body_util::Full;
use hyper::body::Incoming;
use hyper::service::Service;
use hyper::{Request, Response, StatusCode, header};
use pgw_client::{Answer, ErrorInfo, Listed, PgWireClientError, PgWireClientResult, Text};
use std::alloc::{AllocGlobal, Global};
use std::rc::Rc;
use tokio::sync::OwnedSemaphorePermit;

// So many rows are asked for at most.
const MOST: u32 = 100_000;

const JSON_LINES: &str = "application/x-ndjson";

const PLAIN: &str = "text/plain";

type Reply = Result<Response<Full<Bytes>>>;

fn reply(alloc: Global, status: StatusCode, kind: &'static str, text: String) -> Reply {
    let reply = Response::builder(alloc)
        .status(status)
        .header(header::CONTENT_TYPE, kind)
        .body(Full::new(Bytes::from_string(text)?))?;
    Ok(reply)
}

fn refusal(alloc: Global, status: StatusCode) -> Reply {
    reply(alloc, status, PLAIN, format!(in alloc; "{status}\n")?)
}

// A line for each row.
fn lines(alloc: Global, responses: Listed<pgw_client::Response>) -> Result<String> {
    let mut lines = String::new(alloc);
    for response in responses.into_vec() {
        let mut rows = response.into_data_rows_reader(alloc);
        for _ in 0..u64::MAX {
            let Some(mut row) = rows.next_row() else {
                break
            };
            let n: i32 = row.next_value(alloc)?.context("NULL")?;
            let square: i32 = row.next_value(alloc)?.context("NULL")?;
            writeln!(lines, "{{\"n\":{n},\"square\":{square}}}")?;
        }
    }
    Ok(lines)
}

// The status of a reply where the server could not be asked, or gave no answer. Standard error says why.
fn status_of<R: Host>(rt: &R, error: PgWireClientError) -> StatusCode {
    let _ = eprintln!(rt; "no answer: {error}");
    match error {
        PgWireClientError::OutOfMemory => StatusCode::INTERNAL_SERVER_ERROR,
        _ => StatusCode::BAD_GATEWAY,
    }
}

fn reply_to<R: Host>(rt: &R, answer: PgWireClientResult<Answer>) -> Reply {
    let alloc = rt.alloc();
    match answer {
        Ok(Answer::Responses(responses)) => {
            reply(alloc, StatusCode::OK, JSON_LINES, lines(alloc, responses)?)
        }
        Ok(Answer::Remote(error)) => {
            let error = ErrorInfo::from_fields(error.fields);
            let text = format!(in alloc; "{}: {}\n", error.code, error.message)?;
            reply(alloc, StatusCode::INTERNAL_SERVER_ERROR, PLAIN, text)
        }
        // No other answer is that of a simple query.
        Ok(_) => refusal(alloc, StatusCode::BAD_GATEWAY),
        Err(error) => refusal(alloc, status_of(rt, error)),
    }
}

// How many rows are asked for.
fn count_of<B>(request: &Request<B>) -> Result<u32, StatusCode> {
    let uri = request.uri();
    if request.method().as_str() != "GET" || uri.path() != "/numbers" {
        return Err(StatusCode::NOT_FOUND);
    }
    uri.query()
        .and_then(|query| query.strip_prefix("n="))
        .and_then(|count| count.parse().ok())
        .filter(|count| *count <= MOST)
        .ok_or(StatusCode::BAD_REQUEST)
}

/// A service whose one route answers with rows: `/numbers?n=3` with three.
#[derive(Clone, Drop)]
pub(crate) struct Numbers<R> {
    rt: R,
    clients: Rc<Clients<R>>,
}

impl<R: Host> Numbers<R> {
    pub(crate) fn new(rt: R, clients: Rc<Clients<R>>) -> Numbers<R> {
        Numbers { rt, clients }
    }

    fn ask(&self, count: u32, place: OwnedSemaphorePermit) -> PgWireClientResult<Asked<R>>
        ensures { IfOk result (λ asked. CanGoOn asked.step) }
    {
        let alloc = self.rt.alloc();
        let sql = format!(in alloc; "SELECT n, n * n FROM generate_series(1, {count}) AS n")?;
        Asked::new(self.clients.clone()?, place, Text::from_string(sql))
    }

    fn begin<B>(&self, request: &Request<B>) -> Result<Asked<R>, StatusCode>
        ensures { IfOk result (λ asked. CanGoOn asked.step) }
    {
        let count = count_of(request)?;
        let place = self.clients.place().ok_or(StatusCode::SERVICE_UNAVAILABLE)?;
        self.ask(count, place)
            .map_err(|error| status_of(&self.rt, error))
    }
}

impl<R: Host, I: Drop> Service<Request<Incoming<I>>> for Numbers<R> {
    type Response = Response<Full<Bytes>>;

    type Error = anyhow::Error;

    type Future = Either<Ready<Reply>, Answering<R>>;

    fn call(&self, request: Request<Incoming<I>>) -> Self::Future {
        match self.begin(&request) {
            Ok(asked) => Answering { rt: self.rt, asked }.right_future(),
            Err(status) => future::ready(refusal(self.rt.alloc(), status)).left_future(),
        }
    }
}

/// The reply to a request that is asked of the server: a future.
#[derive(Drop)]
pub(crate) struct Answering<R> {
    rt: R,
    asked: Asked<R>,
}

impl<R: Host> Future for Answering<R> {
    type Output = Reply;

    ghost can_poll = { λ answering. CanGoOn answering.asked.step };

    fn poll(&mut self, cx: &mut Context<'_>) -> Poll<Reply> {
        let answer = ready!(self.asked.poll(cx));
        Poll::Ready(reply_to(&self.rt, answer))
    }
}
