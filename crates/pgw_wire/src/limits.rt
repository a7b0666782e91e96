//! How long a message may be: the greatest length that its length field may say, as the server and libpq bound it.

/// What a client sends that carries no text of its own (`PQ_SMALL_MESSAGE_LIMIT` of PostgreSQL).
pub const SMALL_LIMIT: usize = 10000;

/// What a server sends that is no long message (30,000 in libpq's `pqParseInput3`).
pub const SMALL_BACKEND_LIMIT: usize = 30000;

/// A query, its parameters, data of COPY: one byte less than PostgreSQL allocates at once (`PQ_LARGE_MESSAGE_LIMIT`).
pub const LARGE_LIMIT: usize = 1073741822;

/// A server's long messages: rows, errors and notices, notifications, descriptions. The greatest Int32.
pub const LONG_LIMIT: usize = 2147483647;
