//! What no clause says: worked bytes, printed texts, constants, and that each call succeeds where there is memory.
//! The cases of `pgw_codec_cases` test what is read and written of each message.

mod columns;
mod constants;
mod errors;
mod flags;
mod lists;
mod login;
mod refused;
mod shared;
mod shown;
mod values;
