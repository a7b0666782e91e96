//! The base of the codec.
//!
//! To the crates of messages it promises that a reader takes just what its kind of field is spelled as, that a writer
//! appends just that, and that a message which says its row of the message table has `decode` and `encode` by that row:
//! the reading, the limit, the order of refusals. A refusal leaves the buffer as it was. Messages whose body has no bytes
//! stand here, for every type byte (`empty`).
#![tactic(auto)]

pub mod buffer;
pub mod counted;
pub mod empty;
pub mod equality;
pub mod field;
pub mod framing;
pub mod header;
pub mod item;
pub mod kinds;
pub mod limits;
pub mod message;
pub mod params;
pub mod reader;
pub mod secret_key;
pub mod sound;
pub mod writer;

pub use crate::buffer::Buffer;
pub use crate::counted::{put_counted16, take_counted16};
pub use crate::empty::{EmptyRequest, EmptyResponse};
pub use crate::field::{Field, list_len, put_list, take_list, unsigned_count};
pub use crate::framing::{Framing, frame_of};
pub use crate::header::{length_at, whole_end};
pub use crate::item::{Item, take_up_to_mark};
pub use crate::kinds::{decode_as, duplicate_as};
pub use crate::limits::{LARGE_LIMIT, LONG_LIMIT, SMALL_BACKEND_LIMIT, SMALL_LIMIT};
pub use crate::message::Message;
pub use crate::params::{Params, ParamsIter};
pub use crate::reader::{FieldReader, lossy_text};
pub use crate::secret_key::SecretKey;
pub use crate::sound::{are_codes, are_oids, are_texts, is_key, is_utf8};
pub use crate::writer::{
    Writer, append, has_zero, put_header, put_i16, put_i32, put_text, put_u8, put_u16, put_u32,
    refused_if,
};
