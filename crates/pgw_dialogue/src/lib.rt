//! A session whose bytes the caller moves.
//!
//! To a caller that has its own input and output it promises, of all bytes given and put out that a dialogue stands for,
//! what `run_session` promises of bytes read and written: what is put out, what each call answers with its cause, and
//! the report.
#![tactic(auto)]

pub mod answers;
pub mod demands;
pub mod dialogue;
pub mod equality;
pub mod inbox;
pub mod input;
pub mod laws;
pub mod logins;
pub mod machine;
mod phase;
pub mod requests;
pub mod rows;
pub mod standings;
mod steps;
pub mod table;
pub mod wire;

pub use crate::answers::{columns, no_tally, types};
pub use crate::demands::check_config;
pub use crate::dialogue::Dialogue;
pub use crate::inbox::{Inbox, InboxParts};
pub use crate::input::Input;
pub use crate::logins::{
    cleartext_message, final_refusal, first_message, md5_message, must_bind, password_of,
    response_message, scram_login, takes_method, text_password, user_of,
};
pub use crate::machine::{Progress, advance, end_error, into_report, start, startup_message};
pub use crate::phase::DialoguePhase;
pub use crate::requests::{kind_of, put_request, sends_of, sync};
pub use crate::rows::{take_rows, takes_rows};
pub use crate::standings::{first_standing, own_key};
pub use crate::table::{after, behind_error, by_role, is_ready, role};
pub use crate::wire::{decode, put_all, put_query};
