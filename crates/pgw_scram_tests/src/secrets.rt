//! Tests of stored secrets and of files of passwords: the example of RFC 7677, whole logins, texts and files.

mod files;
mod secrets;
