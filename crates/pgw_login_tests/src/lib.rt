//! Tests of a server's side of a login, message by message, that need its public calls alone: of each handler, of logins by
//! SASL, and of the core that holds them.
#![tactic(auto)]

#[cfg(test)]
mod cancels;
#[cfg(test)]
mod handlers;
#[cfg(test)]
mod holding;
#[cfg(test)]
mod methods;
#[cfg(test)]
mod registered;
#[cfg(test)]
mod sasl;
#[cfg(test)]
mod server;
#[cfg(test)]
mod server_handlers;
#[cfg(test)]
mod support;
#[cfg(test)]
mod values;
#[cfg(test)]
mod words;
