//! What the tests share. A test proves what it calls, so each comparison is made here, once.
use pgw_types::memory::OutOfMemory;
use std::alloc::Global;
use std::fmt::Debug;
use std::test::Fail;

/// That a text is the one that is wanted.
pub fn same<E: Debug + Drop>(found: Result<String, E>, want: &str) -> Result<(), Fail> {
    let found = found?;
    if found.as_str() == want {
        return Ok(());
    }
    Err(Fail::new(format_args!("{} and not {want}", found.as_str())))
}

/// How a value is shown. Of any type, since a type with many variants makes the proof of a `format!` long.
pub fn told<T: Debug + Drop>(alloc: Global, value: T) -> Result<String, OutOfMemory> {
    Ok(format!(in alloc; "{value:?}")?)
}

/// Adds how a value is shown, and a semicolon.
pub fn add<T: Debug + Drop>(
    alloc: Global,
    words: &mut String,
    value: T,
) -> Result<(), OutOfMemory> {
    let text = format!(in alloc; "{value:?}; ")?;
    Ok(words.push_str(text.as_str())?)
}
