//! What the tests share. A test proves what it calls, so each comparison and each refusal's text is made here, once.
use pgw_types::memory::OutOfMemory;
use pgw_types::text::Text;
use std::alloc::Global;
use std::fmt::Debug;
use std::test::Fail;

/// That a text is the one that is wanted.
pub fn same<E: Debug + Drop>(found: Result<String, E>, want: &str) -> Result<(), Fail> {
    let found = found?;
    if found.as_str() == want {
        return Ok(());
    }
    Err(Fail::new(format_args!("{} and not {want}", found.as_str())))
}

/// That a text of the protocol's is the one that is wanted.
pub fn same_text<E: Debug + Drop>(found: Result<Text, E>, want: &str) -> Result<(), Fail> {
    same(found.map(Text::into_string), want)
}

/// That a client's last message and the signature are those that are wanted.
pub fn same_reply<E: Debug + Drop>(
    found: Result<(Text, [u8; 44]), E>,
    message: &str,
    signature: &str,
) -> Result<(), Fail> {
    let (text, bytes) = found?;
    same_text::<E>(Ok(text), message)?;
    same_bytes(&bytes, signature)
}

/// That bytes are those of the text that is wanted.
pub fn same_bytes(found: &[u8], want: &str) -> Result<(), Fail> {
    if found == want.as_bytes() {
        return Ok(());
    }
    Err(Fail::new(format_args!("{found:?} and not {want}")))
}

/// How a value is shown. Of any type, since a type with many variants makes the proof of a `format!` long.
pub fn told<T: Debug + Drop>(alloc: Global, value: T) -> Result<String, OutOfMemory> {
    Ok(format!(in alloc; "{value:?}")?)
}

/// The text that is sent, or how its refusal is shown.
pub fn sent<T: Drop, E: Debug + Drop>(
    alloc: Global,
    answer: Result<(Text, T), E>,
) -> Result<String, OutOfMemory> {
    match answer {
        Ok(sent) => Ok(String::from_str(alloc, sent.0.as_str())?),
        Err(error) => told(alloc, error),
    }
}
