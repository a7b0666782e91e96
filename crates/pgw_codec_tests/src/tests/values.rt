//! Texts, bytes, lists, parameters and keys.

use crate::tests::shared::{same, told};
use pgw_types::boxed::Boxed;
use pgw_types::listed::{Duplicate, Listed};
use pgw_types::memory::OutOfMemory;
use pgw_types::octets::Octets;
use pgw_types::text::Text;
use pgw_wire::params::Params;
use pgw_wire::secret_key::SecretKey;
use std::alloc::Global;
use std::test::Fail;

fn text_length(alloc: Global) -> Result<usize, OutOfMemory> {
    let text = Text::from_str(alloc, "na\u{ef}ve")?;
    Ok(text.duplicate()?.len())
}

fn cut(alloc: Global) -> Result<Octets, OutOfMemory> {
    let octets = Octets::from_slice(alloc, &[1, 2, 3])?;
    octets.slice(1, 3)
}

fn cut_copy(alloc: Global) -> Result<Octets, OutOfMemory> {
    let octets = cut(alloc)?;
    let copy = octets.duplicate();
    drop(octets);
    copy
}

fn cut_shown(alloc: Global) -> Result<String, OutOfMemory> {
    let copy = cut_copy(alloc)?;
    let shown = told(alloc, copy.as_slice());
    drop(copy);
    shown
}

fn list(alloc: Global) -> Result<Listed<Option<u16>>, OutOfMemory> {
    let mut list = Listed::new(alloc);
    list.push(Some(7_u16))?;
    list.push(None)?;
    Ok(list)
}

fn list_shown(alloc: Global) -> Result<String, OutOfMemory> {
    let list = list(alloc)?;
    let copy = list.duplicate()?;
    Ok(format!(in alloc; "{:?}", copy.as_slice())?)
}

#[test]
fn small_types(rt: HostRuntime) -> Result<(), Fail> {
    let alloc = rt.alloc();
    assert!(rt; text_length(alloc)? == 6);
    same(cut_shown(alloc), "[2, 3]")?;
    same(list_shown(alloc), "[Some(7), None]")?;
    assert!(rt; Boxed::new(alloc, 7_u8)?.into_inner() == 7);
    Ok(())
}

const PARAMS: &[(&str, &str)] = &[("b", "1"), ("a", "2"), ("b", "3")];

fn insert(alloc: Global, params: &mut Params, name: &str, value: &str) -> Result<(), OutOfMemory> {
    let name = Text::from_str(alloc, name)?;
    params.insert(name, Text::from_str(alloc, value)?)
}

fn params(alloc: Global) -> Result<Params, OutOfMemory> {
    let mut params = Params::new(alloc);
    for (name, value) in PARAMS {
        insert(alloc, &mut params, name, value)?;
    }
    Ok(params)
}

// Names and values, and whether a copy has the same.
fn params_shown(alloc: Global, params: &Params) -> Result<String, OutOfMemory> {
    let mut shown = String::new(alloc);
    for (name, value) in params.iter() {
        shown.push_str(name.as_str())?;
        shown.push_str(value.as_str())?;
    }
    Ok(shown)
}

fn copy_shown(alloc: Global) -> Result<String, OutOfMemory> {
    let params = params(alloc)?;
    let copy = params.duplicate()?;
    if copy == params {
        params_shown(alloc, &copy)
    } else {
        Ok(String::from_str(alloc, "a copy differs")?)
    }
}

#[test]
fn params_in_order(rt: HostRuntime) -> Result<(), Fail> {
    same(copy_shown(rt.alloc()), "a2b3")
}

fn key(alloc: Global) -> Result<SecretKey, OutOfMemory> {
    Ok(SecretKey::Bytes(SecretKey::I32(1).to_bytes(alloc)?))
}

fn key_shown(alloc: Global) -> Result<String, OutOfMemory> {
    let bytes = SecretKey::I32(1).to_bytes(alloc)?;
    Ok(format!(in alloc; "{:?}", bytes.as_slice())?)
}

// Whether the key has the bytes of the numbers, and its own number.
fn key_compared(alloc: Global) -> Result<String, OutOfMemory> {
    let same = key(alloc)?;
    let copy = same.duplicate()?;
    let one = SecretKey::I32(1).eq_value(&copy);
    let minus_one = SecretKey::I32(-1).eq_value(&same);
    Ok(format!(in alloc; "{one} {minus_one} {:?}", same.as_i32())?)
}

#[test]
fn key_bytes(rt: HostRuntime) -> Result<(), Fail> {
    same(key_shown(rt.alloc()), "[0, 0, 0, 1]")?;
    same(key_compared(rt.alloc()), "true false Some(1)")
}
