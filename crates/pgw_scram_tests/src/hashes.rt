//! Vectors of the public documents.
use crate::shared::{same, same_text};
use pgw_hash::hmac::hmac_sha256;
use pgw_hash::md5_password::hash_md5_password;
use pgw_hash::pbkdf2::{gen_salted_password, hi};
use pgw_hash::saslprep::saslprep;
use pgw_types::memory::OutOfMemory;
use std::alloc::Global;
use std::test::Fail;

// The test cases of RFC 4231 but the one that cuts its answer short.
const CODES: &[(&[u8], &[u8], &str)] = &[
    (
        &[0x0b; 20],
        b"Hi There",
        "b0344c61d8db38535ca8afceaf0bf12b881dc200c9833da726e9376c2e32cff7",
    ),
    (
        b"Jefe",
        b"what do ya want for nothing?",
        "5bdcc146bf60754e6a042426089575c75a003f089d2739839dec58b964ec3843",
    ),
    (
        &[0xaa; 20],
        &[0xdd; 50],
        "773ea91e36800e46854db8ebd09181a72959098b3ef8c122d9635514ced565fe",
    ),
    (
        b"\x01\x02\x03\x04\x05\x06\x07\x08\x09\x0a\x0b\x0c\x0d\x0e\x0f\x10\x11\x12\x13\x14\x15\x16\x17\x18\x19",
        &[0xcd; 50],
        "82558a389a443c0ea4cc819899f2083a85f0faa3e578f8077a2e3ff46729665b",
    ),
    (
        &[0xaa; 131],
        b"Test Using Larger Than Block-Size Key - Hash Key First",
        "60e431591ee0b67f0d8a26aacbf5b77f8e0bc6213728c5140546040f0ee37f54",
    ),
    (
        &[0xaa; 131],
        b"This is a test using a larger than block-size key and a larger than block-size data. The key needs to be hashed before being used by the HMAC algorithm.",
        "9b09ffa71b942fcb27635fbcd5b0e944bfdc63644f0713938a7f51535c3a35e2",
    ),
];

#[test]
fn codes(rt: HostRuntime) -> Result<(), Fail> {
    for (key, text, expected) in CODES {
        same(hex::encode(rt.alloc(), hmac_sha256(key, text)), expected)?;
    }
    Ok(())
}

const ROUNDS: &[(u32, &str)] = &[
    (
        1,
        "120fb6cffcf8b32c43e7225256c4f837a86548c92ccc35480805987cb70be17b",
    ),
    (
        2,
        "ae4d0c95af6b46d32d0adff928f06dd02a303f8ef3c251dfd6e2d85a95474c43",
    ),
    (
        4096,
        "c5e478d59288c841aa530db6845c4c8d962893a001ce4e11a4963873aa98134a",
    ),
];

#[test]
fn rounds(rt: HostRuntime) -> Result<(), Fail> {
    for (count, expected) in ROUNDS {
        let key = hi(b"password", b"salt", (*count).max(1));
        same(hex::encode(rt.alloc(), key), expected)?;
    }
    Ok(())
}

// The first is the example of RFC 7677. A text that can't be prepared is salted as it is.
const SALTED: &[(&str, &[u8], u32, &str)] = &[
    (
        "pencil",
        b"\x5b\x6d\x99\x68\x9d\x12\x35\x8e\xec\xa0\x4b\x14\x12\x36\xfa\x81",
        4096,
        "c4a49510323ab4f952cac1fa99441939e78ea74d6be81ddf7096e87513dc615d",
    ),
    (
        "\u{2168}",
        b"bar",
        12,
        "221b5d6347567ca171f68b23c71e4a21ee63fc93d90c1514e8bab1943e26564a",
    ),
    (
        "\u{e9}\n=",
        b"bar",
        12,
        "fc9dcd8733f2c4f017a582dad8062a613666ce41b5bff0bc710022805b897cd4",
    ),
];

fn salted(alloc: Global, password: &str, salt: &[u8], iters: u32) -> Result<String, OutOfMemory> {
    let key = gen_salted_password(alloc, password, salt, iters.max(1))?;
    Ok(hex::encode(alloc, key)?)
}

#[test]
fn salted_passwords(rt: HostRuntime) -> Result<(), Fail> {
    for (password, salt, iters, expected) in SALTED {
        same(salted(rt.alloc(), password, salt, *iters), expected)?;
    }
    Ok(())
}

const FORMS: &[(&str, &str)] = &[
    ("USER", "USER"),
    ("", ""),
    ("a\u{ff0c}b", "a,b"),
    ("\u{aa}", "a"),
    ("\u{2168}", "IX"),
    ("a\nb", "none"),
    ("\u{7}", "none"),
    ("\u{7f}", "none"),
];

fn form(alloc: Global, text: &str) -> Result<String, OutOfMemory> {
    match saslprep(alloc, text)? {
        Some(form) => Ok(String::from_str(alloc, form.as_str())?),
        None => Ok(String::from_str(alloc, "none")?),
    }
}

#[test]
fn saslprep_forms(rt: HostRuntime) -> Result<(), Fail> {
    for (text, expected) in FORMS {
        same(form(rt.alloc(), text), expected)?;
    }
    Ok(())
}

#[test]
fn md5_passwords(rt: HostRuntime) -> Result<(), Fail> {
    let salt = [0x14, 0xf7, 0x6b, 0xf9];
    let password = hash_md5_password(rt.alloc(), "zmjiang", "themanwhochangedchina", &salt);
    same_text(password, "md521fe459d77d3e3ea9c9fcd5c11030d30")
}
