//! What the program knows of its values, for proofs: texts are UTF-8, and numbers fit. Each call answers true, and stands in a `prove!`, which costs nothing.
ghost use Rattle.std.specs.Prelude.{IsTrue, IsUtf8};
ghost use Rattle.pgw_wire.specs.Keys.{IsKey};
ghost use Rattle.pgw_wire.specs.Sound.{AreTexts, IsOid, AreOids, IsCode, AreCodes};

use crate::secret_key::SecretKey;
use pgw_types::text::Text;

pub fn is_utf8(text: &Text) -> bool
    ensures yes { IsTrue result }
    ensures sound { IsUtf8 text.now }
{
    let _ = text.as_str();
    true
}

pub fn are_texts(texts: &[Text]) -> bool
    ensures yes { IsTrue result }
    ensures sound { AreTexts texts.now }
{
    for text in texts {
        is_utf8(text);
    }
    true
}

fn is_oid(oid: &u32)
    ensures { IsOid oid.now }
{
    let _oid = *oid;
}

pub fn are_oids(oids: &[u32]) -> bool
    ensures yes { IsTrue result }
    ensures sound { AreOids oids.now }
{
    for oid in oids {
        is_oid(oid);
    }
    true
}

fn is_code(code: &i16)
    ensures { IsCode code.now }
{
    let _code = *code;
}

pub fn are_codes(codes: &[i16]) -> bool
    ensures yes { IsTrue result }
    ensures sound { AreCodes codes.now }
{
    for code in codes {
        is_code(code);
    }
    true
}

pub fn is_key(key: &SecretKey) -> bool
    ensures yes { IsTrue result }
    ensures sound { IsKey key.now }
{
    match key {
        SecretKey::I32(n) => {
            let _n = *n;
        }
        SecretKey::Bytes(_) => {}
    }
    true
}
