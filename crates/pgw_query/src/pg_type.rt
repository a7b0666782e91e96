//! Types of columns.
ghost use Rattle.std.specs.Prelude.{◌≡◌};
ghost use Rattle.pgw_query.specs.Fields.{type_of, oid_of};

use pgw_types::listed::Duplicate;
use pgw_types::memory::OutOfMemory;

/// A type by its object identifier (pg_type). `Other` holds a number that no other variant stands for.
#[derive(Clone, Copy, Debug, PartialEq, Eq)]
pub enum PgType {
    Bool,
    Bytea,
    Name,
    Int8,
    Int2,
    Int4,
    Text,
    Unknown,
    Bpchar,
    Varchar,
    Other(u32),
}

impl PgType {
    /// The type of a number. It is `Other` only where no other variant has the number.
    #[tactic(auto, unfolding(crate::specs::Fields::type_of))]
    pub fn from_oid(oid: u32) -> PgType
        ensures { result ≡ type_of oid }
    {
        match oid {
            16 => PgType::Bool,
            17 => PgType::Bytea,
            19 => PgType::Name,
            20 => PgType::Int8,
            21 => PgType::Int2,
            23 => PgType::Int4,
            25 => PgType::Text,
            705 => PgType::Unknown,
            1042 => PgType::Bpchar,
            1043 => PgType::Varchar,
            _ => PgType::Other(oid),
        }
    }

    /// The number of a type.
    pub fn oid(&self) -> u32
        ensures { result ≡ oid_of self.now }
    {
        match self {
            PgType::Bool => 16,
            PgType::Bytea => 17,
            PgType::Name => 19,
            PgType::Int8 => 20,
            PgType::Int2 => 21,
            PgType::Int4 => 23,
            PgType::Text => 25,
            PgType::Unknown => 705,
            PgType::Bpchar => 1042,
            PgType::Varchar => 1043,
            PgType::Other(oid) => *oid,
        }
    }
}

impl Duplicate for PgType {
    fn duplicate(&self) -> Result<PgType, OutOfMemory> {
        Ok(*self)
    }
}
