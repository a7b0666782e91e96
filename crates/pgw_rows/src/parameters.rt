//! The parameters of a Bind, made of typed values.
ghost use Rattle.std.specs.Prelude.{◌≡◌, ◌==◌, [], ◌∷◌, ◌++◌, map, length, IfOk, OnOk, OnErr};
ghost use Rattle.pgw_rows.specs.Written.{code_of_format, format_code, type_oid, value_bytes, text_parameter, binary_parameter};

use crate::to_sql::ToSql;
use pgw_query::field_info::FieldFormat;
use pgw_types::listed::Listed;
use pgw_types::memory::OutOfMemory;
use pgw_types::octets::Octets;
use std::alloc::Global;
use std::marker::Model;

/// A parameter: the number of its type, its form, and its value, where NULL is none.
#[derive(Debug, Drop)]
pub struct Parameter {
    pub type_oid: u32,
    pub format: FieldFormat,
    pub value: Option<Octets>,
}

/// The parameters of a Bind, in order.
#[derive(Debug, Drop)]
pub struct Parameters {
    items: Vec<Parameter>,
}

impl Model for Parameters {
    ghost use Rattle.std.specs.Prelude.{List};
    ghost use Rattle.pgw_rows.specs.declared.parameters.Parameter.{Parameter};

    ghost Value = { List Parameter };

    ghost view = { λ parameters. parameters.items.items };
}

// The code of a form.
fn code_of(format: &FieldFormat) -> i16
    ensures { result ≡ code_of_format format.now }
{
    match format {
        FieldFormat::Text => 0,
        FieldFormat::Binary => 1,
    }
}

impl Parameters {
    /// No parameters.
    pub fn new(alloc: Global) -> Parameters
        ensures { result ≡ [] }
    {
        Parameters {
            items: Vec::new(alloc),
        }
    }

    /// How many there are.
    pub fn len(&self) -> usize
        ensures { result ≡ length self.now }
    {
        self.items.len()
    }

    pub fn is_empty(&self) -> bool
        ensures { result ≡ (length self.now == 0) }
    {
        self.items.is_empty()
    }

    fn push(&mut self, parameter: Parameter) -> Result<(), OutOfMemory>
        ensures ok { OnOk result (self.new ≡ self.old ++ parameter ∷ []) }
        ensures err { OnErr result (self.new ≡ self.old) }
    {
        self.items.push(parameter)?;
        Ok(())
    }

    /// Adds a value in text form.
    pub fn push_text<T: ToSql>(&mut self, alloc: Global, value: &T) -> Result<(), OutOfMemory>
        ensures ok { OnOk result
            (self.new ≡ self.old ++ text_parameter T.value_type (T.as_text value.now) ∷ []) }
        ensures err { OnErr result (self.new ≡ self.old) }
    {
        let value = value.to_sql_text(alloc)?;
        self.push(Parameter {
            type_oid: T::sql_type().oid(),
            format: FieldFormat::Text,
            value,
        })
    }

    /// Adds a value in binary form. A server reads it as of its own type alone.
    pub fn push_binary<T: ToSql>(&mut self, alloc: Global, value: &T) -> Result<(), OutOfMemory>
        ensures ok { OnOk result
            (self.new ≡ self.old ++ binary_parameter T.value_type (T.as_binary value.now) ∷ []) }
        ensures err { OnErr result (self.new ≡ self.old) }
    {
        let value = value.to_sql(alloc)?;
        self.push(Parameter {
            type_oid: T::sql_type().oid(),
            format: FieldFormat::Binary,
            value,
        })
    }

    /// The numbers of their types, as a statement may be told.
    pub fn type_oids(&self, alloc: Global) -> Result<Listed<u32>, OutOfMemory>
        ensures { IfOk result (λ oids. oids ≡ map type_oid self.now) }
    {
        let mut oids = Vec::new(alloc);
        for parameter in &self.items {
            oids.push(parameter.type_oid)?;
        }
        Ok(Listed::from_vec(oids))
    }

    /// The codes of their forms.
    pub fn format_codes(&self, alloc: Global) -> Result<Listed<i16>, OutOfMemory>
        ensures { IfOk result (λ codes. codes ≡ map format_code self.now) }
    {
        let mut codes = Vec::new(alloc);
        for parameter in &self.items {
            codes.push(code_of(&parameter.format))?;
        }
        Ok(Listed::from_vec(codes))
    }

    /// The values.
    pub fn into_values(self, alloc: Global) -> Result<Listed<Option<Octets>>, OutOfMemory>
        ensures { IfOk result (λ values. values ≡ map value_bytes self) }
    {
        let Parameters { items } = self;
        let mut values = Vec::new(alloc);
        for parameter in items {
            values.push(parameter.value)?;
        }
        Ok(Listed::from_vec(values))
    }
}
