//! Columns of a result, by their names.
ghost use Rattle.std.specs.Prelude.{◌≡◌, ◌≢◌, ◌↔◌, IsTrue, All, IfSome, IfNone};
ghost use Rattle.pgw_client_ask.specs.Columns.{IsFirstColumn};

use pgw_client::FieldInfo;

// Whether a column has this name.
fn has_name(field: &FieldInfo, name: &str) -> bool
    ensures { IsTrue result ↔ (field.now.name ≡ name.now) }
{
    field.name.as_str() == name
}

/// The place of the first column of this name, counted from 0.
pub fn column(fields: &[FieldInfo], name: &str) -> Option<usize>
    ensures found { IfSome result (IsFirstColumn fields.now name.now) }
    ensures none { IfNone result (All (λ f. f.name ≢ name.now) fields.now) }
{
    for (place, field) in fields.iter().enumerate() {
        if has_name(field, name) {
            return Some(place);
        }
    }
    None
}
