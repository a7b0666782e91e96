//! The attributes of a message (RFC 5802, section 7).
ghost use Rattle.std.specs.Prelude.{◌≡◌, option_map};
ghost use Rattle.std.specs.Option.{option_copied};
ghost use Rattle.pgw_scram.specs.Readers.{cut, cut_last, behind_name, attribute_at, two_at, behind_mext};
ghost use Rattle.pgw_scram.specs.Shown.{attribute_parts, shown_two};

/// The value of an attribute, and what stands behind the comma after it.
#[derive(Clone, Copy, Drop)]
pub(crate) struct Attribute<'a> {
    pub(crate) value: &'a str,
    pub(crate) rest: Option<&'a str>,
}

/// The values of two attributes, and what stands behind the comma after them.
#[derive(Clone, Copy, Drop)]
pub(crate) struct TwoAttributes<'a> {
    pub(crate) first: &'a str,
    pub(crate) second: &'a str,
    pub(crate) rest: Option<&'a str>,
}

/// A value up to the first comma or the end.
pub(crate) fn cut(text: &str) -> Attribute<'_>
    ensures { attribute_parts result ≡ cut text.now }
{
    match text.split_once(',') {
        Some((value, rest)) => Attribute {
            value,
            rest: Some(rest),
        },
        None => Attribute {
            value: text,
            rest: None,
        },
    }
}

/// What stands before the last comma, and behind it.
pub(crate) fn cut_last(text: &str) -> Option<(&str, &str)>
    ensures { option_map (λ p. (p.0.now, p.1.now)) result ≡ cut_last text.now }
{
    text.rsplit_once(',')
}

/// What stands behind a name.
pub(crate) fn behind_name<'a>(text: &'a str, name: &str) -> Option<&'a str>
    ensures { option_copied result ≡ behind_name name.now text.now }
{
    text.strip_prefix(name)
}

pub(crate) fn attribute_at<'a>(text: &'a str, name: &str) -> Option<Attribute<'a>>
    ensures { option_map attribute_parts result ≡ attribute_at name.now text.now }
{
    let value = behind_name(text, name)?;
    Some(cut(value))
}

/// Two attributes, one behind the other.
#[tactic(auto, unfolding(crate::specs::Readers::two_at))]
pub(crate) fn two_at<'a>(text: &'a str, first: &str, second: &str) -> Option<TwoAttributes<'a>>
    ensures { option_map shown_two result ≡ two_at first.now second.now text.now }
{
    let one = attribute_at(text, first)?;
    let two = attribute_at(one.rest?, second)?;
    Some(TwoAttributes {
        first: one.value,
        second: two.value,
        rest: two.rest,
    })
}

/// What stands behind an extension in front that is reserved, or all.
pub(crate) fn behind_mext(text: &str) -> &str
    ensures { result.now ≡ behind_mext text.now }
{
    match attribute_at(text, "m=") {
        Some(
            Attribute {
                value: _,
                rest: Some(rest),
            },
        ) => rest,
        _ => text,
    }
}
