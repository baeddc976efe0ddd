//! Whether two places are the same, as they are written.

ghost use Rattle.std.specs.Prelude.{◌≡◌, true};

use pw_code::place::{Kind, PlaceSubscript, PlaceTable, StoragePlace};

/// Whether two kinds are the same.
#[inline(always)]
pub fn are_alike(one: Kind, other: Kind) -> bool
    ensures { result ≡ true → one ≡ other }
{
    match (one, other) {
        (
            Kind::Number {
                digits,
                places,
                signed,
            },
            Kind::Number {
                digits: other_digits,
                places: other_places,
                signed: other_signed,
            },
        ) => digits == other_digits && places == other_places && signed == other_signed,
        (Kind::Group, Kind::Group) | (Kind::Text, Kind::Text) => true,
        _ => false,
    }
}

/// Whether two subscripts are the same.
#[inline(always)]
fn are_one_subscript(one: PlaceSubscript, other: PlaceSubscript) -> bool
    ensures { result ≡ true → one ≡ other }
{
    match (one, other) {
        (PlaceSubscript::Number(number), PlaceSubscript::Number(other_number)) => {
            number == other_number
        }
        (
            PlaceSubscript::Item { at, digits, places },
            PlaceSubscript::Item {
                at: other_at,
                digits: other_digits,
                places: other_places,
            },
        ) => at == other_at && digits == other_digits && places == other_places,
        _ => false,
    }
}

/// Whether two tables are the same.
#[inline(always)]
fn are_one_table(one: &Option<PlaceTable>, other: &Option<PlaceTable>) -> bool
    ensures { result ≡ true → one.now ≡ other.now }
{
    match (one, other) {
        (None, None) => true,
        (Some(table), Some(other_table)) => {
            table.occurs == other_table.occurs
                && table.step == other_table.step
                && are_one_subscript(table.subscript, other_table.subscript)
        }
        _ => false,
    }
}

/// Whether two places are the same, as they are written. Two with a register as their subscript are taken for others.
#[inline(always)]
pub fn are_one_place(one: &StoragePlace, other: &StoragePlace) -> bool
    ensures { result ≡ true → one.now ≡ other.now }
{
    one.at == other.at
        && one.size == other.size
        && are_alike(one.kind, other.kind)
        && are_one_table(&one.table, &other.table)
}
