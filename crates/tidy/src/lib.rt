// Whether the columns and the rows of a table are tidy: each class and value is one of ours, and what is absent is its constant.
#![tactic(auto)]

ghost use Rattle.std.specs.Prelude.{◌≡◌};
ghost use Rattle.model.specs.Places.{all};
ghost use Rattle.model.specs.Classes as order;
ghost use Rattle.lists.specs.Folds.{all_pairs};
ghost use Rattle.store.specs.Packed.{bottom};
ghost use Rattle.store.specs.Canonical.{field_empty, column_empty, column_tidy, field_tidy, row_tidy, row_empty};

use class::{class_sound, same_class};
use field::{field_sound, same_value};
use model::{Class, Field, Kind, Value};
use store::{Column, LOWEST, Row};

// ---- fields

// Whether a class is the lowest.
pub fn is_bottom(k: Class) -> bool
    ensures { result ≡ order.same k bottom }
{
    same_class(k, LOWEST)
}

// Whether a field is the constant: of the lowest class, and blank.
#[tactic(auto, unfolding(store::specs::Canonical::field_empty))]
pub(crate) fn field_empty(f: Field) -> bool
    ensures { result ≡ field_empty f }
{
    // A value has no derived `==`, since it may hold a float.
    is_bottom(f.class) && same_value(f.value, Value::Blank)
}

// Whether each field of a row is the constant.
pub(crate) fn fields_empty(l: [Field; 8]) -> bool
    ensures { result ≡ all field_empty l }
{
    l.iter().all(|&f| field_empty(f))
}

// ---- columns

// Whether a column holds what the constant does: group 0, counts, and the constant as its default.
#[tactic(auto, unfolding(store::specs::Canonical::column_empty, model::specs::Values::kind_letter))]
pub(crate) fn column_empty(k: Column) -> bool
    ensures { result ≡ column_empty k }
{
    k.group == 0 && k.kind == Kind::Counts && field_empty(k.default)
}

// Whether a column is tidy: its default is one of ours, and it is the constant where it is absent.
#[tactic(auto, unfolding(store::specs::Canonical::column_tidy))]
pub fn column_tidy(k: Column) -> bool
    ensures { result ≡ column_tidy k }
{
    field_sound(k.default) && (k.there || column_empty(k))
}

// ---- rows

// Whether a field is tidy under its column: one of ours, and the constant where the column is absent.
#[tactic(auto, unfolding(store::specs::Canonical::field_tidy))]
pub(crate) fn field_tidy(k: Column, f: Field) -> bool
    ensures { result ≡ field_tidy k f }
{
    field_sound(f) && (k.there || field_empty(f))
}

// Whether each field of a row is tidy under its column. (One chain with its own test, as `rowrules::fields_ok`.)
pub(crate) fn fields_tidy(ks: [Column; 8], l: [Field; 8]) -> bool
    ensures { result ≡ all_pairs field_tidy ks l }
{
    ks.iter().zip(l.iter()).all(|(&k, &f)| field_tidy(k, f))
}

// Whether a row is tidy under the columns of its table: of a class of ours, and its fields tidy.
#[tactic(auto, unfolding(store::specs::Canonical::row_tidy))]
pub(crate) fn row_tidy(ks: [Column; 8], r: Row) -> bool
    ensures { result ≡ row_tidy ks r }
{
    class_sound(r.exist) && fields_tidy(ks, r.fields)
}

// Whether each row is tidy.
pub fn rows_tidy(ks: [Column; 8], rows: &[Row]) -> bool
    ensures { result ≡ all (row_tidy ks) rows.now }
{
    rows.iter().all(|&r| row_tidy(ks, r))
}

// Whether a row is the constant.
#[tactic(auto, unfolding(store::specs::Canonical::row_empty))]
pub(crate) fn row_empty(r: Row) -> bool
    ensures { result ≡ row_empty r }
{
    is_bottom(r.exist) && fields_empty(r.fields)
}

// Whether each row is the constant.
pub fn rows_empty(rows: &[Row]) -> bool
    ensures { result ≡ all row_empty rows.now }
{
    rows.iter().all(|&r| row_empty(r))
}
