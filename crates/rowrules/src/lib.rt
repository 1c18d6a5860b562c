// Whether rows keep the rules: the berth and the fields of each, how many a berth has, and that none is hidden.
#![tactic(auto)]

ghost use Rattle.std.specs.Prelude.{◌≡◌};
ghost use mathlib.Core.List.{map, zip_with};
ghost use Rattle.model.specs.Classes as order;
ghost use Rattle.model.specs.Places.{all, all_in, any, sure};
ghost use Rattle.model.specs.Rules.{field_plain, fields_ok};
ghost use Rattle.lists.specs.Folds.{count_in};
ghost use Rattle.store.specs.Packed.{unpacked_berth, unpacked_column, unpacked_field};
ghost use Rattle.rowrules.specs.Kept.{field_kept, field_shown, of_berth, room_in, room_kept, row_kept, row_shown};

use class::same_class;
use field::{fits_kind, is_hidden};
use model::{Class, Field};
use store::{Berth, Column, Row};

// ---- the berth of a row

// Whether a berth is there and is of a class.
#[tactic(auto, unfolding(store::specs::Packed::unpacked_berth))]
pub(crate) fn is_berth(c: Class, b: Berth) -> bool
    ensures { result ≡ sure (order.same c) (unpacked_berth b) }
{
    b.there && same_class(c, b.class)
}

// Whether one of the berths is of a class.
pub(crate) fn has_berth(c: Class, l: [Berth; 4]) -> bool
    ensures { result ≡ any (sure (order.same c)) (map unpacked_berth l) }
{
    l.iter().any(|&b| is_berth(c, b))
}

// ---- the fields of a row

// Whether a field is of its column's kind, blank or hidden.
#[tactic(auto, unfolding(store::specs::Packed::unpacked_column, store::specs::Packed::column_of, store::specs::Packed::unpacked_field, model::specs::Rules::field_ok, model::specs::Rules::value_ok))]
pub(crate) fn field_ok(k: Column, f: Field) -> bool
    ensures { result ≡ field_kept k f }
{
    !k.there || fits_kind(k.kind, f.value) || is_hidden(f.value)
}

// Whether each field is of its column's kind, blank or hidden.
pub(crate) fn fields_ok(ks: [Column; 8], l: [Field; 8]) -> bool
    ensures { result ≡ fields_ok (map unpacked_column ks) (zip_with unpacked_field ks l) }
{
    ks.iter().zip(l.iter()).all(|(&k, &f)| field_ok(k, f))
}

// ---- rows

// Whether a row has a berth, and fields that its columns take.
#[tactic(auto, unfolding(model::specs::Rules::row_ok, store::specs::Packed::unpacked_row))]
pub(crate) fn row_ok(bs: [Berth; 4], ks: [Column; 8], r: Row) -> bool
    ensures { result ≡ row_kept bs ks r }
{
    has_berth(r.exist, bs) && fields_ok(ks, r.fields)
}

// Whether each row has a berth, and fields that its columns take.
pub fn rows_ok(bs: [Berth; 4], ks: [Column; 8], rows: &[Row]) -> bool
    ensures { result ≡ all (row_kept bs ks) rows.now }
{
    rows.iter().all(|&r| row_ok(bs, ks, r))
}

// ---- how many rows a berth has

// How many of the rows are of a class.
pub(crate) fn in_berth(c: Class, rows: &[Row]) -> usize
    ensures { result ≡ count_in (of_berth c) rows.now }
{
    rows.iter().filter(|r| same_class(r.exist, c)).count()
}

// Whether a berth has at most 8 rows.
pub(crate) fn room_ok(rows: &[Row], b: Berth) -> bool
    ensures { result ≡ room_kept rows.now b }
{
    !b.there || in_berth(b.class, rows) <= 8
}

// Whether each berth has at most 8 rows.
pub fn rooms_ok(rows: &[Row], l: [Berth; 4]) -> bool
    ensures { result ≡ all_in (room_in rows.now) (map unpacked_berth l) }
{
    l.iter().all(|&b| room_ok(rows, b))
}

// ---- no field is hidden

// Whether a field is not hidden, or its column is absent.
#[tactic(auto, unfolding(model::specs::Rules::field_plain))]
pub(crate) fn field_plain(k: Column, f: Field) -> bool
    ensures { result ≡ field_shown k f }
{
    !k.there || !is_hidden(f.value)
}

// Whether no field is hidden. (One chain, as `fields_ok`: a function that takes the test would be longer than both.)
pub(crate) fn fields_plain(ks: [Column; 8], l: [Field; 8]) -> bool
    ensures { result ≡ all_in field_plain (zip_with unpacked_field ks l) }
{
    ks.iter().zip(l.iter()).all(|(&k, &f)| field_plain(k, f))
}

// Whether no field is hidden in the rows.
#[tactic(auto, unfolding(model::specs::Rules::row_plain, store::specs::Packed::unpacked_row))]
pub fn rows_plain(ks: [Column; 8], rows: &[Row]) -> bool
    ensures { result ≡ all (row_shown ks) rows.now }
{
    rows.iter().all(|&r| fields_plain(ks, r.fields))
}
