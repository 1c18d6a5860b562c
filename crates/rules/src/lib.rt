// Whether a store by value keeps the rules.
#![tactic(auto)]

ghost use Rattle.std.specs.Prelude.{◌≡◌, Bool};
ghost use Rattle.model.specs.Places.{all, any, twice};
ghost use Rattle.model.specs.Rules.{plain, ruled};
ghost use Rattle.store.specs.Packed.{unpacked};
ghost use Rattle.rules.specs.Kept.{alike, berth_kept, column_kept, directory_kept, directory_shown, group_over, table_kept, table_shown};
ghost use Rattle.rules.specs.Ours.{ours, ours_plain};

use canon::canonical_store;
use class::{dominates, same_class};
use field::fits_kind;
use model::Class;
use rowrules::{rooms_ok, rows_ok, rows_plain};
use store::{Berth, Column, Directory, Group, Store, Table};

// ---- berths

// Whether a berth is absent, or lies between a table's class and its maximum.
#[tactic(auto, unfolding(model::specs::Rules::berth_ok))]
pub(crate) fn berth_ok(class: Class, max: Class, b: Berth) -> bool
    ensures { result ≡ berth_kept class max b }
{
    !b.there || (dominates(b.class, class) && dominates(max, b.class))
}

// Whether each berth lies between a table's class and its maximum.
pub(crate) fn berths_ok(class: Class, max: Class, l: [Berth; 4]) -> bool
    ensures { result ≡ all (berth_kept class max) l }
{
    l.iter().all(|&b| berth_ok(class, max, b))
}

// Whether two berths are there and are of one class.
#[tactic(auto, unfolding(model::specs::Rules::same_berth, store::specs::Packed::unpacked_berth))]
pub(crate) fn same_berth(a: Berth, b: Berth) -> bool
    ensures { result ≡ alike a b }
{
    a.there && b.there && same_class(a.class, b.class)
}

// Whether one of some berths is there and of the class of a given one.
pub(crate) fn among_berths(a: Berth, l: &[Berth]) -> bool
    ensures { result ≡ any (alike a) l.now }
{
    l.iter().any(|&b| same_berth(a, b))
}

// Whether two of the berths are of one class.
pub(crate) fn berths_twice(l: &[Berth]) -> bool
    ensures { result ≡ twice alike l.now }
{
    match l {
        [] => false,
        [a, rest @ ..] => among_berths(*a, rest) || berths_twice(rest),
    }
}

// ---- columns

// Whether the group at a number is there and dominates a class.
#[tactic(auto, using(crate::proofs::GroupLaws::group_read, crate::proofs::GroupLaws::group_past), unfolding(store::specs::Packed::unpacked_group))]
pub(crate) fn group_over(gs: [Group; 4], n: u8, c: Class) -> bool
    ensures { result ≡ group_over gs n c }
{
    gs.get(usize::from(n))
        .is_some_and(|g| g.there && dominates(g.exist, c))
}

// Whether a column is absent, or its group dominates its default, which is blank or of its kind.
#[tactic(auto, unfolding(model::specs::Rules::column_ok, store::specs::Packed::column_of))]
pub(crate) fn column_ok(gs: [Group; 4], k: Column) -> bool
    ensures { result ≡ column_kept gs k }
{
    !k.there || (group_over(gs, k.group, k.default.class) && fits_kind(k.kind, k.default.value))
}

// Whether the group of each column dominates its default, which is blank or of its kind.
pub(crate) fn columns_ok(gs: [Group; 4], l: [Column; 8]) -> bool
    ensures { result ≡ all (column_kept gs) l }
{
    l.iter().all(|&k| column_ok(gs, k))
}

// ---- tables, directories, the store

// A part with rows in it: a table, or a directory. What is absent passes. (The two tests of each are not twins: one is of the rules, one of what a sheet may show.)
pub(crate) trait Ruled: Copy {
    ghost kept: { Self → Bool };

    ghost shown: { Self → Bool };

    // Whether it is absent, or keeps the rules.
    fn is_ok(&self) -> bool
        ensures { result ≡ kept self.now };

    // Whether it is absent, or no field of its rows is hidden.
    fn is_plain(&self) -> bool
        ensures { result ≡ shown self.now };
}

// Whether each part is absent, or keeps the rules.
pub(crate) fn all_ok<T: Ruled>(parts: &[T]) -> bool
    ensures { result ≡ all T.kept parts.now }
{
    parts.iter().all(|p| p.is_ok())
}

// Whether no field is hidden in the parts that are there.
pub(crate) fn all_plain<T: Ruled>(parts: &[T]) -> bool
    ensures { result ≡ all T.shown parts.now }
{
    parts.iter().all(|p| p.is_plain())
}

// Whether a table is absent, or its berths, columns and rows keep the rules. (By value: the lengths of its arrays are known then.)
#[tactic(auto, using(crate::proofs::TableLaws::table_ruled), unfolding(store::specs::Packed::rows_in))]
pub(crate) fn table_ok(t: Table) -> bool
    ensures { result ≡ table_kept t }
{
    !t.there
        || (dominates(t.max, t.class)
            && berths_ok(t.class, t.max, t.berths)
            && !berths_twice(&t.berths)
            && columns_ok(t.groups, t.columns)
            && rows_ok(t.berths, t.columns, t.held())
            && rooms_ok(t.held(), t.berths))
}

// A table keeps the rules if its berths, columns and rows do.
impl Ruled for Table {
    ghost kept = { table_kept };

    ghost shown = { table_shown };

    fn is_ok(&self) -> bool {
        table_ok(*self)
    }

    #[tactic(auto, using(crate::proofs::TableLaws::table_shown_is), unfolding(store::specs::Packed::rows_in))]
    fn is_plain(&self) -> bool {
        !self.there || rows_plain(self.columns, self.held())
    }
}

// A directory keeps the rules if its tables do.
impl Ruled for Directory {
    ghost kept = { directory_kept };

    ghost shown = { directory_shown };

    #[tactic(auto, using(crate::proofs::TableLaws::directory_ruled))]
    fn is_ok(&self) -> bool {
        !self.there || all_ok(&self.tables)
    }

    #[tactic(auto, using(crate::proofs::TableLaws::directory_shown_is))]
    fn is_plain(&self) -> bool {
        !self.there || all_plain(&self.tables)
    }
}

// Whether what a store stands for keeps the rules of the parts.
#[tactic(auto, using(crate::proofs::TableLaws::store_ruled))]
pub fn ruled_store(s: Store) -> bool
    ensures { result ≡ ruled (unpacked s) }
{
    all_ok(&s.dirs)
}

// Whether no row's field is hidden in what a store stands for.
#[tactic(auto, using(crate::proofs::TableLaws::store_shown))]
pub fn plain_store(s: Store) -> bool
    ensures { result ≡ plain (unpacked s) }
{
    all_plain(&s.dirs)
}

// ---- a store that is ours

// Whether a store is canonical and keeps the rules.
#[tactic(auto, using(crate::proofs::OursLaws::canonical_rules), unfolding(crate::specs::Ours::ours))]
pub fn keeps_rules(s: Store) -> bool
    ensures { result ≡ ours s }
{
    canonical_store(s) && ruled_store(s)
}

// Whether a store is canonical and keeps the rules, and no row's field is hidden: what a sheet is to give.
#[tactic(auto, unfolding(crate::specs::Ours::ours_plain))]
pub fn keeps_sheet(s: Store) -> bool
    ensures { result ≡ ours_plain s }
{
    keeps_rules(s) && plain_store(s)
}
