// Whether the structs are the ones that stand for a store: each part is tidy, in that what is absent is its constant.
#![tactic(auto)]

ghost use Rattle.std.specs.Prelude.{◌≡◌, Bool, not};
ghost use Rattle.model.specs.Places.{all, conj};
ghost use Rattle.store.specs.Canonical.{berth_away, group_away, column_away, table_away, berth_tidy, group_tidy, column_tidy, table_empty, table_tidy, directory_empty, directory_tidy, canonical};

use class::class_sound;
use store::{Berth, Column, Directory, Group, Store, Table};
use tidy::{column_tidy, is_bottom, rows_empty, rows_tidy};

// ---- the parts of a store

// A part that may be absent: a directory, a table, or one of a table's berths, groups and columns. (A trait can't read the field `there`, so each impl does.)
pub trait Part: Copy {
    ghost tidy: { Self → Bool };

    ghost away: { Self → Bool };

    // Whether it is tidy: what it holds is ours, and it is the constant where it is absent.
    fn is_tidy(&self) -> bool
        ensures { result ≡ tidy self.now };

    // Whether it is absent.
    fn is_away(&self) -> bool
        ensures { result ≡ away self.now };
}

// Whether each part is tidy.
pub fn all_tidy<T: Part>(parts: &[T]) -> bool
    ensures { result ≡ all T.tidy parts.now }
{
    parts.iter().all(|p| p.is_tidy())
}

// Whether no part is there.
pub fn none_there<T: Part>(parts: &[T]) -> bool
    ensures { result ≡ all T.away parts.now }
{
    parts.iter().all(|p| p.is_away())
}

// ---- berths, groups and columns

// A berth is tidy if its class is one of ours, and the lowest where it is absent.
impl Part for Berth {
    ghost tidy = { berth_tidy };

    ghost away = { berth_away };

    #[tactic(auto, unfolding(store::specs::Canonical::berth_tidy))]
    fn is_tidy(&self) -> bool {
        class_sound(self.class) && (self.there || is_bottom(self.class))
    }

    fn is_away(&self) -> bool {
        !self.there
    }
}

// And so is a group, which is a type of its own so that it can't stand for a berth; its class has another name.
impl Part for Group {
    ghost tidy = { group_tidy };

    ghost away = { group_away };

    #[tactic(auto, unfolding(store::specs::Canonical::group_tidy))]
    fn is_tidy(&self) -> bool {
        class_sound(self.exist) && (self.there || is_bottom(self.exist))
    }

    fn is_away(&self) -> bool {
        !self.there
    }
}

// A column is tidy if its default is one of ours, and it is the constant where it is absent.
impl Part for Column {
    ghost tidy = { column_tidy };

    ghost away = { column_away };

    fn is_tidy(&self) -> bool {
        column_tidy(*self)
    }

    fn is_away(&self) -> bool {
        !self.there
    }
}

// ---- tables

// Whether a tidy table holds what the constant does: the lowest class and maximum, and nothing else.
#[tactic(auto, unfolding(store::specs::Canonical::table_empty))]
pub(crate) fn table_empty(t: &Table) -> bool
    ensures { result ≡ conj (table_empty t.now) }
{
    is_bottom(t.class)
        && is_bottom(t.max)
        && none_there(&t.berths)
        && none_there(&t.groups)
        && none_there(&t.columns)
        && t.count == 0
}

// Whether a table is tidy: its parts are, no row past the count holds anything, and it is the constant where it is absent.
// (By value: the lengths of its arrays are known then.)
#[tactic(auto, unfolding(store::specs::Canonical::table_tidy, store::specs::Canonical::table_parts, store::specs::Canonical::table_lengths, store::specs::Packed::rows_in))]
pub(crate) fn table_tidy(t: Table) -> bool
    ensures { result ≡ table_tidy t }
{
    class_sound(t.class)
        && class_sound(t.max)
        && all_tidy(&t.berths)
        && all_tidy(&t.groups)
        && all_tidy(&t.columns)
        && t.count <= 32
        && rows_tidy(t.columns, t.held())
        && rows_empty(t.unused())
        && (t.there || table_empty(&t))
}

impl Part for Table {
    ghost tidy = { table_tidy };

    ghost away = { table_away };

    fn is_tidy(&self) -> bool {
        table_tidy(*self)
    }

    fn is_away(&self) -> bool {
        !self.there
    }
}

// ---- directories, and the store

// Whether a tidy directory holds what the constant does: the lowest classes, and no table.
#[tactic(auto, unfolding(store::specs::Canonical::directory_empty))]
pub(crate) fn directory_empty(d: &Directory) -> bool
    ensures { result ≡ conj (directory_empty d.now) }
{
    is_bottom(d.exist) && is_bottom(d.class) && none_there(&d.tables)
}

// A directory is tidy if its classes are ours, its tables tidy, and it is the constant where it is absent.
impl Part for Directory {
    ghost tidy = { directory_tidy };

    ghost away = { λ d. not d.there };

    #[tactic(auto, unfolding(store::specs::Canonical::directory_tidy, store::specs::Canonical::directory_parts))]
    fn is_tidy(&self) -> bool {
        class_sound(self.exist)
            && class_sound(self.class)
            && all_tidy(&self.tables)
            && (self.there || directory_empty(self))
    }

    fn is_away(&self) -> bool {
        !self.there
    }
}

// Whether a store is canonical: each of its directories is tidy.
#[tactic(auto, unfolding(store::specs::Canonical::canonical))]
pub fn canonical_store(s: Store) -> bool
    ensures { result ≡ canonical s }
{
    all_tidy(&s.dirs)
}
