// The store by value: nested structs of arrays. A part that may be absent has a mark, `there`; rows stand first to last, as many as the count.
// The mark is no `Option`, and the count with its array no vector: that an absent part and a row past the count are one constant each is what
// `Canonical.canonical` tests, and the edits canon/absent_table, canon/rows_past, canon/row_bound, tidy/stray_field and tidy/last_row try just such structs.
// No type here has an `impl Model`: two structs that stand for one store of the model can differ, and each public function promises its answer on both.
#![tactic(auto)]

ghost use Rattle.std.specs.Prelude.{◌≡◌, min, take, drop};
ghost use Rattle.model.specs.Places.{nones};
ghost use Rattle.store.specs.Packed.{no_field, no_row, no_berth, no_group, no_column, no_table, no_directory, packed};
ghost use Rattle.store.specs.Numbered.{table_at, put_table};

use model::{Class, Field, Kind, Value};

// A row: its existence class, and a field for each column, blank where the column is absent. (docs/FORMS.md has arrays of fields make a row, beside the columns.)
#[derive(Clone, Copy)]
pub struct Row {
    pub exist: Class,
    pub fields: [Field; 8],
}

// A berth is its class.
#[derive(Clone, Copy)]
pub struct Berth {
    pub there: bool,
    pub class: Class,
}

// A group is its existence class. (A type of its own, so that none can stand for a berth.)
#[derive(Clone, Copy)]
pub struct Group {
    pub there: bool,
    pub exist: Class,
}

// A column: the number of its group, its kind, and its default.
#[derive(Clone, Copy)]
pub struct Column {
    pub there: bool,
    pub group: u8,
    pub kind: Kind,
    pub default: Field,
}

// A table: its class and its maximum, its berths, groups and columns by number, and its rows, oldest first.
#[derive(Clone, Copy)]
pub struct Table {
    pub there: bool,
    pub class: Class,
    pub max: Class,
    pub berths: [Berth; 4],
    pub groups: [Group; 4],
    pub columns: [Column; 8],
    pub count: usize,
    pub rows: [Row; 32],
}

impl Table {
    // Its rows that are there, oldest first: as many as the count says.
    pub fn held(&self) -> &[Row]
        ensures { result.now ≡ take self.now.count self.now.rows }
    {
        &self.rows[..small(self.count)]
    }

    // The rows past the count.
    pub fn unused(&self) -> &[Row]
        ensures { result.now ≡ drop self.now.count self.now.rows }
    {
        &self.rows[small(self.count)..]
    }
}

// A directory: its existence class, its class, and its tables by number.
#[derive(Clone, Copy)]
pub struct Directory {
    pub there: bool,
    pub exist: Class,
    pub class: Class,
    pub tables: [Table; 2],
}

// A store is its directories, by number.
#[derive(Clone, Copy)]
pub struct Store {
    pub dirs: [Directory; 4],
}

// ---- what stands where nothing is

// The lowest class: level 0, and no mark.
pub const LOWEST: Class = Class { level: 0, marks: 0 };

// The field of an absent column: of the lowest class, and blank.
pub fn no_field() -> Field
    ensures { result ≡ no_field }
{
    Field {
        class: LOWEST,
        value: Value::Blank,
    }
}

// A row past the count.
pub fn no_row() -> Row
    ensures { result ≡ no_row }
{
    Row {
        exist: LOWEST,
        fields: [no_field(); 8],
    }
}

// A berth that is absent.
pub fn no_berth() -> Berth
    ensures { result ≡ no_berth }
{
    Berth {
        there: false,
        class: LOWEST,
    }
}

// A group that is absent.
pub fn no_group() -> Group
    ensures { result ≡ no_group }
{
    Group {
        there: false,
        exist: LOWEST,
    }
}

// A column that is absent.
pub fn no_column() -> Column
    ensures { result ≡ no_column }
{
    Column {
        there: false,
        group: 0,
        kind: Kind::Counts,
        default: no_field(),
    }
}

// A table that is absent.
pub fn no_table() -> Table
    ensures { result ≡ no_table }
{
    Table {
        there: false,
        class: LOWEST,
        max: LOWEST,
        berths: [no_berth(); 4],
        groups: [no_group(); 4],
        columns: [no_column(); 8],
        count: 0,
        rows: [no_row(); 32],
    }
}

// A directory that is absent.
pub fn no_directory() -> Directory
    ensures { result ≡ no_directory }
{
    Directory {
        there: false,
        exist: LOWEST,
        class: LOWEST,
        tables: [no_table(); 2],
    }
}

// The store with nothing in it.
#[tactic(auto, unfolding(crate::specs::Packed::packed, crate::specs::Packed::packed_directory))]
pub fn empty_store() -> Store
    ensures { result ≡ packed (nones 4) }
{
    Store {
        dirs: [no_directory(); 4],
    }
}

// ---- parts by number, a directory's taken of 4 and a table's of 2

// A table by its number in a directory, and the number of that.
#[derive(Clone, Copy, Debug, PartialEq, Eq)]
pub struct TablePlace {
    pub directory: usize,
    pub table: usize,
}

// The table at a place.
pub fn table_at(s: Store, at: TablePlace) -> Table
    ensures { result ≡ table_at s at.directory at.table }
{
    s.dirs[at.directory % 4].tables[at.table % 2]
}

// The store with another table at a place.
pub fn put_table(s: Store, at: TablePlace, q: Table) -> Store
    ensures { result ≡ put_table s at.directory at.table q }
{
    let mut r = s;
    r.dirs[at.directory % 4].tables[at.table % 2] = q;
    r
}

// A count, or 32 if it is larger: how many rows there are at most.
pub fn small(n: usize) -> usize
    ensures { result ≡ min n 32 }
{
    n.min(32)
}
