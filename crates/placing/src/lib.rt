// A part set at its place in a table, behind all that stands there: what the records of a sheet do, one after another.
#![tactic(auto)]

ghost use Rattle.std.specs.Prelude.{◌≡◌};
ghost use Rattle.std.specs.Fn.{FnOnceReturnsAtMut};
ghost use Rattle.placing.specs.Stores.{ChangesTable, bare_directory, bare_table, directory_fits, directory_set, in_table, is_last, stands_last, table_fits, table_may, table_set};
ghost use Rattle.placing.specs.Tables.{Sets, berth_fits, berth_set, group_fits, group_set, column_fits, column_set};

pub mod rows;

use canon::none_there;
use model::Class;
use store::{Berth, Column, Directory, Group, Store, Table, TablePlace, no_directory, no_table};

// ---- berths

// Whether a berth may come at a number: none stands from there on, and nothing that comes behind berths.
#[tactic(auto, unfolding(crate::specs::Tables::berth_fits))]
fn berth_fits(t: &Table, n: usize) -> bool
    ensures { result ≡ berth_fits n t.now }
{
    n < 4
        && none_there(&t.berths[n..])
        && none_there(&t.groups)
        && none_there(&t.columns)
        && t.count == 0
}

// A berth at a number, where it may come; else the table stays as it was.
#[tactic(auto, unfolding(crate::specs::Tables::berth_set, crate::specs::Tables::berth_fits))]
pub fn set_berth(t: &mut Table, n: usize, class: Class) -> Option<()>
    ensures { Sets (berth_set n class) t.old result t.new }
{
    if !berth_fits(t, n) {
        return None;
    }
    t.berths[n] = Berth { there: true, class };
    Some(())
}

// ---- groups

// Whether a group may come at a number: none stands from there on, and no column or row.
#[tactic(auto, unfolding(crate::specs::Tables::group_fits))]
fn group_fits(t: &Table, n: usize) -> bool
    ensures { result ≡ group_fits n t.now }
{
    n < 4 && none_there(&t.groups[n..]) && none_there(&t.columns) && t.count == 0
}

// A group at a number, where it may come; else the table stays as it was. (As `set_berth`, of another type and with other parts behind it.)
#[tactic(auto, unfolding(crate::specs::Tables::group_set, crate::specs::Tables::group_fits))]
pub fn set_group(t: &mut Table, n: usize, exist: Class) -> Option<()>
    ensures { Sets (group_set n exist) t.old result t.new }
{
    if !group_fits(t, n) {
        return None;
    }
    t.groups[n] = Group { there: true, exist };
    Some(())
}

// ---- columns

// Whether a column may come at a number: none stands from there on, and no row.
#[tactic(auto, unfolding(crate::specs::Tables::column_fits))]
fn column_fits(t: &Table, n: usize) -> bool
    ensures { result ≡ column_fits n t.now }
{
    n < 8 && none_there(&t.columns[n..]) && t.count == 0
}

// A column at a number, where it may come; else the table stays as it was.
#[tactic(auto, unfolding(crate::specs::Tables::column_set, crate::specs::Tables::column_fits))]
pub fn set_column(t: &mut Table, n: usize, column: Column) -> Option<()>
    ensures { Sets (column_set n column) t.old result t.new }
{
    if !column_fits(t, n) {
        return None;
    }
    t.columns[n] = Column {
        there: true,
        ..column
    };
    Some(())
}

// ---- tables of a store

// Whether a table is the last that stands in a directory: the directory and it are there, and no table behind it.
#[tactic(auto, unfolding(crate::specs::Stores::stands_last))]
fn stands_last(d: &Directory, t: usize) -> bool
    ensures { result ≡ stands_last t d.now }
{
    let tables = &d.tables[..];
    d.there && t < 2 && tables[t].there && none_there(&tables[t + 1..])
}

// Whether a table is the last that stands: the last in its directory, and no directory behind that.
#[tactic(auto, unfolding(crate::specs::Stores::is_last))]
fn is_last(s: &Store, at: TablePlace) -> bool
    ensures { result ≡ is_last at.directory at.table s.now }
{
    let dirs = &s.dirs[..];
    at.directory < 4
        && none_there(&dirs[at.directory + 1..])
        && stands_last(&dirs[at.directory], at.table)
}

// A change of the table at a place, if that is the last that stands; else none, and the store stays as it was.
#[tactic(auto, unfolding(crate::specs::Stores::is_last, crate::specs::Stores::stands_last))]
fn in_table<U, F: FnOnce(&mut Table) -> Option<U>>(
    s: &mut Store,
    at: TablePlace,
    change: F,
) -> Option<U>
    requires { F.IsAlwaysCallable change }
    ensures { ChangesTable (FnOnceReturnsAtMut F.FnOnce change) at.directory at.table s.old result s.new }
{
    if !is_last(s, at) {
        return None;
    }
    let dirs = &mut s.dirs[..];
    let tables = &mut dirs[at.directory].tables[..];
    change(&mut tables[at.table])
}

// A berth in the table at a place.
#[tactic(auto, unfolding(crate::specs::Stores::in_table))]
pub fn place_berth(s: &mut Store, at: TablePlace, n: usize, class: Class) -> Option<()>
    ensures { Sets (in_table at.directory at.table (berth_set n class)) s.old result s.new }
{
    in_table(s, at, |t| set_berth(t, n, class))
}

// A group in the table at a place.
#[tactic(auto, unfolding(crate::specs::Stores::in_table))]
pub fn place_group(s: &mut Store, at: TablePlace, n: usize, exist: Class) -> Option<()>
    ensures { Sets (in_table at.directory at.table (group_set n exist)) s.old result s.new }
{
    in_table(s, at, |t| set_group(t, n, exist))
}

// A column in the table at a place.
#[tactic(auto, unfolding(crate::specs::Stores::in_table))]
pub fn place_column(s: &mut Store, at: TablePlace, n: usize, column: Column) -> Option<()>
    ensures { Sets (in_table at.directory at.table (column_set n column)) s.old result s.new }
{
    in_table(s, at, |t| set_column(t, n, column))
}

// ---- tables and directories

// Whether a table may come at a number of a directory that is there: none stands from there on.
#[tactic(auto, unfolding(crate::specs::Stores::table_may))]
fn table_may(d: &Directory, t: usize) -> bool
    ensures { result ≡ table_may t d.now }
{
    let tables = &d.tables[..];
    d.there && t < 2 && none_there(&tables[t..])
}

// Whether a table may come at a place: at its number in the directory, and no directory stands behind that. (As `is_last`, with another question to the directory.)
#[tactic(auto, unfolding(crate::specs::Stores::table_fits))]
fn table_fits(s: &Store, at: TablePlace) -> bool
    ensures { result ≡ table_fits at.directory at.table s.now }
{
    let dirs = &s.dirs[..];
    at.directory < 4
        && none_there(&dirs[at.directory + 1..])
        && table_may(&dirs[at.directory], at.table)
}

// A table with its class and its maximum, and nothing in it.
fn bare_table(class: Class, max: Class) -> Table
    ensures { result ≡ bare_table class max }
{
    Table {
        there: true,
        class,
        max,
        ..no_table()
    }
}

// A table with nothing in it, at a place where it may come.
#[tactic(auto, unfolding(crate::specs::Stores::table_set, crate::specs::Stores::table_fits, crate::specs::Stores::table_may))]
pub fn place_table(s: &mut Store, at: TablePlace, class: Class, max: Class) -> Option<()>
    ensures { Sets (table_set at.directory at.table class max) s.old result s.new }
{
    if !table_fits(s, at) {
        return None;
    }
    s.dirs[at.directory].tables[at.table] = bare_table(class, max);
    Some(())
}

// Whether a directory may come at a number: none stands from there on.
#[tactic(auto, unfolding(crate::specs::Stores::directory_fits))]
fn directory_fits(s: &Store, n: usize) -> bool
    ensures { result ≡ directory_fits n s.now }
{
    let dirs = &s.dirs[..];
    n < 4 && none_there(&dirs[n..])
}

// A directory with its classes, and nothing in it.
fn bare_directory(exist: Class, class: Class) -> Directory
    ensures { result ≡ bare_directory exist class }
{
    Directory {
        there: true,
        exist,
        class,
        ..no_directory()
    }
}

// A directory with nothing in it, at a number where it may come.
#[tactic(auto, unfolding(crate::specs::Stores::directory_set, crate::specs::Stores::directory_fits))]
pub fn place_directory(s: &mut Store, n: usize, exist: Class, class: Class) -> Option<()>
    ensures { Sets (directory_set n exist class) s.old result s.new }
{
    if !directory_fits(s, n) {
        return None;
    }
    s.dirs[n] = bare_directory(exist, class);
    Some(())
}
