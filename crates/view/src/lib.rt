// The view of a store at a clearance. An absent part is not looked into, nor is one that the clearance does not see.
#![tactic(auto)]

ghost use Rattle.std.specs.Prelude.{◌≡◌, Some, map};
ghost use Rattle.model.specs.Places.{at, present};
ghost use Rattle.model.specs.View as model;
ghost use Rattle.store.specs.Packed.{packed, packed_table, rows_in, table_of, unpacked, unpacked_group};
ghost use Rattle.view.specs.Seen.{seen_berth, seen_column, seen_directory, seen_group, seen_row, seen_rows, seen_table, seen_tables, show_field, shut_at, with_rows};
ghost use Rattle.view.specs.Viewing.{viewed_at};

use class::dominates;
use field::hide_field;
use model::{Class, Field, Reply};
use rules::keeps_rules;
use std::array;
use store::{
    Berth, Column, Directory, Group, Row, Store, Table, no_berth, no_column, no_directory,
    no_field, no_group, no_row, no_table,
};

// What is answered in place of a view, the error of its `Result`: a reply, and the store as it was found.
#[derive(Clone, Copy)]
pub struct Refusal {
    pub reply: Reply,
    pub store: Store,
}

// ---- berths, groups and columns
// The functions of a berth and of a group are a test and two results each: a trait for both types would take an impl for each, longer than both.

// A berth stays where its class is dominated.
#[tactic(auto, unfolding(crate::specs::Seen::seen_berth, store::specs::Packed::packed_berth, store::specs::Packed::unpacked_berth, model::specs::View::seen))]
pub(crate) fn view_berth(c: Class, b: Berth) -> Berth
    ensures { result ≡ seen_berth c b }
{
    if b.there && dominates(c, b.class) {
        return b;
    }
    no_berth()
}

// The berths of a table.
pub(crate) fn view_berths(c: Class, berths: [Berth; 4]) -> [Berth; 4]
    ensures { result ≡ map (seen_berth c) berths }
{
    let mut seen = berths;
    for b in &mut seen {
        *b = view_berth(c, *b);
    }
    seen
}

// A group stays where its existence class is dominated.
#[tactic(auto, unfolding(crate::specs::Seen::seen_group, store::specs::Packed::packed_group, store::specs::Packed::unpacked_group, model::specs::View::seen))]
pub(crate) fn view_group(c: Class, g: Group) -> Group
    ensures { result ≡ seen_group c g }
{
    if g.there && dominates(c, g.exist) {
        return g;
    }
    no_group()
}

// The groups of a table.
pub(crate) fn view_groups(c: Class, groups: [Group; 4]) -> [Group; 4]
    ensures { result ≡ map (seen_group c) groups }
{
    let mut seen = groups;
    for g in &mut seen {
        *g = view_group(c, *g);
    }
    seen
}

// Whether the group of a number is there.
#[tactic(auto, using(crate::proofs::PartLaws::group_at, crate::proofs::PartLaws::group_past))]
pub(crate) fn has_group(gs: [Group; 4], n: u8) -> bool
    ensures { result ≡ present (at n (map unpacked_group gs)) }
{
    gs.get(usize::from(n)).is_some_and(|g| g.there)
}

// A column stays where its group is among those that are kept.
#[tactic(auto, unfolding(crate::specs::Seen::seen_column, store::specs::Packed::packed_column, store::specs::Packed::unpacked_column, store::specs::Packed::column_of, model::specs::View::view_column))]
pub(crate) fn view_column(gs: [Group; 4], k: Column) -> Column
    ensures { result ≡ seen_column gs k }
{
    if k.there && has_group(gs, k.group) {
        return k;
    }
    no_column()
}

// The columns of a table, under the groups that are kept.
pub(crate) fn view_columns(groups: [Group; 4], columns: [Column; 8]) -> [Column; 8]
    ensures { result ≡ map (seen_column groups) columns }
{
    let mut seen = columns;
    for k in &mut seen {
        *k = view_column(groups, *k);
    }
    seen
}

// ---- rows

// A field of a kept column, hidden where its class is not dominated; of any other column nothing.
#[tactic(auto, unfolding(crate::specs::Seen::show_field))]
pub(crate) fn show_field(c: Class, k: Column, f: Field) -> Field
    ensures { result ≡ show_field c k f }
{
    if k.there {
        return hide_field(c, f);
    }
    no_field()
}

// A row that is kept, under the columns that are kept.
pub(crate) fn view_row(c: Class, ks: [Column; 8], r: Row) -> Row
    ensures { result ≡ seen_row c ks r }
{
    Row {
        exist: r.exist,
        fields: array::from_fn(|i| show_field(c, ks[i], r.fields[i])),
    }
}

// Those rows of a table whose existence class is dominated, in place of another's rows and under its columns.
#[tactic(auto, unfolding(lists::specs::Pad::pad, store::specs::Packed::rows_in))]
pub(crate) fn keep_rows(c: Class, t: Table, kept: &mut Table)
    ensures { kept.new ≡ with_rows kept.old (seen_rows c kept.old.columns (rows_in t)) }
{
    // The rows stay an array with their count beside it: fixed memory, and each row past the count is the one constant.
    kept.count = 0;
    kept.rows = [no_row(); 32];
    for row in t.held() {
        if dominates(c, row.exist) {
            kept.rows[kept.count] = view_row(c, kept.columns, *row);
            kept.count += 1;
        }
    }
}

// ---- tables

// A table whose class is dominated.
pub(crate) fn open_table(c: Class, t: Table) -> Table
    ensures { result ≡ packed_table (Some (model.open_table c (table_of t))) }
{
    let mut seen = t;
    seen.there = true;
    seen.berths = view_berths(c, t.berths);
    seen.groups = view_groups(c, t.groups);
    seen.columns = view_columns(seen.groups, t.columns);
    keep_rows(c, t, &mut seen);
    seen
}

// What is left of a table whose class is not dominated: its class, the same class again as its maximum, and nothing more.
#[tactic(auto, unfolding(crate::specs::Seen::shut_at, store::specs::Packed::packed_table, store::specs::Packed::packed_berth, store::specs::Packed::packed_group, store::specs::Packed::packed_column, lists::specs::Pad::pad))]
pub(crate) fn shut_table(t: Table) -> Table
    ensures { result ≡ shut_at t.class }
{
    Table {
        there: true,
        class: t.class,
        max: t.class,
        ..no_table()
    }
}

// A table as a clearance sees it.
#[tactic(auto, using(crate::proofs::TableLaws::table_shut), unfolding(crate::specs::Seen::seen_table, store::specs::Packed::packed_table, store::specs::Packed::unpacked_table, model::specs::View::view_table, model::specs::View::keep_table, store::specs::Packed::table_of))]
pub fn view_table(c: Class, t: Table) -> Table
    ensures { result ≡ seen_table c t }
{
    if !t.there {
        return no_table();
    }
    if !dominates(c, t.class) {
        return shut_table(t);
    }
    open_table(c, t)
}

// ---- directories, the store

// The tables of a kept directory of class k: none where k is not dominated.
#[tactic(auto, using(crate::proofs::TableLaws::tables_none))]
pub(crate) fn view_tables(c: Class, k: Class, tables: [Table; 2]) -> [Table; 2]
    ensures { result ≡ seen_tables c k tables }
{
    if !dominates(c, k) {
        return [no_table(); 2];
    }
    let mut seen = tables;
    for t in &mut seen {
        *t = view_table(c, *t);
    }
    seen
}

// A directory as a clearance sees it.
#[tactic(auto, unfolding(crate::specs::Seen::seen_directory, crate::specs::Seen::seen_tables, store::specs::Packed::packed_directory, store::specs::Packed::unpacked_directory, store::specs::Packed::directory_of, model::specs::View::view_directory, model::specs::View::cut_directory))]
pub fn view_directory(c: Class, d: Directory) -> Directory
    ensures { result ≡ seen_directory c d }
{
    if d.there && dominates(c, d.exist) {
        let mut seen = d;
        seen.tables = view_tables(c, d.class, d.tables);
        return seen;
    }
    no_directory()
}

// The store as a clearance sees it.
pub fn view_store(c: Class, s: Store) -> Store
    ensures { result ≡ packed (model.view c (unpacked s)) }
{
    let mut seen = s;
    for d in &mut seen.dirs {
        *d = view_directory(c, *d);
    }
    seen
}

// The view of a store that keeps the rules; of any other store the reply 21, and the store as it was.
#[tactic(auto, unfolding(crate::specs::Viewing::viewed_at))]
pub fn view_at(c: Class, s: Store) -> Result<Store, Refusal>
    ensures { result ≡ viewed_at c s }
{
    if !keeps_rules(s) {
        return Err(Refusal {
            reply: Reply::RuleBroken,
            store: s,
        });
    }
    Ok(view_store(c, s))
}
