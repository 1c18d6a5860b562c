// A store written as a sheet into a room.
#![tactic(auto)]

ghost use Rattle.std.specs.Prelude.{◌≡◌, OnErr};
ghost use Rattle.model.specs.Lines.{flat};
ghost use Rattle.model.specs.Rooms.{put_into};
ghost use Rattle.model.specs.Sheets.{sheet_text};
ghost use Rattle.room.specs.Writing.{Writes, Wrote, each};
ghost use Rattle.store.specs.Packed.{unpacked};
ghost use Rattle.entries.specs.Lines.{heading_of, berth_text, group_text, column_text, row_text};
ghost use Rattle.writer.specs.Texts.{table_text, directory_text};
ghost use Rattle.writer.specs.Writing.{may_write, writing_of, wrote_of};

use entries::{
    Heading, put_berth, put_column, put_directory_line, put_group, put_heading, put_row,
    put_table_line,
};
use model::Reply;
use room::Pen;
use rules::{keeps_rules, keeps_sheet};
use store::{Berth, Column, Directory, Group, Row, Store, Table, TablePlace};

// ---- the parts of a table, those that are there
// These loops, and those over tables and directories, are a call each. One function for all would take that call as a closure, with clauses on what the closure
// does to the pen at each part, and be longer than the five.

// Its berths.
#[tactic(auto, using(room::proofs::PenLaws::writes, crate::proofs::PartLaws::parts))]
fn put_berths(pen: &mut Pen, at: TablePlace, berths: &[Berth])
    ensures { Writes pen.old (each (berth_text at.directory at.table) 0 berths.now) pen.new }
{
    for (n, b) in berths.iter().enumerate() {
        put_berth(pen, at, n, *b);
    }
}

// Its groups.
#[tactic(auto, using(room::proofs::PenLaws::writes, crate::proofs::PartLaws::parts))]
fn put_groups(pen: &mut Pen, at: TablePlace, groups: &[Group])
    ensures { Writes pen.old (each (group_text at.directory at.table) 0 groups.now) pen.new }
{
    for (n, g) in groups.iter().enumerate() {
        put_group(pen, at, n, *g);
    }
}

// Its columns.
#[tactic(auto, using(room::proofs::PenLaws::writes, crate::proofs::PartLaws::parts))]
fn put_columns(pen: &mut Pen, at: TablePlace, columns: &[Column])
    ensures { Writes pen.old (each (column_text at.directory at.table) 0 columns.now) pen.new }
{
    for (n, c) in columns.iter().enumerate() {
        put_column(pen, at, n, c);
    }
}

// Its rows.
#[tactic(auto, using(room::proofs::PenLaws::writes, crate::proofs::PartLaws::parts))]
fn put_rows(pen: &mut Pen, at: TablePlace, columns: &[Column], rows: &[Row])
    ensures { Writes pen.old (flat (row_text at.directory at.table columns.now) rows.now) pen.new }
{
    for row in rows {
        put_row(pen, at, columns, row);
    }
}

// ---- tables

// The table at a number, if it is there: its own line, then its parts.
#[tactic(auto, using(room::proofs::PenLaws::writes, crate::proofs::StoreLaws::tables))]
fn put_table(pen: &mut Pen, at: TablePlace, q: &Table)
    ensures { Writes pen.old (table_text at.directory at.table q.now) pen.new }
{
    if q.there {
        put_table_line(pen, at, q.class, q.max);
        put_berths(pen, at, &q.berths);
        put_groups(pen, at, &q.groups);
        put_columns(pen, at, &q.columns);
        put_rows(pen, at, &q.columns, q.held());
    }
}

// The tables of a directory.
#[tactic(auto, using(room::proofs::PenLaws::writes, crate::proofs::PartLaws::parts))]
fn put_tables(pen: &mut Pen, directory: usize, tables: &[Table])
    ensures { Writes pen.old (each (table_text directory) 0 tables.now) pen.new }
{
    for (table, q) in tables.iter().enumerate() {
        put_table(pen, TablePlace { directory, table }, q);
    }
}

// ---- directories

// The directory at a number, if it is there: its own line, then its tables.
#[tactic(auto, using(room::proofs::PenLaws::writes, crate::proofs::StoreLaws::directories))]
fn put_directory(pen: &mut Pen, d: usize, x: &Directory)
    ensures { Writes pen.old (directory_text d x.now) pen.new }
{
    if x.there {
        put_directory_line(pen, d, x.exist, x.class);
        put_tables(pen, d, &x.tables);
    }
}

// The directories of a store.
#[tactic(auto, using(room::proofs::PenLaws::writes, crate::proofs::PartLaws::parts))]
fn put_directories(pen: &mut Pen, dirs: &[Directory])
    ensures { Writes pen.old (each directory_text 0 dirs.now) pen.new }
{
    for (d, x) in dirs.iter().enumerate() {
        put_directory(pen, d, x);
    }
}

// ---- sheets
// A heading and a store stay two parameters: they are no pair that anyone keeps, since a caller writes one store under either heading.

// A sheet: the heading's line, then the store's.
#[tactic(auto, using(room::proofs::PenLaws::writes, crate::proofs::StoreLaws::store_text_lem), unfolding(model::specs::Sheets::sheet_text))]
pub fn put_sheet(pen: &mut Pen, heading: Heading, s: &Store)
    ensures { Writes pen.old (sheet_text 8 (heading_of heading) (unpacked s.now)) pen.new }
{
    put_heading(pen, heading);
    pen.byte(b'\n');
    put_directories(pen, &s.dirs);
}

// A sheet from the room's start, as far as the room goes, and how many bytes it has.
#[tactic(auto, unfolding(room::specs::Writing::Writes))]
fn put_from_start(room: &mut [u8], heading: Heading, s: &Store) -> usize
    ensures { Wrote room.old 0 (sheet_text 8 (heading_of heading) (unpacked s.now)) result room.new }
{
    let mut pen = Pen::new(room, 0);
    put_sheet(&mut pen, heading, s);
    pen.place()
}

// A sheet from the room's start, and how many bytes it has, or 14 where the room is too short. It is measured first, in a room of no bytes.
pub fn write_text(room: &mut [u8], heading: Heading, s: Store) -> Result<usize, Reply>
    ensures answer { wrote_of result room.new ≡ put_into room.old (sheet_text 8 (heading_of heading) (unpacked s)) }
    ensures err { OnErr result (room.new ≡ room.old) }
{
    if room.len() < put_from_start(&mut [], heading, &s) {
        return Err(Reply::RoomShort);
    }
    Ok(put_from_start(room, heading, &s))
}

// Whether a store may be written under a heading: a view may have hidden fields, a sheet none. (A match, as in `entries::put_heading`.)
pub fn may_write(heading: Heading, s: Store) -> bool
    ensures { result ≡ may_write (heading_of heading) s }
{
    match heading {
        Heading::Sheet => keeps_sheet(s),
        Heading::View => keeps_rules(s),
    }
}

// A sheet from the room's start, or 21 where the store does not keep the rules, and then 14 where the room is too short.
pub fn write_sheet(room: &mut [u8], heading: Heading, s: Store) -> Result<usize, Reply>
    ensures answer { wrote_of result room.new ≡ writing_of (heading_of heading) s room.old }
    ensures err { OnErr result (room.new ≡ room.old) }
{
    if !may_write(heading, s) {
        return Err(Reply::RuleBroken);
    }
    write_text(room, heading, s)
}
