// The lines of a sheet: its heading, and a line for each kind of record. None asks anything of the room.
#![tactic(auto)]

ghost use Rattle.std.specs.Prelude.{[], ◌∷◌};
ghost use Rattle.model.specs.Numbers.{dec_text};
ghost use Rattle.model.specs.Records as records;
ghost use Rattle.model.specs.Sheets.{heading_text};
ghost use Rattle.model.specs.Values.{kind_letter};
ghost use Rattle.room.specs.Writing.{Writes};
ghost use Rattle.entries.specs.Lines.{heading_of, line_in, table_line, berth_text, group_text, column_text, fields_text, row_text, head_text, part_if};
ghost use Rattle.store.specs.Packed.{column_of};

use class::texts::put_tab_class;
use field::kind_letter;
use field::texts::put_field;
use model::{Class, Field, Kind};
use room::Pen;
use store::{Berth, Column, Group, Row, TablePlace};

// The first line of a sheet: of a whole store, or of a view.
#[derive(Clone, Copy)]
pub enum Heading {
    Sheet,
    View,
}

// The heading, without its line feed. (A match on the two headings is all the choice there is; a closure for each would be longer.)
#[tactic(auto, using(room::proofs::PenLaws::writes), unfolding(model::specs::Sheets::heading_text))]
pub fn put_heading(pen: &mut Pen, heading: Heading)
    ensures { Writes pen.old (heading_text (heading_of heading)) pen.new }
{
    match heading {
        Heading::Sheet => pen.text(b"SHEET"),
        Heading::View => pen.text(b"VIEW"),
    }
}

// ---- fields

// A tab and a number.
#[tactic(auto, using(room::proofs::PenLaws::writes))]
fn put_tab_decimal(pen: &mut Pen, n: usize)
    ensures { Writes pen.old (9 ∷ dec_text n) pen.new }
{
    pen.byte(b'\t');
    pen.decimal(n as u64);
}

// A tab and the letter of a kind.
#[tactic(auto, using(room::proofs::PenLaws::writes))]
fn put_tab_kind(pen: &mut Pen, k: Kind)
    ensures { Writes pen.old (9 ∷ kind_letter k ∷ []) pen.new }
{
    pen.byte(b'\t');
    pen.byte(kind_letter(k));
}

// ---- directories and tables

// The line of a directory: its existence class and its class.
#[tactic(auto, using(room::proofs::PenLaws::writes, crate::proofs::LineLaws::lines))]
pub fn put_directory_line(pen: &mut Pen, d: usize, exist: Class, class: Class)
    ensures { Writes pen.old (line_in d (records.directory exist class)) pen.new }
{
    pen.byte(b'D');
    put_tab_decimal(pen, d);
    put_tab_class(pen, exist);
    put_tab_class(pen, class);
    pen.byte(b'\n');
}

// The start of a line in a table: its letter, and the numbers of the directory and the table. (The letter is the byte that is written, and no kind of anything.)
#[tactic(auto, using(room::proofs::PenLaws::writes, crate::proofs::LineLaws::lines))]
fn put_head(pen: &mut Pen, letter: u8, at: TablePlace)
    ensures { Writes pen.old (head_text letter at.directory at.table) pen.new }
{
    pen.byte(letter);
    put_tab_decimal(pen, at.directory);
    put_tab_decimal(pen, at.table);
}

// The line of a table: its class and its maximum.
#[tactic(auto, using(room::proofs::PenLaws::writes, crate::proofs::LineLaws::lines))]
pub fn put_table_line(pen: &mut Pen, at: TablePlace, class: Class, max: Class)
    ensures { Writes pen.old (table_line at.directory at.table (records.table class max)) pen.new }
{
    put_head(pen, b'T', at);
    put_tab_class(pen, class);
    put_tab_class(pen, max);
    pen.byte(b'\n');
}

// ---- berths and groups

// The line of the berth or the group at a number, by its letter, if it is there: its class.
#[tactic(auto, using(room::proofs::PenLaws::writes, crate::proofs::LineLaws::lines))]
pub fn put_part(pen: &mut Pen, letter: u8, at: TablePlace, n: usize, class: Option<Class>)
    ensures { Writes pen.old (part_if letter at.directory at.table n class) pen.new }
{
    if let Some(k) = class {
        put_head(pen, letter, at);
        put_tab_decimal(pen, n);
        put_tab_class(pen, k);
        pen.byte(b'\n');
    }
}

// The line of the berth at a number, if it is there.
#[tactic(auto, using(crate::proofs::SlotLaws::berth_is))]
pub fn put_berth(pen: &mut Pen, at: TablePlace, n: usize, b: Berth)
    ensures { Writes pen.old (berth_text at.directory at.table n b) pen.new }
{
    put_part(pen, b'B', at, n, b.there.then_some(b.class));
}

// The line of the group at a number, if it is there.
#[tactic(auto, using(crate::proofs::SlotLaws::group_is))]
pub fn put_group(pen: &mut Pen, at: TablePlace, n: usize, g: Group)
    ensures { Writes pen.old (group_text at.directory at.table n g) pen.new }
{
    put_part(pen, b'G', at, n, g.there.then_some(g.exist));
}

// ---- columns

// The line of a column: its number, its group, its kind and its default.
#[tactic(auto, using(room::proofs::PenLaws::writes, crate::proofs::LineLaws::lines))]
fn put_column_line(pen: &mut Pen, at: TablePlace, n: usize, c: &Column)
    ensures { Writes pen.old (table_line at.directory at.table (records.column (n, column_of c.now))) pen.new }
{
    put_head(pen, b'C', at);
    put_tab_decimal(pen, n);
    put_tab_decimal(pen, usize::from(c.group));
    put_tab_kind(pen, c.kind);
    put_field(pen, c.default);
    pen.byte(b'\n');
}

// The line of the column at a number, if it is there.
#[tactic(auto, using(room::proofs::PenLaws::writes), unfolding(crate::specs::Lines::column_text))]
pub fn put_column(pen: &mut Pen, at: TablePlace, n: usize, c: &Column)
    ensures { Writes pen.old (column_text at.directory at.table n c.now) pen.new }
{
    if c.there {
        put_column_line(pen, at, n, c);
    }
}

// ---- rows

// The fields of the columns that are there.
fn put_fields(pen: &mut Pen, columns: &[Column], fields: &[Field])
    ensures { Writes pen.old (fields_text columns.now fields.now) pen.new }
{
    for (c, f) in columns.iter().zip(fields) {
        if c.there {
            put_field(pen, *f);
        }
    }
}

// The line of a row: its existence class, and its fields.
#[tactic(auto, using(room::proofs::PenLaws::writes, crate::proofs::LineLaws::lines))]
pub fn put_row(pen: &mut Pen, at: TablePlace, columns: &[Column], row: &Row)
    ensures { Writes pen.old (row_text at.directory at.table columns.now row.now) pen.new }
{
    put_head(pen, b'R', at);
    put_tab_class(pen, row.exist);
    put_fields(pen, columns, &row.fields);
    pen.byte(b'\n');
}
