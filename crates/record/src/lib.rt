// One line of a sheet, without its line feed, read as a record. Its fields are looked at one after another, from the first on.
#![tactic(auto)]

ghost use Rattle.std.specs.Prelude.{◌≡◌};
ghost use Rattle.model.specs.Lines.{fields_of};
ghost use Rattle.model.specs.Places.{and_then, map_o};
ghost use Rattle.model.specs.Sheets as sheets;
ghost use Rattle.model.specs.Texts.{read_fields};
ghost use Rattle.steps.specs.Steps.{left};
ghost use Rattle.record.specs.Records.{eight, few, in_slot, leading, read_led, record_in};

use model::{Class, Field, Kind};
use steps::Reader;

// The numbers of a directory, of a table in it and of a berth or a group in that, and the class of the berth or the group.
#[derive(Clone, Copy)]
pub struct Slot {
    pub directory: u8,
    pub table: u8,
    pub number: u8,
    pub class: Class,
}

// What a line says: the numbers that lead to a part, as they were read, then what the part carries. (`TablePlace` is the store's, on which no reader depends.)
#[derive(Clone, Copy)]
pub enum Record {
    Directory {
        directory: u8,
        exist: Class,
        class: Class,
    },
    Table {
        directory: u8,
        table: u8,
        class: Class,
        max: Class,
    },
    Berth(Slot),
    Group(Slot),
    Column {
        directory: u8,
        table: u8,
        column: u8,
        group: u8,
        kind: Kind,
        default: Field,
    },
    // Its fields stand first. (An `ArrayVec` of them is not `Copy`, and records go by value.)
    Row {
        directory: u8,
        table: u8,
        exist: Class,
        fields: [Option<Field>; 8],
    },
}

// ---- the lines of each letter, from behind it

// D: a directory.
#[tactic(auto, unfolding(model::specs::Sheets::read_by))]
fn read_directory(mut line: Reader) -> Option<Record>
    ensures { map_o record_in result ≡ sheets.read_by 8 sheets.D (left line.entry) }
{
    let directory = line.number(3)?;
    let exist = line.class()?;
    let class = line.class()?;
    line.end()?;
    Some(Record::Directory {
        directory,
        exist,
        class,
    })
}

// T: a table.
#[tactic(auto, unfolding(model::specs::Sheets::read_by))]
fn read_table(mut line: Reader) -> Option<Record>
    ensures { map_o record_in result ≡ sheets.read_by 8 sheets.T (left line.entry) }
{
    let (directory, table) = line.table()?;
    let class = line.class()?;
    let max = line.class()?;
    line.end()?;
    Some(Record::Table {
        directory,
        table,
        class,
        max,
    })
}

// What stands behind B and G: a berth or a group.
fn read_slot(mut line: Reader) -> Option<Slot>
    ensures { map_o in_slot result ≡ (sheets.line_b 8).parse (left line.entry) }
{
    let (directory, table) = line.table()?;
    let number = line.number(3)?;
    let class = line.class()?;
    line.end()?;
    Some(Slot {
        directory,
        table,
        number,
        class,
    })
}

// C: a column.
#[tactic(auto, unfolding(model::specs::Sheets::read_by))]
fn read_column(mut line: Reader) -> Option<Record>
    ensures { map_o record_in result ≡ sheets.read_by 8 sheets.C (left line.entry) }
{
    let (directory, table) = line.table()?;
    let column = line.number(7)?;
    let group = line.number(3)?;
    let kind = line.kind()?;
    let default = line.field()?;
    line.end()?;
    Some(Record::Column {
        directory,
        table,
        column,
        group,
        kind,
        default,
    })
}

// The fields that are left of a line, up to eight. (Behind the last, and behind what is no field, nothing is read again.)
#[tactic(auto, using(crate::proofs::RowLaws::row_starts, crate::proofs::RowLaws::row_stops))]
fn read_fields(mut rest: Reader) -> Option<[Option<Field>; 8]>
    ensures { map_o leading result ≡ and_then (read_fields 8 (left rest.entry)) eight }
{
    let mut fields = [None; 8];
    for place in &mut fields {
        *place = if rest.is_done() {
            None
        } else {
            Some(rest.field()?)
        };
    }
    rest.end()?;
    Some(fields)
}

// R: a row.
#[tactic(auto, unfolding(model::specs::Sheets::read_by, crate::specs::Records::few, crate::specs::Records::narrow))]
fn read_row(mut line: Reader) -> Option<Record>
    ensures { map_o record_in result ≡ few (sheets.read_by 8 sheets.R (left line.entry)) }
{
    let (directory, table) = line.table()?;
    let exist = line.class()?;
    let fields = read_fields(line)?;
    Some(Record::Row {
        directory,
        table,
        exist,
        fields,
    })
}

// ---- records

// A record by its letter, from behind it. (A table of functions by letter would say no more than this match, and each line's reader stays a call.)
#[tactic(auto, unfolding(crate::specs::Records::read_led, crate::specs::Records::few, crate::specs::Records::narrow, model::specs::Sheets::read_by))]
fn read_led(line: Reader, letter: u8) -> Option<Record>
    ensures { map_o record_in result ≡ few (read_led letter (left line.entry)) }
{
    match letter {
        b'D' => read_directory(line),
        b'T' => read_table(line),
        b'B' => read_slot(line).map(Record::Berth),
        b'G' => read_slot(line).map(Record::Group),
        b'C' => read_column(line),
        b'R' => read_row(line),
        _ => None,
    }
}

// The record that a line stands for. A row of more than eight fields is none: no table has more columns.
#[tactic(auto, using(text::proofs::FieldLaws::fields_start), unfolding(crate::specs::Records::read_led, crate::specs::Records::few, model::specs::Sheets::read_record, model::specs::Texts::read_letter, model::specs::Lines::fields_of))]
pub fn read_record(line: &[u8]) -> Option<Record>
    ensures { map_o record_in result ≡ few (sheets.read_record 8 (fields_of line.now)) }
{
    let mut fields = Reader::from_place(line, 0);
    let letter = fields.byte()?;
    read_led(fields, letter)
}
