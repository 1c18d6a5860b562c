// Looks at two stores made by hand, the document's example and one that is full, and prints what each clearance sees of them.
#![tactic(auto)]

use field::is_hidden;
use model::{Class, Field, Kind, Reply, Value};
use rules::{keeps_rules, keeps_sheet};
use std::ops::Add;
use std::{array, fmt, io};
use store::{
    Berth, Column, Directory, Group, LOWEST, Row, Store, Table, no_berth, no_column, no_directory,
    no_field, no_group, no_row, no_table,
};
use view::view_at;

// A class: a level and marks.
fn class(level: u8, marks: u32) -> Class {
    Class { level, marks }
}

// A berth that is there.
fn berth(class: Class) -> Berth {
    Berth { there: true, class }
}

// A group that is there.
fn group(exist: Class) -> Group {
    Group { there: true, exist }
}

// A column that is there, whose default is blank.
fn column(group: u8, kind: Kind, class: Class) -> Column {
    Column {
        there: true,
        group,
        kind,
        default: Field {
            class,
            value: Value::Blank,
        },
    }
}

// A field that holds a count.
fn count_field(class: Class, n: u32) -> Field {
    Field {
        class,
        value: Value::Count(n),
    }
}

// A directory that is there.
fn directory(exist: Class, class: Class, tables: [Table; 2]) -> Directory {
    Directory {
        there: true,
        exist,
        class,
        tables,
    }
}

// ---- the document's example

// A row of the example: a count, and a blank rate of a higher class.
fn example_row(exist: Class, n: u32) -> Row {
    let e = no_field();
    let rate = Field {
        class: class(2, 3),
        value: Value::Blank,
    };
    Row {
        exist,
        fields: [count_field(exist, n), rate, e, e, e, e, e, e],
    }
}

// The example's table, which counts some of its two rows.
fn example_table(count: usize) -> Table {
    let high = class(2, 3);
    let b = no_berth();
    let g = no_group();
    let k = no_column();
    let mut rows = [no_row(); 32];
    rows[0] = example_row(class(1, 2), 7);
    rows[1] = example_row(class(1, 1), 4);
    Table {
        there: true,
        class: LOWEST,
        max: class(3, 3),
        berths: [berth(class(1, 1)), berth(class(1, 2)), b, b],
        groups: [group(LOWEST), group(high), g, g],
        columns: [
            column(0, Kind::Counts, LOWEST),
            column(1, Kind::Rates, high),
            k,
            k,
            k,
            k,
            k,
            k,
        ],
        count,
        rows,
    }
}

// The example, of whose two rows its table counts some.
fn example(count: usize) -> Store {
    let e = no_directory();
    let tables = [example_table(count), no_table()];
    Store {
        dirs: [directory(LOWEST, LOWEST, tables), e, e, e],
    }
}

// ---- a full store: 4 directories of 2 tables, each with 4 berths, 4 groups, 8 columns and 32 rows

// The class of a berth: each has a mark of its own.
fn berth_class(number: usize) -> Class {
    class(1, 1 << (number % 32))
}

// A row of a berth, with a field in each column.
fn full_row(number: usize) -> Row {
    let exist = berth_class(number);
    let f = count_field(exist, 7);
    let g = count_field(class(3, 15), 7);
    Row {
        exist,
        fields: [f, f, f, f, f, f, g, g],
    }
}

// Rows of the berths in turn: eight to a berth, or nine.
fn full_table(nine: bool) -> Table {
    let each = if nine { 9 } else { 8 };
    let g = group(LOWEST);
    let k = column(0, Kind::Counts, LOWEST);
    Table {
        there: true,
        class: LOWEST,
        max: class(3, 15),
        berths: array::from_fn(|i| berth(berth_class(i))),
        groups: [g, g, g, group(class(2, 15))],
        columns: [k, k, k, k, k, k, k, column(3, Kind::Counts, LOWEST)],
        count: 32,
        rows: array::from_fn(|i| full_row(i / each)),
    }
}

// The full store: open directories, one whose class few see, and one that few see at all. (Not inlined: what it is made of leaves the stack with it.)
#[inline(never)]
fn full(nine: bool) -> Store {
    let high = class(3, 15);
    let tables = [full_table(nine); 2];
    let open = directory(LOWEST, LOWEST, tables);
    let shut = directory(LOWEST, high, tables);
    let unseen = directory(high, LOWEST, tables);
    Store {
        dirs: [open, open, shut, unseen],
    }
}

// ---- counting

// How many parts of each kind a store has, and how many of its fields are hidden.
#[derive(Clone, Copy, Default)]
struct Tally {
    directories: usize,
    tables: usize,
    berths: usize,
    groups: usize,
    columns: usize,
    rows: usize,
    hidden: usize,
}

impl Tally {
    // What a store has.
    fn of(s: &Store) -> Tally {
        let directories = Tally {
            directories: s.dirs.iter().filter(|d| d.there).count(),
            ..Tally::default()
        };
        s.dirs
            .iter()
            .flat_map(|d| d.tables.iter())
            .fold(directories, |sum, t| sum + Tally::of_table(t))
    }

    // What a table has.
    fn of_table(t: &Table) -> Tally {
        Tally {
            directories: 0,
            tables: usize::from(t.there),
            berths: t.berths.iter().filter(|b| b.there).count(),
            groups: t.groups.iter().filter(|g| g.there).count(),
            columns: t.columns.iter().filter(|k| k.there).count(),
            rows: t.held().len(),
            hidden: t
                .rows
                .iter()
                .flat_map(|r| r.fields.iter())
                .filter(|f| is_hidden(f.value))
                .count(),
        }
    }
}

// Two tallies together. The numbers are small; sums that saturate need no bound.
impl Add for Tally {
    type Output = Tally;

    fn add(self, other: Tally) -> Tally {
        Tally {
            directories: self.directories.saturating_add(other.directories),
            tables: self.tables.saturating_add(other.tables),
            berths: self.berths.saturating_add(other.berths),
            groups: self.groups.saturating_add(other.groups),
            columns: self.columns.saturating_add(other.columns),
            rows: self.rows.saturating_add(other.rows),
            hidden: self.hidden.saturating_add(other.hidden),
        }
    }
}

// A tally is shown as a line of the output.
impl fmt::Display for Tally {
    fn fmt<W: fmt::Write>(&self, f: &mut fmt::Formatter<W>) -> fmt::Result {
        write!(
            f,
            "directories {}, tables {}, berths {}, groups {}, columns {}, rows {}, hidden fields {}",
            self.directories,
            self.tables,
            self.berths,
            self.groups,
            self.columns,
            self.rows,
            self.hidden
        )
    }
}

// ---- printing

// What a clearance sees of a store.
fn look(rt: &impl Print, c: Class, s: &Store) -> io::Result<()> {
    let (reply, tally) = match view_at(c, *s) {
        Ok(seen) => (Reply::Done, Tally::of(&seen)),
        Err(refusal) => (refusal.reply, Tally::of(&refusal.store)),
    };
    println!(rt; "  at {}{:08x} {reply}: {tally}", c.level, c.marks)
}

// Whether a store keeps the rules, and whether it may stand under SHEET.
fn judge(rt: &impl Print, name: &str, s: &Store) -> io::Result<()> {
    let rules = if keeps_rules(*s) {
        "keeps the rules"
    } else {
        "breaks a rule"
    };
    let sheet = if keeps_sheet(*s) { "may" } else { "may not" };
    println!(rt; "{name}: {rules}, {sheet} stand under SHEET")
}

// A store, and what each of four clearances sees of it.
fn show(rt: &impl Print, name: &str, s: &Store) -> io::Result<()> {
    judge(rt, name, s)?;
    for c in [class(3, 15), class(1, 1), class(1, 2), LOWEST] {
        look(rt, c, s)?;
    }
    Ok(())
}

// The full store. (Not inlined: it lies on the stack only while it is shown.)
#[inline(never)]
fn show_full(rt: &impl Print, name: &str, nine: bool) -> io::Result<()> {
    show(rt, name, &full(nine))
}

fn main(rt: HostRuntime) -> io::Result<()> {
    let whole = example(2);
    show(&rt, "the example", &whole)?;
    if let Ok(seen) = view_at(class(1, 1), whole) {
        show(&rt, "its view at 1 00000001", &seen)?;
    }
    show_full(&rt, "a full store", false)?;
    show_full(&rt, "nine rows in a berth", true)?;
    show(&rt, "a row behind the count", &example(1))
}
