// A row set behind the last of a table: a field for each column that is there, in the order of the columns.
ghost use Rattle.std.specs.Prelude.{◌≡◌};
ghost use Rattle.model.specs.Places.{map_o};
ghost use Rattle.placing.specs.Stores.{in_table, table_of};
ghost use Rattle.placing.specs.Tables.{Sets};
ghost use Rattle.placing.specs.Rows.{has_place, kept, row_set, spread};

use crate::in_table;
use model::{Class, Field};
use store::{Column, Row, Store, Table, TablePlace, no_field};

// What became of a row whose fields fit the columns: it is the table's last now, or the table held as many as it can.
#[derive(Clone, Copy, Debug, PartialEq, Eq)]
pub enum RowSet {
    Kept,
    Full,
}

// One field for each column that is there, in order, the constant for the others, and none left over.
#[tactic(auto, using(crate::proofs::RowLaws::spread_starts, crate::proofs::RowLaws::spread_there, crate::proofs::RowLaws::spread_away, crate::proofs::RowLaws::spread_short, crate::proofs::RowLaws::spread_ends))]
fn spread(columns: [Column; 8], fields: &[Field]) -> Option<[Field; 8]>
    ensures { result ≡ spread columns fields.now }
{
    let mut row = [no_field(); 8];
    let mut used = 0;
    for (i, k) in columns.iter().enumerate() {
        if k.there {
            row[i] = *fields.get(used)?;
            used += 1;
        }
    }
    (used == fields.len()).then_some(row)
}

// A row behind the last of a table; none where its fields don't fit the columns. A table that can hold no more stays as it was.
#[tactic(auto, unfolding(crate::specs::Rows::row_set, crate::specs::Rows::with_row))]
pub fn set_row(t: &mut Table, exist: Class, fields: &[Field]) -> Option<RowSet>
    ensures table { Sets (row_set exist fields.now) t.old result t.new }
    ensures answer { result ≡ map_o (λ _. kept (has_place t.old)) (row_set exist fields.now t.old) }
{
    let fields = spread(t.columns, fields)?;
    if t.count >= 32 {
        return Some(RowSet::Full);
    }
    t.rows[t.count] = Row { exist, fields };
    t.count += 1;
    Some(RowSet::Kept)
}

// A row in the table at a place.
#[tactic(auto, unfolding(crate::specs::Stores::in_table))]
pub fn place_row(s: &mut Store, at: TablePlace, exist: Class, fields: &[Field]) -> Option<RowSet>
    ensures store { Sets (in_table at.directory at.table (row_set exist fields.now)) s.old result s.new }
    ensures answer { result ≡ map_o (λ _. kept (has_place (table_of at.directory at.table s.old))) (in_table at.directory at.table (row_set exist fields.now) s.old) }
{
    in_table(s, at, |t| set_row(t, exist, fields))
}
