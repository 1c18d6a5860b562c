// Values, fields and kinds as text: a mark, and what stands behind it.
ghost use Rattle.std.specs.Prelude.{◌≡◌};
ghost use Rattle.model.specs.Commands.{read_plain};
ghost use Rattle.model.specs.Numbers.{read_dec, read_hex};
ghost use Rattle.model.specs.Places.{map_o};
ghost use Rattle.model.specs.Texts as texts;
ghost use Rattle.model.specs.Values.{rate_of};
ghost use Rattle.model.specs.declared.Value.TheVariants as variants;
ghost use Rattle.room.specs.Writing.{Writes};
ghost use Rattle.field.specs.Writing.{field_text};

use crate::{bits_of, is_hidden, mark_of, rate_of};
use class::texts::{put_class, put_tab_class, read_class};
use model::{Field, Kind, Value};
use room::Pen;
use text::numbers::{read_dec, read_hex8};

// The largest count.
const MOST: u64 = 4294967295;

// ---- reading: what stands behind a mark

// A value with nothing behind its mark.
fn alone(s: &[u8], v: Value) -> Option<Value>
    ensures { result ≡ texts.alone v s.now }
{
    s.is_empty().then_some(v)
}

// A count, in decimal.
fn count_in(s: &[u8]) -> Option<Value>
    ensures { result ≡ map_o variants.Count (read_dec 4294967295 s.now) }
{
    let n = read_dec(s, MOST)?;
    Some(Value::Count(n as u32))
}

// A rate, by its bits.
fn rate_in(s: &[u8]) -> Option<Value>
    ensures { result ≡ map_o rate_of (read_hex 8 s.now) }
{
    read_hex8(s).map(rate_of)
}

// A class as a value.
fn class_in(s: &[u8]) -> Option<Value>
    ensures { result ≡ map_o variants.Classed (texts.read_class 8 s.now) }
{
    // docs/FORMS.md names this form: the class reader's answer taken apart by let .. else.
    let Some(k) = read_class(s) else {
        return None;
    };
    Some(Value::Classed(k))
}

// The value that a text writes. (A match on the mark, each arm one call: a table of readers would say no more.)
#[tactic(auto, using(crate::proofs::MarkLaws::value_none, crate::proofs::MarkLaws::value_first), unfolding(model::specs::Texts::read_marked))]
pub fn read_value(s: &[u8]) -> Option<Value>
    ensures { result ≡ texts.read_value 8 s.now }
{
    match s {
        [b'-', rest @ ..] => alone(rest, Value::Blank),
        [b'N', rest @ ..] => count_in(rest),
        [b'F', rest @ ..] => rate_in(rest),
        [b'K', rest @ ..] => class_in(rest),
        [b'?', rest @ ..] => alone(rest, Value::Hidden),
        _ => None,
    }
}

// The value that a command may name: any but the hidden one.
#[tactic(auto, unfolding(model::specs::Commands::read_plain))]
pub fn read_plain(s: &[u8]) -> Option<Value>
    ensures { result ≡ read_plain 8 s.now }
{
    read_value(s).filter(|&v| !is_hidden(v))
}

// The kind that a letter stands for.
#[tactic(auto, using(crate::proofs::LetterLaws::letter_one, crate::proofs::LetterLaws::letter_not))]
pub fn read_kind(s: &[u8]) -> Option<Kind>
    ensures { result ≡ texts.read_letter texts.kinds s.now }
{
    match s {
        &[letter] => Kind::try_from(letter).ok(),
        _ => None,
    }
}

// ---- writing

// What stands behind a value's mark.
#[tactic(auto, using(room::proofs::PenLaws::writes), unfolding(model::specs::Texts::marked_text))]
fn put_marked(pen: &mut Pen, v: Value)
    ensures { Writes pen.old (texts.marked_text 8 v) pen.new }
{
    match v {
        Value::Blank | Value::Hidden => {}
        Value::Count(n) => pen.decimal(u64::from(n)),
        Value::Rate(x) => pen.hex(u64::from(bits_of(x)), 8),
        Value::Nan(b) => pen.hex(u64::from(b), 8),
        Value::Classed(k) => put_class(pen, k),
    }
}

// A value.
#[tactic(auto, using(room::proofs::PenLaws::writes), unfolding(model::specs::Texts::value_text))]
pub fn put_value(pen: &mut Pen, v: Value)
    ensures { Writes pen.old (texts.value_text 8 v) pen.new }
{
    pen.byte(mark_of(v));
    put_marked(pen, v);
}

// A field: its class and its value, each with a tab before it.
#[tactic(auto, using(room::proofs::PenLaws::writes), unfolding(crate::specs::Writing::field_text))]
pub fn put_field(pen: &mut Pen, f: Field)
    ensures { Writes pen.old (field_text 8 f) pen.new }
{
    put_tab_class(pen, f.class);
    pen.byte(b'\t');
    put_value(pen, f.value);
}
