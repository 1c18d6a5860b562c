// A line read field by field, from the first on, so that it is looked through once.
// What is left of a line at a place are its fields from there on; behind the last there are none.
#![tactic(auto)]

ghost use Rattle.std.specs.Prelude.{◌≡◌, IfNone, OnSome};
ghost use Rattle.model.specs.Numbers.{read_dec};
ghost use Rattle.model.specs.Places.{map_o, when};
ghost use Rattle.model.specs.Texts as texts;
ghost use Rattle.text.specs.Fields.{fields_at, first_of, others_of};
ghost use Rattle.steps.specs.Steps.{Takes, both_by, byte, first_by, left, none_left, of_field};
ghost use Rattle.std.specs.Fn.{FnOnceReturnsAt};

use class::texts::read_class;
use field::texts::{read_kind, read_value};
use model::{Class, Field, Kind, Value};
use text::lines::{after, part};
use text::numbers::read_dec;

// A reader of the fields of a line: the line, and the place where its next field starts.
#[derive(Clone, Copy)]
pub struct Reader<'a> {
    pub line: &'a [u8],
    pub at: usize,
}

// The number that a field writes, up to a limit.
#[tactic(auto, using(crate::proofs::StepLaws::number_fits))]
fn number_in(text: &[u8], limit: u8) -> Option<u8>
    ensures { result ≡ read_dec limit text.now }
{
    let n = read_dec(text, u64::from(limit))?;
    Some(n as u8)
}

// The byte that is all of a field.
fn byte_in(text: &[u8]) -> Option<u8>
    ensures { result ≡ byte.read text.now }
{
    match text {
        [b] => Some(*b),
        _ => None,
    }
}

impl<'a> Reader<'a> {
    // A reader of what is left of a line at a place.
    pub fn from_place(line: &'a [u8], at: usize) -> Self
        ensures left { left result ≡ fields_at 9 line.now at }
        ensures place { result ≡ record { line = line.entry; at = at } }
    {
        Reader { line, at }
    }

    // Whether nothing is left.
    #[tactic(auto, using(crate::proofs::StepLaws::past_end, crate::proofs::StepLaws::before_end))]
    pub fn is_done(&self) -> bool
        ensures { result ≡ none_left (left self.now) }
    {
        self.line.len() < self.at
    }

    // The end of the line: none, if something is left.
    pub fn end(&self) -> Option<()>
        ensures { result ≡ when (none_left (left self.now)) tt }
    {
        self.is_done().then_some(())
    }

    // What the next field is read as, and on to the one behind it; where it is read as nothing, not on.
    #[tactic(auto, using(crate::proofs::StepLaws::others_left), unfolding(text::specs::Fields::field_at))]
    fn read<T, F: FnOnce(&[u8]) -> Option<T>>(&mut self, form: F) -> Option<T>
        requires { F.IsAlwaysCallable form }
        ensures read { FnOnceReturnsAt F.FnOnce form (first_of (left self.old)) result }
        ensures on { OnSome result (left self.new ≡ others_of (left self.old)) }
        ensures line { self.new.line ≡ self.old.line }
        ensures stays { IfNone result (self.new ≡ self.old) }
    {
        let text = part(self.line, self.at, b'\t');
        let value = form(text)?;
        self.at = after(self.line, self.at, text.len());
        Some(value)
    }

    // ---- one field

    // A number up to a limit.
    #[tactic(auto, unfolding(model::specs::Numbers::read_dec, model::specs::Numbers::leads_well))]
    pub fn number(&mut self, limit: u8) -> Option<u8>
        ensures { Takes (first_by (texts.number limit)) self.old result self.new }
    {
        self.read(|text| number_in(text, limit))
    }

    // A class.
    #[tactic(auto, unfolding(model::specs::Texts::read_class))]
    pub fn class(&mut self) -> Option<Class>
        ensures { Takes (first_by (texts.class 8)) self.old result self.new }
    {
        self.read(read_class)
    }

    // A byte that stands alone in its field.
    pub fn byte(&mut self) -> Option<u8>
        ensures { Takes (first_by byte) self.old result self.new }
    {
        self.read(byte_in)
    }

    // A kind.
    #[tactic(auto, unfolding(model::specs::Texts::read_letter))]
    pub fn kind(&mut self) -> Option<Kind>
        ensures { Takes (first_by texts.kind) self.old result self.new }
    {
        self.read(read_kind)
    }

    // A value.
    #[tactic(auto, unfolding(model::specs::Texts::read_value))]
    pub fn value(&mut self) -> Option<Value>
        ensures { Takes (first_by (texts.value 8)) self.old result self.new }
    {
        self.read(read_value)
    }

    // ---- two

    // A class and a value: a field of the store.
    pub fn field(&mut self) -> Option<Field>
        ensures { Takes (both_by (texts.class 8) (texts.value 8)) self.old (map_o of_field result) self.new }
    {
        let mut ahead = *self;
        let class = ahead.class()?;
        let value = ahead.value()?;
        *self = ahead;
        Some(Field { class, value })
    }

    // The numbers of a directory and of a table in it.
    pub fn table(&mut self) -> Option<(u8, u8)>
        ensures { Takes (both_by (texts.number 3) (texts.number 1)) self.old result self.new }
    {
        let mut ahead = *self;
        let directory = ahead.number(3)?;
        let table = ahead.number(1)?;
        *self = ahead;
        Some((directory, table))
    }
}
