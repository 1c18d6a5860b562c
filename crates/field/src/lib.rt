// Values and fields: kinds, rates by their bits, sameness, hiding, what is ours, and their text.
#![tactic(auto)]

ghost use Rattle.std.specs.Prelude.{◌≡◌, not, ◌&&◌};
ghost use Rattle.std.specs.Float.{binary32};
ghost use Rattle.std.specs.Float.Ieee.{is_nan, nan_bits, to_bits};
ghost use Rattle.model.specs.Values as values;

use class::{class_sound, dominates};
use model::{Class, Field, Kind, Value};

pub mod texts;

// The weight of a rate's sign.
const SIGN: u32 = 0x80000000;

// The bits of the infinite rate: above them, the sign taken off, no bits stand for a number.
const INFINITE: u32 = 0x7F800000;

// The bits that are written for the one not-a-number of a float.
const NO_NUMBER: u32 = 0x7FC00000;

// ---- kinds

// The mark that opens a value's text. (No `From`: a mark is not the value in another type, and two cases share one.)
#[tactic(auto, unfolding(model::specs::Values::mark))]
pub fn mark_of(v: Value) -> u8
    ensures { result ≡ values.mark v }
{
    match v {
        Value::Blank => b'-',
        Value::Count(_) => b'N',
        Value::Rate(_) | Value::Nan(_) => b'F',
        Value::Classed(_) => b'K',
        Value::Hidden => b'?',
    }
}

// A column's kind letter, the mark of its values.
pub fn kind_letter(k: Kind) -> u8
    ensures { result ≡ values.kind_letter k }
{
    u8::from(k)
}

// Whether a value is hidden.
#[tactic(auto, unfolding(model::specs::Values::is_hidden, model::specs::Values::mark))]
pub fn is_hidden(v: Value) -> bool
    ensures { result ≡ values.is_hidden v }
{
    matches!(v, Value::Hidden)
}

// Whether a value is blank or of a kind.
#[tactic(auto, unfolding(model::specs::Values::fits))]
pub fn fits_kind(k: Kind, v: Value) -> bool
    ensures { result ≡ values.fits k v }
{
    let mark = mark_of(v);
    mark == b'-' || mark == kind_letter(k)
}

// ---- rates, kept by their bits

// Whether 32 bits are those of a not-a-number.
#[tactic(auto, using(crate::proofs::RateLaws::nan_above))]
pub fn nan_bits(bits: u32) -> bool
    ensures { result ≡ nan_bits binary32 bits }
{
    INFINITE < bits % SIGN
}

// What a rate's 32 bits stand for.
#[tactic(auto, unfolding(model::specs::Values::rate_of))]
pub fn rate_of(bits: u32) -> Value
    ensures { result ≡ values.rate_of bits }
{
    if nan_bits(bits) {
        return Value::Nan(bits);
    }
    Value::Rate(f32::from_bits(bits))
}

// Whether a float is a number.
pub fn is_number(x: f32) -> bool
    ensures { result ≡ not (is_nan x) }
{
    !x.is_nan()
}

// A float's bits; at a not-a-number, which no value of ours holds, one pattern of them.
#[tactic(auto, using(crate::proofs::RateLaws::no_number))]
pub fn bits_of(x: f32) -> u32
    ensures { result ≡ to_bits binary32 x }
{
    if is_number(x) {
        return x.to_bits();
    }
    NO_NUMBER
}

// ---- equal values

// The number that a value carries: a count, a rate's bits, a class's marks.
#[tactic(auto, unfolding(model::specs::Values::carried))]
pub fn carried(v: Value) -> u32
    ensures { result ≡ values.carried v }
{
    match v {
        Value::Blank | Value::Hidden => 0,
        Value::Count(n) => n,
        Value::Rate(x) => bits_of(x),
        Value::Nan(b) => b,
        Value::Classed(k) => k.marks,
    }
}

// The level of the class that a value carries.
#[tactic(auto, unfolding(model::specs::Values::carried_level))]
pub fn carried_level(v: Value) -> u8
    ensures { result ≡ values.carried_level v }
{
    match v {
        Value::Classed(k) => k.level,
        _ => 0,
    }
}

// Whether two values are equal: rates by their bits, blank equal to blank.
// No derived equality says this: that of floats takes the two zeros for one, and they differ by a bit.
#[tactic(auto, unfolding(model::specs::Values::same_value))]
pub fn same_value(a: Value, b: Value) -> bool
    ensures { result ≡ values.same_value a b }
{
    mark_of(a) == mark_of(b) && carried(a) == carried(b) && carried_level(a) == carried_level(b)
}

// Whether a value that is found meets a condition: it equals the one that is asked for, and is not hidden.
pub fn meets_value(asked: Value, found: Value) -> bool
    ensures { result ≡ (not (values.is_hidden found) && values.same_value asked found) }
{
    !is_hidden(found) && same_value(asked, found)
}

// ---- hiding

// A field as a clearance sees it: its class stays, and its value is hidden where the class is not dominated.
#[tactic(auto, unfolding(model::specs::Values::hide))]
pub fn hide_field(c: Class, f: Field) -> Field
    ensures { result ≡ values.hide c f }
{
    if dominates(c, f.class) {
        return f;
    }
    Field {
        value: Value::Hidden,
        ..f
    }
}

// ---- values of ours

// Whether a value is one of ours. Counts and rates have 32 bits by their types; that each rate is in its one case is tested.
#[tactic(auto, using(crate::proofs::SoundLaws::sound_count, crate::proofs::SoundLaws::sound_rate, crate::proofs::SoundLaws::sound_nan), unfolding(model::specs::Values::value_sound))]
pub fn value_sound(v: Value) -> bool
    ensures { result ≡ values.value_sound 8 v }
{
    match v {
        Value::Blank | Value::Hidden => true,
        // A count is named, since its width is known only of one that is.
        Value::Count(_n) => true,
        Value::Rate(x) => is_number(x),
        Value::Nan(b) => nan_bits(b),
        Value::Classed(k) => class_sound(k),
    }
}

// Whether a field is one of ours.
#[tactic(auto, unfolding(model::specs::Values::field_sound))]
pub fn field_sound(f: Field) -> bool
    ensures { result ≡ values.field_sound 8 f }
{
    class_sound(f.class) && value_sound(f.value)
}
