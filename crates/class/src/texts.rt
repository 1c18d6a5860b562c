// Classes as text: the level's digit, and eight hex digits for the marks.
ghost use Rattle.std.specs.Prelude.{◌≡◌, ◌∷◌};
ghost use Rattle.model.specs.Texts.{class_text, read_class};
ghost use Rattle.room.specs.Writing.{Writes};

use model::Class;
use room::Pen;
use text::numbers::read_hex8;

// The class that a text writes.
#[tactic(auto, using(crate::proofs::TextLaws::class_none, crate::proofs::TextLaws::class_under, crate::proofs::TextLaws::class_over, crate::proofs::TextLaws::class_by))]
pub fn read_class(s: &[u8]) -> Option<Class>
    ensures { result ≡ read_class 8 s.now }
{
    match s {
        [b @ b'0'..=b'3', rest @ ..] => Some(Class {
            level: b - b'0',
            marks: read_hex8(rest)?,
        }),
        _ => None,
    }
}

// A class.
#[tactic(auto, using(room::proofs::PenLaws::writes), unfolding(model::specs::Texts::class_text))]
pub fn put_class(pen: &mut Pen, k: Class)
    ensures { Writes pen.old (class_text 8 k) pen.new }
{
    pen.byte(b'0' + k.level % 4);
    pen.hex(u64::from(k.marks), 8);
}

// A tab and a class.
#[tactic(auto, using(room::proofs::PenLaws::writes))]
pub fn put_tab_class(pen: &mut Pen, k: Class)
    ensures { Writes pen.old (9 ∷ class_text 8 k) pen.new }
{
    pen.byte(b'\t');
    put_class(pen, k);
}
