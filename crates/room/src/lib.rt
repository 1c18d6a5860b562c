// A pen writes text into a room that a caller lends. It asks nothing of the room: a byte past its end is not stored, so that on an empty
// room a pen only counts.
#![tactic(auto)]

ghost use Rattle.std.specs.Prelude.{◌≡◌, [], ◌∷◌, ◌≤◌, reverse};
ghost use Rattle.model.specs.Numbers.{dec_text, digits};

mod bytes;

use arrayvec::ArrayVec;
use bytes::{put_byte, put_hex, put_text};
use text::numbers::digit_byte;

// A room, and the place where the next byte goes.
#[derive(Drop)]
pub struct Pen<'a> {
    room: &'a mut [u8],
    place: usize,
    ghost in_range: { place ≤ 18446744073709551615 },
}

impl<'a> Pen<'a> {
    ghost use Rattle.room.specs.Writing.{Writes};

    // A pen at a place of a room.
    pub fn new(room: &'a mut [u8], place: usize) -> Pen<'a>
        ensures same_room { result.room.ghost_name ≡ room.entry.ghost_name }
        ensures same_bytes { result.room.now ≡ room.old }
        ensures place { result.place ≡ place }
    {
        Pen { room, place }
    }

    // The place where the next byte goes.
    pub fn place(&self) -> usize
        ensures { result ≡ self.now.place }
    {
        self.place
    }

    // One byte.
    #[tactic(auto, unfolding(crate::specs::Writing::Writes))]
    pub fn byte(&mut self, b: u8)
        ensures { Writes self.old (b ∷ []) self.new }
    {
        self.place = put_byte(self.room, self.place, b);
    }

    // A text that is given.
    #[tactic(auto, unfolding(crate::specs::Writing::Writes))]
    pub fn text(&mut self, text: &[u8])
        ensures { Writes self.old text.now self.new }
    {
        self.place = put_text(self.room, self.place, text);
    }

    // The last n hex digits of a number.
    #[tactic(auto, unfolding(crate::specs::Writing::Writes))]
    pub fn hex(&mut self, v: u64, n: usize)
        ensures { Writes self.old (digits 16 n v) self.new }
    {
        self.place = put_hex(self.room, self.place, v, n);
    }

    // A number in decimal, its digits copied round.
    #[tactic(auto, using(crate::proofs::PenLaws::writes_none, crate::proofs::PenLaws::writes_more))]
    pub fn decimal(&mut self, v: u64)
        ensures { Writes self.old (dec_text v) self.new }
    {
        for &digit in backwards(v).iter().rev() {
            self.byte(digit);
        }
    }
}

// A number's decimal digits, made back to front.
fn backwards(v: u64) -> ArrayVec<u8, 20>
    ensures { reverse result.items ≡ dec_text v }
{
    let mut made = ArrayVec::new();
    let mut rest = v;

    // A `while`: the library's `successors` would want a closure that divides and one that stops, and read no plainer.
    while 10 <= rest {
        made.push(digit_byte(rest % 10));
        rest /= 10;
    }
    made.push(digit_byte(rest));
    made
}
