// Bytes written into a room at a place, each as far as the room goes; what is told is the place behind them.
// The loops are here and not in the pen's methods: a place that is a parameter stays in a register, one in a lent pen is stored at each byte.
ghost use Rattle.std.specs.Prelude.{◌≡◌, [], ◌∷◌, ◌/◌, ◌^◌};
ghost use Rattle.model.specs.Numbers.{digits};
ghost use Rattle.room.specs.Writing.{Wrote};

use text::numbers::digit_byte;

// One byte.
pub(crate) fn put_byte(room: &mut [u8], at: usize, b: u8) -> usize
    ensures { Wrote room.old at (b ∷ []) result room.new }
{
    if at < room.len() {
        room[at] = b;
        return at + 1;
    }
    at.saturating_add(1)
}

// A text that is given.
pub(crate) fn put_text(room: &mut [u8], at: usize, text: &[u8]) -> usize
    ensures { Wrote room.old at text.now result room.new }
{
    let mut place = at;
    for &b in text {
        place = put_byte(room, place, b);
    }
    place
}

// A number without its last k hex digits.
#[tactic(auto, using(crate::proofs::DigitLaws::pow_16))]
fn without(v: u64, k: usize) -> u64
    ensures { result ≡ v / 16 ^ k }
{
    if 16 <= k {
        return 0;
    }
    v >> (4 * k)
}

// The last n hex digits of a number.
pub(crate) fn put_hex(room: &mut [u8], at: usize, v: u64, n: usize) -> usize
    ensures { Wrote room.old at (digits 16 n v) result room.new }
{
    let mut place = at;
    for k in (0..n).rev() {
        place = put_byte(room, place, digit_byte(without(v, k)));
    }
    place
}
