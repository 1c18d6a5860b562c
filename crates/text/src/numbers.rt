// Digits, and the numbers that they write.
ghost use Rattle.std.specs.Prelude.{◌≡◌, ◌%◌, ◌≤◌};
ghost use Rattle.model.specs.Numbers.{dec_digit, hex_digit, digit_byte, dec_value, read_dec, read_hex};

// What a byte is as a decimal digit.
pub fn dec_digit(b: u8) -> Option<u64>
    ensures { result ≡ dec_digit b }
{
    match b {
        b'0'..=b'9' => Some(u64::from(b - b'0')),
        _ => None,
    }
}

// What a byte is as a hex digit. (`char::to_digit` would take small letters too; with ranges of bytes the two readers of digits stand beside each other as they are.)
pub fn hex_digit(b: u8) -> Option<u64>
    ensures { result ≡ hex_digit b }
{
    match b {
        b'0'..=b'9' => Some(u64::from(b - b'0')),
        b'A'..=b'F' => Some(u64::from(b - b'A' + 10)),
        _ => None,
    }
}

// The byte of a number's last hex digit. (`char::from_digit` gives small letters.)
pub fn digit_byte(v: u64) -> u8
    ensures { result ≡ digit_byte (v % 16) }
{
    let d = (v % 16) as u8;
    match d {
        0..=9 => b'0' + d,
        _ => b'A' + (d - 10),
    }
}

// The number that decimal digits give, at most the limit; there may be zeros in front.
#[tactic(auto, using(crate::proofs::ReadLaws::num_step, crate::proofs::ReadLaws::num_end, crate::proofs::ReadLaws::over_limit), unfolding(model::specs::Numbers::dec_value))]
fn dec_value(s: &[u8], limit: u64) -> Option<u64>
    ensures { result ≡ dec_value limit s.now }
{
    let mut acc = 0u64;
    for &b in s {
        let d = dec_digit(b)?;
        acc = acc.checked_mul(10)?.checked_add(d)?;
        if limit < acc {
            return None;
        }
    }
    Some(acc)
}

// A decimal number with no zero in front, at most the limit.
#[tactic(auto, using(crate::proofs::ReadLaws::lead_none, crate::proofs::ReadLaws::lead_one, crate::proofs::ReadLaws::front_zero, crate::proofs::ReadLaws::no_front_zero), unfolding(model::specs::Numbers::read_dec))]
pub fn read_dec(s: &[u8], limit: u64) -> Option<u64>
    ensures { result ≡ read_dec limit s.now }
{
    match s {
        [] | [b'0', _, ..] => None,
        _ => dec_value(s, limit),
    }
}

// The number of exactly n hex digits, as many as a u64 has or fewer.
#[tactic(auto, using(crate::proofs::ReadLaws::num_step, crate::proofs::ReadLaws::num_end), unfolding(model::specs::Numbers::read_hex))]
pub(crate) fn read_hex(s: &[u8], n: usize) -> Option<u64>
    requires { n ≤ 16 }
    ensures { result ≡ read_hex n s.now }
{
    if s.len() != n {
        return None;
    }
    let mut acc = 0u64;
    for &b in s {
        acc = acc << 4 | hex_digit(b)?;
    }
    Some(acc)
}

// The number of exactly eight hex digits, which a u32 holds.
pub fn read_hex8(s: &[u8]) -> Option<u32>
    ensures { result ≡ read_hex 8 s.now }
{
    Some(read_hex(s, 8)? as u32)
}
