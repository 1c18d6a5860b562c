// The stretches of a text between two bytes that part it: tabs part the fields of a line, line feeds part lines.
ghost use Rattle.std.specs.Prelude.{◌≡◌, drop, nat_eq, position};
ghost use Rattle.model.specs.Lines.{is_text};
ghost use Rattle.text.specs.Fields.{field_at, end_of, behind};

// Where the first b stands, if there is one.
fn first(s: &[u8], b: u8) -> Option<usize>
    ensures { result ≡ position (λ x. nat_eq x b) s.now }
{
    s.iter().position(|&x| x == b)
}

// How far behind `from` the first b stands, if there is one. (By the slice from there on: `skip` would step over each byte before it.)
#[tactic(auto, using(crate::proofs::FieldLaws::drop_near))]
fn ahead(s: &[u8], from: usize, b: u8) -> Option<usize>
    ensures { result ≡ position (λ x. nat_eq x b) (drop from s.now) }
{
    first(&s[from.min(s.len())..], b)
}

// The first place from `from` on where b stands, or the text's end.
#[tactic(auto, using(crate::proofs::FieldLaws::end_place, crate::proofs::FieldLaws::end_within))]
pub fn find(s: &[u8], from: usize, b: u8) -> usize
    ensures { result ≡ end_of b s.now from }
{
    match ahead(s, from, b) {
        Some(n) => from + n,
        None => s.len(),
    }
}

// The field that starts at a place, that very stretch of the text: up to the next b, or to the text's end.
// A text and a place in it go together in `steps::Reader`, which stands on this function and the next.
#[tactic(auto, using(crate::proofs::FieldLaws::end_from, crate::proofs::FieldLaws::end_within, crate::proofs::FieldLaws::part_is))]
pub fn part(s: &[u8], at: usize, b: u8) -> &[u8]
    ensures { result.now ≡ field_at b s.now at }
{
    let start = at.min(s.len());
    &s[start..find(s, at, b)]
}

// The place behind a field of n bytes that starts at a place, and behind the byte that ends it.
pub fn after(s: &[u8], at: usize, n: usize) -> usize
    ensures { result ≡ behind s.now at n }
{
    at.saturating_add(n).min(s.len()) + 1
}

// Whether two texts are the same bytes.
#[tactic(auto, using(crate::proofs::WordLaws::text_alike))]
pub fn same(s: &[u8], t: &[u8]) -> bool
    ensures { result ≡ is_text s.now t.now }
{
    s == t
}
