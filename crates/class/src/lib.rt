// Classes: their order, their common part, and their text.
#![tactic(auto)]

ghost use Rattle.std.specs.Prelude.{◌≡◌};
ghost use Rattle.model.specs.Classes as order;

use model::Class;

pub mod texts;

// Whether `a` dominates `b`: `b` has no higher level, and no mark that `a` has not.
#[tactic(auto, using(crate::proofs::MaskLaws::dominates_low, crate::proofs::MaskLaws::dominates_32))]
pub fn dominates(a: Class, b: Class) -> bool
    ensures { result ≡ order.dominates a b }
{
    b.level <= a.level && (b.marks & !a.marks) == 0
}

// Whether two classes are the same.
#[tactic(auto, unfolding(model::specs::Classes::same))]
pub fn same_class(a: Class, b: Class) -> bool
    ensures { result ≡ order.same a b }
{
    a == b
}

// Whether a class is one of ours. Its marks are 32 at most, as their type says; its level is tested.
#[tactic(auto, using(crate::proofs::PartLaws::sound_level))]
pub fn class_sound(k: Class) -> bool
    ensures { result ≡ order.class_sound 8 k }
{
    k.level <= 3
}

// The common part of two classes: the lower level, and the marks that both have.
#[tactic(auto, unfolding(model::specs::Classes::common))]
pub fn common(a: Class, b: Class) -> Class
    ensures { result ≡ order.common a b }
{
    Class {
        level: a.level.min(b.level),
        marks: a.marks & b.marks,
    }
}
