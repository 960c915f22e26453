// An answer as document 01's numbers: of a refusal its number, its place and the needed length, of a reading its form. Functions and no
// methods, since the types stand in `meaning`, which says nothing of the C interface.
#![tactic(auto)]

ghost use Rattle.std.specs.Prelude.{◌≡◌};
ghost use Rattle.std.proofs.Math.Option.{some};
ghost use Rattle.meaning.specs.Answers.{refusal_answer, form_read};
ghost use Rattle.numbers.specs.Forms.{form_number};

use meaning::{Form, Refusal};

pub fn number(refusal: Refusal) -> u32
    ensures { result ≡ (refusal_answer refusal).number }
{
    match refusal {
        Refusal::Settings => 1,
        Refusal::Size => 2,
        Refusal::Node(_) => 3,
        Refusal::Nesting(_) => 4,
        Refusal::Depth(_) => 5,
        Refusal::Children(_) => 6,
        Refusal::Text(_) => 7,
        Refusal::Room(_) => 8,
        Refusal::Literal => 9,
    }
}

pub fn place(refusal: Refusal) -> u64
    ensures { result ≡ (refusal_answer refusal).place }
{
    match refusal {
        Refusal::Node(i)
        | Refusal::Nesting(i)
        | Refusal::Depth(i)
        | Refusal::Children(i)
        | Refusal::Text(i) => i.0 as u64,
        _ => 0,
    }
}

pub fn needed(refusal: Refusal) -> u64
    ensures { result ≡ (refusal_answer refusal).length }
{
    match refusal {
        Refusal::Room(n) => n.0 as u64,
        _ => 0,
    }
}

// 1 quoted, 2 block; 0 is for none.
pub fn form_number(f: Form) -> u32
    ensures { result ≡ form_number (some (form_read f)) }
{
    match f {
        Form::Quoted => 1,
        Form::Block => 2,
    }
}
