ghost use Rattle.std.specs.Prelude.{ℕ, ◌≡◌, ◌<◌, slice_index};
ghost use Rattle.meaning.specs.Kind.{count};
ghost use Rattle.meaning.specs.KindNumbers.{kind_number};
ghost use Rattle.meaning.specs.declared.kind.Kind.{Kind};

use meaning::Kind;

// How many kinds there are.
pub const KINDS: usize = 45;

// A byte for each kind, by the kind's number, so that it is read and not decided anew at each node.
pub fn by_kind<F: Fn(Kind) -> u8>(f: F) -> [u8; KINDS]
    requires { F.IsAlwaysCallable f }
    ensures { (k : ℕ) → k < count → (kind : Kind) × (kind_number kind ≡ k) × F.post f kind (slice_index result k) }
{
    let mut bytes = [0; KINDS];
    for (number, byte) in bytes.iter_mut().enumerate() {
        if let Ok(kind) = Kind::try_from(number as u32) {
            *byte = f(kind);
        }
    }
    bytes
}
