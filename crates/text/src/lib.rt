// Whether a text is UTF-8.
#![tactic(auto)]

ghost use Rattle.std.specs.Prelude.{◌≡◌};
ghost use Rattle.meaning.specs.Utf8.{utf8};

#[tactic(auto, using(crate::proofs::Library::library_is_utf8, crate::proofs::Library::utf8_is_library))]
pub fn is_utf8(s: &[u8]) -> bool
    ensures { result ≡ utf8 s.now }
{
    std::str::from_utf8(s).is_ok()
}
