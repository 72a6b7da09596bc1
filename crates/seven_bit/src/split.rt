ghost use Rattle.std.specs.Prelude.{◌≡◌, [], ◌∷◌, Some, None};

/// Splits the first byte from the rest.
// A rule of the project asks for a slice pattern that splits the first byte from the rest, in place of `split_first`.
#[tactic(auto, using(std::proofs::lemmas::List::nil_from_length, std::proofs::lemmas::Slice::first_rest))]
pub fn first_and_rest(bytes: &[u8]) -> Option<(u8, &[u8])>
    ensures { elim result [ None ↦ bytes.now ≡ [] | Some p ↦ bytes.now ≡ p.0 ∷ p.1.now ] }
{
    match bytes {
        [] => None,
        [first, rest @ ..] => Some((*first, rest)),
    }
}
