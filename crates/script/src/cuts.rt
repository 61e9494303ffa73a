// A text cut at a byte.
ghost use Rattle.std.specs.Prelude.{◌≡◌, ◌==◌};
ghost use Rattle.std.specs.List.{position};
ghost use Rattle.std.specs.Option.{option_map};
ghost use Rattle.script.specs.Cuts.{front, behind};

// What stands before the first such byte, all where there is none, and what stands behind it.
#[tactic(auto, using(crate::proofs::Places::cuts))]
pub fn cut(text: &[u8], byte: u8) -> (&[u8], Option<&[u8]>)
    ensures front { result.0.now ≡ front byte text.now }
    ensures behind { option_map (λ x. x.now) result.1 ≡ behind byte text.now }
{
    match place(text, byte) {
        Some(at) => (&text[..at], Some(&text[at + 1..])),
        None => (text, None),
    }
}

// The first place of a byte in a text, in a function of its own so that `position` is stated as an equation.
fn place(text: &[u8], byte: u8) -> Option<usize>
    ensures { result ≡ position (λ c. c == byte) text.now }
{
    text.iter().position(|c| *c == byte)
}
