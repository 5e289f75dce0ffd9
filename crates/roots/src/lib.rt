// What a root is: letters and digits, a letter first, then spaces.
#![tactic(auto)]

ghost use Rattle.std.specs.Prelude.{◌≡◌, ◌||◌};
ghost use Rattle.rules.specs.Symbol.{is_letter, is_digit, are_spaces, is_root_tail, is_root};

fn is_letter_or_digit(b: u8) -> bool
    ensures { result ≡ is_letter b || is_digit b }
{
    b.is_ascii_uppercase() || b.is_ascii_digit()
}

fn are_spaces(tail: &[u8]) -> bool
    ensures { result ≡ are_spaces tail.now }
{
    tail.iter().all(|b| *b == b' ')
}

// Whether the bytes can stand behind a root's first letter.
#[tactic(auto, using(crate::proofs::Laws::letter_passed, crate::proofs::Laws::letters_end, crate::proofs::Laws::letters_all))]
fn is_root_tail(tail: &[u8]) -> bool
    ensures { result ≡ is_root_tail tail.now }
{
    for (i, b) in tail.iter().enumerate() {
        if !is_letter_or_digit(*b) {
            return are_spaces(&tail[i..]);
        }
    }
    true
}

#[tactic(auto, unfolding(rules::specs::Symbol::is_root))]
pub fn is_root(root: &[u8]) -> bool
    ensures { result ≡ is_root root.now }
{
    match root {
        [first, tail @ ..] => first.is_ascii_uppercase() && is_root_tail(tail),
        [] => false,
    }
}
