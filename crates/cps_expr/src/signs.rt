//! A text cut into its signed terms.
ghost use Rattle.std.specs.Prelude.{◌≡◌, ℕ, ◌<◌, ◌≤◌, Bool, true, false, [], ◌∷◌, length, slice_index, Option, ◌⊎◌, option_map, IfSome, MatchOption};
ghost use Rattle.cps_expr.specs.declared.radix.Radix.{Radix};
ghost use Rattle.cps_expr.specs.OperandList.{with_first};
ghost use Rattle.cps_expr.specs.Expression.{is_sign, with_first_sign};
ghost use Rattle.cps_expr.specs.Term.{term_of};
ghost use Rattle.cps_expr.specs.Code.TermsLeft.{sign_of, terms_left, terms_behind};

/// Whether a text begins with `-`, and what follows its sign; `+` where it begins with none.
pub fn leading_sign(text: &[u8]) -> (bool, &[u8])
    ensures { with_first_sign text.now ≡ sign_of result.0 ∷ result.1.now }
{
    match text {
        [b'-', rest @ ..] => (true, rest),
        [b'+', rest @ ..] => (false, rest),
        _ => (false, text),
    }
}

/// The text of the first term, and the next sign with what follows it.
pub fn first_term(text: &[u8]) -> (&[u8], Option<(bool, &[u8])>)
    ensures terms { (radix : Radix) (is_minus : Bool) → terms_left radix is_minus text.now
        ≡ with_first (term_of radix is_minus result.0.now) (terms_behind radix (option_map (λ rest. (rest.0, rest.1.now)) result.1)) }
    ensures shorter { IfSome result.1 (λ rest. length rest.1.now < length text.now) }
{
    let (term, later) = text.split_at(sign_at(text));
    (term, behind_sign(later))
}

fn behind_sign(text: &[u8]) -> Option<(bool, &[u8])>
    ensures { MatchOption result
        ((text.now ≡ []) ⊎ (is_sign (slice_index text.now 0) ≡ false))
        (λ rest. text.now ≡ sign_of rest.0 ∷ rest.1.now) }
{
    match text {
        [b'-', rest @ ..] => Some((true, rest)),
        [b'+', rest @ ..] => Some((false, rest)),
        _ => None,
    }
}

/// Where the first sign stands, or the length.
pub fn sign_at(text: &[u8]) -> usize
    ensures within { result ≤ length text.now }
    ensures before { (k : ℕ) → k < result → is_sign (slice_index text.now k) ≡ false }
    ensures found { result < length text.now → is_sign (slice_index text.now result) ≡ true }
{
    for (i, byte) in text.iter().enumerate() {
        if is_sign(*byte) {
            return i;
        }
    }
    text.len()
}

fn is_sign(byte: u8) -> bool
    ensures { result ≡ is_sign byte }
{
    byte == b'+' || byte == b'-'
}
