//! Words that are compared, in runs of which each differs.
ghost use Rattle.std.specs.Prelude.{◌≡◌, ◌∷◌, [], ◌<◌, length, IfSome, not};
ghost use Rattle.std.specs.List.{position, slice_split};
ghost use Rattle.std.specs.Option.{option_map_or};
ghost use Rattle.cps_compare.specs.Code.Runs.{ends_run};

/// A word that is compared.
#[derive(Clone, Copy)]
pub struct ComparedWord {
    pub address: u32,
    pub differs: bool,
}

/// The first run of words that differ one after another, and what stands behind the word that ends it.
pub fn first_run(words: &[ComparedWord]) -> (&[ComparedWord], Option<&[ComparedWord]>)
    ensures runs { slice_split ends_run words.now ≡ result.0.now ∷ option_map_or (λ rest. slice_split ends_run rest.now) result.1 [] }
    ensures shorter { IfSome result.1 (λ rest. length rest.now < length words.now) }
{
    match end_of_run(words) {
        Some(at) => (&words[..at], Some(&words[at + 1..])),
        None => (words, None),
    }
}

fn end_of_run(words: &[ComparedWord]) -> Option<usize>
    ensures place { result ≡ position ends_run words.now }
    ensures within { IfSome result (λ at. at < length words.now) }
{
    words.iter().position(|word| !word.differs)
}
