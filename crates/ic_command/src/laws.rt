ghost use Rattle.std.specs.Prelude.{◌≡◌, ◌≢◌, ℕ, true, false, List, [], ◌∷◌, ◌++◌, All};
ghost use Rattle.ic_command.specs.Words.{words, is_blank};

/// Where a line is cut in words: at each blank. What has none is one word.
pub fn words_end_at_blanks()
    ensures parted { (front behind : List ℕ) (blank : ℕ) → is_blank blank ≡ true → words (front ++ blank ∷ behind) ≡ words front ++ words behind }
    ensures word { (front : List ℕ) → front ≢ [] → All (λ byte. is_blank byte ≡ false) front → words front ≡ front ∷ [] }
    ensures none { words [] ≡ [] }
{}
