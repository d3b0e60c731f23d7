ghost use Rattle.std.specs.Prelude.{◌≡◌, ◌++◌, codes};
ghost use Rattle.std.specs.Fmt.{decimal};
ghost use Rattle.ic_answer.specs.Texts.{refusal_number, refusal_text, refusal_words};
ghost use Rattle.ic_answer.specs.declared.refused.Refused.{Refused as ARefusal};

/// The line of each refusal says its number, which is that of the calls, and what it is.
pub fn refusals_are_numbered()
    ensures { (r : ARefusal) → refusal_text r ≡ codes "refused " ++ decimal (refusal_number r) ++ codes " " ++ refusal_words r ++ codes "\n" }
{}
