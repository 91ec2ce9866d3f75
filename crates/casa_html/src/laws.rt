//! A law of the definitions, on a function that does nothing.

ghost use Rattle.std.specs.Prelude.{◌≢◌, ℕ, List, All};
ghost use Rattle.casa_html.specs.Recorded.{scripted};

/// Nothing that is shown ends its script: no `<` is left in it.
pub fn scripts_are_not_ended()
    ensures { (json : List ℕ) → All (λ byte. byte ≢ 60) (scripted json) }
{}
