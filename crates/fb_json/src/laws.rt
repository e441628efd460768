//! What follows from the definitions alone. The function does nothing: its clause is the law.

ghost use Rattle.std.specs.Prelude.{◌≡◌};
ghost use Rattle.fb_json.specs.JsonText.{most_bytes};
ghost use Rattle.fb_json.specs.declared.text.TheConstants.{MOST_TEXT_BYTES};

/// The limit that readers of JSON test is that of the definitions.
pub fn limit_of_texts()
    ensures { MOST_TEXT_BYTES ≡ most_bytes }
{}
