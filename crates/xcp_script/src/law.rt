//! A law of the definitions.
ghost use Rattle.std.specs.Prelude.{◌≡◌, ℕ, List};
ghost use Rattle.xcp_script.specs.Lines.{Lines};

/// Does nothing: its contract says that each text has lines, and one list of them only.
pub fn each_text_has_its_lines()
    ensures some { (text : List ℕ) → (lines : List (List ℕ)) × Lines text lines }
    ensures only { (text : List ℕ) (lines others : List (List ℕ))
        → Lines text lines → Lines text others → lines ≡ others }
{}
