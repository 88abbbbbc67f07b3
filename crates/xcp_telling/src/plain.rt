//! The word that asks for faults without words.
ghost use Rattle.std.specs.Prelude.{◌≡◌, MatchBool, map, string_bytes};
ghost use Rattle.xcp_telling.specs.PlainWords.{AsksPlainly, IsPlainAsked};

/// The word itself.
const PLAIN: &str = "--plain";

/// Takes the word `--plain` away that stands right behind the program's name, and says whether it stood there.
#[tactic(auto, using(crate::proofs::PlainLemmas::second_is_taken))]
pub fn take_plain(words: &mut Vec<String>) -> bool
    ensures { MatchBool result (IsPlainAsked (map string_bytes words.old.items) (map string_bytes words.new.items))
        ((¬ (AsksPlainly (map string_bytes words.old.items))) × (words.new ≡ words.old)) }
{
    let is_plain = asks_plainly(words.as_slice());
    if is_plain {
        let _ = words.remove(1);
    }
    is_plain
}

/// Whether it stands there.
fn asks_plainly(words: &[String]) -> bool
    ensures { MatchBool result (AsksPlainly (map string_bytes words.now)) (¬ (AsksPlainly (map string_bytes words.now))) }
{
    match words {
        [_, word, ..] => word.as_str() == PLAIN,
        _ => false,
    }
}
