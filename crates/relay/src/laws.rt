//! What the items of a tag are.
ghost use Rattle.std.specs.Prelude.{◌≡◌, ◌≢◌, ℕ, List, [], ◌∷◌, ◌++◌};
ghost use Rattle.relay.specs.Ends.{items_of};

/// Of a list and another behind it: those of the one, and then those of the other. Of one item: it, exactly where it has this tag.
pub fn items_are_of_their_tag<T>()
    ensures behind { (tag : ℕ) (xs ys : List (ℕ × T)) → items_of tag (xs ++ ys) ≡ items_of tag xs ++ items_of tag ys }
    ensures own { (tag : ℕ) (x : T) → items_of tag ((tag, x) ∷ []) ≡ x ∷ [] }
    ensures other { (tag another : ℕ) (x : T) → tag ≢ another → items_of another ((tag, x) ∷ []) ≡ [] }
{}
