//! What goes to a keeper.
ghost use Rattle.std.specs.Prelude.{◌≡◌, [], ◌∷◌};

use crate::lag::Counted;
use std::marker::Model;
use xcp_locked::{Chapter, Name, Sheaf};

/// What goes to a keeper at once: a chapter that was cut off, or a sheaf that a caller handed over.
#[derive(Drop)]
pub(crate) struct Parcel<N: Name> {
    pub(crate) chapter: Option<Chapter<N>>,
    pub(crate) sheaf: Option<Sheaf<N>>,
    /// That the chapter was counted before it was handed in.
    pub(crate) counted: Option<Counted>,
}

impl<N: Name> Model for Parcel<N> {
    ghost use Rattle.std.specs.Prelude.{◌≡◌, ◌⊎◌, None, option_to_list};
    ghost use Rattle.xcp_service.specs.Parcels.{ParcelValue};

    ghost Value = { ParcelValue };

    ghost view = { λ p. record { chapters = option_to_list p.chapter; sheaves = option_to_list p.sheaf } };

    ghost invariant = { λ p. (p.chapter ≡ None) ⊎ (p.sheaf ≡ None) };
}

impl<N: Name> Parcel<N> {
    /// A chapter, which was counted.
    pub(crate) fn of_chapter(chapter: Chapter<N>, counted: Counted) -> Parcel<N>
        ensures { result ≡ record { chapters = chapter ∷ []; sheaves = [] } }
    {
        Parcel {
            chapter: Some(chapter),
            sheaf: None,
            counted: Some(counted),
        }
    }

    /// A sheaf.
    pub(crate) fn of_sheaf(sheaf: Sheaf<N>) -> Parcel<N>
        ensures { result ≡ record { chapters = []; sheaves = sheaf ∷ [] } }
    {
        Parcel {
            chapter: None,
            sheaf: Some(sheaf),
            counted: None,
        }
    }
}
