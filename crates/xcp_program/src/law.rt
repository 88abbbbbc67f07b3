//! Laws of the definitions: each is the contract of a function with an empty body.
ghost use Rattle.xcp_program.specs.DecidingLaws.{BytesAreOfOneLayout};
ghost use Rattle.xcp_program.specs.StoredPages.{EachFileIsRead};

/// What decides the answers is of one layout: of two layouts that have the same bytes a slave begins with the same.
pub fn what_decides_is_of_one_layout()
    ensures { BytesAreOfOneLayout }
{}

/// The file of a layout's stored pages is never longer than what is read of it.
pub fn what_a_layout_stores_is_read()
    ensures { EachFileIsRead }
{}
