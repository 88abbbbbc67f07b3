//! Laws of the definitions: each is the contract of a function with an empty body.
ghost use Rattle.xcp_flash.specs.FlashLaws.{EachSegmentHasItsPage, FileHasOneContent, KeptPagesHaveTheirSizes, NothingElseIsKept, ReferencesHaveTheirSizes, RestoredPagesAreReferences, StoredPagesAreRestored, WhatIsKeptIsWhatAStoreLeaves};

/// The reference pages of a slave, put into its layout, are what the pages of a slave begin with that is opened then.
pub fn what_is_stored_is_restored()
    ensures sized { ReferencesHaveTheirSizes }
    ensures each { EachSegmentHasItsPage }
    ensures restored { StoredPagesAreRestored }
    ensures again { RestoredPagesAreReferences }
{}

/// What is kept of a slave while a store is requested are the reference pages that the store leaves; and at any other time those that it has.
pub fn what_is_kept_is_what_a_store_leaves()
    ensures sized { KeptPagesHaveTheirSizes }
    ensures stored { WhatIsKeptIsWhatAStoreLeaves }
    ensures others { NothingElseIsKept }
{}

/// A file is of one layout file, and has one list of pages.
pub fn a_file_has_one_content()
    ensures { FileHasOneContent }
{}
