//! A law of the definitions: the contract of a function with an empty body.
ghost use Rattle.xcp_config.specs.ConfigLaws.{FilesAreOfThoseThatNameThem};

/// Where no segment names a file, a configuration is read as one without files.
pub fn files_are_of_those_that_name_them()
    ensures { FilesAreOfThoseThatNameThem }
{}
