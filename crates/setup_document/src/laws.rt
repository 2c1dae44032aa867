// Laws of what a setup file is.
ghost use Rattle.setup_document.specs.Laws as l;

/// Bytes are a setup file exactly where they are no more than the most, are UTF-8, and are a TOML document whose tables have the format,
/// key by key, with the values of the plan.
pub fn files_have_format()
    ensures documents { l.DocumentsHaveFormat }
    ensures files { l.FilesHaveFormat }
{}

/// Each refusal means what its cause says, at its place: 1 more bytes than the most, 2 no TOML document in UTF-8, 3 a key that is not
/// known in the table that stands there, 4 a required key that is missing in it, 5 a value of another kind at one of its keys, or no table
/// at all, and 6 a value out of the range of its key.
pub fn files_are_refused()
    ensures { l.FilesAreRefused }
{}
