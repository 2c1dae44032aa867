// Laws of what is read.
ghost use Rattle.bsdl_read.specs.Laws as l;

/// The tokens of a text have a structure exactly where they are a file by its parts: `entity NAME is`, items, and `end NAME ;`, where an
/// item that is read is `attribute X of NAME : entity is VALUE ;` with each of the seven names at most once.
pub fn files_have_parts()
    ensures { l.FilesHaveParts }
{}

/// The tokens of a text have no structure exactly where the first token is refused with which they are no front of a file any more, or
/// where they are a front that ends early, or a whole file but for a required attribute. A front is `entity NAME is`, whole items, and a
/// part of one more or of `end NAME ;`. Cause 7 is one of the seven names met before, right behind `attribute`; 8 comes exactly inside an
/// item that is read; 5 elsewhere and at an early end; 6 is the missing attribute. What a file or a front begins with is a front.
pub fn structure_is_refused()
    ensures refused { l.StructureIsRefused }
    ensures files { l.FilesHaveFronts }
    ensures fronts { l.FrontsHaveFronts }
{}

/// Every text either says an entity or is refused, and never both.
pub fn entity_or_refusal()
    ensures one { l.OneOfBoth }
    ensures never_both { l.NeverBoth }
{}

/// The contents by their parts: INSTRUCTION_OPCODE, one pattern or several, and REGISTER_ACCESS are read exactly where what stands between
/// the quotes, put together, is written as such entries, and say what these say. The first two are refused for cause 8 alone, and the
/// third for cause 9 only where a word of it is left out of the subset. The last digit of a number is the lowest.
pub fn contents_have_parts()
    ensures one { l.OneContent }
    ensures opcodes { l.OpcodesHaveParts }
    ensures no_opcodes { l.OpcodesAreRefused }
    ensures patterns { l.PatternsHaveParts }
    ensures no_pattern { l.PatternsAreRefused }
    ensures accesses { l.AccessesHaveParts }
    ensures no_accesses { l.AccessesAreRefused }
    ensures numbers { l.LastDigitIsLowest }
{}
