// What holds of the source of each size.
ghost use Rattle.gen_source.specs.Laws.{NoneIsRefused, SourcesAreValid};

/// The source of a size up to 2,000 is a program that breaks no rule, has 31 tokens for each function that catches and 73 more, and is
/// no longer than a source may be; so the front end refuses none.
pub fn generated_sources_are_valid()
    ensures valid { SourcesAreValid }
    ensures none_refused { NoneIsRefused }
{}
