//! A law of sources, as the contract of a function that does nothing.

ghost use Rattle.mas_top_laws.specs.Read.{SourcesAreRead};

/// What the bytes of an agent's source say: its variables have no numbers, no list ends in a list, triggers have no arithmetic, beliefs
/// have no variables, and the calls that send have as many arguments as they take.
pub fn sources_are_read()
    ensures { SourcesAreRead }
{}
