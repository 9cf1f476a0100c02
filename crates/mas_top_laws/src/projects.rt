//! Laws of projects, as contracts of functions that do nothing.

ghost use Rattle.mas_top_laws.specs.Never.{OkMeansNever, YesMeansNever};

/// Where the verdict on the source that files describe is yes, no run of it has an event of a goal for which no plan is relevant, with any
/// options, any artifacts whose facts are as their trait has them, and any order of its turns.
pub fn yes_means_never()
    ensures { YesMeansNever }
{}

/// So it is of a project of which `lint` ended with `Ok`.
pub fn ok_means_never()
    ensures { OkMeansNever }
{}
