//! Agents may leave where all are quiet.

ghost use Rattle.mas_core_laws.specs.Quiet.{QuietLasts, QuietGoesOn, QuietEnds};

use mas_mind::thinking::Mind;

/// Where all are quiet, nothing would come of going on: no message is taken or sent, no action done, the world stays,
/// each cycle is quiet. And going on would end, with every agent gone for another reason.
pub fn quiet_is_sound<M: Mind>()
    ensures lasts { QuietLasts M.kind }
    ensures goes_on { QuietGoesOn M.kind }
    ensures ends { QuietEnds M.kind }
{}
