//! Laws of what is asked for, as contracts of functions that do nothing.

ghost use Rattle.mas_top.specs.Laws.{NotRefused, OneRefusal, CanRepeat, CanCheck, CanRenew, ReportsKeepLaws};

use asl_cycle::agent::Agent;
use mas_core_laws::endings::runs_end;
use mas_core_laws::lead::never_far_ahead;
use mas_core_laws::mail::mail_in_order;
use mas_core_laws::quiet::quiet_is_sound;

/// Where files describe what is asked for, a run or a replay, none of them is refused.
pub fn not_refused()
    ensures { NotRefused }
{}

/// What is asked for, a run or a replay, is refused with one status at most, whoever reads the files, unless a call fails or
/// memory lacks.
pub fn one_refusal()
    ensures { OneRefusal }
{}

/// The last two lines of a report are a schedule that a replay reads: it is not too long, each of its numbers has its turn and
/// every agent leaves. What the replay writes whole is that report again, and its status the same.
pub fn can_repeat()
    ensures { CanRepeat }
{
    runs_end::<Agent>();
}

/// A check of a report that a run or a replay wrote, in any version, is answered by yes.
pub fn can_check()
    ensures { CanCheck }
{
    runs_end::<Agent>();
}

/// The report anew of a report is that of the same run.
pub fn can_renew()
    ensures { CanRenew }
{}

/// The laws of the platform hold of the run that a report tells.
pub fn reports_keep_laws()
    ensures { ReportsKeepLaws }
{
    never_far_ahead::<Agent>();
    mail_in_order::<Agent>();
    quiet_is_sound::<Agent>();
}
