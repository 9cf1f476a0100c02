//! Laws of schedules.

ghost use Rattle.mas_report_schedule.specs.Reading.{OneAnswer, OneEnd, SomeAnswer, ReadAgain, EndPrinted, PrintedLast, EntriesStand, RunsMaximal, RunsAlone};

/// Bytes are the schedule of one list of numbers, or one line of them is the first that is bad.
pub fn one_answer()
    ensures one { OneAnswer }
    ensures some { SomeAnswer }
{}

/// The last two lines of a text are the schedule of one list of numbers at most, those that are printed.
pub fn one_end()
    ensures one { OneEnd }
    ensures printed { EndPrinted }
{}

/// What `put_schedule` writes of numbers is read as these numbers, by itself and as the end of a text.
pub fn printed_again()
    ensures read { ReadAgain }
    ensures last { PrintedLast }
{}

/// The entries of numbers stand for them; runs are maximal, and no other entries for the same numbers are.
pub fn maximal_runs()
    ensures stand { EntriesStand }
    ensures maximal { RunsMaximal }
    ensures alone { RunsAlone }
{}
