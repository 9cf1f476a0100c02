//! Laws of the bytes of a journal.

ghost use Rattle.mas_record_journal.specs.Journals.{IsReadBack, IsCutShort};

/// What is written of turns tells these turns, and the beginning of a file tells a beginning of its turns.
pub fn tells_turns()
    ensures written { IsReadBack }
    ensures cut { IsCutShort }
{}
