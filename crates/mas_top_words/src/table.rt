//! The commands and their options, by their words.

ghost use Rattle.std.specs.Prelude.{◌≡◌};
ghost use Rattle.mas_top_words.specs.Table as spec;

#[derive(Clone, Copy)]
pub enum Command {
    Run,
    Replay,
    Check,
    Demo,
    Renew,
    Record,
    Resume,
    Sites,
    Lint,
}

/// What an option sets.
#[derive(Clone, Copy)]
pub enum Setting {
    Workers,
    Pool,
    Cycles,
    Lead,
    Depth,
    Tries,
    Level,
}

/// The command of a word.
pub fn command_of(word: &[u8]) -> Option<Command>
    ensures { result ≡ spec.command_of word.now }
{
    if word == b"run".as_slice() {
        return Some(Command::Run);
    }
    if word == b"replay".as_slice() {
        return Some(Command::Replay);
    }
    if word == b"check".as_slice() {
        return Some(Command::Check);
    }
    if word == b"demo".as_slice() {
        return Some(Command::Demo);
    }
    if word == b"renew".as_slice() {
        return Some(Command::Renew);
    }
    if word == b"record".as_slice() {
        return Some(Command::Record);
    }
    if word == b"resume".as_slice() {
        return Some(Command::Resume);
    }
    if word == b"sites".as_slice() {
        return Some(Command::Sites);
    }
    if word == b"lint".as_slice() {
        return Some(Command::Lint);
    }
    None
}

/// The setting whose option has this word.
pub fn setting_of(word: &[u8]) -> Option<Setting>
    ensures { result ≡ spec.setting_of word.now }
{
    if word == b"--workers".as_slice() {
        return Some(Setting::Workers);
    }
    if word == b"--pool".as_slice() {
        return Some(Setting::Pool);
    }
    if word == b"--cycles".as_slice() {
        return Some(Setting::Cycles);
    }
    if word == b"--lead".as_slice() {
        return Some(Setting::Lead);
    }
    if word == b"--depth".as_slice() {
        return Some(Setting::Depth);
    }
    if word == b"--tries".as_slice() {
        return Some(Setting::Tries);
    }
    if word == b"--level".as_slice() {
        return Some(Setting::Level);
    }
    None
}

/// Whether the command has this option.
pub fn takes(command: Command, setting: Setting) -> bool
    ensures { result ≡ spec.takes command setting }
{
    match command {
        Command::Run => true,
        Command::Replay => !matches!(setting, Setting::Workers | Setting::Pool),
        Command::Check => false,
        Command::Demo => matches!(setting, Setting::Workers),
        Command::Renew => false,
        Command::Record => !matches!(setting, Setting::Pool),
        Command::Resume => !matches!(setting, Setting::Pool),
        Command::Sites => !matches!(setting, Setting::Pool),
        Command::Lint => false,
    }
}

/// How many names the command has.
pub fn name_count(command: Command) -> u64
    ensures { result ≡ spec.name_count command }
{
    match command {
        Command::Run => 1,
        Command::Replay => 2,
        Command::Check => 2,
        Command::Demo => 1,
        Command::Renew => 2,
        Command::Record => 2,
        Command::Resume => 2,
        Command::Sites => 2,
        Command::Lint => 1,
    }
}
