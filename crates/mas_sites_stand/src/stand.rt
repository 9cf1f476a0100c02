//! A stand, and its cycles.

ghost use Rattle.std.specs.Prelude.{◌≡◌, ◌++◌, OnOk, OnErr, IfOk, length, drop};
ghost use Rattle.std.specs.Option.{option_to_list};
ghost use Rattle.mas_mind.specs.Minds.{IsAgent};
ghost use Rattle.mas_sites_stand.specs.Stands as spec;

use asl_term::names::Names;
use asl_term::printing::{print, write_number};
use asl_term::sequence::{Seq, Starved};
use asl_term::syntax::Text;
use mas_mind::mind::{Feedback, Input, Message, Messages, Outs, Thought, verb_text};
use mas_mind::thinking::Mind;
use std::alloc::Global;
use std::marker::Model;

/// The mind in the place of an agent that lives elsewhere. In each cycle it sends the next message of its script, where
/// there is one, and it keeps the messages that it takes.
pub struct Stand {
    me: u32,
    names: Names,
    made: u64,
    lines: Text,
    script: Seq<Option<Message>>,
    taken: Messages,
}

/// By hand, so that a crate above that lets a stand go proves nothing of its parts.
impl Drop for Stand {
    fn drop(self) {
        let Stand {
            me: _,
            names: _,
            made: _,
            lines: _,
            script: _,
            taken: _,
        } = self;
    }
}

impl Model for Stand {
    ghost use Rattle.mas_sites_stand.specs.Stands.{Standing, IsStand};
    ghost use Rattle.asl_term.specs.contracts.syntax.Term as term;
    ghost use Rattle.std.specs.Coded.{codes};

    ghost Value = { Standing };

    ghost coded = { Prim.hlevel (codes, term.the_row.coded) };

    ghost view = { λ s. record { me = s.me; names = s.names; made = s.made; lines = s.lines; script = s.script; taken = s.taken } };

    ghost invariant = { λ s. IsStand (record { me = s.me; names = s.names; made = s.made; lines = s.lines; script = s.script; taken = s.taken }) };
}

/// Appends the name of an agent.
fn write_name(names: &Names, a: u32, out: &mut Text) -> Result<(), Starved>
    ensures { OnOk result (out.new ≡ out.old ++ spec.name_of names.now a) }
{
    match names.at(a) {
        None => Ok(()),
        Some(name) => out.append(name.as_slice()),
    }
}

/// Appends the other agent, the verb and the content.
fn write_text(out: &mut Text, names: &Names, other: u32, m: &Message) -> Result<(), Starved>
    ensures { OnOk result (out.new ≡ out.old ++ spec.mail_text (spec.name_of names.now other) m.now) }
{
    write_name(names, other, out)?;
    out.append(b" ")?;
    out.append(verb_text(m.verb).as_bytes())?;
    out.append(b" ")?;
    print(&m.content, out)
}

/// Appends the line of a message that was taken or sent.
fn write_mail(
    alloc: Global,
    out: &mut Text,
    names: &Names,
    cycle: u64,
    word: &[u8],
    other: u32,
    m: &Message,
) -> Result<(), Starved>
    ensures { OnOk result (out.new ≡ out.old ++ spec.mail_line cycle word.now (spec.name_of names.now other) m.now) }
{
    write_number(alloc, cycle, out)?;
    out.append(b" ")?;
    out.append(word)?;
    write_text(out, names, other, m)?;
    out.append(b"\n")
}

impl Stand {
    /// A stand before its first cycle, with these names.
    pub fn with_names(alloc: Global, me: u32, names: Names) -> Stand
        requires { IsAgent (length names) me }
        ensures { result ≡ spec.opening_stand me names }
    {
        Stand {
            me,
            names,
            made: 0,
            lines: Seq::new(alloc),
            script: Seq::new(alloc),
            taken: Seq::new(alloc),
        }
    }

    /// Puts an entry last into its script.
    pub fn add_entry(&mut self, e: Option<Message>) -> Result<(), Starved>
        requires { spec.IsEntry self.old.me (length self.old.names) e }
        ensures ok { OnOk result (self.new ≡ spec.with_entry e self.old) }
        ensures err { OnErr result (self.new ≡ self.old) }
    {
        self.script.push(e)
    }
}

/// The line of a message that was taken, where there is one, is put last.
fn write_taken(
    alloc: Global,
    out: &mut Text,
    names: &Names,
    cycle: u64,
    m: &Option<Message>,
) -> Result<(), Starved>
    ensures { OnOk result (out.new ≡ out.old ++ spec.took_line names.now cycle m.now) }
{
    match m {
        None => Ok(()),
        Some(m) => write_mail(alloc, out, names, cycle, b"took ", m.from, m),
    }
}

/// Puts a message last, where there is one.
fn keep(taken: &mut Messages, m: Option<Message>) -> Result<(), Starved>
    ensures { OnOk result (taken.new ≡ taken.old ++ option_to_list m) }
{
    match m {
        None => Ok(()),
        Some(m) => taken.push(m),
    }
}

/// Takes the first entry off a script.
fn take_entry(script: &mut Seq<Option<Message>>) -> Option<Message>
    ensures first { result ≡ spec.entry script.old }
    ensures rest { script.new ≡ drop 1 script.old }
{
    match script.remove(0) {
        None => None,
        Some(e) => e,
    }
}

/// The line of a message that was sent, where there is one, is put last.
fn write_sent(
    alloc: Global,
    out: &mut Text,
    names: &Names,
    cycle: u64,
    m: &Option<Message>,
) -> Result<(), Starved>
    ensures { OnOk result (out.new ≡ out.old ++ spec.sent_line names.now cycle m.now) }
{
    match m {
        None => Ok(()),
        Some(m) => write_mail(alloc, out, names, cycle, b"sends ", m.to, m),
    }
}

/// The lines of a cycle that takes and sends these, where there are any.
fn lines_of(
    alloc: Global,
    names: &Names,
    cycle: u64,
    taken: &Option<Message>,
    sent: &Option<Message>,
) -> Result<Text, Starved>
    ensures { IfOk result (λ t. t ≡ spec.took_line names.now cycle taken.now ++ spec.sent_line names.now cycle sent.now) }
{
    let mut out = Seq::new(alloc);
    write_taken(alloc, &mut out, names, cycle, taken)?;
    write_sent(alloc, &mut out, names, cycle, sent)?;
    Ok(out)
}

/// The outs that send this message, where there is one.
fn sending(alloc: Global, m: Option<Message>) -> Result<Outs, Starved>
    ensures { IfOk result (λ outs. outs ≡ spec.sending m) }
{
    let mut messages = Seq::new(alloc);
    if let Some(m) = m {
        messages.push(m)?;
    }
    Ok(Outs {
        action: None,
        messages,
        stop: false,
        quiet: false,
    })
}

impl Mind for Stand {
    ghost use Rattle.std.specs.Prelude.{refl};
    ghost use Rattle.mas_sites_stand.specs.Stands.{stand_kind};
    ghost use Rattle.mas_sites_stand.specs.inner.Laws as laws;

    ghost kind = { stand_kind };

    ghost quiet_sends_nothing = { laws.quiet_sends_nothing };

    ghost quiet_again = { laws.quiet_again };

    ghost awaits_after = { λ s i. refl };

    ghost awaits_no_more = { λ s f. refl };

    ghost goes_on = { laws.goes_on };

    ghost is_told = { laws.is_told };

    fn think(&mut self, alloc: Global, input: Input) -> Result<Thought, Starved> {
        let Input {
            percepts: _,
            message,
        } = input;
        self.made += 1;
        let sent = take_entry(&mut self.script);
        let lines = lines_of(alloc, &self.names, self.made, &message, &sent)?;
        keep(&mut self.taken, message)?;
        let outs = sending(alloc, sent)?;
        self.lines.append(lines.as_slice())?;
        Ok(Thought::Outs(outs))
    }

    /// A stand never acts: it may be told of an action at any time, and nothing comes of it.
    fn took(&mut self, _feedback: Feedback)
        ensures { self.new ≡ self.old }
    {}

    fn lines(&self) -> &Text {
        &self.lines
    }
}
