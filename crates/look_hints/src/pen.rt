//! A hint as it is written: its words, and what stands for the parts of a rule.

use crate::hint::{Code, Hint, Span, code_word};
use crate::project::Member;
use crate::rules::{Among, Rule, note_rows};
use crate::sight::{Asked, Sight, group_of, hold, sets_in};
use asl_term::printing::{print, write_number};
use asl_term::printing_expr::print_formula;
use asl_term::sequence::{Seq, Starved};
use asl_term::syntax::Text;
use look_pieces::name::{is_almost, write_name};
use look_reasons::excerpt::put_shown;
use look_reasons::mark::{between, cut_at};
use look_reasons::reason::Reason;
use mas_top_files::folder::folder;
use std::alloc::Global;
use std::mem::replace;

/// The most names of agents that a note has.
const MOST_NAMES: u64 = 12;

/// The line that is begun, the notes so far, and whether memory was refused.
struct Pen {
    alloc: Global,
    line: Text,
    notes: Seq<Text>,
    spent: bool,
}

/// By hand, so that who lets one go proves nothing of its parts.
impl Drop for Pen {
    fn drop(self) {
        let Pen {
            alloc: _,
            line: _,
            notes: _,
            spent: _,
        } = self;
    }
}

/// The least number of arguments, this one or more, that some of these names has, where it is the name of the literal but for that.
fn count_from(a: &Asked<'_>, among: Among, least: u64) -> Option<u64> {
    let mut found: Option<u64> = None;
    for set in sets_in(among) {
        if let Some(g) = group_of(a, *set) {
            for n in g.names.as_slice() {
                let less = match found {
                    Some(count) => n.count < count,
                    None => true,
                };
                if less && n.count >= least && is_almost(a.literal, n) {
                    found = Some(n.count);
                }
            }
        }
    }
    found
}

impl Pen {
    fn keep(&mut self, put: Result<(), Starved>) {
        if put.is_err() {
            self.spent = true;
        }
    }

    fn put(&mut self, words: &[u8]) {
        let put = self.line.append(words);
        self.keep(put);
    }

    /// The agents of a source: the one, or the first and the last.
    fn put_agents(&mut self, names: &[Text]) {
        match names {
            [] => {}
            [name] => self.put(name.as_slice()),
            [first, .., last] => {
                self.put(first.as_slice());
                self.put(b"..");
                self.put(last.as_slice());
            }
        }
    }

    /// The names of the agents of sources, each behind a blank: the first of them.
    fn put_names(&mut self, members: &[Member]) {
        let mut count: u64 = 0;
        for m in members {
            for name in m.source.agents.as_slice() {
                if count < MOST_NAMES {
                    self.put(b" ");
                    self.put(name.as_slice());
                }
                count = count.saturating_add(1);
            }
        }
    }

    /// The name of a literal with so many arguments.
    fn put_name(&mut self, a: &Asked<'_>, count: u64) {
        let l = a.literal;
        let put = write_name(self.alloc, l.neg, &l.functor, count, &mut self.line);
        self.keep(put);
    }

    /// `there is p/1  p/3`, where there is one.
    fn put_same(&mut self, a: &Asked<'_>, among: Among) {
        let mut before: &[u8] = b"there is ";
        let mut least: u64 = 0;
        for _ in 0..u64::MAX {
            let Some(count) = count_from(a, among, least) else {
                return;
            };
            self.put(before);
            self.put_name(a, count);
            before = b"  ";
            least = count.saturating_add(1);
        }
    }

    /// What a letter stands for of a literal and its source.
    fn put_asked(&mut self, a: &Asked<'_>, letter: u8) {
        match letter {
            // The name of the literal, and its functor.
            b'n' => self.put_name(a, a.literal.args.len()),
            b'f' => self.put(a.literal.functor.as_slice()),
            // The agents of the source; the name of its file without its folders, as it is shown.
            b'a' => self.put_agents(a.member.source.agents.as_slice()),
            b'F' => {
                let file = a.member.source.file.as_slice();
                let name = between(file, folder(file).len(), file.len());
                let put = put_shown(name, &mut self.line);
                self.keep(put);
            }
            // The names that differ from it by their numbers of arguments alone.
            b'P' => self.put_same(a, Among::Planned),
            b'K' => self.put_same(a, Among::Known),
            b'A' => self.put_same(a, Among::Acts),
            b'U' => self.put_same(a, Among::Used),
            b'G' => self.put_same(a, Among::Goals),
            _ => {}
        }
    }

    /// What a letter behind `$` stands for in what a rule tells.
    fn put_part(&mut self, s: &Sight<'_>, letter: u8) {
        match letter {
            // A name or a token, and what follows from it; names; a line.
            b't' => self.put(s.text),
            b'r' => self.put(s.rest),
            b'N' => self.put_names(s.members),
            b'l' => {
                let put = write_number(self.alloc, s.line, &mut self.line);
                self.keep(put);
            }
            // A term, and an item.
            b'T' => {
                if let Some(t) = s.term {
                    let put = print(t, &mut self.line);
                    self.keep(put);
                }
            }
            b'i' => {
                if let Some(f) = s.item {
                    let put = print_formula(f, &mut self.line);
                    self.keep(put);
                }
            }
            other => {
                if let Some(a) = &s.asked {
                    self.put_asked(a, other);
                }
            }
        }
    }

    /// Puts words with what stands for each `$` and its letter.
    fn put_line(&mut self, s: &Sight<'_>, words: &[u8]) {
        let mut rest = words;
        for _ in words {
            let (plain, behind) = cut_at(rest, b'$');
            self.put(plain);
            let Some((letter, after)) = behind.split_first() else {
                return;
            };
            self.put_part(s, *letter);
            rest = after;
        }
    }

    /// Puts such a line as a note, unless it is empty.
    fn put_note(&mut self, s: &Sight<'_>, words: &[u8]) {
        self.put_line(s, words);
        if self.line.len() > 0 {
            let note = replace(&mut self.line, Seq::new(self.alloc));
            let put = self.notes.push(note);
            self.keep(put);
        }
    }

    /// The hint whose reason is the line that is begun.
    fn into_hint(self, span: Span, code: Code) -> Result<Hint, Starved> {
        let Pen {
            alloc: _,
            line,
            notes,
            spent,
        } = self;
        if spent {
            return Err(Starved);
        }
        Ok(Hint {
            place: span.place,
            code,
            reason: Reason {
                at: span.place.at as usize,
                end: span.end as usize,
                code: code_word(code),
                text: line,
                notes,
            },
        })
    }
}

/// What a rule says. The notes are written first: the line that is begun behind them is the reason.
pub fn told_by_rule(alloc: Global, s: &Sight<'_>, rule: &Rule) -> Result<Hint, Starved> {
    let (reason, note) = cut_at(rule.told, b'\n');
    let mut pen = Pen {
        alloc,
        line: Seq::new(alloc),
        notes: Seq::new(alloc),
        spent: false,
    };
    pen.put_note(s, note);
    for row in note_rows() {
        if row.subject as u64 == s.subject as u64 && hold(s, row.tests) {
            pen.put_note(s, row.told);
        }
    }
    pen.put_line(s, reason);
    pen.into_hint(s.span, rule.code)
}
