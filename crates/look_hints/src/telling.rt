//! What hints say, in words.

use crate::hint::Hints;
use crate::pen::told_by_rule;
use crate::rules::{Rule, form_rules, literal_rules, plan_rules};
use crate::sight::{Sight, hold};
use asl_term::sequence::{Seq, Starved};
use std::alloc::Global;

/// The hints so far, and whether memory was refused.
pub struct Sheet {
    alloc: Global,
    all: Hints,
    pub spent: bool,
}

/// By hand, so that who lets one go proves nothing of its parts.
impl Drop for Sheet {
    fn drop(self) {
        let Sheet {
            alloc: _,
            all: _,
            spent: _,
        } = self;
    }
}

pub fn new_sheet(alloc: Global) -> Sheet {
    Sheet {
        alloc,
        all: Seq::new(alloc),
        spent: false,
    }
}

impl Sheet {
    /// Puts what the rules say that fit.
    pub fn look(&mut self, s: &Sight<'_>) {
        self.look_in(s, literal_rules());
        self.look_in(s, plan_rules());
        self.look_in(s, form_rules());
    }

    fn look_in(&mut self, s: &Sight<'_>, rules: &[Rule]) {
        for rule in rules {
            if rule.subject as u64 == s.subject as u64 && hold(s, rule.tests) {
                match told_by_rule(self.alloc, s, rule) {
                    Ok(hint) => {
                        if self.all.push(hint).is_err() {
                            self.spent = true;
                        }
                    }
                    Err(_) => self.spent = true,
                }
            }
        }
    }

    pub fn into_hints(self) -> Result<Hints, Starved> {
        let Sheet {
            alloc: _,
            all,
            spent,
        } = self;
        if spent { Err(Starved) } else { Ok(all) }
    }
}
