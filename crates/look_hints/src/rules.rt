//! The hints, as a table: what they are about, what holds then, and what is said.

use crate::hint::Code;
use asl_term::syntax::Kind;

/// What a hint is about.
#[derive(Clone, Copy)]
pub enum Subject {
    /// A literal that holds in a context, a rule or an argument that is a formula.
    Held,
    /// The literal of an item, by what it is for.
    Posted,
    Tested,
    Added,
    Deleted,
    Replaced,
    Acted,
    /// The trigger of a plan: one for events that an earlier plan takes, else for a goal, a question or a belief that comes or goes.
    Covered,
    Goal,
    Question,
    Comes,
    Goes,
    /// The trigger of a goal that each of its plans posts again.
    Endless,
    /// That of `kqml_received`.
    Received,
    /// What a message says to the agents of a source, by its verb.
    Achieved,
    Told,
    Asked,
    /// To whom a message goes.
    ToNobody,
    ToList,
    ToString,
    /// What is no verb, of one agent and of all.
    Verb,
    VerbToAll,
    /// In a plan for a failure.
    Annotation,
    Error,
    FailedGoal,
    /// A sign beside a string.
    Joined,
    Compared,
    /// A calculated term that is collected.
    Collected,
    /// A variable that occurs once.
    Once,
    OpenBelief,
    /// A goal for which its source has no plan.
    Planless,
}

/// Among which names one is looked for.
#[derive(Clone, Copy)]
pub enum Among {
    /// Those of which something may be known, and of beliefs that come and go.
    Known,
    Changing,
    /// Goals that are posted, by the source itself or by messages too.
    Goals,
    Posted,
    Questions,
    /// Goals for which there are plans.
    Planned,
    /// Beliefs in triggers and those that are looked at; those that are looked at or changed.
    Used,
    Changed,
    Acts,
}

/// What may hold of the literal, of its source and of the world.
#[derive(Clone, Copy)]
pub enum Test {
    /// Its name is one of these, or may be.
    May(Among),
    /// Its name is one of these.
    Is(Among),
    /// Some message may tell a plan.
    TellsPlans,
    /// There is a plan for its name.
    Plan(bool, Kind),
    World,
    /// It is the name of an internal action, and of one that does not stand in formulas.
    Internal,
    Deed,
    /// An item fails.
    Item,
}

/// What is said of a subject where these tests hold, or do not: a line is the reason, and a second one, where there is one, a note. A `$` and the letter
/// behind it stand for a part: see `put_part` of pen.
pub struct Rule {
    pub subject: Subject,
    pub tests: &'static [(Test, bool)],
    pub code: Code,
    pub told: &'static [u8],
}

/// A further note that is said of a subject where these tests hold, or do not.
pub struct Note {
    pub subject: Subject,
    pub tests: &'static [(Test, bool)],
    pub told: &'static [u8],
}

static PLANLESS: Rule = Rule {
    subject: Subject::Planless,
    tests: &[],
    code: Code::NoPlan,
    told: b"no plan +!$n in $F\n$P",
};

static LITERALS: [Rule; 9] = [
    Rule {
        subject: Subject::Held,
        tests: &[(Test::May(Among::Known), false)],
        code: Code::Never,
        told: b"nothing ever makes $n: this never holds\n$K",
    },
    Rule {
        subject: Subject::Deleted,
        tests: &[(Test::May(Among::Known), false)],
        code: Code::Never,
        told: b"nothing ever makes $n\n$K",
    },
    Rule {
        subject: Subject::Tested,
        tests: &[
            (Test::May(Among::Known), false),
            (Test::TellsPlans, false),
            (Test::Plan(true, Kind::Test), false),
        ],
        code: Code::NoAnswer,
        told: b"no belief, rule, percept, message or plan +?$n answers this\n$K",
    },
    Rule {
        subject: Subject::Acted,
        tests: &[(Test::May(Among::Acts), false), (Test::World, true)],
        code: Code::NoAct,
        told: b"no act $n in the world",
    },
    Rule {
        subject: Subject::Acted,
        tests: &[(Test::May(Among::Acts), false), (Test::World, false)],
        code: Code::NoAct,
        told: b"no act $n: the project has no world",
    },
    Rule {
        subject: Subject::Achieved,
        tests: &[
            (Test::TellsPlans, false),
            (Test::Plan(true, Kind::Achieve), false),
        ],
        code: Code::NoPlan,
        told: b"no plan +!$n at $a\n$P",
    },
    Rule {
        subject: Subject::Told,
        tests: &[
            (Test::TellsPlans, false),
            (Test::Plan(true, Kind::Belief), false),
            (Test::May(Among::Changed), false),
        ],
        code: Code::Unused,
        told: b"$a neither asks for $n nor has a plan for +$n\n$U",
    },
    Rule {
        subject: Subject::Asked,
        tests: &[(Test::May(Among::Known), false)],
        code: Code::NoAnswer,
        told: b"$a has no belief or rule $n\n$K",
    },
    Rule {
        subject: Subject::Asked,
        tests: &[(Test::Plan(true, Kind::Test), true)],
        code: Code::Jason,
        told: b"an ask is answered by beliefs and rules alone, not by the plan +?$n of $a",
    },
];

static PLANS: [Rule; 12] = [
    Rule {
        subject: Subject::Covered,
        tests: &[],
        code: Code::Covered,
        told: b"this plan is never taken: the one of line $l takes every such event first",
    },
    Rule {
        subject: Subject::Goal,
        tests: &[(Test::May(Among::Posted), false)],
        code: Code::NotCalled,
        told: b"nobody ever posts !$n to $a\n$G",
    },
    Rule {
        subject: Subject::Question,
        tests: &[(Test::May(Among::Questions), false)],
        code: Code::NotCalled,
        told: b"$a never asks ?$n",
    },
    Rule {
        subject: Subject::Comes,
        tests: &[(Test::May(Among::Changing), false)],
        code: Code::NotCalled,
        told: b"no belief $n ever comes",
    },
    Rule {
        subject: Subject::Goes,
        tests: &[(Test::May(Among::Changing), false)],
        code: Code::NotCalled,
        told: b"no belief $n ever goes",
    },
    Rule {
        subject: Subject::Endless,
        tests: &[],
        code: Code::Endless,
        told: b"every plan for !$n posts !$n again: it ends at the limit of cycles or by a failure",
    },
    Rule {
        subject: Subject::Received,
        tests: &[],
        code: Code::Jason,
        told: b"no rule posts !$f here: this plan is never called\na plan for +b[source(A)] or +!g[source(A)], with a context over A",
    },
    Rule {
        subject: Subject::ToNobody,
        tests: &[],
        code: Code::NoAgent,
        told: b"no agent has the name $t\nthere are:$N",
    },
    Rule {
        subject: Subject::ToList,
        tests: &[],
        code: Code::Jason,
        told: b"a message goes to one agent: to a list this fails with ia_failed\n.broadcast, or one .send for each",
    },
    Rule {
        subject: Subject::ToString,
        tests: &[],
        code: Code::Jason,
        told: b"an agent's name is an atom: to a string this fails with ia_failed",
    },
    Rule {
        subject: Subject::Verb,
        tests: &[],
        code: Code::NoVerb,
        told: b"no message has the verb $T\nthere are: tell untell achieve unachieve askOne askAll tellHow untellHow askHow",
    },
    Rule {
        subject: Subject::VerbToAll,
        tests: &[],
        code: Code::NoVerb,
        told: b"no message has the verb $T\nthere are: tell untell achieve unachieve tellHow untellHow",
    },
];

static FORMS: [Rule; 8] = [
    Rule {
        subject: Subject::Annotation,
        tests: &[],
        code: Code::Jason,
        told: b"a failure has error(E) alone: with $t this plan is never relevant",
    },
    Rule {
        subject: Subject::Error,
        tests: &[],
        code: Code::Jason,
        told: b"no error has the name $t: this plan is never relevant\n$r",
    },
    Rule {
        subject: Subject::FailedGoal,
        tests: &[],
        code: Code::Jason,
        told: b"the failed goal is gone while its failure plan runs: .$t does not meet it\na goal above it: +!want <- !$f; and .$t(want)",
    },
    Rule {
        subject: Subject::Joined,
        tests: &[],
        code: Code::Jason,
        told: b"+ joins no strings: it fails with arith\n.concat(\"a\", \"b\", R)",
    },
    Rule {
        subject: Subject::Compared,
        tests: &[],
        code: Code::Jason,
        told: b"$t holds of numbers alone: of a string it never does",
    },
    Rule {
        subject: Subject::Collected,
        tests: &[],
        code: Code::Jason,
        told: b"what .findall collects is not calculated\n.findall(Y, .. & Y = $T, L)",
    },
    Rule {
        subject: Subject::Once,
        tests: &[],
        code: Code::Once,
        told: b"the variable $t occurs once",
    },
    Rule {
        subject: Subject::OpenBelief,
        tests: &[],
        code: Code::OpenBelief,
        told: b"the variable $t occurs once, and so this belief is a rule that holds for everything\na name begins with a small letter",
    },
];

static NOTES: [Note; 10] = [
    Note {
        subject: Subject::Planless,
        tests: &[(Test::Plan(false, Kind::Achieve), true)],
        told: b"its failure plan -!$n is taken",
    },
    Note {
        subject: Subject::Planless,
        tests: &[(Test::Plan(true, Kind::Belief), true)],
        told: b"there is a plan for the belief +$n",
    },
    Note {
        subject: Subject::Acted,
        tests: &[(Test::Plan(true, Kind::Achieve), true)],
        told: b"a goal begins with !: there is a plan +!$n",
    },
    Note {
        subject: Subject::Acted,
        tests: &[(Test::Internal, true)],
        told: b"an internal action begins with a dot: .$f",
    },
    Note {
        subject: Subject::Acted,
        tests: &[
            (Test::Plan(true, Kind::Achieve), false),
            (Test::Deed, false),
        ],
        told: b"$A",
    },
    Note {
        subject: Subject::Comes,
        tests: &[(Test::Is(Among::Posted), true)],
        told: b"a plan for a goal begins with +!",
    },
    Note {
        subject: Subject::Comes,
        tests: &[(Test::Is(Among::Posted), false)],
        told: b"$K",
    },
    Note {
        subject: Subject::Goes,
        tests: &[(Test::Is(Among::Posted), false)],
        told: b"$K",
    },
    Note {
        subject: Subject::Once,
        tests: &[(Test::Item, true)],
        told: b"it has no value: $i$r",
    },
    Note {
        subject: Subject::Once,
        tests: &[(Test::Item, false)],
        told: b"_$t or _ where it is meant",
    },
];

/// Of literals, and of what messages say.
pub fn literal_rules() -> &'static [Rule] {
    &LITERALS
}

/// Of the triggers of plans, and of receivers and verbs of messages.
pub fn plan_rules() -> &'static [Rule] {
    &PLANS
}

/// Of failures, signs and variables.
pub fn form_rules() -> &'static [Rule] {
    &FORMS
}

/// Of a goal for which its source has no plan.
pub fn planless_rule() -> &'static Rule {
    &PLANLESS
}

/// The notes that have tests of their own.
pub fn note_rows() -> &'static [Note] {
    &NOTES
}
