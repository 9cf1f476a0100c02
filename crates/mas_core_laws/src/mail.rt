//! Mail is taken in the order in which it was sent.

ghost use Rattle.mas_core_laws.specs.Mail.{MailInOrder, MailFromOpening};

use mas_mind::thinking::Mind;

/// Of each sender the messages that an agent takes, and then those in its box, are those that were posted to it, in
/// the order of posting.
#[tactic(auto, using(crate::proofs::Mails::mail_in_order, crate::proofs::Mails::mail_from_opening))]
pub fn mail_in_order<M: Mind>()
    ensures running { MailInOrder M.kind }
    ensures opened { MailFromOpening M.kind }
{}
