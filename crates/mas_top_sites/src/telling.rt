//! What is written of the runs of two sites.

ghost use Rattle.std.specs.Prelude.{◌≡◌, ◌++◌, IfOk, OnOk};
ghost use Rattle.std.specs.List.{flat_map};
ghost use Rattle.mas_sites.specs.Results.{ended};
ghost use Rattle.mas_report.specs.Report.{message_line};
ghost use Rattle.mas_report_schedule.specs.Schedule.{AllFromOne};
ghost use Rattle.mas_top_sites.specs.Texts as spec;

use asl_term::names::Names;
use asl_term::sequence::{Seq, Starved};
use asl_term::syntax::Text;
use mas_core::robin::Done;
use mas_mind::mind::Message;
use mas_mind::thinking::Mind;
use mas_report::options::Options;
use mas_report::output::Output;
use mas_report::report::{LATEST, is_spent, put_message, report};
use mas_sites::met::Met;
use mas_sites_stand::seated::Seated;
use mas_world::artifact::Artifact;
use std::alloc::Global;

/// Appends a line and the report of a site.
#[tactic(auto, using(crate::proofs::Told::put_report))]
fn put_site<M: Mind, A: Artifact>(
    alloc: Global,
    out: &mut Text,
    line: &[u8],
    o: &Options,
    site: &Done<Seated<M>, A>,
) -> Result<(), Starved>
    requires { AllFromOne 65535 site.now.board.schedule }
    ensures { OnOk result (spec.PutsSite M.kind o.now (ended site.now.board site.now.minds) line.now out.old out.new) }
{
    out.append(line)?;
    let text = report(alloc, LATEST, o, site)?;
    out.append(text.as_slice())
}

/// Appends the lines of messages.
fn put_messages(out: &mut Text, names: &Names, messages: &[Message]) -> Result<(), Starved>
    ensures { OnOk result (out.new ≡ out.old ++ flat_map (message_line names.now) messages.now) }
{
    for m in messages {
        put_message(out, names, m)?;
    }
    Ok(())
}

/// Appends what is left between the sites.
fn put_between(out: &mut Text, names: &Names, left: &[Message]) -> Result<(), Starved>
    ensures { OnOk result (out.new ≡ out.old ++ spec.between_text names.now left.now) }
{
    out.append(b"between\n")?;
    put_messages(out, names, left)
}

/// The text of what the runs of two sites gave back.
#[tactic(auto, using(crate::proofs::Told::told))]
pub fn text_of_both<M: Mind, A: Artifact>(
    alloc: Global,
    o: &Options,
    met: &Met<M, A>,
) -> Result<Output, Starved>
    requires one { AllFromOne 65535 met.now.one.board.schedule }
    requires two { AllFromOne 65535 met.now.two.board.schedule }
    ensures { let m = met.now in
        IfOk result (λ out. spec.IsTold M.kind o.now (ended m.one.board m.one.minds) (ended m.two.board m.two.minds) m.between out.spent out.text) }
{
    let mut text = Seq::new(alloc);
    put_site(alloc, &mut text, b"site 1\n", o, &met.one)?;
    put_site(alloc, &mut text, b"site 2\n", o, &met.two)?;
    put_between(&mut text, met.one.board.names(), met.between.as_slice())?;
    let spent_one = is_spent(&met.one.board);
    let spent_two = is_spent(&met.two.board);
    Ok(Output {
        text,
        spent: spent_one || spent_two,
    })
}
