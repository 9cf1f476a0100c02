//! Two sites before their runs.

ghost use Rattle.std.specs.Prelude.{◌≡◌, ◌≤◌, ◌∷◌, ◌++◌, [], true, if◌then◌else◌, length, IfOk, OnOk};
ghost use Rattle.std.specs.List.{list_all};
ghost use Rattle.mas_top_opening.specs.Fits.{is_ground_role};
ghost use Rattle.mas_top_opening.specs.Opening.{minds_from};
ghost use Rattle.mas_project.specs.Projects.{most_agents};
ghost use Rattle.mas_top_files.specs.Sources.{texts_of};
ghost use Rattle.mas_report.specs.Limits.{IsWithin};
ghost use Rattle.mas_sites_stand.specs.declared.seated.Seated.TheVariants as seat;
ghost use Rattle.mas_top_sites.specs.Opening as spec;
ghost use Rattle.mas_top_sites.specs.Pairs.{pair};

use crate::names::all_names;
use crate::reading::{Side, Sides};
use asl_cycle::agent::Agent;
use asl_term::names::Names;
use asl_term::sequence::{Seq, Starved};
use mas_board::board::{Board, open_board};
use mas_mind::thinking::Mind;
use mas_report::options::Options;
use mas_sites_rounds::runs::Site;
use mas_sites_stand::opening::stand;
use mas_sites_stand::seated::Seated;
use mas_sites_stand::stand::Stand;
use mas_top_files::sources::{Role, SourceParts};
use mas_top_opening::minds::open_minds;
use mas_world::acts::WorldText;
use mas_world::artifact::Artifact;
use mas_world::segment::Segment;
use mas_world::world::{Artifacts, World};
use std::alloc::Global;

/// Who sits at each of two sites.
#[derive(Drop)]
struct Seats<M: Mind> {
    one: Seq<Seated<M>>,
    two: Seq<Seated<M>>,
}

/// Two sites before their runs.
#[derive(Drop)]
pub struct OpenedSites<A: Artifact> {
    pub one: Site<Agent, A>,
    pub two: Site<Agent, A>,
}

/// Puts the mind of one more agent at its site, and the stand at the other one.
fn seat_one<M: Mind>(
    seats: &mut Seats<M>,
    at_one: bool,
    mind: M,
    stand: Stand,
) -> Result<(), Starved>
    ensures one { OnOk result (seats.new.one ≡ seats.old.one ++ (if at_one then seat.Own mind else seat.Stand stand) ∷ []) }
    ensures two { OnOk result (seats.new.two ≡ seats.old.two ++ (if at_one then seat.Stand stand else seat.Own mind) ∷ []) }
{
    if at_one {
        seats.one.push(Seated::Own(mind))?;
        seats.two.push(Seated::Stand(stand))
    } else {
        seats.one.push(Seated::Stand(stand))?;
        seats.two.push(Seated::Own(mind))
    }
}

/// Seats all agents: the first so many live at site 1, the others at site 2.
fn seat_all<M: Mind>(
    alloc: Global,
    names: &Names,
    first: u32,
    minds: Seq<M>,
) -> Result<Seats<M>, Starved>
    requires number { length minds ≡ length names.now }
    requires few { length names.now ≤ most_agents }
    ensures one { IfOk result (λ s. s.one ≡ spec.seats (spec.at_one first) names.now minds) }
    ensures two { IfOk result (λ s. s.two ≡ spec.seats (spec.at_two first) names.now minds) }
{
    let mut seats = Seats {
        one: Seq::new(alloc),
        two: Seq::new(alloc),
    };
    let mut agent: u32 = 0;
    for mind in minds.into_vec() {
        agent += 1;
        let there = stand(alloc, agent, names)?;
        seat_one(&mut seats, agent <= first, mind, there)?;
    }
    Ok(seats)
}

/// The world of a file, where there is one, with these artifacts.
fn world_with<A: Artifact>(
    alloc: Global,
    text: Option<WorldText>,
    used: Artifacts<A>,
) -> Result<World<A>, Starved>
    requires { spec.HasFacts text }
    ensures { IfOk result (λ w. w ≡ spec.world_with text used) }
{
    match text {
        None => {
            let hidden = Names::new(alloc)?;
            let file = Segment::new(Seq::new(alloc), Seq::new(alloc));
            Ok(World::of(file, hidden, used))
        }
        Some(text) => Ok(World::of(Segment::new(text.acts, text.facts), text.hidden, used)),
    }
}

/// A board with all agents' names and the world of a file, where there is one, with these artifacts.
#[tactic(auto, using(crate::proofs::Starting::limits))]
fn board_with<A: Artifact>(
    alloc: Global,
    o: &Options,
    one: &Names,
    two: &Names,
    text: Option<WorldText>,
    used: Artifacts<A>,
) -> Result<Board<A>, Starved>
    requires within { IsWithin o.now }
    requires names { spec.AreNames one.now two.now }
    requires some { 1 ≤ length (one.now ++ two.now) }
    requires facts { spec.HasFacts text }
    ensures { IfOk result (λ b. b ≡ spec.new_board o.now (one.now ++ two.now) (spec.world_with text used)) }
{
    let names = all_names(alloc, one, two)?;
    let world = world_with(alloc, text, used)?;
    open_board(alloc, world, names, o.cycles, o.lead)
}

/// The lines of the agents of two projects.
fn all_roles(first: Seq<Role>, second: Seq<Role>) -> Result<Seq<Role>, Starved>
    ensures { IfOk result (λ r. r ≡ first ++ second) }
{
    let mut all = first;
    match all.append_all(second) {
        Ok(()) => Ok(all),
        Err(starved) => {
            drop(all);
            Err(starved)
        }
    }
}

/// The minds of the agents of these lines, each at its site, and stands in their places at the other one.
#[tactic(auto, using(crate::proofs::Starting::as_many, crate::proofs::Starting::few_together))]
fn seats_of(
    alloc: Global,
    o: &Options,
    one: &Names,
    two: &Names,
    roles: &[Role],
) -> Result<Seats<Agent>, Starved>
    requires within { IsWithin o.now }
    requires names { spec.AreNames one.now two.now }
    requires named { length (one.now ++ two.now) ≡ length (texts_of roles.now) }
    requires ground { list_all is_ground_role roles.now ≡ true }
    ensures one { let names = one.now ++ two.now in
        IfOk result (λ s. s.one ≡ spec.seats (spec.at_one (length one.now)) names (minds_from o.now names 1 (texts_of roles.now))) }
    ensures two { let names = one.now ++ two.now in
        IfOk result (λ s. s.two ≡ spec.seats (spec.at_two (length one.now)) names (minds_from o.now names 1 (texts_of roles.now))) }
{
    let names = all_names(alloc, one, two)?;
    let seats = match open_minds(alloc, o, &names, roles) {
        Ok(minds) => seat_all(alloc, &names, one.len(), minds),
        Err(starved) => Err(starved),
    };
    drop(names);
    seats
}

/// The sites of what two projects bring.
#[tactic(auto, using(crate::proofs::Starting::is_site))]
pub fn open_both<A: Artifact>(
    alloc: Global,
    o: &Options,
    sides: Sides<A>,
) -> Result<OpenedSites<A>, Starved>
    requires within { IsWithin o.now }
    requires can { spec.CanMeet (pair sides.one.source sides.two.source) }
    ensures one { let both = pair sides.one.source sides.two.source in
        IfOk result (λ b. spec.IsSite (spec.site o.now both both.one.world sides.one.used (spec.at_one (length both.one.names))) b.one.board b.one.minds) }
    ensures two { let both = pair sides.one.source sides.two.source in
        IfOk result (λ b. spec.IsSite (spec.site o.now both both.two.world sides.two.used (spec.at_two (length both.one.names))) b.two.board b.two.minds) }
{
    let Sides { one, two } = sides;
    let Side {
        source: first,
        used: used_one,
    } = one;
    let Side {
        source: second,
        used: used_two,
    } = two;
    let SourceParts {
        names: one,
        roles: first,
        world: world_one,
    } = first.into_parts();
    let SourceParts {
        names: two,
        roles: second,
        world: world_two,
    } = second.into_parts();
    let seats = match all_roles(first, second) {
        Ok(roles) => {
            let seats = seats_of(alloc, o, &one, &two, roles.as_slice());
            drop(roles);
            seats
        }
        Err(starved) => Err(starved),
    };
    let board_one = board_with(alloc, o, &one, &two, world_one, used_one);
    let board_two = board_with(alloc, o, &one, &two, world_two, used_two);
    drop(one);
    drop(two);
    match seats {
        Err(starved) => {
            drop(board_one);
            drop(board_two);
            Err(starved)
        }
        Ok(seats) => match board_one {
            Err(starved) => {
                drop(seats);
                drop(board_two);
                Err(starved)
            }
            Ok(board_one) => match board_two {
                Err(starved) => {
                    drop(seats);
                    drop(board_one);
                    Err(starved)
                }
                Ok(board_two) => Ok(OpenedSites {
                    one: Site {
                        board: board_one,
                        minds: seats.one,
                    },
                    two: Site {
                        board: board_two,
                        minds: seats.two,
                    },
                }),
            },
        },
    }
}
