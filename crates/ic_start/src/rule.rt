ghost use Rattle.std.specs.Prelude.{◌≡◌};
ghost use Rattle.ic_theory.specs.Rules.{born_kinds, born_ends};

use ic_name::RuleEnd::{Child, Lead, Other};
use ic_name::{Kind, Profile, RuleEnd};

/// What two agents that meet become.
#[derive(Clone, Copy)]
pub struct Born {
    /// The kinds of the children, by digit.
    pub children: &'static [Kind],
    /// The two ends of each link that is made, by place.
    pub links: &'static [(RuleEnd, RuleEnd)],
}

/// The rule table: what an agent of kind `lead` and one of kind `other` become where their principal ports meet (Lafont
/// 1997). It takes no memory.
pub fn outcome(lead: Kind, other: Kind, profile: Profile) -> Born
    ensures children { result.children.now ≡ born_kinds lead other }
    ensures links { result.links.now ≡ born_ends profile lead other }
{
    Born {
        children: children(lead, other),
        links: links(lead, other, profile),
    }
}

fn children(lead: Kind, other: Kind) -> &'static [Kind]
    ensures { result.now ≡ born_kinds lead other }
{
    match (lead, other) {
        (Kind::Gamma, Kind::Delta) | (Kind::Delta, Kind::Gamma) => {
            &[Kind::Delta, Kind::Delta, Kind::Gamma, Kind::Gamma]
        }
        (Kind::Gamma | Kind::Delta, Kind::Eps) | (Kind::Eps, Kind::Gamma | Kind::Delta) => {
            &[Kind::Eps, Kind::Eps]
        }
        _ => &[],
    }
}

fn links(lead: Kind, other: Kind, profile: Profile) -> &'static [(RuleEnd, RuleEnd)]
    ensures { result.now ≡ born_ends profile lead other }
{
    match (lead, other) {
        (Kind::Gamma, Kind::Delta) => &GAMMA_LEADS,
        (Kind::Delta, Kind::Gamma) => &DELTA_LEADS,
        (Kind::Gamma | Kind::Delta, Kind::Eps) => &LEAD_ERASED,
        (Kind::Eps, Kind::Gamma | Kind::Delta) => &OTHER_ERASED,
        (Kind::Gamma, Kind::Gamma) => match profile {
            Profile::Classic => &CROSSED,
            Profile::Straight => &STRAIGHT,
        },
        (Kind::Delta, Kind::Delta) => &STRAIGHT,
        (Kind::Eps, Kind::Eps) => &[],
    }
}

const GAMMA_LEADS: [(RuleEnd, RuleEnd); 8] = [
    (Child(0, 0), Lead(1)),
    (Child(1, 0), Lead(2)),
    (Child(2, 0), Other(1)),
    (Child(3, 0), Other(2)),
    (Child(0, 1), Child(2, 1)),
    (Child(0, 2), Child(3, 1)),
    (Child(1, 1), Child(2, 2)),
    (Child(1, 2), Child(3, 2)),
];

const DELTA_LEADS: [(RuleEnd, RuleEnd); 8] = [
    (Child(0, 0), Other(1)),
    (Child(1, 0), Other(2)),
    (Child(2, 0), Lead(1)),
    (Child(3, 0), Lead(2)),
    (Child(0, 1), Child(2, 1)),
    (Child(0, 2), Child(3, 1)),
    (Child(1, 1), Child(2, 2)),
    (Child(1, 2), Child(3, 2)),
];

const LEAD_ERASED: [(RuleEnd, RuleEnd); 2] = [(Child(0, 0), Lead(1)), (Child(1, 0), Lead(2))];

const OTHER_ERASED: [(RuleEnd, RuleEnd); 2] = [(Child(0, 0), Other(1)), (Child(1, 0), Other(2))];

const STRAIGHT: [(RuleEnd, RuleEnd); 2] = [(Lead(1), Other(1)), (Lead(2), Other(2))];

const CROSSED: [(RuleEnd, RuleEnd); 2] = [(Lead(1), Other(2)), (Lead(2), Other(1))];
