ghost use Rattle.std.specs.Prelude.{◌≡◌, ◌≤◌, ◌↔◌, length, IsTrue};
ghost use Rattle.ic_theory.specs.Machine.{IsDeep, IsFull};
ghost use Rattle.ic_theory.specs.Rules.{born_kinds};
ghost use Rattle.ic_set.specs.Views.{standing};
ghost use Rattle.ic_roster.specs.Rosters.{event_in, IsNamed};
ghost use Rattle.ic_journal.specs.Limits.{Meets};

use ic_history::Limit;
use ic_link::LinkStore;
use ic_name::Profile;
use ic_name::limits::{MAX_AGENTS, MAX_DEPTH};
use ic_names::NameTable;
use ic_roster::Interaction;
use ic_set::BareSet;
use ic_start::outcome;

/// The limit that firing the event meets over a standing set, if it meets one. It takes no memory.
pub(crate) fn limit_of<L: LinkStore>(set: &BareSet<L>, event: Interaction) -> Option<Limit>
    requires { IsNamed set.now.names event }
    ensures { Meets set.now.set (event_in set.now.names event) result }
{
    let profile = set.start().profile();
    if is_deep(set.roster().names(), event, profile) {
        return Some(Limit::Deep);
    }
    if is_full(set, event) {
        return Some(Limit::Full);
    }
    None
}

/// Whether the event's children would have too many digits.
fn is_deep(names: &NameTable, event: Interaction, profile: Profile) -> bool
    requires { IsNamed names.now event }
    ensures { IsTrue result ↔ IsDeep (event_in names.now event) }
{
    names.depth(event.lead) == MAX_DEPTH && children(event, profile) > 0
}

/// Whether with the event's children there would be too many agents.
fn is_full<L: LinkStore>(set: &BareSet<L>, event: Interaction) -> bool
    ensures { IsTrue result ↔ IsFull set.now.set.start (standing set.now.set) (event_in set.now.names event) }
{
    set.lawful();
    set.roster().agent_count() > MAX_AGENTS - children(event, set.start().profile())
}

/// How many children the event makes, whatever the profile.
fn children(event: Interaction, profile: Profile) -> usize
    ensures count { result ≡ length (born_kinds event.lead_kind event.other_kind) }
    ensures few { result ≤ 4 }
{
    outcome(event.lead_kind, event.other_kind, profile)
        .children
        .len()
}
