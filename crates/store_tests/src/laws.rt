//! The laws that no program calls, each at a class.
use crate::ceilings::{Ceiling, Ceilings};
use change_list::listings_go_on;
use cursor::cursors_survive_steps;
use feed::changes_go_on;
use mailbox::Tray;
use page_table::{traversals_follow_chains, traversals_survive_steps, visits_lose_nothing};
use scan::{
    entries_follow_commits, finders_survive_steps, scans_begin_with_snapshots, scans_survive_steps,
};
use snapshot::{snapshots_go_on, snapshots_may_cross};

#[test]
fn laws_hold_of_a_class() {
    traversals_follow_chains::<Ceilings>();
    traversals_survive_steps::<Ceilings>();
    visits_lose_nothing::<Ceilings>();
    entries_follow_commits::<Ceilings>();
    finders_survive_steps::<Ceilings>();
    scans_begin_with_snapshots::<Ceilings>();
    scans_survive_steps::<Ceilings>();
    cursors_survive_steps::<Ceilings, Tray<Ceiling>>();
    snapshots_may_cross::<Ceilings>();
    snapshots_go_on::<u8>();
    listings_go_on::<u8>();
    changes_go_on::<u8>();
}
