use std::marker::Model;

/// What an entry is beside its key.
#[derive(Clone, Copy)]
pub struct Version {
    pub(crate) tag: u64,
    pub(crate) row: u32,
    // the number of the commit that deleted the row, 0 while it lives
    pub(crate) died: u32,
}

impl Model for Version {
    ghost use Rattle.row_version.specs.Entries as model;
    ghost use Rattle.row_version.specs.Entries.{death_of, number_of_death, number_of_death-death_of};

    ghost Value = { model.Version };

    ghost view = { λ v. record { row = v.row; tag = v.tag; died = death_of v.died } };

    ghost inverse = { λ v. record { tag = v.tag; row = v.row; died = number_of_death v.died } };

    ghost inverse_ok = { λ v h i. record { tag = v.tag; row = v.row; died = number_of_death-death_of v.died i } };
}
