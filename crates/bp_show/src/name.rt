//! Which table a screen has, as its writer and its readers know it.
ghost use base.Fml.{ftrue};
ghost use Rattle.atomic_table.specs.Seated.{TableId, table_id_coded};

use std::marker::Model;

/// Which table a screen has. No value of it is made.
pub(crate) struct Name {
    pub ghost table: { TableId } by { table_id_coded },
}

impl Model for Name {
    ghost also_owns = { λ n. ftrue };
}
