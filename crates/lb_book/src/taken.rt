// What a statement starts from: the catalogue and the rows that stand, and the plan where one is kept.
ghost use Rattle.lb_book.specs.Stands.{IsReplayed};

use lb_cat::{Catalog, Entry};
use lb_journal::Engine;
use lb_rows::Snap;
use std::marker::Model;
use std::snapshot::Snapshot;
use std::sync::Arc;

/// Catalogue and rows at one time, the plan of the statement where one was kept, and the journal that they stand for, which takes no
/// memory.
#[derive(Drop)]
pub struct Prepared<E: Engine> {
    pub catalog: Arc<Catalog>,
    pub tables: Snap,
    pub plan: Option<Arc<E::Plan>>,
    pub seen: Snapshot<Vec<Entry>>,
}

impl<E: Engine> Model for Prepared<E> {
    ghost use Rattle.std.specs.Prelude.{option_map};
    ghost use Rattle.std.specs.Arc.{arc_value};
    ghost use Rattle.lb_book.specs.Stands.{IsReplayed};
    ghost use Rattle.lb_book.specs.Taken.{Taken};

    ghost Value = { Taken E.Plan };

    ghost use Rattle.std.specs.Coded.{codes};
    ghost use Rattle.lb_tree.specs.contracts.query.Cond as conditions;
    ghost use Rattle.lb_tree.specs.contracts.query.Expr as expressions;

    ghost coded = { Prim.hlevel (codes, conditions.the_row.coded, expressions.the_row.coded) };

    ghost view = { λ p. record { journal = p.seen.value.items; catalog = arc_value p.catalog; tables = p.tables; plan = option_map arc_value p.plan } };

    ghost invariant = { λ p. IsReplayed p.seen.value.items (arc_value p.catalog) p.tables };
}

impl<E: Engine> Prepared<E> {
    /// What the type keeps: catalogue and rows are what the journal leaves.
    pub fn facts(&self)
        ensures { IsReplayed self.now.journal self.now.catalog self.now.tables }
    {
        let _ = &self.catalog;
    }
}

/// A query that has its place in the journal, counted from 0, and what it starts from, which is what stood before its entry.
#[derive(Drop)]
pub struct Begun<E: Engine> {
    pub place: u64,
    pub taken: Prepared<E>,
}
