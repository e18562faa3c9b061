// Going over the rows of a version, in table order.
ghost use Rattle.std.specs.Prelude.{◌≡◌, ◌++◌, drop};
ghost use Rattle.std.specs.Iterator.{YieldsFirstRef, item_count};

use crate::version::TableVersion;
use lb_base::Row;
use std::marker::Model;

/// The rows of a version that are still to come, in table order. Contracts see the list of them.
#[derive(Drop)]
pub struct Rows<'a> {
    version: &'a TableVersion,
    place: u32,
    run: &'a [Row],
}

impl<'a> Model for Rows<'a> {
    ghost use Rattle.std.specs.Prelude.{◌++◌, List, drop};
    ghost use Rattle.lb_base.specs.declared.value.Value.{Value as Cell};

    ghost Value = { List (List Cell) };

    ghost view = { λ r. r.run.now ++ drop r.place r.version.now.rows };
}

impl<'a> Rows<'a> {
    /// All rows of the version.
    pub(crate) fn of(version: &'a TableVersion) -> Rows<'a>
        ensures { result ≡ version.now.rows }
    {
        let run = version.rows_from(0);
        Rows {
            version,
            place: run.len() as u32,
            run,
        }
    }
}

impl<'a> Iterator for Rows<'a> {
    type Item = &'a Row;

    ghost next_gives = { YieldsFirstRef (λ r. r) };

    ghost remaining = { item_count (λ r. r) };

    fn next(&mut self) -> Option<&'a Row> {
        match self.run.split_first() {
            Some((first, others)) => {
                self.run = others;
                Some(first)
            }
            None => {
                let _count = self.version.len();
                let run = self.version.rows_from(self.place);
                let (first, others) = run.split_first()?;
                self.place += run.len() as u32;
                self.run = others;
                Some(first)
            }
        }
    }
}
