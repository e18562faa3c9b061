// Columns: names that may stand after the name of their table.
ghost use Rattle.std.specs.Prelude.{◌<◌, Some, None};
ghost use Rattle.lb_readt.specs.Readers.{listed};
ghost use Rattle.lb_readt.specs.Answering.{Gives};
ghost use Rattle.lb_readt.specs.Tokens.{column_at};

use crate::fault::Read;
use crate::list::listed;
use crate::next::{name, take_if};
use lb_tok::{Kind, Token};
use lb_tree::Column;
use sqlite_items::Items;
use std::alloc::Global;

/// Reads a column, `name [. name]`. `Bad` where no name stands first or after the point.
#[tactic(auto, unfolding(crate::specs::Tokens::column_at, crate::specs::Tokens::column_on))]
pub fn column<'a>(tokens: &'a [Token]) -> Read<'a, Column>
    ensures { Gives (λ r. (r.0, r.1.now)) result (column_at tokens.now) }
{
    let (first, rest) = name(tokens)?;
    if let Some(rest) = take_if(rest, Kind::Dot) {
        let (name, rest) = name(rest)?;
        let correlation = Some(first);
        Ok((Column { correlation, name }, rest))
    } else {
        let correlation = None;
        let name = first;
        Ok((Column { correlation, name }, rest))
    }
}

/// Reads `col {, col}`. `Bad` where no column stands first or after a comma.
pub fn columns<'a>(alloc: Global, tokens: &'a [Token]) -> Read<'a, Items<Column>>
    ensures { Gives (λ r. (r.0, r.1.now)) result (listed column_at tokens.now) }
{
    listed(alloc, tokens, |rest| column(rest))
}
