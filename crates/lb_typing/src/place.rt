// Where the parts of writes, permissions and masks stand.
ghost use Rattle.std.specs.Prelude.{◌≡◌, []};
ghost use Rattle.lb_names.specs.Places.{outermost};
ghost use Rattle.lb_names.specs.Scopes.{Catalogue};
ghost use Rattle.lb_types.specs.Given.{place_in};

use lb_scope::Sight;
use lb_types::Place;

/// The place of that sight outside select lists, in a permission or mask or not.
pub fn place_over(sight: &Sight, subqueries: bool, stored: bool) -> Place<'_>
    ensures { (C : Catalogue) → place_in C result ≡ record outermost { sight = sight.now; subqueries = subqueries; stored = stored } }
{
    Place {
        sight,
        groups: &[],
        subqueries,
        aggregates: false,
        within: false,
        stored,
    }
}
