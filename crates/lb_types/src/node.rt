// What a node asks of the kinds of its parts. Each rule is given what the parts gave, and the number after the last of them.
ghost use Rattle.std.specs.Prelude.{◌≡◌};
ghost use Rattle.lb_names.specs.Conditions as conditions;
ghost use Rattle.lb_names.specs.Expressions as expressions;
ghost use Rattle.lb_names.specs.Scopes as scopes;
ghost use Rattle.lb_names.specs.Typed as typed;
ghost use Rattle.lb_scope.specs.Found.{catalogue, kind_in};
ghost use Rattle.lb_types.specs.Given.{Gives, Goes, place_in};
ghost use Rattle.lb_types.specs.Within.{common_in};

use crate::kind::{Common, argument, is_compared_by, is_one, is_plain, takes};
use crate::place::{Place, is_free};
use crate::stop::Stop;
use lb_base::Str;
use lb_cat::Catalog;
use lb_scope::{Kind, Meaning, resolve};
use lb_tree::{Atom, Column, Comparison, Function};

/// The number after this one. Numbers stand still at 4,294,967,295.
pub fn next(number: u32) -> u32
    ensures { result ≡ typed.next number }
{
    if number == u32::MAX {
        number
    } else {
        number + 1
    }
}

/// The kind of a column, which may stand there.
pub fn column_kind<'a>(
    catalog: &'a Catalog,
    column: &Column,
    place: Place<'_>,
    at: u32,
) -> Result<(Kind<'a>, u32), Stop>
    ensures { Gives kind_in result (expressions.kind_found (place_in (catalogue catalog.now) place.entry) at (scopes.resolve (catalogue catalog.now) place.entry.sight.now.seen column.now)) }
{
    match resolve(catalog, place.sight.seen(), column) {
        Meaning::Found(item, record) => {
            if is_free(catalog, place, item, &record.name) {
                Ok((lb_scope::kind_of(&record.ty), next(at)))
            } else {
                Err(Stop::Broken(at))
            }
        }
        Meaning::Unknown(_) => Err(Stop::Broken(at)),
    }
}

fn is_label_of(policy: &Str, kind: Kind<'_>) -> bool
    ensures { result ≡ expressions.is_label_of policy.now (kind_in kind.entry) }
{
    match kind {
        Kind::Label(another) => policy.as_str() == another,
        _ => false,
    }
}

/// The kind of an expression without parts. SECLABEL_TO_CHAR wants a label column of its policy, which is the node after it
/// (SECLABEL_TO_CHAR scalar function).
pub fn atom_kind<'a>(
    catalog: &'a Catalog,
    atom: &'a Atom,
    place: Place<'_>,
    at: u32,
) -> Result<(Kind<'a>, u32), Stop>
    ensures { Gives kind_in result (expressions.atom_kind (catalogue catalog.now) atom.now (place_in (catalogue catalog.now) place.entry) at) }
{
    match atom {
        Atom::Null => Ok((Kind::Null, next(at))),
        Atom::Int(_) => Ok((Kind::Integer, next(at))),
        Atom::Text(_) => Ok((Kind::Text, next(at))),
        Atom::Date(_) => Ok((Kind::Date, next(at))),
        Atom::CurrentDate => Ok((Kind::Date, next(at))),
        Atom::SessionUser => Ok((Kind::Text, next(at))),
        Atom::Column(column) => column_kind(catalog, column, place, at),
        Atom::CountRows => {
            if place.aggregates {
                Ok((Kind::Integer, next(at)))
            } else {
                Err(Stop::Broken(at))
            }
        }
        Atom::VerifyRole(_) => Ok((Kind::Integer, next(at))),
        Atom::VerifyGroup(_) => Ok((Kind::Integer, next(at))),
        Atom::SecLabel(policy, _) => Ok((Kind::Label(policy.as_str()), next(at))),
        Atom::SecLabelByName(policy, _) => Ok((Kind::Label(policy.as_str()), next(at))),
        Atom::SecLabelToChar(policy, column) => {
            let (kind, n) = column_kind(catalog, column, place, next(at))?;
            if is_label_of(policy, kind) {
                Ok((Kind::Text, n))
            } else {
                Err(Stop::Broken(at))
            }
        }
    }
}

/// The node has the kind that its parts have in common.
pub fn one_of(at: u32, n: u32, kind: Common<'_>) -> Result<(Kind<'_>, u32), Stop>
    ensures { Gives kind_in result (typed.one_of at n (common_in kind.entry)) }
{
    match kind {
        Common::One(kind) => Ok((kind, n)),
        Common::Differ => Err(Stop::Broken(at)),
    }
}

/// The node has the kind that its parts have in common.
pub fn one_kind(at: u32, found: (Common<'_>, u32)) -> Result<(Kind<'_>, u32), Stop>
    ensures { Gives kind_in result (expressions.one_kind at (common_in found.entry.0, found.entry.1)) }
{
    one_of(at, found.1, found.0)
}

/// The node has the kind that its parts have in common, which is no label's and not NULL's.
pub fn plain_kind(at: u32, found: (Common<'_>, u32)) -> Result<(Kind<'_>, u32), Stop>
    ensures { Gives kind_in result (expressions.plain_kind at (common_in found.entry.0, found.entry.1)) }
{
    if is_plain(found.0) {
        one_kind(at, found)
    } else {
        Err(Stop::Broken(at))
    }
}

/// A CASE with an operand has the kind of its results, where its operands have one kind in common (CASE expression).
pub fn plain_results<'a>(
    at: u32,
    operands: Common<'_>,
    results: (Common<'a>, u32),
) -> Result<(Kind<'a>, u32), Stop>
    ensures { Gives kind_in result (expressions.plain_results at (common_in operands.entry) (common_in results.entry.0, results.entry.1)) }
{
    if is_plain(operands) {
        plain_kind(at, results)
    } else {
        Err(Stop::Broken(at))
    }
}

/// SUBSTR of a text, from an integer on, as long as an integer (SUBSTR scalar function).
pub fn substr_kind<'a>(
    at: u32,
    text: Kind<'_>,
    numbers: (Common<'_>, u32),
) -> Result<(Kind<'a>, u32), Stop>
    ensures { Gives kind_in result (expressions.substr_kind at (kind_in text.entry) (common_in numbers.entry.0, numbers.entry.1)) }
{
    if takes(Kind::Text, text) && is_one(numbers.0) {
        Ok((Kind::Text, numbers.1))
    } else {
        Err(Stop::Broken(at))
    }
}

/// A function of an argument of that kind gives an integer.
pub fn function_kind<'a>(
    function: Function,
    at: u32,
    found: (Kind<'_>, u32),
) -> Result<(Kind<'a>, u32), Stop>
    ensures { Gives kind_in result (expressions.function_kind function at (kind_in found.entry.0, found.entry.1)) }
{
    if takes(argument(function), found.0) {
        Ok((Kind::Integer, found.1))
    } else {
        Err(Stop::Broken(at))
    }
}

/// The parts have one kind in common, an integer, a text or a date.
pub fn of_plain(at: u32, found: (Common<'_>, u32)) -> Result<u32, Stop>
    ensures { Goes result (conditions.of_plain at (common_in found.entry.0, found.entry.1)) }
{
    if is_plain(found.0) {
        Ok(found.1)
    } else {
        Err(Stop::Broken(at))
    }
}

/// The parts have a kind in common, and values of it may be compared so.
pub fn compared(by: Comparison, at: u32, found: (Common<'_>, u32)) -> Result<u32, Stop>
    ensures { Goes result (conditions.compared by at (common_in found.entry.0, found.entry.1)) }
{
    if is_compared_by(by, found.0) {
        Ok(found.1)
    } else {
        Err(Stop::Broken(at))
    }
}
