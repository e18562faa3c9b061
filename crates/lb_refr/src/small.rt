// Which statements are small, told from their trees, and whose are built.
ghost use Rattle.std.specs.Prelude.{◌≡◌, ◌↔◌, IsTrue, map, codes};
ghost use Rattle.std.specs.List.{list_all, list_any};
ghost use Rattle.std.specs.Str.{bytes_eq};
ghost use Rattle.lb_tree.specs.declared.query.Cond.TheViews.{out-Expr};
ghost use Rattle.lb_model.specs.Small.{IsSmall, are_different};
ghost use Rattle.lb_refr.specs.Shapes as shapes;

use crate::permission::is_on;
use lb_base::Name;
use lb_stmt::{
    Activation, Change, ColumnType, ControlOf, Element, Insert, InsertSource, PermissionDef,
    PlainType, Stmt,
};
use lb_tree::{Atom, Chain, Comparison, Cond, Expr, Item, Query, Select, Tab};
use sqlite_items::Items;

/// The most columns of a table.
const MOST_COLUMNS: usize = 64;

/// The greatest width of a VARCHAR column, in bytes.
const MOST_WIDTH: i64 = 254;

/// The user who administers security, whose small statements are built.
const SECADMIN: &str = "SECADMIN";

/// Whether the user is SECADMIN.
pub fn is_secadmin(user: &Name) -> bool
    ensures { IsTrue result ↔ (user.now ≡ codes "SECADMIN") }
{
    user.as_str() == SECADMIN
}

/// Whether the statement is small: CREATE TABLE of 1 to 64 VARCHAR columns without options, whose names differ and whose
/// widths are 1 to 254; INSERT of rows of text literals without a list of columns; SELECT * FROM a table, and nothing
/// else; CREATE PERMISSION of an enabled permission for rows where a column is SESSION_USER; or ALTER TABLE ACTIVATE ROW
/// ACCESS CONTROL, and nothing else.
pub fn is_small(stmt: &Stmt) -> bool
    ensures { IsTrue result ↔ IsSmall stmt.now }
{
    match stmt {
        Stmt::Select(select) => selects_whole_table(select),
        Stmt::Insert(insert) => inserts_texts(insert),
        Stmt::Change(change) => is_small_change(change),
        Stmt::Update(_) | Stmt::Delete(_) => false,
    }
}

fn is_small_change(change: &Change) -> bool
    ensures { result ≡ shapes.is_small_change change.now }
{
    match change {
        Change::CreateTable(_, elements, policy) => {
            policy.is_none() && are_text_columns(elements.as_slice())
        }
        Change::CreatePermission(definition) => is_small_permission(definition),
        Change::Activate(_, first, second) => second.is_none() && activates_row_control(*first),
        _ => false,
    }
}

fn are_text_columns(elements: &[Element]) -> bool
    ensures { result ≡ shapes.are_text_columns elements.now }
{
    has_column_count(elements) && has_text_columns_only(elements) && have_different_names(elements)
}

fn has_column_count(elements: &[Element]) -> bool
    ensures { result ≡ shapes.has_column_count elements.now }
{
    !elements.is_empty() && elements.len() <= MOST_COLUMNS
}

fn has_text_columns_only(elements: &[Element]) -> bool
    ensures { result ≡ list_all shapes.is_text_column elements.now }
{
    elements.iter().all(is_text_column)
}

fn is_text_column(element: &Element) -> bool
    ensures { result ≡ shapes.is_text_column element.now }
{
    match element {
        Element::Column(definition) => {
            is_varchar(definition.ty)
                && !definition.not_null
                && !definition.key
                && definition.secured.is_none()
        }
        Element::Key(_) => false,
    }
}

fn is_varchar(ty: ColumnType) -> bool
    ensures { result ≡ shapes.is_varchar ty }
{
    match ty {
        ColumnType::Plain(PlainType::Text(width)) => is_width(width),
        _ => false,
    }
}

fn is_width(width: i64) -> bool
    ensures { result ≡ shapes.is_width width }
{
    1 <= width && width <= MOST_WIDTH
}

fn have_different_names(elements: &[Element]) -> bool
    ensures { result ≡ are_different (map shapes.element_name elements.now) }
{
    let mut rest = elements;
    while let Some((first, others)) = rest.split_first() {
        if is_name_among(element_name(first), others) {
            return false;
        }
        rest = others;
    }
    true
}

fn is_name_among(name: &Name, elements: &[Element]) -> bool
    ensures { result ≡ list_any (λ e. bytes_eq name.now (shapes.element_name e)) elements.now }
{
    elements
        .iter()
        .any(|element| name.is(element_name(element)))
}

fn element_name(element: &Element) -> &Name
    ensures { result.now ≡ shapes.element_name element.now }
{
    match element {
        Element::Column(definition) => &definition.name,
        Element::Key(name) => name,
    }
}

fn inserts_texts(insert: &Insert) -> bool
    ensures { result ≡ shapes.inserts_texts insert.now }
{
    insert.columns.is_none() && are_texts(&insert.source)
}

fn are_texts(source: &InsertSource) -> bool
    ensures { result ≡ shapes.are_texts source.now }
{
    match source {
        InsertSource::Rows(rows) => are_rows_of_texts(rows.as_slice()),
        InsertSource::Query(_) => false,
    }
}

fn are_rows_of_texts(rows: &[Items<Expr>]) -> bool
    ensures { result ≡ list_all (list_all shapes.is_text) rows.now }
{
    rows.iter().all(|row| is_row_of_texts(row.as_slice()))
}

fn is_row_of_texts(row: &[Expr]) -> bool
    ensures { result ≡ list_all shapes.is_text row.now }
{
    row.iter().all(is_text)
}

fn is_text(expr: &Expr) -> bool
    ensures { result ≡ shapes.is_text expr.now }
{
    matches!(expr, Expr::Atom(Atom::Text(_)))
}

fn selects_whole_table(select: &Select) -> bool
    ensures { result ≡ shapes.selects_whole_table select.now }
{
    is_whole_table(&select.query) && select.order.as_slice().is_empty() && select.fetch.is_none()
}

fn is_whole_table(query: &Query) -> bool
    ensures { result ≡ shapes.is_whole_table query.now }
{
    !query.distinct
        && is_star(query.items.as_slice())
        && is_one_table(query.from.as_slice())
        && query.filter.is_none()
        && query.group.as_slice().is_empty()
        && query.having.is_none()
}

fn is_star(items: &[Item]) -> bool
    ensures { result ≡ shapes.is_star items.now }
{
    matches!(items, [Item::Everything])
}

fn is_one_table(from: &[Chain]) -> bool
    ensures { result ≡ shapes.is_one_table from.now }
{
    match from {
        [chain] => is_plain(&chain.first) && chain.joins.as_slice().is_empty(),
        _ => false,
    }
}

// Whether the table has no correlation name.
fn is_plain(tab: &Tab) -> bool
    ensures { result ≡ shapes.is_plain tab.now }
{
    tab.correlation.is_none()
}

fn is_small_permission(definition: &PermissionDef) -> bool
    ensures { result ≡ shapes.is_small_permission definition.now }
{
    !definition.replace
        && is_plain(&definition.on)
        && is_user_test(&definition.condition)
        && is_on(definition.switch)
}

// Whether the condition is column = SESSION_USER.
fn is_user_test(condition: &Cond) -> bool
    ensures { result ≡ shapes.is_user_test condition.now }
{
    match condition {
        Cond::Compare(Comparison::Equal, a, b) => is_column(a.get()) && is_session_user(b.get()),
        _ => false,
    }
}

// Whether the expression is a column without a correlation name.
fn is_column(expr: &Expr) -> bool
    ensures { result ≡ shapes.is_column_layer (out-Expr expr.now) }
{
    match expr {
        Expr::Atom(Atom::Column(column)) => column.correlation.is_none(),
        _ => false,
    }
}

fn is_session_user(expr: &Expr) -> bool
    ensures { result ≡ shapes.is_user_layer (out-Expr expr.now) }
{
    matches!(expr, Expr::Atom(Atom::SessionUser))
}

fn activates_row_control(activation: Activation) -> bool
    ensures { result ≡ shapes.activates_row_control activation }
{
    activation.activate && is_row_control(activation.of)
}

fn is_row_control(of: ControlOf) -> bool
    ensures { result ≡ shapes.is_row_control of }
{
    match of {
        ControlOf::Row => true,
        ControlOf::Column => false,
    }
}
